//! What is read from a text and built of it may be moved to and shared between threads.

use pattern_order::PlayOrder;
use scan_chain::Chains;
use signal_groups::SignalTable;
use stil_ast::{AssignmentList, PatBody, StilRefusal, TableDecl, VecText, WordList};
use wave_tables::WaveSet;

/// Takes only types that may be moved to and shared between threads.
fn crosses_threads<T: Send + Sync>() {}

#[test]
fn what_is_read_may_cross_threads() {
    crosses_threads::<PatBody>();
    crosses_threads::<StilRefusal>();
    crosses_threads::<WordList>();
    crosses_threads::<VecText>();
    crosses_threads::<AssignmentList>();
    crosses_threads::<TableDecl>();
}

#[test]
fn what_is_built_of_a_text_may_cross_threads() {
    crosses_threads::<SignalTable>();
    crosses_threads::<WaveSet>();
    crosses_threads::<Chains>();
    crosses_threads::<PlayOrder>();
}
