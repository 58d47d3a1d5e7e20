//! Laws of lots: what a site records and prints depends on the program, the site's rows and the netlists of its dies alone.
#![tactic(auto)]

mod laws;

pub use laws::{
    alone_records, circuits_agree, codes_agree, one_lot_text, totals_are_sums, uncut_lot_text,
};
