//! Saved test programs: how the bytes of a code are written and read, and all that is known of a code and its bytes.
#![tactic(auto)]

mod accepted;
mod changes;
mod fault;
mod laws;
mod loading;
mod read_execs;
mod read_fields;
mod read_instrs;
mod read_rows;
mod read_tables;
mod saving;
mod version;
mod wave_index;
mod write_execs;
mod write_fields;
mod write_instrs;
mod write_rows;
mod write_tables;

pub use fault::SavedFault;
pub use laws::{no_spelling_begins_another, one_spelling};
pub use loading::load;
pub use packed_code::{
    Code, CodeChain, CodeChainList, CodeExec, CodeExecList, CodeSignal, CodeSignalList, Direction,
    Entry, Instr, InstrList, PackedInstr, PackedInstrList, RowList, Walk, pack, walk,
};
pub use saving::{save, save_old, saved_len};
