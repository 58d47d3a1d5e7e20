//! Reads the bodies of patterns, macros and procedures, and the data of their assignments (IEEE 1450-1999, clauses 21
//! to 24).
#![tactic(auto)]

mod assignment;
mod data;
mod fault;
mod laws;
mod outline;
mod reader;
mod refusal;

pub use assignment::read_ref;
pub use data::vec_data;
pub use fault::DataFault;
pub use laws::bodies_have_form;
pub use reader::{BodyPlace, read_body, read_written};
pub use refusal::refused;
