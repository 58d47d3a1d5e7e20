//! The datalogs of the parts of a plan, and the whole one.
#![tactic(auto)]

mod die;
mod end;
mod fails;
mod merged;
mod part;
mod said;
mod site;
mod tries;
mod words;

pub use merged::put_merged;
pub use part::PartLog;
