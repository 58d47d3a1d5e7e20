//! The variables of an executive, and the times of texts under their values.
#![tactic(auto)]

mod choosing;
mod laws;
mod names;
mod order;
mod picked;
mod selected;
mod stop;
mod texts;
mod time;
mod walk;

pub use choosing::choose;
pub use expr_text::Vars;
pub use laws::{names_are_variables, one_evaluation, times_are_of_language};
pub use texts::TimeTexts;
pub use time::{TimeFault, time_of};
