//! The waveform tables of an executive: what each signal does for each character, with its times (IEEE 1450-1999,
//! clause 18).
#![tactic(auto)]

mod asked;
mod building;
mod check;
mod judge;
mod laws;
mod lineage;
mod make;
mod own;
mod rows;
mod scope;
mod set;
mod source;
mod standing;
mod times;
mod trouble;
mod waves;

pub use building::build;
pub use laws::waves_are_counted;
pub use set::WaveSet;
