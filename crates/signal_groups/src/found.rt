//! The signals of a reference, lent by the table where it keeps them.

ghost use Rattle.std.specs.Prelude.{◌≡◌};
ghost use Rattle.signal_groups.specs.Found.{signals_found};

use crate::table::SignalList;

/// The signals of a reference: a single one, those that a table keeps of a group, or a list of their own.
#[derive(Debug, Drop)]
pub enum FoundSignals<'t> {
    One([u16; 1]),
    Group(&'t [u16]),
    Own(SignalList),
}

impl<'t> FoundSignals<'t> {
    /// The signals in order.
    pub fn as_slice(&self) -> &[u16]
        ensures { result.now ≡ signals_found self.now }
    {
        match self {
            FoundSignals::One(signal) => signal.as_slice(),
            FoundSignals::Group(signals) => signals,
            FoundSignals::Own(signals) => signals.as_slice(),
        }
    }
}
