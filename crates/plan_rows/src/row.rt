//! The rows of a lot's plan, as plain data.

ghost use Rattle.std.specs.Prelude.{◌≡◌};
ghost use Rattle.plan_rows.specs.Rows.{site_in};

use tester_types::{Items, Text};

/// What holds of the whole lot.
#[derive(Clone, Copy, Debug, PartialEq, Eq)]
pub struct LotRow {
    /// How many cycles a batch holds, 1 to 1,048,576.
    pub batch: u32,
    /// How many tries a die has, 1 to 8.
    pub tries: u8,
    /// How many fails of a try are kept, 0 to 1,024.
    pub keep: u16,
}

/// The net of a signal in every netlist, none where the signal is left free.
#[derive(Debug, Drop)]
pub struct BindRow {
    pub signal: Text,
    pub net: Option<Text>,
}

/// The next die of a site, with its netlist's file.
#[derive(Debug, Drop)]
pub struct DieRow {
    /// 0 to 63.
    pub site: u8,
    pub name: Text,
    pub file: Text,
}

/// A net of a die that is stuck.
#[derive(Debug, Drop)]
pub struct FaultRow {
    pub site: u8,
    /// The number of the die among those of its site, from 0.
    pub die: u16,
    pub net: Text,
    /// At 1 where true, else at 0.
    pub value: bool,
    /// In how many first tries the fault is active, 1 to 8; in all where there is none.
    pub tries: Option<u8>,
}

/// An order to stop a try of a die before a batch.
#[derive(Clone, Copy, Debug, PartialEq, Eq)]
pub struct StopRow {
    pub site: u8,
    /// The number of the die among those of its site, from 0.
    pub die: u16,
    /// The number of the try, 1 to 8.
    pub number: u8,
    /// The number of the batch, 0 to 2^48.
    pub batch: u64,
}

/// How a last try ends, as bins tell it.
#[derive(Clone, Copy, Debug, PartialEq, Eq)]
pub enum Ending {
    Pass,
    /// In the executive of this number, 0 to 63.
    Fail(u8),
    Stopped,
    Contact,
}

/// The bin of an ending.
#[derive(Clone, Copy, Debug, PartialEq, Eq)]
pub struct BinRow {
    pub ending: Ending,
    /// 1 to 99.
    pub bin: u8,
}

/// All events of a signal are moved at a site.
#[derive(Debug, Drop)]
pub struct SkewRow {
    pub site: u8,
    pub signal: Text,
    /// By so many femtoseconds, from -10^12 to 10^12.
    pub skew: i64,
}

/// A row of a plan.
#[derive(Debug, Drop)]
pub enum Row {
    Lot(LotRow),
    /// The signal that is the clock.
    Clock(Text),
    Bind(BindRow),
    Die(DieRow),
    Fault(FaultRow),
    Stop(StopRow),
    Bin(BinRow),
    Skew(SkewRow),
}

impl Row {
    /// The site that the row names, if it names one.
    pub fn site(&self) -> Option<u8>
        ensures { result ≡ site_in self.now }
    {
        match self {
            Row::Lot(_) | Row::Clock(_) | Row::Bind(_) | Row::Bin(_) => None,
            Row::Die(die) => Some(die.site),
            Row::Fault(fault) => Some(fault.site),
            Row::Stop(stop) => Some(stop.site),
            Row::Skew(skew) => Some(skew.site),
        }
    }
}

/// Rows in order.
pub type PlanRows = Items<Row>;
