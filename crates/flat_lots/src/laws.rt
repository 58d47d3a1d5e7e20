//! The law of lots on flat texts.

ghost use Rattle.flat_lots.specs.FlatLot.{FlatLot};

use die_sim::Socket;

/// A run on the text that `flat` writes of a program's text, with the same plan and netlists and its tries cut alike, prints
/// what the run on the program prints but for the names of scan cells behind fails.
pub fn flat_lot<K: Socket>()
    ensures { FlatLot K.told }
{}
