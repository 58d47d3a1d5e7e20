//! The totals, and the end of the text.

ghost use Rattle.std.specs.Prelude.{◌≡◌, ◌++◌, [], ℕ, List, MatchResult};
ghost use Rattle.datalog.specs.DatalogText.{dies_in, total_line, totals_text};
ghost use Rattle.part_lines.specs.Reading.{HasRead, FaultFrom};
ghost use Rattle.log_parts.specs.Step.{IsText};

use part_lines::{LineFault, Lines};
use tester_types::Piece;

/// Reads the totals of these bins.
pub(crate) fn read_totals(lines: &mut Lines, bins: &[u8]) -> Result<(), LineFault>
    ensures { MatchResult result (λ _. HasRead lines.old lines.new (totals_text bins.now))
        (FaultFrom (IsText (totals_text bins.now)) lines.old) }
{
    for bin in 1..100 {
        read_total(lines, bin, count_of(bin, bins))?;
    }
    Ok(())
}

/// Reads the total of a bin, which stands there if it has a die.
fn read_total(lines: &mut Lines, bin: u8, dies: usize) -> Result<(), LineFault>
    ensures { MatchResult result (λ _. HasRead lines.old lines.new (total_line bin dies))
        (λ e. (back : List ℕ) → FaultFrom (IsText (total_line bin dies ++ back)) lines.old e) }
{
    if dies == 0 {
        return Ok(());
    }
    let pieces = [
        Piece::Text(b"total "),
        Piece::Number(u128::from(bin)),
        Piece::Text(b" "),
        Piece::Number(dies as u128),
    ];
    lines.expect(&pieces)
}

/// How many dies fell into the bin.
pub(crate) fn count_of(bin: u8, bins: &[u8]) -> usize
    ensures { result ≡ dies_in bin bins.now }
{
    bins.iter().filter(|b| **b == bin).count()
}

/// Reads the end of the text.
pub(crate) fn read_end(lines: &Lines) -> Result<(), LineFault>
    ensures { MatchResult result (λ _. lines.now.rest ≡ []) (FaultFrom (IsText []) lines.now) }
{
    if lines.left().is_empty() {
        Ok(())
    } else {
        Err(LineFault::Line(lines.number()))
    }
}
