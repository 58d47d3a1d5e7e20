//! The lines of a die.

ghost use Rattle.std.specs.Prelude.{◌≡◌, ◌≤◌, ◌+◌, ◌∷◌, ◌++◌, [], ℕ, List, Vec, true, codes, MatchResult};
ghost use Rattle.datalog.specs.DatalogText.{bin_line};
ghost use Rattle.tester_types.specs.Printing.{printed_name};
ghost use Rattle.part_lines.specs.Lines.{is_one_line, lines_in};
ghost use Rattle.part_lines.specs.Reading.{HasRead, IsNext, FaultFrom};
ghost use Rattle.part_lines.specs.declared.fault.LineFault.TheVariants as fault;
ghost use Rattle.log_parts.specs.Log.{DieLog, IsDieLog, die_text};
ghost use Rattle.log_parts.specs.Slices.{lent};
ghost use Rattle.log_parts.specs.Step.{AreOneLine, AreRead, IsRest, ReadsLine, bin_words};

use crate::tries::read_tries;
use crate::words::told_bin;
use part_lines::{LineFault, Lines};
use tester_types::Piece;

/// Reads the dies of a site, and adds their bins.
pub(crate) fn read_dies(
    lines: &mut Lines,
    names: &[&[u8]],
    bins: &mut Vec<u8>,
) -> Result<(), LineFault>
    requires { AreOneLine (lent names.now) }
    ensures { MatchResult result (λ _. AreRead (lent names.now) lines.old lines.new bins.old.items bins.new.items)
        (λ e. (number : ℕ) (later : List (List (List ℕ))) (before : List ℕ)
        → FaultFrom (IsRest (lent names.now) number later before) lines.old e) }
{
    for name in names {
        read_die(lines, name, bins)?;
    }
    Ok(())
}

/// Reads a die, and adds its bin.
fn read_die(lines: &mut Lines, name: &[u8], bins: &mut Vec<u8>) -> Result<(), LineFault>
    requires { is_one_line name.now ≡ true }
    ensures { MatchResult result
        (λ _. (log : DieLog) × IsDieLog log × HasRead lines.old lines.new (die_text name.now log)
        × (bins.new.items ≡ bins.old.items ++ log.bin ∷ []))
        (λ e. (names : List (List ℕ)) (number : ℕ) (later : List (List (List ℕ))) (before : List ℕ)
        → FaultFrom (IsRest (name.now ∷ names) number later before) lines.old e) }
{
    expect_die(lines, name)?;
    read_tries(lines)?;
    let bin = read_bin(lines)?;
    bins.push(bin)?;
    Ok(())
}

/// Reads the line of a die's name.
fn expect_die(lines: &mut Lines, name: &[u8]) -> Result<(), LineFault>
    ensures { ReadsLine lines.old lines.new (codes "die " ++ printed_name name.now) result }
{
    lines.expect(&[Piece::Text(b"die "), Piece::Name(name)])
}

/// Reads the line of a bin.
fn read_bin(lines: &mut Lines) -> Result<u8, LineFault>
    ensures { MatchResult result (λ bin. (1 ≤ bin) × (bin ≤ 99) × HasRead lines.old lines.new (bin_line bin))
        (λ e. (e ≡ fault.Line (lines_in lines.old.front + 1))
        × ((bin : ℕ) → 1 ≤ bin → bin ≤ 99 → IsNext lines.old.rest (bin_words bin) → ⊥)) }
{
    let Some(line) = lines.peek() else {
        return Err(LineFault::Line(lines.number()));
    };
    let Some(bin) = told_bin(line) else {
        return Err(LineFault::Line(lines.number()));
    };
    lines.pass(line);
    Ok(bin)
}
