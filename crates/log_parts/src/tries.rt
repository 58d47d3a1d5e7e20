//! The lines of a die's tries.

ghost use Rattle.std.specs.Prelude.{◌≡◌, ◌≤◌, ◌+◌, ◌-◌, ◌^◌, ℕ, List, IsTrue, true, false, MatchResult};
ghost use Rattle.std.specs.List.{flat_map};
ghost use Rattle.part_lines.specs.Lines.{ended, lines_in};
ghost use Rattle.part_lines.specs.Reading.{HasRead, IsNext, FaultFrom};
ghost use Rattle.part_lines.specs.declared.fault.LineFault.TheVariants as fault;
ghost use Rattle.log_parts.specs.Tries.{AreFails, IsTryLine, IsVerdictLine, is_fail_line};
ghost use Rattle.log_parts.specs.Step.{IsTriesRest, IsTryRest, TriesAreRead, TryIsRead};

use crate::fails::is_fail;
use crate::said::{is_try, is_verdict};
use part_lines::{LineFault, Lines};

/// Reads the tries of a die, one at least.
pub(crate) fn read_tries(lines: &mut Lines) -> Result<(), LineFault>
    ensures { MatchResult result (λ _. (next : ℕ) × TriesAreRead next lines.old lines.new
        × ((line : List ℕ) → IsNext lines.new.rest line → IsTryLine next line → ⊥))
        (λ e. (names : List (List ℕ)) (number : ℕ) (later : List (List (List ℕ))) (before : List ℕ)
        → FaultFrom (IsTriesRest 1 1 names number later before) lines.old e) }
{
    read_first(lines)?;
    let mut number = 2u64;
    while read_head(lines, number) {
        read_try(lines)?;
        number += 1;
    }
    Ok(())
}

/// Reads the first try.
fn read_first(lines: &mut Lines) -> Result<(), LineFault>
    ensures { MatchResult result (λ _. TriesAreRead 2 lines.old lines.new)
        (λ e. (names : List (List ℕ)) (number : ℕ) (later : List (List (List ℕ))) (before : List ℕ)
        → FaultFrom (IsTriesRest 1 1 names number later before) lines.old e) }
{
    if !read_head(lines, 1) {
        return Err(LineFault::Line(lines.number()));
    }
    read_try(lines)?;
    Ok(())
}

/// Reads the first line of the try of this number, if it is the next one.
fn read_head(lines: &mut Lines, number: u64) -> bool
    ensures read { IsTrue result → (line : List ℕ) × IsTryLine number line
        × HasRead lines.old lines.new (ended line) }
    ensures none { result ≡ false → (lines.new ≡ lines.old)
        × ((line : List ℕ) → IsNext lines.new.rest line → IsTryLine number line → ⊥) }
{
    let Some(line) = lines.peek() else {
        return false;
    };
    if !is_try(line, number) {
        return false;
    }
    lines.pass(line);
    true
}

/// Reads the fails and the verdict of a try.
fn read_try(lines: &mut Lines) -> Result<(), LineFault>
    ensures { MatchResult result (λ _. TryIsRead lines.old lines.new)
        (λ e. (try : ℕ) (names : List (List ℕ)) (number : ℕ) (later : List (List (List ℕ))) (before : List ℕ)
        → FaultFrom (IsTryRest try names number later before) lines.old e) }
{
    read_fails(lines);
    read_verdict(lines)?;
    Ok(())
}

/// Reads the fails of a try.
fn read_fails(lines: &mut Lines)
    ensures { (fails : List (List ℕ)) × AreFails fails × HasRead lines.old lines.new (flat_map ended fails)
        × ((line : List ℕ) → IsNext lines.new.rest line → is_fail_line line ≡ false) }
{
    while read_fail(lines) {}
}

/// Reads the line of a fail, if it is the next one.
fn read_fail(lines: &mut Lines) -> bool
    ensures read { IsTrue result → (line : List ℕ) × (is_fail_line line ≡ true)
        × HasRead lines.old lines.new (ended line) }
    ensures none { result ≡ false → (lines.new ≡ lines.old)
        × ((line : List ℕ) → IsNext lines.new.rest line → is_fail_line line ≡ false) }
{
    let Some(line) = lines.peek() else {
        return false;
    };
    if !is_fail(line) {
        return false;
    }
    lines.pass(line);
    true
}

/// Reads the line of a verdict.
fn read_verdict(lines: &mut Lines) -> Result<(), LineFault>
    ensures { MatchResult result (λ _. (line : List ℕ) × IsVerdictLine line
        × HasRead lines.old lines.new (ended line) × (lines_in lines.old.front + 1 ≤ 2 ^ 64 - 1))
        (λ e. (e ≡ fault.Line (lines_in lines.old.front + 1))
        × ((line : List ℕ) → IsNext lines.old.rest line → IsVerdictLine line → ⊥)) }
{
    let here = lines.number();
    let Some(line) = lines.peek() else {
        return Err(LineFault::Line(here));
    };
    if !is_verdict(line) {
        return Err(LineFault::Line(here));
    }
    lines.pass(line);
    Ok(())
}
