//! The lines of the sites.

ghost use Rattle.std.specs.Prelude.{◌∷◌, [], ℕ, List, Vec, MatchResult};
ghost use Rattle.part_lines.specs.Reading.{FaultFrom};
ghost use Rattle.log_parts.specs.Slices.{lent, lent_sites};
ghost use Rattle.log_parts.specs.Step.{AreOneLine, AreOneLineEach, IsRest, SiteIsRead, SitesAreRead, site_words};
ghost use Rattle.log_parts.specs.Step.{ReadsLine};

use crate::die::read_dies;
use part_lines::{LineFault, Lines};
use std::alloc::Global;
use tester_types::Piece;

/// Reads the sites with their dies, and adds the dies' bins: what stands behind the line of each site.
pub(crate) fn read_sites<'a>(
    alloc: Global,
    lines: &mut Lines<'a>,
    names: &[Vec<&[u8]>],
    bins: &mut Vec<u8>,
) -> Result<Vec<&'a [u8]>, LineFault>
    requires { AreOneLineEach (lent_sites names.now) }
    ensures { MatchResult result (λ texts.
        SitesAreRead (lent_sites names.now) lines.old lines.new bins.old.items bins.new.items (lent texts.items))
        (λ e. (before : List ℕ) → FaultFrom (IsRest [] 0 (lent_sites names.now) before) lines.old e) }
{
    let mut texts = Vec::new(alloc);
    for (number, site) in names.iter().enumerate() {
        let text = read_site(lines, number, site.as_slice(), bins)?;
        texts.push(text)?;
    }
    Ok(texts)
}

/// Reads a site with its dies, and adds their bins: what stands behind its line.
fn read_site<'a>(
    lines: &mut Lines<'a>,
    number: usize,
    names: &[&[u8]],
    bins: &mut Vec<u8>,
) -> Result<&'a [u8], LineFault>
    requires { AreOneLine (lent names.now) }
    ensures { MatchResult result (λ text.
        SiteIsRead number (lent names.now) lines.old lines.new bins.old.items bins.new.items text.now)
        (λ e. (later : List (List (List ℕ))) (before : List ℕ)
        → FaultFrom (IsRest [] number (lent names.now ∷ later) before) lines.old e) }
{
    expect_site(lines, number)?;
    let left = lines.left();
    let start = lines.place();
    read_dies(lines, names, bins)?;
    let len = lines.place() - start;
    Ok(&left[..len])
}

/// Reads the line of a site.
fn expect_site(lines: &mut Lines, number: usize) -> Result<(), LineFault>
    ensures { ReadsLine lines.old lines.new (site_words number) result }
{
    lines.expect(&[Piece::Text(b"site "), Piece::Number(number as u128)])
}
