//! Waveforms (IEEE 1450-1999, clause 18).

ghost use Rattle.std.specs.Prelude.{◌≡◌, ◌==◌, ◌&&◌, ◌||◌, not, true, false, [], length, map, is_some, nat_eq};
ghost use Rattle.std.specs.List.{list_all};
ghost use Rattle.text_bytes.specs.Bytes.{is_character};
ghost use Rattle.stil_tree.specs.Trees.{entry_of};
ghost use Rattle.stil_ast.specs.Data.Forms.{all_differ};
ghost use Rattle.stil_form.specs.Lexeme.{lexeme_of, lexemes};
ghost use Rattle.stil_form.specs.Fronts.{ref_of};
ghost use Rattle.stil_form.specs.Reading.{Answers, AnswersBy};
ghost use Rattle.stil_form.specs.Setting.{setting_of, lexemes_at, at_statement};
ghost use Rattle.pat_read.specs.References as references;
ghost use Rattle.timing_blocks.specs.Waveforms as waveforms;
ghost use Rattle.timing_blocks.specs.Working as working;

use block_forms::{keyword_in, only_part, quoted_at};
use pat_read::read_ref;
use std::alloc::Global;
use stil_ast::{EventDecl, SigRef, SignalWaves, WaveDecl};
use stil_form::{
    Form, FormFault, FormKind, Part, Reader, Reference, SignKind, Source, first_of, first_part,
    has_block, head_at, inner_of, line_at, part_of, read_unskipped, reference_front,
};
use stil_tree::Stmt;
use tester_types::{ACT_NAMES, Act, Items};
use text_bytes::{MOST_EVENTS, is_character};

/// Takes one more part of the acts of the statement with this first token: a `/`, or an act.
fn take_part(
    acts: &mut Vec<Act>,
    slash_next: bool,
    part: &Part,
    first: u32,
) -> Result<(), FormFault>
    ensures { AnswersBy (λ _. acts.new.items) result
        (at_statement first (working.with_token slash_next acts.old.items (lexeme_of part.now))) }
{
    if slash_next {
        return match part {
            Part::Sign(SignKind::Slash) => Ok(()),
            _ => Err(FormFault::Refused(FormKind::Shape, first)),
        };
    }
    match keyword_in(&ACT_NAMES, part) {
        Some(act) => Ok(acts.push(act)?),
        None => Err(FormFault::Refused(FormKind::LeftOut, first)),
    }
}

/// Whether a part at an act's place is no act.
fn is_no_act(at_act: bool, part: &Part) -> bool
    ensures { result ≡ (at_act && not (is_some (waveforms.act_of (lexeme_of part.now)))) }
{
    at_act && keyword_in(&ACT_NAMES, part).is_none()
}

/// Whether a part at an act's place is no act. Such a place is the first one, and each behind a `/`.
fn lacks_act(rest: Source) -> bool
    ensures { result ≡ working.lacks_act true (lexemes rest.entry) }
{
    let mut at_act = true;
    for token in rest.tokens {
        let part = part_of(rest.bytes, token);
        if is_no_act(at_act, &part) {
            return true;
        }
        at_act = matches!(part, Part::Sign(SignKind::Slash));
    }
    false
}

/// One act, or acts with `/` between them, of the statement with this first token.
fn acts_of(alloc: Global, rest: Source, first: u32) -> Result<Items<Act>, FormFault>
    ensures { Answers result (at_statement first (waveforms.acts_of (lexemes rest.entry))) }
{
    if lacks_act(rest) {
        return Err(FormFault::Refused(FormKind::LeftOut, first));
    }
    acts_between(alloc, rest, first)
}

/// The same where each part at an act's place is an act.
fn acts_between(alloc: Global, rest: Source, first: u32) -> Result<Items<Act>, FormFault>
    ensures { Answers result (at_statement first (working.acts_from false [] (lexemes rest.entry))) }
{
    let mut acts = Vec::new(alloc);
    let mut slash_next = false;
    for token in rest.tokens {
        take_part(&mut acts, slash_next, &part_of(rest.bytes, token), first)?;
        slash_next = !slash_next;
    }
    if slash_next {
        Ok(Items::from_vec(acts))
    } else {
        Err(FormFault::Refused(FormKind::Shape, first))
    }
}

/// The text in quotes with which an event begins, which gives its time, and what stands behind it.
fn time_at<'a>(reader: &Reader<'_, 'a>, stmt: &Stmt) -> Result<(&'a [u8], Source<'a>), FormFault>
    ensures { AnswersBy (λ said. (said.0.now, lexemes said.1)) result (at_statement (entry_of stmt.now).first
        (waveforms.time_of (lexemes_at (setting_of reader.now) (entry_of stmt.now)))) }
{
    match first_part(head_at(reader.source, stmt)) {
        Some((Part::Text(time), rest)) => Ok((time, rest)),
        _ => Err(FormFault::Refused(FormKind::LeftOut, first_of(stmt))),
    }
}

/// Whether an event has one act for so many characters, or one for each.
fn fits_characters(characters: usize, acts: &Items<Act>) -> bool
    ensures { result ≡ (length acts.now == 1 || length acts.now == characters) }
{
    acts.len() == 1 || acts.len() == characters
}

/// Statements that are events of a waveform of so many characters.
#[derive(Clone, Copy)]
struct EventForm<'k, 'a> {
    reader: Reader<'k, 'a>,
    characters: usize,
}

impl Form for EventForm<'_, '_> {
    type Data = EventDecl;

    ghost judge = { λ form. waveforms.judge_event (setting_of form.reader) form.characters };

    fn judge_one(
        &self,
        alloc: Global,
        before: &[EventDecl],
        stmt: &Stmt,
    ) -> Result<EventDecl, FormFault> {
        let (time, rest) = time_at(&self.reader, stmt)?;
        let acts = acts_of(alloc, rest, first_of(stmt))?;
        if has_block(stmt) || !fits_characters(self.characters, &acts) {
            return Err(FormFault::Refused(FormKind::Shape, first_of(stmt)));
        }
        if before.len() >= MOST_EVENTS {
            return Err(FormFault::Refused(FormKind::OutOfRange, first_of(stmt)));
        }
        let time = quoted_at(alloc, &self.reader, first_of(stmt) as usize, time)?;
        Ok(EventDecl { time, acts })
    }
}

/// Whether each is a waveform character.
fn are_characters(characters: &[u8]) -> bool
    ensures { result ≡ list_all is_character characters.now }
{
    characters.iter().all(|character| is_character(*character))
}

/// Whether no character stands twice.
fn all_differ(characters: &[u8]) -> bool
    ensures { result ≡ all_differ nat_eq characters.now }
{
    for (place, character) in characters.iter().enumerate() {
        if characters[place + 1..].contains(character) {
            return false;
        }
    }
    true
}

/// Whether these are waveform characters, at least one, and none twice.
fn are_wave_characters(characters: &[u8]) -> bool
    ensures { result ≡ waveforms.are_wave_characters characters.now }
{
    !characters.is_empty() && are_characters(characters) && all_differ(characters)
}

/// The waveform characters that the head of a statement with a block is.
fn characters_at<'a>(reader: &Reader<'_, 'a>, stmt: &Stmt) -> Result<&'a [u8], FormFault>
    ensures { AnswersBy (λ characters. characters.now) result
        (waveforms.characters_at (setting_of reader.now) (entry_of stmt.now)) }
{
    if !has_block(stmt) {
        return Err(FormFault::Refused(FormKind::LeftOut, first_of(stmt)));
    }
    match only_part(head_at(reader.source, stmt)) {
        Some(Part::Word(characters)) if are_wave_characters(characters) => Ok(characters),
        _ => Err(FormFault::Refused(FormKind::Shape, first_of(stmt))),
    }
}

/// Statements that are waveforms of a signal.
#[derive(Clone, Copy)]
struct WaveForm<'k, 'a> {
    reader: Reader<'k, 'a>,
}

impl Form for WaveForm<'_, '_> {
    type Data = WaveDecl;

    ghost judge = { λ form. waveforms.judge_wave (setting_of form.reader) };

    fn judge_one(
        &self,
        alloc: Global,
        before: &[WaveDecl],
        stmt: &Stmt,
    ) -> Result<WaveDecl, FormFault> {
        let characters = characters_at(&self.reader, stmt)?;
        let form = EventForm {
            reader: self.reader,
            characters: characters.len(),
        };
        let events = read_unskipped(alloc, &form, &self.reader, inner_of(stmt))?;
        Ok(WaveDecl {
            characters: Items::from_slice(alloc, characters)?,
            events: Items::from_vec(events),
        })
    }
}

/// The reference of a statement with a block.
fn ref_at<'a>(reader: &Reader<'_, 'a>, stmt: &Stmt) -> Result<Reference<'a>, FormFault>
    ensures { AnswersBy (λ found. ref_of found) result
        (waveforms.ref_at (setting_of reader.now) (entry_of stmt.now)) }
{
    if !has_block(stmt) {
        return Err(FormFault::Refused(FormKind::LeftOut, first_of(stmt)));
    }
    match reference_front(head_at(reader.source, stmt)) {
        Some((found, rest)) if rest.tokens.is_empty() => Ok(found),
        _ => Err(FormFault::Refused(FormKind::Shape, first_of(stmt))),
    }
}

/// A reference of a statement with this first token, on this line, with its indices judged.
fn signal_ref(alloc: Global, line: u32, first: u32, found: Reference) -> Result<SigRef, FormFault>
    ensures { Answers result (at_statement first (references.ref_of line (ref_of found.entry))) }
{
    match read_ref(alloc, line, found) {
        Ok(reference) => Ok(reference),
        Err(fault) => Err(fault.at(first)),
    }
}

/// Statements of Waveforms.
#[derive(Clone, Copy)]
struct SignalForm<'k, 'a> {
    reader: Reader<'k, 'a>,
}

impl Form for SignalForm<'_, '_> {
    type Data = SignalWaves;

    ghost judge = { λ form. waveforms.judge_signal (setting_of form.reader) };

    fn judge_one(
        &self,
        alloc: Global,
        before: &[SignalWaves],
        stmt: &Stmt,
    ) -> Result<SignalWaves, FormFault> {
        let line = line_at(self.reader.source.tokens, first_of(stmt) as usize);
        let found = ref_at(&self.reader, stmt)?;
        let reference = signal_ref(alloc, line, first_of(stmt), found)?;
        let form = WaveForm {
            reader: self.reader,
        };
        let waves = read_unskipped(alloc, &form, &self.reader, inner_of(stmt))?;
        Ok(SignalWaves {
            reference,
            waves: Items::from_vec(waves),
            line,
        })
    }
}

/// What the statements of Waveforms say.
pub(crate) fn read_signals<'k, 'a>(
    alloc: Global,
    reader: &Reader<'k, 'a>,
    stmts: &[Stmt],
) -> Result<Vec<SignalWaves>, FormFault>
    ensures { AnswersBy (λ waves. waves.items) result
        (waveforms.signals_of (setting_of reader.now) (map entry_of stmts.now)) }
{
    let form = SignalForm { reader: *reader };
    read_unskipped(alloc, &form, reader, stmts)
}
