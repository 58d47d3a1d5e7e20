//! What is skipped, names, indices at their limits, and references.

ghost use Rattle.std.specs.Prelude.{Ok, Err, true, length, if◌then◌else◌};
ghost use Rattle.stil_form.specs.declared.fault.FormFault.TheVariants.{Refused};
ghost use Rattle.stil_form.specs.declared.fault.FormKind.TheVariants.{Twice};

use std::alloc::Global;
use std::test::Fail;
use stil_form::{
    Form, FormFault, FormKind, Part, Reader, Reference, Source, Span, StepForm, Words, index_front,
    name_of, read_each, read_steps, read_unskipped, read_unskipped_steps, reference_front,
};
use stil_lex::{TokenList, lex};
use stil_tree::{Stmt, forest};

/// A form that numbers the statements that are read.
#[derive(Clone, Copy)]
struct Numbered;

impl Form for Numbered {
    type Data = usize;

    ghost judge = { λ _ before _. Ok (length before) };

    fn judge_one(&self, alloc: Global, before: &[usize], stmt: &Stmt) -> Result<usize, FormFault> {
        let _ = (alloc, stmt.count);
        Ok(before.len())
    }
}

/// A form of which there may be one statement.
#[derive(Clone, Copy)]
struct Once;

impl StepForm for Once {
    type State = bool;

    ghost step = { λ _ met _. if met then Err (Refused Twice 0) else Ok true };

    fn take(&self, alloc: Global, met: bool, stmt: &Stmt) -> Result<bool, FormFault> {
        let _ = (alloc, stmt.count);
        if met {
            Err(FormFault::Refused(FormKind::Twice, 0))
        } else {
            Ok(true)
        }
    }
}

/// How many statements are left without those that begin with a word.
fn count_without<'a>(
    alloc: Global,
    source: Source<'a>,
    word: &'a [u8],
    stmts: &[Stmt],
) -> Result<usize, FormFault> {
    let words = Words::new(alloc).with(word)?;
    let reader = Reader {
        source,
        words: &words,
    };
    let some = read_unskipped(alloc, &Numbered, &reader, stmts)?;
    Ok(some.len())
}

/// Whether one statement is left without those that begin with a word; two are refused.
fn one_without<'a>(
    alloc: Global,
    source: Source<'a>,
    word: &'a [u8],
    stmts: &[Stmt],
) -> Result<bool, FormFault> {
    let words = Words::new(alloc).with(word)?;
    let reader = Reader {
        source,
        words: &words,
    };
    read_unskipped_steps(alloc, &Once, &reader, false, stmts)
}

#[test]
fn statements_of_listed_words_are_skipped(rt: HostRuntime) -> Result<(), Fail> {
    let text = b"a 1; note { b; } c; note;";
    let tokens = lex(rt.alloc(), text).map_err(|_| "tokens")?;
    assert!(rt; tokens.len() < 100);
    let stmts = forest(rt.alloc(), tokens.as_slice()).map_err(|_| "statements")?;
    let source = Source {
        bytes: text,
        tokens: tokens.as_slice(),
    };
    let twice = read_steps(rt.alloc(), &Once, false, stmts.as_slice());
    assert_eq!(rt; twice, Err(FormFault::Refused(FormKind::Twice, 0)));
    let all = read_each(rt.alloc(), &Numbered, stmts.as_slice()).map_err(|_| "all")?;
    assert_eq!(rt; all.len(), 4);
    let some = count_without(rt.alloc(), source, b"note", stmts.as_slice());
    assert_eq!(rt; some, Ok(2));
    let once = one_without(rt.alloc(), source, b"note", stmts.as_slice());
    assert_eq!(rt; once, Err(FormFault::Refused(FormKind::Twice, 0)));
    Ok(())
}

#[test]
fn names_begin_with_a_letter(rt: HostRuntime) {
    assert!(rt; name_of(&Part::Word(b"_a")).is_some());
    assert!(rt; name_of(&Part::Word(b"1a")).is_none());
    assert!(rt; name_of(&Part::Name(b"1 a")).is_some());
    assert!(rt; name_of(&Part::Name(b"")).is_none());
}

/// The tokens of a short text.
fn tokens_of(alloc: Global, text: &[u8]) -> Option<TokenList> {
    if text.len() < 100 {
        lex(alloc, text).ok()
    } else {
        None
    }
}

/// The indices that stand first in a text, and how many tokens stand behind them.
fn indices_in(alloc: Global, text: &[u8]) -> Option<(Span, usize)> {
    let tokens = tokens_of(alloc, text)?;
    let source = Source {
        bytes: text,
        tokens: tokens.as_slice(),
    };
    let (span, rest) = index_front(source)?;
    Some((span, rest.tokens.len()))
}

#[test]
fn indices_stand_in_brackets(rt: HostRuntime) {
    let alloc = rt.alloc();
    let one = Span { first: 7, last: 7 };
    assert_eq!(rt; indices_in(alloc, b"[007]."), Some((one, 1)));
    let down = Span { first: 3, last: 0 };
    assert_eq!(rt; indices_in(alloc, b"[3..0]"), Some((down, 0)));
    assert!(rt; indices_in(alloc, b"[3.0]").is_none());
    assert!(rt; indices_in(alloc, b"[x]").is_none());
    assert!(rt; indices_in(alloc, b"[\"3\"]").is_none());
    assert!(rt; indices_in(alloc, b"[3").is_none());
}

#[test]
fn an_index_has_32_bits(rt: HostRuntime) {
    let greatest = Span {
        first: 4294967295,
        last: 0,
    };
    assert_eq!(rt; greatest.indices(), Some((4294967295, 0)));
    let beyond = Span {
        first: 0,
        last: 4294967296,
    };
    assert_eq!(rt; beyond.indices(), None);
}

/// The indices of the name that stands first in a text, and how many tokens stand behind the reference.
fn name_in(alloc: Global, text: &[u8]) -> Option<(Option<Span>, usize)> {
    let tokens = tokens_of(alloc, text)?;
    let source = Source {
        bytes: text,
        tokens: tokens.as_slice(),
    };
    match reference_front(source)? {
        (Reference::Name(_, span), rest) => Some((span, rest.tokens.len())),
        (Reference::Group(_), _) => None,
    }
}

/// How many tokens stand behind the text that stands first.
fn group_in(alloc: Global, text: &[u8]) -> Option<usize> {
    let tokens = tokens_of(alloc, text)?;
    let source = Source {
        bytes: text,
        tokens: tokens.as_slice(),
    };
    match reference_front(source)? {
        (Reference::Group(_), rest) => Some(rest.tokens.len()),
        (Reference::Name(_, _), _) => None,
    }
}

#[test]
fn a_reference_is_a_name_or_a_text(rt: HostRuntime) {
    let alloc = rt.alloc();
    assert_eq!(rt; name_in(alloc, b"a="), Some((None, 1)));
    let span = Span { first: 3, last: 3 };
    assert_eq!(rt; name_in(alloc, b"\"a b\"[3]"), Some((Some(span), 0)));
    assert!(rt; name_in(alloc, b"'a+b'=").is_none());
    assert_eq!(rt; group_in(alloc, b"'a+b'="), Some(1));
    assert!(rt; name_in(alloc, b"1a").is_none());
    assert!(rt; name_in(alloc, b"a[]").is_none());
    assert!(rt; name_in(alloc, b"").is_none());
}
