//! What a record says by its form alone.

ghost use Rattle.std.specs.Prelude.{◌≡◌, ◌==◌, ◌∷◌, length, codes, option_map, MatchOption};
ghost use Rattle.std.specs.List.{list_all};
ghost use Rattle.csv.specs.Records.{fields_of};
ghost use Rattle.plan_rows.specs.Forms.{bound_net, fault_tries, ending_form, offset_in, written_of};
ghost use Rattle.plan_rows.specs.Views.{behind_kind, columns_seen, written_seen, ending_seen, net_seen};

use crate::words::{is_word, name_of, net_of, number_in};
use csv::ByteRecord;

/// The six columns of a record: its kind, and five more.
#[derive(Clone, Copy)]
pub(crate) struct Columns<'a> {
    kind: &'a [u8],
    second: &'a [u8],
    third: &'a [u8],
    fourth: &'a [u8],
    fifth: &'a [u8],
    sixth: &'a [u8],
}

/// How a last try ends, with its number as it is written.
#[derive(Clone, Copy)]
pub(crate) enum Ended {
    Pass,
    Fail(u64),
    Stopped,
    Contact,
}

/// A stuck net, as it is written.
#[derive(Clone, Copy)]
pub(crate) struct WrittenFault<'a> {
    pub(crate) site: u64,
    pub(crate) name: &'a [u8],
    pub(crate) net: &'a [u8],
    pub(crate) value: u64,
    pub(crate) tries: Option<u64>,
}

/// What a record says, before its numbers and names are looked at.
#[derive(Clone, Copy)]
pub(crate) enum Written<'a> {
    Lot {
        batch: u64,
        tries: u64,
        keep: u64,
    },
    Clock {
        signal: &'a [u8],
    },
    Bind {
        signal: &'a [u8],
        net: Option<&'a [u8]>,
    },
    Die {
        site: u64,
        name: &'a [u8],
        file: &'a [u8],
    },
    Fault(WrittenFault<'a>),
    Stop {
        site: u64,
        name: &'a [u8],
        number: u64,
        batch: u64,
    },
    Bin {
        ended: Ended,
        number: u64,
    },
    Skew {
        site: u64,
        signal: &'a [u8],
        back: bool,
        size: u64,
    },
}

/// The fields of a record that has exactly six.
fn columns_of(fields: &ByteRecord) -> Option<Columns<'_>>
    ensures { MatchOption result (length (fields_of fields.now) ≡ 6 → ⊥)
        (λ r. columns_seen r ≡ fields_of fields.now) }
{
    if fields.len() != 6 {
        return None;
    }
    Some(Columns {
        kind: fields.get(0)?,
        second: fields.get(1)?,
        third: fields.get(2)?,
        fourth: fields.get(3)?,
        fifth: fields.get(4)?,
        sixth: fields.get(5)?,
    })
}

/// `lot,B,TRIES,F,,`
fn lot_form<'a>(r: &Columns<'a>) -> Option<Written<'a>>
    ensures { option_map written_seen result ≡ written_of (codes "lot" ∷ behind_kind r.now) }
{
    if !(r.fifth.is_empty() && r.sixth.is_empty()) {
        return None;
    }
    let batch = number_in(r.second)?;
    let tries = number_in(r.third)?;
    let keep = number_in(r.fourth)?;
    Some(Written::Lot { batch, tries, keep })
}

/// `clock,SIGNAL,,,,`
fn clock_form<'a>(r: &Columns<'a>) -> Option<Written<'a>>
    ensures { option_map written_seen result ≡ written_of (codes "clock" ∷ behind_kind r.now) }
{
    if !(r.third.is_empty() && r.fourth.is_empty() && r.fifth.is_empty() && r.sixth.is_empty()) {
        return None;
    }
    let signal = net_of(r.second)?;
    Some(Written::Clock { signal })
}

/// The net of a binding: none at `-`.
fn bound_net(bytes: &[u8]) -> Option<Option<&[u8]>>
    ensures { option_map net_seen result ≡ bound_net bytes.now }
{
    if is_word(bytes, b"-") {
        return Some(None);
    }
    let net = net_of(bytes)?;
    Some(Some(net))
}

/// `bind,SIGNAL,NET,,,`
fn bind_form<'a>(r: &Columns<'a>) -> Option<Written<'a>>
    ensures { option_map written_seen result ≡ written_of (codes "bind" ∷ behind_kind r.now) }
{
    if !(r.fourth.is_empty() && r.fifth.is_empty() && r.sixth.is_empty()) {
        return None;
    }
    let signal = net_of(r.second)?;
    let net = bound_net(r.third)?;
    Some(Written::Bind { signal, net })
}

/// `die,SITE,NAME,FILE,,`
fn die_form<'a>(r: &Columns<'a>) -> Option<Written<'a>>
    ensures { option_map written_seen result ≡ written_of (codes "die" ∷ behind_kind r.now) }
{
    if !(r.fifth.is_empty() && r.sixth.is_empty()) {
        return None;
    }
    let site = number_in(r.second)?;
    let name = name_of(r.third)?;
    let file = name_of(r.fourth)?;
    Some(Written::Die { site, name, file })
}

/// In how many tries a fault is active: in all where nothing is written.
fn fault_tries(bytes: &[u8]) -> Option<Option<u64>>
    ensures { result ≡ fault_tries bytes.now }
{
    if bytes.is_empty() {
        return Some(None);
    }
    let tries = number_in(bytes)?;
    Some(Some(tries))
}

/// `fault,SITE,NAME,NET,VALUE,TRIES`
fn fault_form<'a>(r: &Columns<'a>) -> Option<Written<'a>>
    ensures { option_map written_seen result ≡ written_of (codes "fault" ∷ behind_kind r.now) }
{
    let site = number_in(r.second)?;
    let name = name_of(r.third)?;
    let net = net_of(r.fourth)?;
    let value = number_in(r.fifth)?;
    let tries = fault_tries(r.sixth)?;
    Some(Written::Fault(WrittenFault {
        site,
        name,
        net,
        value,
        tries,
    }))
}

/// `stop,SITE,NAME,TRY,BATCH,`
fn stop_form<'a>(r: &Columns<'a>) -> Option<Written<'a>>
    ensures { option_map written_seen result ≡ written_of (codes "stop" ∷ behind_kind r.now) }
{
    if !r.sixth.is_empty() {
        return None;
    }
    let site = number_in(r.second)?;
    let name = name_of(r.third)?;
    let number = number_in(r.fourth)?;
    let batch = number_in(r.fifth)?;
    Some(Written::Stop {
        site,
        name,
        number,
        batch,
    })
}

/// The ending of a bin's record: `pass,`, `fail,E`, `stopped,`, `contact,`
fn ending_form(r: &Columns) -> Option<Ended>
    ensures { option_map ending_seen result ≡ ending_form r.now.second.now r.now.third.now }
{
    if is_word(r.second, b"fail") {
        let executive = number_in(r.third)?;
        return Some(Ended::Fail(executive));
    }
    if !r.third.is_empty() {
        return None;
    }
    if is_word(r.second, b"pass") {
        Some(Ended::Pass)
    } else if is_word(r.second, b"stopped") {
        Some(Ended::Stopped)
    } else if is_word(r.second, b"contact") {
        Some(Ended::Contact)
    } else {
        None
    }
}

/// `bin,ENDING,E,N,,`
fn bin_form<'a>(r: &Columns<'a>) -> Option<Written<'a>>
    ensures { option_map written_seen result ≡ written_of (codes "bin" ∷ behind_kind r.now) }
{
    if !(r.fifth.is_empty() && r.sixth.is_empty()) {
        return None;
    }
    let ended = ending_form(r)?;
    let number = number_in(r.fourth)?;
    Some(Written::Bin { ended, number })
}

/// A number of femtoseconds and whether a `-` stands before it.
fn offset_in(bytes: &[u8]) -> Option<(bool, u64)>
    ensures { result ≡ offset_in bytes.now }
{
    let (first, rest) = bytes.split_first()?;
    if *first == b'-' {
        Some((true, number_in(rest)?))
    } else {
        Some((false, number_in(bytes)?))
    }
}

/// `skew,SITE,SIGNAL,FS,,`
fn skew_form<'a>(r: &Columns<'a>) -> Option<Written<'a>>
    ensures { option_map written_seen result ≡ written_of (codes "skew" ∷ behind_kind r.now) }
{
    if !(r.fifth.is_empty() && r.sixth.is_empty()) {
        return None;
    }
    let site = number_in(r.second)?;
    let signal = net_of(r.third)?;
    let (back, size) = offset_in(r.fourth)?;
    Some(Written::Skew {
        site,
        signal,
        back,
        size,
    })
}

/// What six fields say, by the form of their kind.
fn form_of<'a>(r: &Columns<'a>) -> Option<Written<'a>>
    ensures { option_map written_seen result ≡ written_of (columns_seen r.now) }
{
    if is_word(r.kind, b"lot") {
        lot_form(r)
    } else if is_word(r.kind, b"clock") {
        clock_form(r)
    } else if is_word(r.kind, b"bind") {
        bind_form(r)
    } else if is_word(r.kind, b"die") {
        die_form(r)
    } else if is_word(r.kind, b"fault") {
        fault_form(r)
    } else if is_word(r.kind, b"stop") {
        stop_form(r)
    } else if is_word(r.kind, b"bin") {
        bin_form(r)
    } else if is_word(r.kind, b"skew") {
        skew_form(r)
    } else {
        None
    }
}

/// What a record says, if it has a form.
pub(crate) fn written_of(fields: &ByteRecord) -> Option<Written<'_>>
    ensures { option_map written_seen result ≡ written_of (fields_of fields.now) }
{
    let columns = columns_of(fields)?;
    form_of(&columns)
}
