//! Names in sets, by which they are found.
ghost use Rattle.std.specs.Prelude.{◌≡◌, ◌<◌, ℕ, List, [], map, fold, length, IfOk, IfSome, OnOk};
ghost use Rattle.std.specs.List.{list_any, position, position_or_len};
ghost use Rattle.std.specs.Str.{bytes_eq};
ghost use Rattle.text_bytes.specs.Texts.{behind, added};
ghost use Rattle.bench_net.specs.Views.{texts};
ghost use Rattle.lot_plan.specs.Refusal.{is_signal};

use indexmap::IndexSet;
use packed_code::CodeSignal;
use plan_rows::DieRow;
use std::alloc::{AllocError, Global};

/// Whether a name is one of these.
pub(crate) fn is_among(names: &IndexSet<&[u8]>, name: &[u8]) -> bool
    ensures { result ≡ list_any (bytes_eq name.now) (texts names.now.keys) }
{
    names.contains(name)
}

/// Where a name stands among these.
pub(crate) fn place_among(names: &IndexSet<&[u8]>, name: &[u8]) -> Option<usize>
    ensures { result ≡ position (bytes_eq name.now) (texts names.now.keys) }
{
    names.get_index_of(name)
}

/// The number of a file, or how many there are where it is none of them.
#[tactic(auto, using(bench_net::proofs::NetLemmas::number_from_some, bench_net::proofs::NetLemmas::number_from_none))]
pub(crate) fn file_number(files: &IndexSet<&[u8]>, file: &[u8]) -> usize
    ensures { result ≡ position_or_len (bytes_eq file.now) (texts files.now.keys) }
{
    match place_among(files, file) {
        Some(place) => place,
        None => files.len(),
    }
}

/// Puts a name behind the others, unless it is one of them.
fn add<'a>(names: &mut IndexSet<&'a [u8]>, name: &'a [u8]) -> Result<(), AllocError>
    ensures { OnOk result (texts names.new.keys ≡ added (texts names.old.keys) name.now) }
{
    if is_among(names, name) {
        return Ok(());
    }
    names.insert(name)?;
    Ok(())
}

/// The files of dies, each once, in the order in which they are first named.
pub(crate) fn files_of<'a>(
    alloc: Global,
    dies: &[&'a DieRow],
) -> Result<IndexSet<&'a [u8]>, AllocError>
    ensures { IfOk result (λ files. texts files.keys ≡ fold (λ named d. added named d.file) [] (behind dies.now)) }
{
    let mut files = IndexSet::new(alloc);
    for die in dies {
        add(&mut files, die.file.as_slice())?;
    }
    Ok(files)
}

/// The names of signals.
pub(crate) fn signal_names<'a>(
    alloc: Global,
    signals: &'a [CodeSignal],
) -> Result<IndexSet<&'a [u8]>, AllocError>
    ensures { IfOk result (λ names. (name : List ℕ) →
        list_any (bytes_eq name) (texts names.keys) ≡ is_signal signals.now name) }
{
    let mut names = IndexSet::new(alloc);
    for signal in signals {
        add(&mut names, signal.name.as_slice())?;
    }
    Ok(names)
}
