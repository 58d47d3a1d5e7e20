//! The characters of arguments, one after another, kept as runs.

ghost use Rattle.std.specs.Prelude.{◌≡◌, ◌<◌, ◌++◌, [], length, replicate, slice_index_or, take, OnOk, OnErr};
ghost use Rattle.stil_ast.specs.Data.Items.{item_of, items_of};
ghost use Rattle.stil_ast.specs.Meaning.Arguments.{given, padding, entries_of};
ghost use Rattle.macro_expand.specs.Runs.{spelled, RiseFrom};

use std::alloc::{AllocError, Global};
use std::marker::Model;
use stil_ast::{ItemRun, VecItem};

/// A character, and how many characters there are up to the end of its run.
#[derive(Clone, Copy)]
pub(crate) struct CharacterRun {
    character: u8,
    end: usize,
}

/// Characters, one after another. It keeps runs; a contract sees the list of the characters.
#[derive(Drop)]
pub(crate) struct Characters {
    runs: Vec<CharacterRun>,
    total: usize,
}

impl Model for Characters {
    ghost use Rattle.std.specs.Prelude.{List, ◌≡◌};
    ghost use Rattle.stil_ast.specs.Meaning.Arguments.{Entry};
    ghost use Rattle.macro_expand.specs.Runs.{spelled, end_of, RiseFrom};

    ghost Value = { List Entry };

    ghost view = { λ c. spelled 0 c.runs.items };

    ghost invariant = { λ c. RiseFrom 0 c.runs.items × (c.total ≡ end_of 0 c.runs.items) };
}

/// The character of the run in which a place stands.
fn character_at(runs: &[CharacterRun], place: usize) -> u8
    requires rise { RiseFrom 0 runs.now }
    requires within { place < length (spelled 0 runs.now) }
    ensures { slice_index_or (spelled 0 runs.now) place padding ≡ given result }
{
    let run = runs.partition_point(|run| run.end <= place);
    runs[run].character
}

impl Characters {
    /// No characters.
    pub(crate) fn new(alloc: Global) -> Characters
        ensures { result ≡ [] }
    {
        Characters {
            runs: Vec::new(alloc),
            total: 0,
        }
    }

    /// How many characters there are.
    pub(crate) fn len(&self) -> usize
        ensures { result ≡ length self.now }
    {
        self.total
    }

    /// The character at a place. It takes time in step with the logarithm of the number of runs.
    pub(crate) fn at(&self, place: usize) -> u8
        requires { place < length self.now }
        ensures { slice_index_or self.now place padding ≡ given result }
    {
        character_at(self.runs.as_slice(), place)
    }

    /// Adds a character that stands so often. At an error nothing changes.
    fn push(&mut self, character: u8, times: u32) -> Result<(), AllocError>
        ensures added { OnOk result (self.new ≡ self.old ++ replicate times (given character)) }
        ensures kept { OnErr result (self.new ≡ self.old) }
    {
        match self.total.checked_add(times as usize) {
            None => Err(AllocError),
            Some(end) => {
                self.runs.push(CharacterRun { character, end })?;
                self.total = end;
                Ok(())
            }
        }
    }

    /// Adds the characters of a run of data, if it is one of characters. At an error nothing changes.
    fn push_run(&mut self, run: ItemRun) -> Result<(), AllocError>
        ensures added { OnOk result (self.new ≡ self.old ++ entries_of (replicate run.times (item_of run.item))) }
        ensures kept { OnErr result (self.new ≡ self.old) }
    {
        match run.item {
            VecItem::Character(character) => self.push(character, run.times),
            VecItem::Take => Ok(()),
            VecItem::Peek => Ok(()),
        }
    }

    /// Adds the characters of data. What was there stays in front of them.
    pub(crate) fn push_all(&mut self, runs: &[ItemRun]) -> Result<(), AllocError>
        ensures added { OnOk result (self.new ≡ self.old ++ entries_of (items_of runs.now)) }
        ensures kept { take (length self.old) self.new ≡ self.old }
    {
        for run in runs {
            self.push_run(*run)?;
        }
        Ok(())
    }
}
