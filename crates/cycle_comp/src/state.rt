//! The table and the characters in which vectors are made, and what is known of the latest one.

ghost use Rattle.std.specs.Prelude.{◌≡◌, ◌+◌, ◌<◌, ◌^◌, ℕ, ◌∷◌, [], List, Some, true, slice_get, slice_index_or, IfOk, IfSome, OnOk};
ghost use Rattle.std.specs.List.{list_all};
ghost use Rattle.stil_ast.specs.Meaning.State.{start_of};
ghost use Rattle.stil_ast.specs.Meaning.Dealing.{with_character};
ghost use Rattle.stil_ast.specs.Meaning.ExecutiveData.{distinct_rows};
ghost use Rattle.stil_ast.specs.Faults.CodeFaults.{have_waves};
ghost use Rattle.cycle_comp.specs.Known.{row_of_characters, has_wave_at, AreJudged, IsNumbered, Keeps, Moves, IsNoted, unknown, known};

use crate::waves::{has_wave, have_waves};
use packed_code::RowList;
use std::alloc::{AllocError, Global};
use std::marker::Model;
use wave_tables::WaveSet;

/// The table under which a vector was judged, and the number of its row.
#[derive(Clone, Copy)]
struct Latest {
    table: u16,
    row: u32,
}

/// A table or none, and for each signal a character or none: the `State` of the language's definitions. Beside it
/// stands what is known of the latest vector that was made in it, if anything is, and which signals have got another
/// character since. They are never more than there are signals: then nothing is known any more. A count says how often
/// the table or a character was set to another one.
#[derive(Drop)]
pub(crate) struct State {
    table: Option<u16>,
    characters: Vec<Option<u8>>,
    latest: Option<Latest>,
    changed: Vec<u16>,
    moves: u64,
}

impl Model for State {
    ghost use Rattle.std.specs.Prelude.{◌≤◌, ◌^◌, length};
    ghost use Rattle.cycle_comp.specs.Known.{Known};

    ghost Value = { Known };

    ghost view = { λ s. record {
      told = record { table = s.table; characters = s.characters.items };
      latest = s.latest;
      changed = s.changed.items;
      moves = s.moves;
    } };

    ghost invariant = { λ s. length s.characters.items ≤ 2 ^ 16 };
}

impl State {
    /// No table, and no character of so many signals. No vector was made.
    pub(crate) fn start(alloc: Global, signals: u16) -> Result<State, AllocError>
        ensures { IfOk result (λ s. s ≡ unknown (start_of signals)) }
    {
        let characters = vec![in alloc; None; usize::from(signals)]?;
        Ok(State {
            table: None,
            characters,
            latest: None,
            changed: Vec::new(alloc),
            moves: 0,
        })
    }

    /// Another one that is alike.
    pub(crate) fn copy(&self) -> Result<State, AllocError>
        ensures { IfOk result (λ s. s ≡ self.now) }
    {
        let alloc = *self.characters.allocator();
        let characters = Vec::from_slice(alloc, self.characters.as_slice())?;
        let changed = Vec::from_slice(alloc, self.changed.as_slice())?;
        Ok(State {
            table: self.table,
            characters,
            latest: self.latest,
            changed,
            moves: self.moves,
        })
    }

    /// The table.
    pub(crate) fn table(&self) -> Option<u16>
        ensures { result ≡ self.now.told.table }
    {
        self.table
    }

    /// The character of a signal; none of a signal that isn't counted.
    pub(crate) fn character(&self, signal: u16) -> Option<u8>
        ensures { result ≡ slice_index_or self.now.told.characters signal None }
    {
        match self.characters.get(usize::from(signal)) {
            Some(character) => *character,
            None => None,
        }
    }

    /// Sets the table.
    pub(crate) fn set_table(&mut self, table: u16)
        ensures told { self.new.told ≡ record { table = Some table; characters = self.old.told.characters } }
        ensures known { Keeps self.old self.new }
        ensures moves { Moves self.old self.new }
    {
        if self.table != Some(table) {
            self.table = Some(table);
            self.moves = self.moves.saturating_add(1);
        }
    }

    /// Sets the character of a signal; nothing of a signal that isn't counted.
    pub(crate) fn set(&mut self, signal: u16, character: Option<u8>)
        ensures told { self.new.told ≡ with_character signal character self.old.told }
        ensures known { Keeps self.old self.new }
        ensures moves { Moves self.old self.new }
    {
        let place = usize::from(signal);
        if place < self.characters.len() {
            if self.characters[place] != character {
                self.characters[place] = character;
                self.moves = self.moves.saturating_add(1);
                self.note(signal);
            }
        }
    }

    /// How often the table or a character was set to another one.
    pub(crate) fn moves(&self) -> u64
        ensures { result ≡ self.now.moves }
    {
        self.moves
    }

    /// Whether nothing was set to another value since it had this count.
    pub(crate) fn has_stayed(&self, moves: u64) -> bool
        ensures { result ≡ true → (self.now.moves ≡ moves) × (self.now.moves + 1 < 2 ^ 64) }
    {
        self.moves == moves && moves < u64::MAX
    }

    /// Takes note that a signal got another character. Where there is no room for more, nothing is known any more.
    fn note(&mut self, signal: u16)
        ensures { IsNoted signal self.old self.new }
    {
        if self.latest.is_some() && self.changed.len() < self.characters.len() {
            match self.changed.push(signal) {
                Ok(()) => return,
                Err(_) => {}
            }
        }
        self.latest = None;
        self.changed.clear();
    }

    /// Whether the table defines the characters. Under the table of the latest vector those alone are looked for that
    /// have changed since.
    pub(crate) fn has_waves(&self, tables: &WaveSet, table: u16) -> bool
        requires { AreJudged tables.now self.now }
        ensures { result ≡ have_waves (slice_get tables.now table) 0 self.now.told.characters }
    {
        match self.latest {
            Some(latest) if latest.table == table => self.changed_have_waves(tables, table),
            _ => have_waves(tables, table, self.characters.as_slice()),
        }
    }

    /// Whether the table defines the characters of the signals that have changed.
    fn changed_have_waves(&self, tables: &WaveSet, table: u16) -> bool
        ensures { result ≡ list_all (has_wave_at tables.now table self.now.told.characters) self.now.changed }
    {
        for signal in self.changed.as_slice() {
            if !has_wave(tables, table, *signal, self.character(*signal)) {
                return false;
            }
        }
        true
    }

    /// Puts its row behind those that are there, unless it is one of them. Answers its number, which is looked for
    /// only where a character has changed.
    pub(crate) fn number(&self, rows: &mut RowList) -> Result<u32, AllocError>
        requires { IsNumbered rows.old self.now }
        ensures number { IfOk result
            (λ number. slice_get rows.new number ≡ Some (row_of_characters self.now.told.characters)) }
        ensures rows { OnOk result
            (rows.new ≡ distinct_rows rows.old (row_of_characters self.now.told.characters ∷ [])) }
    {
        match self.known_row() {
            Some(row) => Ok(row),
            None => row_number(rows.add(self.row()?)?),
        }
    }

    /// The number of its row, if it is known.
    fn known_row(&self) -> Option<u32>
        ensures { (rows : List (List ℕ)) → IsNumbered rows self.now
            → IfSome result (λ row. slice_get rows row ≡ Some (row_of_characters self.now.told.characters)) }
    {
        match self.latest {
            Some(latest) if self.changed.is_empty() => Some(latest.row),
            _ => None,
        }
    }

    /// The row: a byte for each signal, 0 where it has no character.
    fn row(&self) -> Result<Vec<u8>, AllocError>
        ensures { IfOk result (λ row. row.items ≡ row_of_characters self.now.told.characters) }
    {
        let alloc = *self.characters.allocator();
        row_of(alloc, self.characters.as_slice())
    }

    /// Takes note of a vector that was made in it, under this table and with the row of this number.
    pub(crate) fn know(&mut self, table: u16, row: u32)
        ensures { self.new ≡ known self.old table row }
    {
        self.latest = Some(Latest { table, row });
        self.changed.clear();
    }
}

/// The row of characters.
fn row_of(alloc: Global, characters: &[Option<u8>]) -> Result<Vec<u8>, AllocError>
    ensures { IfOk result (λ row. row.items ≡ row_of_characters characters.now) }
{
    let mut row = Vec::with_capacity(alloc, characters.len())?;
    for character in characters {
        row.push(character.unwrap_or(0))?;
    }
    Ok(row)
}

/// The number of a row, if 32 bits have room for it.
fn row_number(number: usize) -> Result<u32, AllocError>
    ensures { IfOk result (λ row. row ≡ number) }
{
    match u32::try_from(number) {
        Ok(row) => Ok(row),
        Err(_) => Err(AllocError),
    }
}
