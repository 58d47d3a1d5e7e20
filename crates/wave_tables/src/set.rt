//! The waveform tables of an executive, made.

ghost use Rattle.std.specs.Prelude.{◌≡◌, ◌<◌, All, length, slice_get, find, Some};
ghost use Rattle.std.specs.Option.{option_map};
ghost use Rattle.tester_types.specs.Waves.{is_wave};
ghost use Rattle.wave_tables.specs.Waves.{AreInOrder, waves_at, wave_in};

use std::marker::Model;
use tester_types::{Table, Wave, WaveList};

/// The waveform tables of an executive in text order. The waves of each are in the order of their signals and of their
/// characters, one for each pair that the table defines.
#[derive(Drop)]
pub struct WaveSet {
    tables: Vec<Table>,
}

impl Model for WaveSet {
    ghost use Rattle.std.specs.Prelude.{List, All};
    ghost use Rattle.tester_types.specs.declared.wave.Table.{Table};
    ghost use Rattle.wave_tables.specs.Waves.{AreInOrder};

    ghost Value = { List Table };

    ghost view = { λ s. s.tables.items };

    ghost invariant = { λ s. All (λ (t : Table). AreInOrder t.waves) s.tables.items };
}

impl WaveSet {
    /// Tables whose waves are in order. It takes no memory.
    pub fn from_vec(tables: Vec<Table>) -> WaveSet
        requires { All (λ t. AreInOrder t.waves) tables.items }
        ensures { result ≡ tables.items }
    {
        WaveSet { tables }
    }

    /// The tables in text order, to be kept elsewhere.
    pub fn into_vec(self) -> Vec<Table>
        ensures { result.items ≡ self }
    {
        self.tables
    }

    /// How many tables there are.
    pub fn len(&self) -> usize
        ensures { result ≡ length self.now }
    {
        self.tables.len()
    }

    /// The name of a table.
    pub fn name(&self, table: usize) -> &[u8]
        requires { table < length self.now }
        ensures { option_map (λ t. t.name) (slice_get self.now table) ≡ Some result.now }
    {
        self.tables[table].name.as_slice()
    }

    /// The period of a table, in femtoseconds.
    pub fn period(&self, table: usize) -> u64
        requires { table < length self.now }
        ensures { option_map (λ t. t.period) (slice_get self.now table) ≡ Some result }
    {
        self.tables[table].period
    }

    /// The waves of a table in the order of their signals and of their characters.
    pub fn waves(&self, table: usize) -> &[Wave]
        requires { table < length self.now }
        ensures { result.now ≡ waves_at (slice_get self.now table) }
    {
        self.tables[table].waves.as_slice()
    }

    /// What a signal does in a cycle of a table in which it has this character, where the table says so. It takes steps in
    /// number like the logarithm of that of the waves.
    pub fn wave(&self, table: u16, signal: u16, character: u8) -> Option<&Wave>
        ensures { option_map (λ w. w.now) result ≡ wave_in self.now table signal character }
    {
        match self.tables.get(usize::from(table)) {
            Some(found) => wave_of(&found.waves, signal, character),
            None => None,
        }
    }
}

/// The wave of a signal and a character among waves in order.
fn wave_of(waves: &WaveList, signal: u16, character: u8) -> Option<&Wave>
    requires { AreInOrder waves.now }
    ensures { option_map (λ w. w.now) result ≡ find (is_wave signal character) waves.now }
{
    waves.wave(signal, character)
}
