//! The waves of a table, which know whether they rise.

ghost use Rattle.std.specs.Prelude.{◌≡◌, ◌↔◌, [], ◌∷◌, IsTrue, IfOk, length, find, reverse};
ghost use Rattle.std.specs.Option.{option_map};
ghost use Rattle.tester_types.specs.Waves.{is_wave, FindsLast};

use crate::wave::Wave;
use crate::wave_search::{last_place, rise, search};
use std::alloc::{AllocError, Global};
use std::marker::Model;

/// Waves in order. Of several of one signal and character the last counts. It is made from a `Vec` and gives it back, and
/// neither takes memory.
#[derive(Debug, Drop)]
pub struct WaveList {
    waves: Vec<Wave>,
    /// Whether the waves rise by their signals and then their characters.
    rising: bool,
}

impl Model for WaveList {
    ghost use Rattle.std.specs.Prelude.{◌↔◌, IsTrue, List};
    ghost use Rattle.tester_types.specs.declared.wave.Wave.{Wave};
    ghost use Rattle.tester_types.specs.Waves.{Rise};

    ghost Value = { List Wave };

    ghost view = { λ l. l.waves.items };

    ghost invariant = { λ l. IsTrue l.rising ↔ Rise l.waves.items };
}

impl WaveList {
    /// The list of the waves of a `Vec`. It goes over them once.
    pub fn from_vec(waves: Vec<Wave>) -> WaveList
        ensures { result ≡ waves.items }
    {
        let rising = rise(waves.as_slice());
        WaveList { waves, rising }
    }

    /// Only tests call it: the list of one wave.
    pub fn of_one(alloc: Global, wave: Wave) -> Result<WaveList, AllocError>
        ensures { IfOk result (λ list. list ≡ wave ∷ []) }
    {
        let mut waves = Vec::with_capacity(alloc, 1)?;
        waves.push(wave)?;
        Ok(WaveList::from_vec(waves))
    }

    /// The `Vec` of the waves.
    pub fn into_vec(self) -> Vec<Wave>
        ensures { result.items ≡ self }
    {
        self.waves
    }

    /// The waves in order.
    pub fn as_slice(&self) -> &[Wave]
        ensures { result.now ≡ self.now }
    {
        self.waves.as_slice()
    }

    /// How many waves there are.
    pub fn len(&self) -> usize
        ensures { result ≡ length self.now }
    {
        self.waves.len()
    }

    /// Whether there is no wave.
    pub fn is_empty(&self) -> bool
        ensures { IsTrue result ↔ (self.now ≡ []) }
    {
        self.waves.is_empty()
    }

    /// The last wave of a signal and a character.
    pub fn wave(&self, signal: u16, character: u8) -> Option<&Wave>
        ensures { option_map (λ w. w.now) result ≡ find (is_wave signal character) (reverse self.now) }
    {
        match self.search(0, usize::from(signal), character) {
            Ok(place) => Some(&self.waves[place]),
            Err(_) => None,
        }
    }

    /// The place of the last wave of a signal and a character, as `Ok`.
    ///
    /// Where the waves rise it takes steps in number like the logarithm of how far that place is behind `from`, if the wave
    /// before `from` is of a signal and character before these. `Err` then has the place where such a wave would stand, from
    /// which the search for a later one may begin. Where the waves don't rise, and for a signal beyond 16 bits, it goes over all
    /// of them. The answer is the same whatever `from` is.
    pub fn search(&self, from: usize, signal: usize, character: u8) -> Result<usize, usize>
        ensures { FindsLast self.now signal character result }
    {
        if !self.rising {
            return last_place(self.waves.as_slice(), signal, character);
        }
        if signal > usize::from(u16::MAX) {
            return last_place(self.waves.as_slice(), signal, character);
        }
        search(self.waves.as_slice(), from, signal, character)
    }
}
