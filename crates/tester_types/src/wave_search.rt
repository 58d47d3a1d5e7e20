//! The search for the last wave of a signal and a character.

ghost use Rattle.std.specs.Prelude.{◌≡◌, ◌<◌, ◌≤◌, ◌^◌, ◌↔◌, IsTrue, length};
ghost use Rattle.tester_types.specs.Waves.{is_wave, wave_key, key_in, Rise, AreBelow, AreFrom, FindsLast};

use crate::wave::Wave;

/// A number for each signal and character, in their order.
fn key_of(signal: usize, character: u8) -> u64
    requires { signal < 2 ^ 16 }
    ensures { result ≡ wave_key signal character }
{
    signal as u64 * 256 + u64::from(character)
}

/// The same of a wave.
fn key_in(wave: &Wave) -> u64
    ensures { result ≡ key_in wave.now }
{
    key_of(usize::from(wave.signal), wave.character)
}

/// Whether a wave is for this signal and this character.
fn is_wave(wave: &Wave, signal: usize, character: u8) -> bool
    ensures { result ≡ is_wave signal character wave.now }
{
    usize::from(wave.signal) == signal && wave.character == character
}

/// Whether each wave has a signal and a character behind those before it.
pub(crate) fn rise(waves: &[Wave]) -> bool
    ensures { IsTrue result ↔ Rise waves.now }
{
    let mut place = 1;
    while place < waves.len() {
        if key_in(&waves[place - 1]) >= key_in(&waves[place]) {
            return false;
        }
        place += 1;
    }
    true
}

/// The place of the last wave of a signal and a character among any waves. It looks from the end on.
pub(crate) fn last_place(waves: &[Wave], signal: usize, character: u8) -> Result<usize, usize>
    ensures { FindsLast waves.now signal character result }
{
    let mut place = waves.len();
    while place > 0 {
        place -= 1;
        if is_wave(&waves[place], signal, character) {
            return Ok(place);
        }
    }
    Err(0)
}

/// The same among waves that rise, or the place where such a wave would stand. It looks from `from` on, where none of these
/// stands before it.
pub(crate) fn search(
    waves: &[Wave],
    from: usize,
    signal: usize,
    character: u8,
) -> Result<usize, usize>
    requires rising { Rise waves.now }
    requires small { signal < 2 ^ 16 }
    ensures { FindsLast waves.now signal character result }
{
    let place = place_of(waves, from, key_of(signal, character));
    if place >= waves.len() {
        return Err(place);
    }
    if is_wave(&waves[place], signal, character) {
        return Ok(place);
    }
    Err(place)
}

/// The first place whose wave has at least this number, past all waves where there is none.
fn place_of(waves: &[Wave], from: usize, key: u64) -> usize
    requires { Rise waves.now }
    ensures below { AreBelow waves.now result key }
    ensures above { AreFrom waves.now result key }
{
    let low = start(waves, from, key);
    let high = bound(waves, low, key);
    first_between(waves, low, high, key)
}

/// `from`, where the waves before it have smaller numbers, and else the first place.
fn start(waves: &[Wave], from: usize, key: u64) -> usize
    requires { Rise waves.now }
    ensures below { AreBelow waves.now result key }
    ensures within { result ≤ length waves.now }
{
    if from == 0 {
        return 0;
    }
    if from > waves.len() {
        return 0;
    }
    if key_in(&waves[from - 1]) < key {
        return from;
    }
    0
}

/// A place from `from` on, from which on no wave has a smaller number. It looks in steps that double.
fn bound(waves: &[Wave], from: usize, key: u64) -> usize
    requires rising { Rise waves.now }
    requires within { from ≤ length waves.now }
    ensures above { AreFrom waves.now result key }
    ensures behind { from ≤ result }
    ensures within { result ≤ length waves.now }
{
    let mut step = 0;
    while step < waves.len() - from {
        let place = from + step;
        if key_in(&waves[place]) >= key {
            return place;
        }
        step = step * 2 + 1;
    }
    waves.len()
}

/// The first place between these two whose wave has at least this number, and else the second.
fn first_between(waves: &[Wave], from: usize, to: usize, key: u64) -> usize
    requires rising { Rise waves.now }
    requires below { AreBelow waves.now from key }
    requires above { AreFrom waves.now to key }
    requires behind { from ≤ to }
    requires within { to ≤ length waves.now }
    ensures below { AreBelow waves.now result key }
    ensures above { AreFrom waves.now result key }
{
    let mut low = from;
    let mut high = to;
    while low < high {
        let middle = low + (high - low) / 2;
        if key_in(&waves[middle]) < key {
            low = middle + 1;
        } else {
            high = middle;
        }
    }
    low
}
