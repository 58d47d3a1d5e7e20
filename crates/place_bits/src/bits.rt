//! A set of places, packed into words of 64.

ghost use Rattle.std.specs.Prelude.{◌≡◌, ℕ, ◌+◌, ◌*◌, ◌/◌, ◌%◌, ◌<◌, ◌≤◌, true, false, length, IfOk, slice_set, slice_index, slice_index_or, replicate};
ghost use Rattle.std.specs.Int.{bit_at};
ghost use Rattle.place_bits.specs.Bits.{most_places, bit_of, in_word, IsLowest, IsRest};

use std::alloc::{AllocError, Global};
use std::marker::Model;

/// Whether each place is in the set.
#[derive(Drop)]
pub struct Bits {
    words: Vec<u64>,
}

impl Model for Bits {
    ghost use Rattle.std.specs.Prelude.{List, Bool, ◌≤◌, length};
    ghost use Rattle.place_bits.specs.Bits.{bits_of};

    ghost Value = { List Bool };

    ghost view = { λ b. bits_of b.words.items };

    ghost invariant = { λ b. length b.words.items ≤ 1025 };
}

impl Bits {
    /// A set of none of so many places, and of up to 64 more.
    pub fn new(alloc: Global, places: usize) -> Result<Bits, AllocError>
        requires { places ≤ most_places }
        ensures room { IfOk result (λ b. places ≤ length b) }
        ensures few { IfOk result (λ b. length b ≤ 65600) }
        ensures none { IfOk result (λ b. (k : ℕ) → slice_index_or b k false ≡ false) }
    {
        Ok(Bits {
            words: vec![in alloc; 0; places / 64 + 1]?,
        })
    }

    /// Puts a place into the set.
    pub fn set(&mut self, place: usize)
        requires { place < length self.old }
        ensures { self.new ≡ slice_set self.old place true }
    {
        let word = self.words[place / 64];
        self.words[place / 64] = word | (1u64 << (place % 64));
    }

    /// Takes a place out of the set.
    pub fn clear(&mut self, place: usize)
        requires { place < length self.old }
        ensures { self.new ≡ slice_set self.old place false }
    {
        let word = self.words[place / 64];
        self.words[place / 64] = word & !(1u64 << (place % 64));
    }

    /// Takes all places out of the set.
    pub fn clear_all(&mut self)
        ensures size { length self.new ≡ length self.old }
        ensures none { (k : ℕ) → slice_index_or self.new k false ≡ false }
    {
        put_zeros(&mut self.words);
    }

    /// The first place from this one on that is in the set, past the last place where there is none.
    pub fn next(&self, from: usize) -> usize
        requires { from ≤ length self.now }
        ensures onward { from ≤ result }
        ensures skipped { (k : ℕ) → from ≤ k → k < result → slice_index_or self.now k false ≡ false }
        ensures found { result < length self.now → slice_index_or self.now result false ≡ true }
    {
        next_bit(self.words.as_slice(), from)
    }

    /// How many words the places are packed into.
    pub fn words(&self) -> usize
        ensures { 64 * result ≡ length self.now }
    {
        self.words.len()
    }

    /// The word of 64 places.
    pub fn word(&self, at: usize) -> u64
        requires { 64 * at < length self.now }
        ensures { (k : ℕ) → k < 64 → slice_index_or self.now (64 * at + k) false ≡ in_word result k }
    {
        self.words[at]
    }
}

/// Puts 0 in the place of each word.
fn put_zeros(words: &mut Vec<u64>)
    ensures { words.new.items ≡ replicate (length words.old.items) 0 }
{
    words.as_mut_slice().fill(0);
}

/// The place of the lowest 1 of a word that isn't 0.
pub fn lowest(word: u64) -> usize
    requires { 0 < word }
    ensures within { result < 64 }
    ensures found { bit_at word result ≡ 1 }
    ensures skipped { (k : ℕ) → k < result → bit_at word k ≡ 0 }
{
    word.trailing_zeros() as usize
}

/// A word that isn't 0 without its lowest 1.
pub fn rest(word: u64) -> u64
    requires { 0 < word }
    ensures less { result < word }
    ensures rest { (place : ℕ) → IsLowest word place → IsRest word place result }
{
    word & (word - 1)
}

/// A word without its bits below a place.
fn cut(word: u64, from: usize) -> u64
    requires { from < 64 }
    ensures below { (k : ℕ) → k < from → bit_at result k ≡ 0 }
    ensures above { (k : ℕ) → from ≤ k → k < 64 → bit_at result k ≡ bit_at word k }
{
    word & (u64::MAX << from)
}

/// The first bit that is 1 in the words from this one on, past the last bit where there is none.
fn first_bit(words: &[u64], from: usize) -> usize
    requires few { length words.now ≤ 1025 }
    requires within { from ≤ length words.now }
    ensures onward { 64 * from ≤ result }
    ensures skipped { (k : ℕ) → 64 * from ≤ k → k < result → bit_of words.now k ≡ false }
    ensures found { result < 64 * length words.now → bit_of words.now result ≡ true }
{
    for place in from..words.len() {
        let word = words[place];
        if word != 0 {
            return 64 * place + lowest(word);
        }
    }
    64 * words.len()
}

/// The first bit from this one on that is 1, past the last bit where there is none.
fn next_bit(words: &[u64], from: usize) -> usize
    requires few { length words.now ≤ 1025 }
    requires within { from ≤ 64 * length words.now }
    ensures onward { from ≤ result }
    ensures skipped { (k : ℕ) → from ≤ k → k < result → bit_of words.now k ≡ false }
    ensures found { result < 64 * length words.now → bit_of words.now result ≡ true }
{
    if from / 64 == words.len() {
        return from;
    }
    let word = cut(words[from / 64], from % 64);
    if word != 0 {
        return from / 64 * 64 + lowest(word);
    }
    first_bit(words, from / 64 + 1)
}
