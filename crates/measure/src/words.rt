//! The words of the command line.

/// The word at a place, empty where there is none.
pub fn word(words: &[String], place: usize) -> &str {
    words.get(place).map_or("", |word| word.as_str())
}

/// The number that the word at a place is, or 1.
pub fn number(words: &[String], place: usize) -> u32 {
    word(words, place).parse().unwrap_or(1)
}
