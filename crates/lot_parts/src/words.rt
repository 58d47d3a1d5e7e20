//! What the words of the command line ask for.

ghost use Rattle.std.specs.Prelude.{◌≡◌, ◌<◌, ◌≤◌, ◌↔◌, ◌∷◌, [], ℕ, List, IfSome, IfNone, IsTrue, decimal, length};
ghost use Rattle.text_bytes.specs.Limits.{most_parts};
ghost use Rattle.lot_parts.specs.Words.{words_seen, IsPart, ArePart, AreParts, AreCut, AreMerge, AreGrade, AreMergeGrade};
ghost use Rattle.lot_parts.specs.Jobs.{IsJob};

use itoa::Buffer;
use text_bytes::MOST_PARTS;

/// A part, counted from 0, of so many.
#[derive(Clone, Copy)]
pub(crate) struct Part {
    pub(crate) parts: u16,
    pub(crate) part: u16,
}

/// What words ask for.
#[derive(Clone, Copy)]
pub(crate) enum Job<'a> {
    /// How many parts a plan needs.
    Parts(&'a str),
    /// The plan of a part.
    Cut(&'a str, Part),
    /// The datalog of a plan, of those of its parts in these files.
    Merge(&'a str, &'a [String]),
    /// A part of the grade of a program and a plan.
    Grade(&'a str, &'a str, Part),
    /// The grade of these files.
    MergeGrade(&'a [String]),
    /// Nothing that there is.
    Nothing,
}

/// The number that the word spells in decimal digits, from 1 to the most parts.
fn read_count(word: &str) -> Option<u16>
    ensures found { IfSome result (λ n. (1 ≤ n) × (n ≤ most_parts) × (word.now ≡ decimal n)) }
    ensures none { IfNone result ((n : ℕ) → 1 ≤ n → n ≤ most_parts → word.now ≡ decimal n → ⊥) }
{
    for number in 1..MOST_PARTS + 1 {
        if is_spelled(word, number) {
            return Some(number);
        }
    }
    None
}

/// Whether the word spells the number.
fn is_spelled(word: &str, number: u16) -> bool
    ensures { IsTrue result ↔ (word.now ≡ decimal number) }
{
    word == Buffer::new().format(number)
}

/// The part that two words name: which one, counted from 1, and of how many.
fn part_of(which: &str, of: &str) -> Option<Part>
    ensures found { IfSome result (λ p. ArePart (which.now ∷ of.now ∷ []) p.parts p.part) }
    ensures none { IfNone result ((parts part : ℕ) → ArePart (which.now ∷ of.now ∷ []) parts part → ⊥) }
{
    let parts = match read_count(of) {
        Some(parts) => parts,
        None => return None,
    };
    let number = match read_count(which) {
        Some(number) => number,
        None => return None,
    };
    if number > parts {
        return None;
    }
    Some(Part {
        parts,
        part: number - 1,
    })
}

/// Whether there are files, and not too many.
fn is_list(files: &[String]) -> bool
    ensures { IsTrue result ↔ ((0 < length files.now) × (length files.now ≤ most_parts)) }
{
    !files.is_empty() && files.len() <= usize::from(MOST_PARTS)
}

/// What words ask for.
pub(crate) fn job_of(words: &[String]) -> Job<'_>
    ensures { IsJob (words_seen words.now) result }
{
    match parts_words(words) {
        Some(plan) => Job::Parts(plan),
        None => match cut_words(words) {
            Some((plan, part)) => Job::Cut(plan, part),
            None => match merge_words(words) {
                Some((plan, files)) => Job::Merge(plan, files),
                None => match grade_words(words) {
                    Some((program, plan, part)) => Job::Grade(program, plan, part),
                    None => match merge_grade_words(words) {
                        Some(files) => Job::MergeGrade(files),
                        None => Job::Nothing,
                    },
                },
            },
        },
    }
}

/// The words behind the first one, if that is this one.
fn behind<'a>(words: &'a [String], word: &str) -> Option<&'a [String]>
    ensures found { IfSome result (λ rest. words_seen words.now ≡ word.now ∷ words_seen rest.now) }
    ensures none { IfNone result ((rest : List (List ℕ)) → words_seen words.now ≡ word.now ∷ rest → ⊥) }
{
    match words.split_first() {
        Some((first, rest)) => {
            if first.as_str() == word {
                Some(rest)
            } else {
                None
            }
        }
        None => None,
    }
}

/// The plan of the words `parts PLAN`.
fn parts_words(words: &[String]) -> Option<&str>
    ensures found { IfSome result (λ plan. AreParts (words_seen words.now) plan.now) }
    ensures none { IfNone result ((plan : List ℕ) → AreParts (words_seen words.now) plan → ⊥) }
{
    let rest = match behind(words, "parts") {
        Some(rest) => rest,
        None => return None,
    };
    match rest {
        [plan] => Some(plan.as_str()),
        _ => None,
    }
}

/// The plan and the part of the words `part PLAN K N`.
fn cut_words(words: &[String]) -> Option<(&str, Part)>
    ensures found { IfSome result (λ named. AreCut (words_seen words.now) named.0.now named.1.parts named.1.part) }
    ensures none { IfNone result ((plan : List ℕ) (parts part : ℕ)
        → AreCut (words_seen words.now) plan parts part → ⊥) }
{
    let rest = match behind(words, "part") {
        Some(rest) => rest,
        None => return None,
    };
    match rest {
        [first, second, third] => {
            let plan = first.as_str();
            let which = second.as_str();
            let of = third.as_str();
            match part_of(which, of) {
                Some(part) => Some((plan, part)),
                None => None,
            }
        }
        _ => None,
    }
}

/// The plan and the files of the words `merge PLAN FILE ..`.
fn merge_words(words: &[String]) -> Option<(&str, &[String])>
    ensures found { IfSome result (λ named. AreMerge (words_seen words.now) named.0.now (words_seen named.1.now)) }
    ensures none { IfNone result ((plan : List ℕ) (files : List (List ℕ))
        → AreMerge (words_seen words.now) plan files → ⊥) }
{
    let rest = match behind(words, "merge") {
        Some(rest) => rest,
        None => return None,
    };
    match rest.split_first() {
        Some((plan, files)) => {
            if is_list(files) {
                Some((plan.as_str(), files))
            } else {
                None
            }
        }
        None => None,
    }
}

/// The program, the plan and the part of the words `grade PROGRAM PLAN K N`.
fn grade_words(words: &[String]) -> Option<(&str, &str, Part)>
    ensures found { IfSome result (λ named.
        AreGrade (words_seen words.now) named.0.now named.1.now named.2.parts named.2.part) }
    ensures none { IfNone result ((program plan : List ℕ) (parts part : ℕ)
        → AreGrade (words_seen words.now) program plan parts part → ⊥) }
{
    let rest = match behind(words, "grade") {
        Some(rest) => rest,
        None => return None,
    };
    match rest {
        [first, second, third, fourth] => {
            let program = first.as_str();
            let plan = second.as_str();
            let which = third.as_str();
            let of = fourth.as_str();
            match part_of(which, of) {
                Some(part) => Some((program, plan, part)),
                None => None,
            }
        }
        _ => None,
    }
}

/// The files of the words `merge-grade FILE ..`.
fn merge_grade_words(words: &[String]) -> Option<&[String]>
    ensures found { IfSome result (λ files. AreMergeGrade (words_seen words.now) (words_seen files.now)) }
    ensures none { IfNone result ((files : List (List ℕ)) → AreMergeGrade (words_seen words.now) files → ⊥) }
{
    let files = match behind(words, "merge-grade") {
        Some(files) => files,
        None => return None,
    };
    if is_list(files) { Some(files) } else { None }
}
