//! What all readers of text share: classes of bytes, digits read and judged, and the limits of texts and testers.
#![tactic(auto)]

mod byte;
mod limit;
mod number;

pub use byte::{
    all_digits, all_printable, all_words, begins_name, is_blank, is_character, is_digit,
    is_printable, is_printing, is_word, line_feeds,
};
pub use limit::{
    DEEPEST_CALLS, DEEPEST_LOOPS, LONGEST_LABEL, LONGEST_NAME, LONGEST_PERIOD, MOST_BYTES,
    MOST_CELLS, MOST_CHAINS, MOST_CODE_TABLES, MOST_CYCLES, MOST_EVENTS, MOST_EXECUTIVES,
    MOST_GROUPS, MOST_INPUTS, MOST_LISTED, MOST_MEASURE, MOST_NETS, MOST_PARTS, MOST_PASSES,
    MOST_PATTERNS, MOST_PLAN_SITES, MOST_REPEATS, MOST_ROW_CHARACTERS, MOST_SIGNALS, MOST_SITES,
    MOST_TABLES, MOST_VARIABLES, MOST_WALKED, MOST_WAVES,
};
pub use number::{are_digits, number_by, number_of};
