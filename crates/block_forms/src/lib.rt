//! What the readers of blocks share: heads and their keywords, texts in quotes, and names that were declared (IEEE
//! 1450-1999, clause 6).
#![tactic(auto)]

mod declared;
mod head;
mod items;
mod keyword;
mod named;
mod quotes;

pub use declared::Declared;
pub use head::{
    bare_block, behind_first, is_first, name_or_empty, named_block, only_name, only_part,
    only_text, rest_at, titled_block, with_block, without_block,
};
pub use items::with_one;
pub use keyword::{first_keyword, keyword_in, only_keyword};
pub use named::named_on;
pub use quotes::{equal_text_at, quoted_at, skip_attributes};
