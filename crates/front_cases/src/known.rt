//! Files of known texts.

use std::alloc::{AllocError, Global};

/// A text, and what is wanted of it.
#[derive(Clone, Copy, Debug)]
pub(crate) struct Known<'a> {
    pub(crate) title: &'a str,
    pub(crate) wanted: &'a str,
    pub(crate) text: &'a str,
}

/// A text behind a line `title | wanted`.
fn text_behind<'a>(part: &'a str) -> Option<Known<'a>> {
    let (head, text) = part.split_once('\n')?;
    let (title, wanted) = head.split_once(" | ")?;
    Some(Known {
        title,
        wanted,
        text,
    })
}

/// The texts of a file: each behind a line `== title | wanted`.
pub(crate) fn known_of<'a>(alloc: Global, content: &'a str) -> Result<Vec<Known<'a>>, AllocError> {
    let mut all = Vec::new(alloc);
    for part in content.split("\n== ").skip(1) {
        if let Some(one) = text_behind(part) {
            all.push(one)?;
        }
    }
    Ok(all)
}
