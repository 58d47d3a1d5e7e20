//! Why a pattern is refused.

use answers::Short;
use flat_tree::BodyKind;
use stil_ast::StilKind;

/// A fault of this kind in a body of this kind, on this line.
#[derive(Clone, Copy, Debug, PartialEq, Eq)]
pub(crate) struct BodyFault {
    pub(crate) kind: StilKind,
    pub(crate) body: BodyKind,
    pub(crate) line: u32,
}

/// Want of memory, or the first fault of a pattern's statements.
pub(crate) type Trouble = Short<BodyFault>;
