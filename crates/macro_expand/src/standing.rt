//! Where a statement stands.

ghost use Rattle.std.specs.Prelude.{◌≡◌};
ghost use Rattle.answers.specs.declared.short.Short.TheVariants.{Fault};

use crate::trouble::{BodyFault, Trouble};
use flat_tree::BodyKind;
use stil_ast::StilKind;

/// A body of MacroDefs or Procedures, by its number among those that a pattern may name.
#[derive(Clone, Copy, Debug, PartialEq, Eq)]
pub(crate) struct Callee {
    pub(crate) kind: BodyKind,
    pub(crate) number: usize,
}

/// Where a statement stands: in a body of which kind; whether in a Loop of this body, in a Shift, and there without a
/// pass; how many loops and calls are round it, and the bodies inside which it runs.
#[derive(Clone, Copy)]
pub(crate) struct Standing<'s> {
    pub(crate) body: BodyKind,
    pub(crate) in_loop: bool,
    pub(crate) in_shift: bool,
    pub(crate) without_pass: bool,
    pub(crate) loops: usize,
    pub(crate) calls: usize,
    pub(crate) running: &'s [Callee],
}

impl<'s> Standing<'s> {
    /// A fault of this kind on a line of the body.
    pub(crate) fn trouble(&self, kind: StilKind, line: u32) -> Trouble
        ensures { result ≡ Fault (record { kind = kind; body = self.now.body; line = line }) }
    {
        Trouble::Fault(BodyFault {
            kind,
            body: self.body,
            line,
        })
    }
}
