//! Statements of a keyword and a name that `;` ends.

ghost use Rattle.std.specs.Prelude.{◌≡◌, IfOk};
ghost use Rattle.stil_tree.specs.Trees.{entry_of};
ghost use Rattle.stil_form.specs.Setting.{setting_of};
ghost use Rattle.block_forms.specs.Named.{named_on};

use std::alloc::{AllocError, Global};
use stil_ast::Named;
use stil_form::{Reader, first_of, line_at};
use stil_tree::Stmt;
use tester_types::Items;

/// A name on the line of its statement.
pub fn named_on(
    alloc: Global,
    reader: &Reader,
    stmt: &Stmt,
    called: &[u8],
) -> Result<Named, AllocError>
    ensures { IfOk result (λ named. named ≡ named_on (setting_of reader.now) (entry_of stmt.now) called.now) }
{
    Ok(Named {
        name: Items::from_slice(alloc, called)?,
        line: line_at(reader.source.tokens, first_of(stmt) as usize),
    })
}
