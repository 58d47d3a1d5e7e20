//! SignalGroups blocks (IEEE 1450-1999, clause 15).

ghost use Rattle.std.specs.Prelude.{◌≡◌};
ghost use Rattle.stil_tree.specs.Trees.{entry_of};
ghost use Rattle.stil_form.specs.Reading.{Answers, AnswersBy};
ghost use Rattle.stil_form.specs.Setting.{setting_of, inner_of};
ghost use Rattle.signal_blocks.specs.Groups as groups;

use block_forms::{equal_text_at, quoted_at, skip_attributes, titled_block};
use std::alloc::Global;
use stil_ast::{GroupBlock, GroupDecl};
use stil_form::{Form, FormFault, Reader, first_of, inner_of, line_at, read_unskipped};
use stil_tree::Stmt;
use tester_types::Items;

/// Statements of SignalGroups blocks.
#[derive(Clone, Copy)]
struct GroupForm<'k, 'a> {
    reader: Reader<'k, 'a>,
}

impl Form for GroupForm<'_, '_> {
    type Data = GroupDecl;

    ghost judge = { λ form before e. groups.judge_group (setting_of form.reader) before e };

    fn judge_one(
        &self,
        alloc: Global,
        before: &[GroupDecl],
        stmt: &Stmt,
    ) -> Result<GroupDecl, FormFault> {
        let _ = before;
        let (name, text) = equal_text_at(&self.reader, stmt)?;
        skip_attributes(alloc, &self.reader, stmt)?;
        let first = first_of(stmt) as usize;
        Ok(GroupDecl {
            name: Items::from_slice(alloc, name)?,
            text: quoted_at(alloc, &self.reader, first + 2, text)?,
            line: line_at(self.reader.source.tokens, first),
        })
    }
}

/// The groups of statements.
fn read_groups(alloc: Global, reader: &Reader, stmt: &Stmt) -> Result<Vec<GroupDecl>, FormFault>
    ensures { AnswersBy (λ read. read.items) result
        (groups.groups_of (setting_of reader.now) (inner_of (entry_of stmt.now).body)) }
{
    let form = GroupForm { reader: *reader };
    read_unskipped(alloc, &form, reader, inner_of(stmt))
}

/// A SignalGroups block.
pub fn read_groups_block(
    alloc: Global,
    reader: &Reader,
    stmt: &Stmt,
) -> Result<GroupBlock, FormFault>
    ensures { Answers result (groups.groups_block (setting_of reader.now) (entry_of stmt.now)) }
{
    let title = titled_block(reader, stmt)?;
    let groups = read_groups(alloc, reader, stmt)?;
    Ok(GroupBlock {
        name: Items::from_slice(alloc, title)?,
        groups: Items::from_vec(groups),
    })
}
