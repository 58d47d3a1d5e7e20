//! Blocks by their keywords, with their names.

ghost use Rattle.std.specs.Prelude.{OnOk};
ghost use Rattle.stil_tree.specs.Trees.{entry_of};
ghost use Rattle.stil_form.specs.Reading.{AnswersBy};
ghost use Rattle.stil_form.specs.Setting.{setting_of};
ghost use Rattle.stil_read.specs.Reads.{blocks_by, AreNames};
ghost use Rattle.stil_read.specs.Top.{block_step};

use crate::block::{
    put_burst, put_defs, put_executive, put_groups, put_pattern, put_scans, put_selector,
    put_signals, put_spec, put_timing,
};
use crate::keyword::Keyword::{
    self, MacroDefs, Pattern, PatternBurst, PatternExec, Procedures, ScanStructures, Selector,
    SignalGroups, Signals, Spec, Timing,
};
use crate::read::{Lists, Names};
use pat_read::BodyPlace;
use std::alloc::Global;
use stil_form::{FormFault, FormKind, Reader, first_of};
use stil_tree::Stmt;

/// The blocks with what a statement of this keyword declares, and their names.
pub(crate) fn put_block<'a>(
    alloc: Global,
    reader: &Reader<'_, 'a>,
    found: Keyword,
    lists: &mut Lists,
    names: &mut Names<'a>,
    stmt: &Stmt,
) -> Result<(), FormFault>
    requires { AreNames lists.old names.old }
    ensures step { AnswersBy (λ _. blocks_by lists.new) result
        (block_step (setting_of reader.now) (blocks_by lists.old) (entry_of stmt.now) found) }
    ensures names { OnOk result (AreNames lists.new names.new) }
{
    match found {
        Signals => put_signals(alloc, reader, &mut lists.signals, stmt),
        SignalGroups => put_groups(alloc, reader, &mut lists.groups, stmt),
        Spec => put_spec(alloc, reader, &mut lists.specs, stmt),
        Selector => put_selector(
            alloc,
            reader,
            &mut lists.selectors,
            &mut names.selectors,
            stmt,
        ),
        Timing => put_timing(alloc, reader, &mut lists.timings, &mut names.tables, stmt),
        ScanStructures => put_scans(alloc, reader, &mut lists.scans, &mut names.chains, stmt),
        MacroDefs => put_defs(
            alloc,
            reader,
            BodyPlace::Macro,
            &mut lists.macros,
            &mut names.macros,
            stmt,
        ),
        Procedures => put_defs(
            alloc,
            reader,
            BodyPlace::Procedure,
            &mut lists.procedures,
            &mut names.procedures,
            stmt,
        ),
        PatternBurst => put_burst(alloc, reader, &mut lists.bursts, &mut names.bursts, stmt),
        PatternExec => put_executive(alloc, reader, &mut lists.executives, stmt),
        Pattern => put_pattern(
            alloc,
            reader,
            &mut lists.patterns,
            &mut names.patterns,
            stmt,
        ),
        _ => Err(FormFault::Refused(FormKind::Shape, first_of(stmt))),
    }
}
