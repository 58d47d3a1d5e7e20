//! What the tables of an executive are made from.

ghost use Rattle.std.specs.Prelude.{◌≡◌, true};
ghost use Rattle.text_bytes.specs.Texts.{behind};
ghost use Rattle.stil_ast.specs.Meaning.Executive.{exec_tables, exec_value};
ghost use Rattle.stil_ast.specs.Meaning.Signals.{names_of};
ghost use Rattle.signal_groups.specs.Table.{table_of};
ghost use Rattle.time_expr.specs.TimeIn.{AreNames};
ghost use Rattle.time_expr.specs.TimesOf.{times_of};
ghost use Rattle.wave_tables.specs.Characters.{are_with_characters};

use signal_groups::SignalTable;
use stil_ast::{Blocks, ExecDecl, TableDecl};
use time_expr::{TimeTexts, Vars};

/// The blocks, the executive, its tables in text order, the signals of the text, the variables of the executive, and the texts
/// that are kept.
#[derive(Drop)]
pub(crate) struct Scope<'a> {
    pub(crate) blocks: &'a Blocks,
    pub(crate) exec: &'a ExecDecl,
    pub(crate) tables: Vec<&'a TableDecl>,
    pub(crate) signals: &'a SignalTable,
    pub(crate) vars: &'a Vars,
    pub(crate) texts: &'a TimeTexts<'a>,
    ghost in_order: { behind tables.items ≡ exec_tables blocks.now exec.now },
    ghost all_signals: { signals.now ≡ table_of (names_of blocks.now) },
    ghost with_characters: { are_with_characters (exec_tables blocks.now exec.now) ≡ true },
    ghost all_vars: { AreNames (exec_value times_of blocks.now exec.now) vars.now },
}
