//! The expressions that texts spell, so that a text is read once and not once for each executive.

ghost use Rattle.std.specs.Prelude.{◌≡◌, true, IfSome};
ghost use Rattle.expr_text.specs.Tree.{tree_of};
ghost use Rattle.expr_text.specs.Spelling.{Spells};
ghost use Rattle.time_expr.specs.Kept.{AreSpelled};

use expr_text::{Expr, ExprFault, read_expr};
use indexmap::IndexMap;
use std::alloc::{AllocError, Global};
use std::marker::Model;
use stil_ast::{
    Blocks, Category, EventDecl, Quoted, SpecBlock, TableDecl, TimingBlock, VariableValue, WaveDecl,
};

/// Whether a text has the sign of an operator or a parenthesis. What has none is a number or a name, which is read as
/// fast as it would be found.
fn has_operator(text: &[u8]) -> bool {
    text.iter()
        .any(|byte| matches!(*byte, b'+' | b'-' | b'*' | b'/' | b'('))
}

/// Keeps what a text spells.
fn keep<'a>(
    exprs: &mut IndexMap<&'a [u8], Expr>,
    text: &'a [u8],
    expr: Expr,
) -> Result<(), AllocError>
    requires others { AreSpelled exprs.old }
    requires spelled { Spells text.now (tree_of expr) true }
    ensures { AreSpelled exprs.new }
{
    exprs.insert(text, expr)?;
    Ok(())
}

/// Expressions by the texts that spell them. What isn't kept is read where it is asked for, so that no answer rests on
/// what is kept.
#[derive(Drop)]
pub struct TimeTexts<'a> {
    exprs: IndexMap<&'a [u8], Expr>,
}

impl<'a> Model for TimeTexts<'a> {
    ghost use Rattle.std.specs.Prelude.{ℕ, List, map};
    ghost use Rattle.time_expr.specs.Kept.{AreSpelled};

    ghost Value = { List (List ℕ) };

    ghost view = { λ t. map (λ entry. entry.0.now) t.exprs.entries };

    ghost invariant = { λ t. AreSpelled t.exprs };
}

impl<'a> TimeTexts<'a> {
    /// No texts.
    fn empty(alloc: Global) -> TimeTexts<'a> {
        TimeTexts {
            exprs: IndexMap::new(alloc),
        }
    }

    /// The texts of the times and the variables of these blocks; none where no more than one executive asks for them.
    pub fn new(alloc: Global, blocks: &'a Blocks) -> Result<TimeTexts<'a>, AllocError> {
        let mut texts = TimeTexts::empty(alloc);
        if blocks.executives.len() > 1 {
            texts.add_timings(alloc, blocks.timings.as_slice())?;
            texts.add_specs(alloc, blocks.specs.as_slice())?;
        }
        Ok(texts)
    }

    /// The expression that is kept for a text.
    pub(crate) fn kept(&self, text: &[u8]) -> Option<&Expr>
        ensures { IfSome result (λ expr. Spells text.now (tree_of expr.now) true) }
    {
        self.exprs.get(text)
    }

    /// Keeps what a text spells, where it has an operator and spells an expression.
    fn add(&mut self, alloc: Global, quoted: &'a Quoted) -> Result<(), AllocError> {
        let text = quoted.text.as_slice();
        if !has_operator(text) || self.exprs.contains_key(text) {
            return Ok(());
        }
        match read_expr(alloc, text) {
            Ok(expr) => keep(&mut self.exprs, text, expr),
            Err(ExprFault::NoMemory) => Err(AllocError),
            Err(_) => Ok(()),
        }
    }

    /// The same for a text that may be missing.
    fn add_some(&mut self, alloc: Global, quoted: &'a Option<Quoted>) -> Result<(), AllocError> {
        match quoted {
            Some(quoted) => self.add(alloc, quoted),
            None => Ok(()),
        }
    }

    fn add_events(&mut self, alloc: Global, events: &'a [EventDecl]) -> Result<(), AllocError> {
        for event in events {
            self.add(alloc, &event.time)?;
        }
        Ok(())
    }

    fn add_waves(&mut self, alloc: Global, waves: &'a [WaveDecl]) -> Result<(), AllocError> {
        for wave in waves {
            self.add_events(alloc, wave.events.as_slice())?;
        }
        Ok(())
    }

    fn add_table(&mut self, alloc: Global, table: &'a TableDecl) -> Result<(), AllocError> {
        self.add_some(alloc, &table.period)?;
        for signals in table.waveforms.as_slice() {
            self.add_waves(alloc, signals.waves.as_slice())?;
        }
        Ok(())
    }

    fn add_tables(&mut self, alloc: Global, tables: &'a [TableDecl]) -> Result<(), AllocError> {
        for table in tables {
            self.add_table(alloc, table)?;
        }
        Ok(())
    }

    fn add_timings(&mut self, alloc: Global, timings: &'a [TimingBlock]) -> Result<(), AllocError> {
        for timing in timings {
            self.add_tables(alloc, timing.tables.as_slice())?;
        }
        Ok(())
    }

    fn add_value(&mut self, alloc: Global, value: &'a VariableValue) -> Result<(), AllocError> {
        match value {
            VariableValue::Same(text) => self.add(alloc, text),
            VariableValue::Chosen(choices) => {
                self.add_some(alloc, &choices.min)?;
                self.add_some(alloc, &choices.typ)?;
                self.add_some(alloc, &choices.max)?;
                self.add_some(alloc, &choices.meas)
            }
        }
    }

    fn add_category(&mut self, alloc: Global, category: &'a Category) -> Result<(), AllocError> {
        for variable in category.variables.as_slice() {
            self.add_value(alloc, &variable.value)?;
        }
        Ok(())
    }

    fn add_categories(
        &mut self,
        alloc: Global,
        categories: &'a [Category],
    ) -> Result<(), AllocError> {
        for category in categories {
            self.add_category(alloc, category)?;
        }
        Ok(())
    }

    fn add_specs(&mut self, alloc: Global, specs: &'a [SpecBlock]) -> Result<(), AllocError> {
        for spec in specs {
            self.add_categories(alloc, spec.categories.as_slice())?;
        }
        Ok(())
    }
}
