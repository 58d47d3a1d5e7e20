//! Executives before they are compiled.

ghost use Rattle.std.specs.Prelude.{◌≡◌, ◌<◌, Some, length, map, slice_get};
ghost use Rattle.std.specs.Option.{option_map};
ghost use Rattle.stil_ast.specs.Meaning.ExecutiveData.{Tree};
ghost use Rattle.macro_expand.specs.Scopes.{titles_in};

use flat_tree::FlatList;
use macro_expand::BlockTitles;
use scan_chain::Chains;
use std::marker::Model;
use tester_types::Text;
use wave_tables::WaveSet;

/// An executive: its name and line, its tables, its chains, and the flat trees of its patterns in running order, up to
/// the first with a Stop. A contract sees it as plain data of the language.
#[derive(Drop)]
pub struct Exec<'a> {
    pub(crate) name: Text,
    pub(crate) line: u32,
    pub(crate) tables: WaveSet,
    pub(crate) chains: Chains,
    pub(crate) titles: Vec<BlockTitles<'a>>,
    pub(crate) flats: Vec<FlatList>,
}

impl<'a> Model for Exec<'a> {
    ghost use Rattle.stil_ast.specs.Meaning.ExecutiveData.{Executive};
    ghost use Rattle.burst_exec.specs.Held.{trees_in, AreEven};

    ghost Value = { Executive };

    ghost use Rattle.std.specs.Coded.{codes};
    ghost use Rattle.flat_tree.specs.FlatCode.{flat_code};

    ghost coded = { Prim.hlevel (codes, flat_code) };

    ghost view = { λ e. record {
      name = e.name;
      line = e.line;
      tables = e.tables;
      chains = e.chains;
      trees = trees_in e.titles.items e.flats.items;
    } };

    ghost invariant = { λ e. AreEven e.titles.items e.flats.items };
}

impl<'a> Exec<'a> {
    /// Its name, empty where it has none.
    pub fn name(&self) -> &[u8]
        ensures { result.now ≡ self.now.name }
    {
        self.name.as_slice()
    }

    /// The line on which it begins.
    pub fn line(&self) -> u32
        ensures { result ≡ self.now.line }
    {
        self.line
    }

    /// Its waveform tables.
    pub fn tables(&self) -> &WaveSet
        ensures { result.now ≡ self.now.tables }
    {
        &self.tables
    }

    /// The flat trees of its patterns, in running order.
    pub fn flats(&self) -> &[FlatList]
        ensures { map (λ (t : Tree). t.flat) self.now.trees ≡ result.now }
    {
        self.flats.as_slice()
    }

    /// The names of the blocks in which the bodies of a pattern stand, by the number of its tree.
    pub fn titles(&self, tree: usize) -> BlockTitles<'a>
        requires { tree < length self.now.trees }
        ensures { option_map (λ (t : Tree). t.titles) (slice_get self.now.trees tree) ≡ Some (titles_in result) }
    {
        self.titles[tree]
    }

    /// Its name, its tables and its chains, to be kept elsewhere.
    pub fn into_parts(self) -> ExecParts
        ensures name { result.name ≡ self.entry.name }
        ensures tables { result.tables ≡ self.entry.tables }
        ensures chains { result.chains ≡ self.entry.chains }
    {
        let Exec {
            name,
            line: _,
            tables,
            chains,
            titles: _,
            flats: _,
        } = self;
        ExecParts {
            name,
            tables,
            chains,
        }
    }
}

/// What of an executive is kept in its code: its name, its tables and its chains.
#[derive(Drop)]
pub struct ExecParts {
    pub name: Text,
    pub tables: WaveSet,
    pub chains: Chains,
}

/// The executives of a text, in text order.
#[derive(Drop)]
pub struct ExecList<'a> {
    pub(crate) execs: Vec<Exec<'a>>,
}

impl<'a> Model for ExecList<'a> {
    ghost use Rattle.std.specs.Prelude.{List};
    ghost use Rattle.stil_ast.specs.Meaning.ExecutiveData.{Executive};

    ghost Value = { List Executive };

    ghost use Rattle.std.specs.Coded.{codes};
    ghost use Rattle.flat_tree.specs.FlatCode.{flat_code};

    ghost coded = { Prim.hlevel (codes, flat_code) };

    ghost view = { λ l. l.execs.items };
}

impl<'a> ExecList<'a> {
    /// The executives in text order, to be taken one by one.
    pub fn into_vec(self) -> Vec<Exec<'a>>
        ensures { result.items ≡ self.entry }
    {
        self.execs
    }
}
