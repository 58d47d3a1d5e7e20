//! The typed data of STIL blocks, and what patterns mean (IEEE 1450-1999).
#![tactic(auto)]

mod arguments;
mod assignment_list;
mod blocks;
mod body;
mod data;
mod executive;
mod fault;
mod laws;
mod name;
mod scan;
mod signal;
mod timing;
mod variable;

pub use arguments::ArgumentList;
pub use assignment_list::{AssignmentCursor, AssignmentList, AssignmentParts, RefKind};
pub use blocks::{Blocks, BodyDef, BodyDefList, DefBlock, DefBlockList, Pattern, PatternList};
pub use body::{Assignment, PatAction, PatBody, PatStmt, Step};
pub use data::{ItemRun, VecItem, VecText};
pub use executive::{
    Burst, BurstItem, BurstItemList, BurstList, BurstWord, ExecDecl, ExecDeclList,
};
pub use fault::{StilFault, StilKind, StilRefusal, told};
pub use laws::{
    call_gives_back, checked_is_steady, checked_tree_agrees, consumed_is_walked, cycles_follow,
    flat_tree_agrees, group_texts_are_spelled, lineage_follows, loop_splits, macro_is_its_body,
    mark_is_walked, same_trees_serve, shift_is_in_order, shift_uses_up, signal_keeps_character,
    tables_are_numbered, trees_agree, vectors_agree,
};
pub use name::{IndexRange, NameRef, Named, NamedList, Quoted, SigRef, WordList};
pub use scan::{
    CellDecl, CellDeclList, CellsDecl, ChainDecl, ChainDeclList, ChainStmt, ChainStmtList,
    ScanBlock, ScanBlockList,
};
pub use signal::{
    GroupBlock, GroupBlockList, GroupDecl, GroupDeclList, SignalDecl, SignalDeclList,
};
pub use tester_types::Direction;
pub use timing::{
    ActList, EventDecl, EventDeclList, SignalWaves, SignalWavesList, TableDecl, TableDeclList,
    TimingBlock, TimingBlockList, WaveDecl, WaveDeclList,
};
pub use variable::{
    Category, CategoryList, Choice, Choices, Selection, SelectionList, Selector, SelectorList,
    SpecBlock, SpecBlockList, VariableDecl, VariableDeclList, VariableValue,
};
