//! Laws of the language: what its definitions say, as a test engineer expects it.

ghost use Rattle.stil_ast.specs.Faults.CheckedLaws.{CheckedIsSteady, CheckedTreeAgrees, TreesAgree, VectorsAgree, MarkIsWalked, ConsumedIsWalked, SameTreesServe, TablesAreNumbered};
ghost use Rattle.stil_ast.specs.Meaning.GroupReading.{TermsAreSpelled};
ghost use Rattle.stil_ast.specs.Meaning.Laws.{LoopSplits, MacroIsItsBody, CallGivesBack, ShiftIsInOrder, ShiftUsesUp, SignalKeepsCharacter, CyclesFollow, FlatTreeAgrees, LineageFollows};

/// The items that are found in a group's text are those that it spells.
pub fn group_texts_are_spelled()
    ensures { TermsAreSpelled }
{}

/// A Loop of m + n runs is a Loop of m and then one of n.
pub fn loop_splits()
    ensures { LoopSplits }
{}

/// A Macro without arguments is its body, where the body takes no data and its calls go at most 63 deep.
pub fn macro_is_its_body()
    ensures { MacroIsItsBody }
{}

/// After a Call the table, the characters and the arguments are the caller's.
pub fn call_gives_back()
    ensures { CallGivesBack }
{}

/// A Shift of a signal's data shifts each character once, in order.
pub fn shift_is_in_order()
    ensures { ShiftIsInOrder }
{}

/// Behind a Shift of W, V and C nothing is left of the data of a signal that takes in it.
pub fn shift_uses_up()
    ensures { ShiftUsesUp }
{}

/// A signal that nothing assigns keeps its character, in each vector and behind the statements.
pub fn signal_keeps_character()
    ensures { SignalKeepsCharacter }
{}

/// Cycle k + 1 of an executive starts where cycle k ends.
pub fn cycles_follow()
    ensures { CyclesFollow }
{}

/// The flat tree of a pattern has the pattern's run, where no `#` and no Shift stands in a Loop of it or of a body that
/// runs in it.
pub fn flat_tree_agrees()
    ensures { FlatTreeAgrees }
{}

/// A table that leads into no cycle is made of the tables that it inherits, each behind its own, and then of itself.
pub fn lineage_follows()
    ensures { LineageFollows }
{}

/// In a pattern that is checked without a fault no `#` and no Shift stands in a Loop, nor in the bodies that run in it.
pub fn checked_is_steady()
    ensures { CheckedIsSteady }
{}

/// The flat tree of a pattern that is checked without a fault has the pattern's run.
pub fn checked_tree_agrees()
    ensures { CheckedTreeAgrees }
{}

/// The flat trees of an executive whose patterns are checked without a fault have its run, one after another.
pub fn trees_agree()
    ensures { TreesAgree }
{}

/// Plain data with an executive's flat trees have its vectors, where its patterns are checked without a fault.
pub fn vectors_agree()
    ensures { VectorsAgree }
{}

/// The assignments of a statement that are checked without a fault take at most as many characters of a signal as signals
/// are walked; so the mark of the statement is at most what was walked.
pub fn mark_is_walked()
    ensures { MarkIsWalked }
{}

/// The statements of a body that are checked without a fault take at most as many characters of a signal as are walked.
pub fn consumed_is_walked()
    ensures { ConsumedIsWalked }
{}

/// Flat trees that are as good, as where overwritten assignments are dropped, give the same vectors, fault and measure,
/// and take as few instructions.
pub fn same_trees_serve()
    ensures { SameTreesServe }
{}

/// Under its number in the code stands the table of the executive.
pub fn tables_are_numbered()
    ensures { TablesAreNumbered }
{}
