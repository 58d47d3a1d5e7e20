//! Laws of the flat text of a code as statements.

ghost use Rattle.std.specs.Prelude.{◌≡◌, ℕ, true, false, List, []};
ghost use Rattle.stil_lex.specs.Tokens.{Reads};
ghost use Rattle.stil_lex.specs.declared.token.Token.{Token};
ghost use Rattle.stil_tree.specs.Grammar.{Parses};
ghost use Rattle.stil_tree.specs.Trees.{Trees};
ghost use Rattle.stil_form.specs.Lexeme.{lexemes_of};
ghost use Rattle.stil_ast.specs.declared.fault.StilKind.TheVariants.{TooDeep};
ghost use Rattle.stil_ast.specs.declared.fault.StilFault.{StilFault};
ghost use Rattle.stil_program.specs.StatementFaults.{IsStatementFault};
ghost use Rattle.packed_code.specs.Program.{Program};
ghost use Rattle.packed_code.specs.Conditions.{IsProgram};
ghost use Rattle.line_texts.specs.Said.{trees_at};
ghost use Rattle.line_texts.specs.Tests.{fits};
ghost use Rattle.line_texts.specs.Lexemes.{lexemes_in};
ghost use Rattle.flat_parts.specs.FlatText.{flat_text, has_plain_names};
ghost use Rattle.flat_parts.specs.Nests.{Nest};
ghost use Rattle.flat_said.specs.FlatSaid.{flat_said};
ghost use Rattle.flat_said.specs.Laws.{AreNests, flat_pieces, flat_tokens};

/// The instructions of a code nest.
pub fn nests_are_there()
    ensures { (code : Program) → IsProgram code → (nests : ℕ → Nest) × AreNests code nests }
{}

/// The flat text of a code has the tokens of its statements.
pub fn text_is_said()
    ensures { (code : Program) (nests : ℕ → Nest) → IsProgram code → has_plain_names code ≡ true → AreNests code nests
        → Reads (flat_text code) (flat_tokens code nests) }
{}

/// What readers of forms see of these tokens.
pub fn lexemes_are_said()
    ensures { (code : Program) (nests : ℕ → Nest) → IsProgram code → has_plain_names code ≡ true → AreNests code nests
        → lexemes_of (flat_text code) (flat_tokens code nests) ≡ lexemes_in (flat_pieces code nests) }
{}

/// The tokens are the statements, where these do not nest too deep.
pub fn said_are_statements()
    ensures { (code : Program) (nests : ℕ → Nest) → fits 0 (flat_said code nests) ≡ true
        → Parses (flat_tokens code nests) (trees_at 0 (flat_said code nests)) }
{}

/// Where they nest too deep, the tokens are no statements.
pub fn deep_has_no_statements()
    ensures { (code : Program) (nests : ℕ → Nest) → fits 0 (flat_said code nests) ≡ false → (forest : Trees)
        → Parses (flat_tokens code nests) forest → ⊥ }
{}

/// Then their fault is that they do.
pub fn deep_is_refused()
    ensures { (code : Program) (nests : ℕ → Nest) → fits 0 (flat_said code nests) ≡ false
        → (bytes : List ℕ) (fault : StilFault) → IsStatementFault bytes (flat_tokens code nests) fault
        → fault.kind ≡ TooDeep }
{}
