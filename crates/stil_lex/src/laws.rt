//! Two laws of the definitions: a text has one reading.

ghost use Rattle.std.specs.Prelude.{◌≡◌, ℕ, List};
ghost use Rattle.stil_lex.specs.Tokens.{Reads};
ghost use Rattle.stil_lex.specs.Faults.{IsFault};
ghost use Rattle.stil_lex.specs.declared.token.Token.{Token};
ghost use Rattle.stil_lex.specs.declared.fault.LexFault.{LexFault};

/// The tokens of a text are one list.
pub fn one_token_list()
    ensures { (bytes : List ℕ) (tokens others : List Token) → Reads bytes tokens → Reads bytes others
        → tokens ≡ others }
{}

/// No text has both tokens and a fault.
pub fn tokens_or_fault()
    ensures { (bytes : List ℕ) (tokens : List Token) (fault : LexFault) → Reads bytes tokens → IsFault bytes fault → ⊥ }
{}
