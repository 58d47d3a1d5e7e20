//! Laws of saved programs: of their refusals, and of their length.

ghost use Rattle.std.specs.Prelude.{◌≡◌, ◌<◌, ◌≤◌, ◌∷◌, ◌++◌, length, take, List, ℕ, Err};
ghost use Rattle.page_code.specs.declared.fault.SavedFault.TheVariants.{BadMagic, BadVersion, Torn, BadCode};
ghost use Rattle.packed_code.specs.Program.{Program};
ghost use Rattle.page_code.specs.Saved.{Saved};
ghost use Rattle.page_code.specs.Reading.{load_of};
ghost use Rattle.saved_laws.specs.Laws.{HasRefusedField, HasRefusedHead, AgreeUpTo};
ghost use Rattle.saved_laws.specs.Size.{SavedIsShort};

/// A condition that fails is refused at a field: nothing before the field's end is refused, and whatever stands behind it
/// changes nothing.
pub fn refused_at_a_field()
    ensures { (bytes : List ℕ) (place : ℕ) → load_of bytes ≡ Err (BadCode place) → HasRefusedField bytes place }
{}

/// All bytes that agree with refused ones up to the end of the refused field have the same refusal.
pub fn same_up_to_the_field()
    ensures { (bytes : List ℕ) (place : ℕ) → load_of bytes ≡ Err (BadCode place) → AgreeUpTo bytes place }
{}

/// Other first bytes are refused for at most four bytes, whatever stands behind them.
pub fn other_first_bytes()
    ensures { (bytes : List ℕ) → load_of bytes ≡ Err BadMagic → HasRefusedHead bytes 4 BadMagic }
{}

/// Another version is refused for at most six bytes, whatever stands behind them.
pub fn other_version()
    ensures { (bytes : List ℕ) → load_of bytes ≡ Err BadVersion → HasRefusedHead bytes 6 BadVersion }
{}

/// Torn bytes are torn where they end, and so are all their beginnings.
pub fn torn_at_the_end()
    ensures { (bytes : List ℕ) (size : ℕ) → load_of bytes ≡ Err (Torn size)
        → (size ≡ length bytes) × ((n : ℕ) → n ≤ length bytes → load_of (take n bytes) ≡ Err (Torn n)) }
{}

/// A saved program is torn wherever it ends sooner, and refused at its end where more stands behind it.
pub fn no_shorter_no_longer()
    ensures { (bytes : List ℕ) (code : Program) → Saved code bytes
        → ((n : ℕ) → n < length bytes → load_of (take n bytes) ≡ Err (Torn n))
        × ((byte : ℕ) (more : List ℕ) → load_of (bytes ++ byte ∷ more) ≡ Err (BadCode (length bytes))) }
{}

/// No saved form takes more bytes than the numbers of its code say.
pub fn saved_is_short()
    ensures { SavedIsShort }
{}
