//! Laws of the saved form.

ghost use Rattle.std.specs.Prelude.{◌≡◌, ◌++◌, [], List, ℕ};
ghost use Rattle.page_code.specs.declared.version.Version.{Version};
ghost use Rattle.packed_code.specs.Program.{Program};
ghost use Rattle.packed_code.specs.Conditions.{IsProgram};
ghost use Rattle.page_code.specs.Spelling.{program};
ghost use Rattle.page_code.specs.Saved.{SavedIn};

/// No spelling of a code begins a spelling of any code but its own in the same version, and that is no longer.
pub fn no_spelling_begins_another()
    ensures { (version later : Version) (code other : Program) (bytes longer rest : List ℕ)
        → SavedIn version code bytes → SavedIn later other longer → longer ≡ bytes ++ rest
        → (later ≡ version) × (other ≡ code) × (rest ≡ []) }
{}

/// Each code has a spelling in each version, and no second one in that version.
pub fn one_spelling()
    ensures some { (version : Version) (code : Program) → IsProgram code → SavedIn version code (program version code) }
    ensures one { (version : Version) (code : Program) (bytes other : List ℕ)
        → SavedIn version code bytes → SavedIn version code other → bytes ≡ other }
{}
