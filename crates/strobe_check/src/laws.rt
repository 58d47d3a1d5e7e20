//! Laws of strobes.

ghost use Rattle.std.specs.Prelude.{◌≡◌, ◌↔◌, ◌<◌, ◌≤◌, ℕ, true, List, length};
ghost use Rattle.tester_types.specs.declared.wave.Look.{Look};
ghost use Rattle.strobe_check.specs.Look.{is_window};
ghost use Rattle.strobe_check.specs.Entry.{Entry};
ghost use Rattle.strobe_check.specs.Extent.{until_look, inside_last, has_place, behind, HasNoLook};
ghost use Rattle.strobe_check.specs.Agree.{SensedLevelsDecide};

/// The fails of a cycle depend on the levels of sensed signals alone: two lists of entries that agree in
/// everything but the levels of signals that aren't sensed have the same fails and the same open windows.
pub fn sensed_levels_decide()
    ensures { SensedLevelsDecide }
{}

/// Where the last look of an entry at a signal is a window, an entry is inside its extent exactly where it is that entry or
/// a later one, and no entry behind that one, up to it, has a look at the signal.
pub fn window_extent()
    ensures { (signal : ℕ) (look : Look) (entries : List Entry) (opens place : ℕ) (d : Entry)
        → is_window look ≡ true → opens < length entries
        → (has_place place (inside_last look (opens, d) (until_look signal (behind opens entries))) ≡ true)
        ↔ ((opens ≤ place) × (place < length entries) × HasNoLook signal entries opens place) }
{}
