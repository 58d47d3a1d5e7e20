//! What a pass answers: its value, or its first fault, or want of memory; and items read one after another up to the first fault in
//! their order: the law that all readers share.
#![tactic(auto)]

ghost use Rattle.std.specs.Prelude.{◌≡◌, ◌↔◌, List, Result, Err};
ghost use Rattle.answers.specs.Reading.{reading, stepping, IsFirst, IsFirstStep};

mod short;

pub use short::Short;

/// Items are refused with a fault exactly where a first refused item has it: those before it are read.
pub fn first_refused<T, E, F>()
    ensures { (judge : List T → E → Result T F) (before : List T) (es : List E) (fault : F) →
        (reading judge before es ≡ Err fault) ↔ IsFirst judge before es fault }
{}

/// The same, where each item moves a state on.
pub fn first_step_refused<S, E, F>()
    ensures { (step : S → E → Result S F) (state : S) (es : List E) (fault : F) →
        (stepping step state es ≡ Err fault) ↔ IsFirstStep step state es fault }
{}
