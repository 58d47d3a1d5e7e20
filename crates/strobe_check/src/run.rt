//! The looks of a moment, signal after signal.

ghost use Rattle.std.specs.Prelude.{◌≡◌, ◌==◌, true};
ghost use Rattle.std.specs.List.{prefix_len};
ghost use Rattle.strobe_check.specs.Step.{Ascends, SplitsRun};

use tester_types::Look;

/// Whether the looks stand in the order of their signals.
pub(crate) fn are_sorted(looks: &[(u16, Look)]) -> bool
    ensures { result ≡ true → Ascends 0 looks.now }
{
    let mut least = 0;
    for (signal, _) in looks {
        if *signal < least {
            return false;
        }
        least = *signal;
    }
    true
}

/// How many looks at the front are at this signal.
fn run_len(looks: &[(u16, Look)], signal: u16) -> usize
    ensures { result ≡ prefix_len (λ look. look.0 == signal) looks.now }
{
    looks.iter().take_while(|look| look.0 == signal).count()
}

/// Two parts of looks: one with all looks at a signal, and one with all looks at later signals. Where the looks stand in the
/// order of their signals, from this one on, they are cut behind its last; else each part is all of them.
pub(crate) fn split_run(
    looks: &[(u16, Look)],
    sorted: bool,
    signal: u16,
) -> (&[(u16, Look)], &[(u16, Look)])
    ensures { SplitsRun sorted signal looks.now result.0.now result.1.now }
{
    if sorted {
        looks.split_at(run_len(looks, signal))
    } else {
        (looks, looks)
    }
}
