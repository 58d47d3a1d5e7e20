//! The cycles of an executive, played one after another.

ghost use Rattle.std.specs.Prelude.{◌≡◌, ℕ, ◌+◌, ◌≤◌, length, take, drop, OnOk, IfOk, IfErr};
ghost use Rattle.cycle_run.specs.Setup.{IsSetUp, code_in};
ghost use Rattle.cycle_run.specs.Play.{PlaysUpTo};

use crate::feed::Feed;
use crate::player::Player;
use crate::setup::Setup;
use crate::stop::Stop;

/// Plays so many cycles that a feed gives, or fewer where there is enough, and answers how many.
pub fn play_cycles<F: Feed, P: Player>(
    setup: &Setup,
    feed: &mut F,
    player: &mut P,
    exec: u16,
    cycles: u64,
) -> Result<u64, Stop>
    requires set_up { IsSetUp setup.now }
    requires can { F.can (code_in setup.now) feed.old }
    requires some { cycles ≤ length (F.coming (code_in setup.now) feed.old) }
    requires ready { P.ready setup.now cycles player.old }
    ensures plays { IfOk result (λ count. PlaysUpTo (P.plays setup.now exec) (P.done setup.now.until)
        (F.coming (code_in setup.now) feed.old) cycles count player.old player.new) }
    ensures left { IfOk result (λ count. F.coming (code_in setup.now) feed.new
        ≡ drop count (F.coming (code_in setup.now) feed.old)) }
    ensures can { OnOk result (F.can (code_in setup.now) feed.new) }
    ensures ready { OnOk result ((more : ℕ) → P.ready setup.now (more + cycles) player.old
        → P.ready setup.now more player.new) }
    ensures stops { IfErr result (λ why. P.stops setup.now exec
        (take cycles (F.coming (code_in setup.now) feed.old)) player.old player.new why) }
    ensures keeps { F.keeps feed.old feed.new }
{
    for count in 0..cycles {
        let cycle = match feed.give(setup.code) {
            Ok(cycle) => cycle,
            Err(_) => return Err(Stop::NoMemory),
        };
        match player.play(setup, exec, cycle) {
            Ok(()) => {}
            Err(stop) => return Err(stop),
        }
        if player.is_done(setup.until) {
            return Ok(count + 1);
        }
    }
    Ok(cycles)
}
