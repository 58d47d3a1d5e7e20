//! Laws of the definitions.
ghost use Rattle.std.specs.Prelude.{◌≡◌, ◌↔◌, ℕ, List, Option, length};
ghost use Rattle.tester_types.specs.declared.level.Level.{Level};
ghost use Rattle.tester_types.specs.declared.level.Drive.{Drive};
ghost use Rattle.bench_net.specs.Circuit.{Circuit, IsWhole};
ghost use Rattle.die_sim.specs.Die.{Device, State, HasOneSettling, IsFresh};
ghost use Rattle.die_sim.specs.Moment.{IsStep};
ghost use Rattle.die_sim.specs.Stepped.{first_state, stepped};

/// Each netlist has exactly one settling, whatever its inputs are driven to, its flip-flops keep and faults fix. Every
/// `Netlist` is whole, as its methods `nets` and `order` say, so this holds of each that `Netlist::read` accepts.
pub fn one_settling()
    ensures { (netlist : Circuit) → IsWhole netlist
        → (fixed : List (Option Level)) (held : List Level) → HasOneSettling netlist.net.drivers fixed held }
{}

/// A die that is loaded has one first state, `first_state`.
pub fn one_first_state()
    ensures { (device : Device) (state : State)
        → IsWhole device.circuit → IsFresh device state ↔ (state ≡ first_state device) }
{}

/// Each step has one next state, `stepped`, and keeps how many levels are held.
pub fn one_next_state()
    ensures next { (device : Device) (old new : State) (drives : List (ℕ × Drive)) → IsWhole device.circuit
        → length old.held ≡ length device.circuit.net.drivers
        → IsStep device old new drives ↔ (new ≡ stepped device old drives) }
    ensures size { (device : Device) (old new : State) (drives : List (ℕ × Drive))
        → IsStep device old new drives → length new.held ≡ length old.held }
{}
