//! The signals of a program, bound to the nets of netlists.
ghost use Rattle.std.specs.Prelude.{◌≡◌, ◌<◌, false, None, Some, map, length, replicate, slice_index_or, IfOk, OnOk, Ok, [], ◌∷◌, ◌++◌};
ghost use Rattle.std.specs.Option.{option_map};
ghost use Rattle.std.specs.Arc.{arc_value};
ghost use Rattle.bench_net.specs.Circuit.{number, IsWhole};
ghost use Rattle.die_sim.specs.declared.image.Bind.{Bind};
ghost use Rattle.plan_rows.specs.declared.fault.PlanFault.TheVariants as refused;
ghost use Rattle.lot_plan.specs.Binds.{is_input, is_output, as_input, as_output, bind_as, bind_to, binds_of, unbound_in, IsMarkable, Marks};
ghost use Rattle.plan_rows.specs.Plan.{Answers};
ghost use Rattle.lot_plan.specs.Refusal.{first_unbound, AreBindings};
ghost use Rattle.lot_plan.specs.Views.{needed_by};

use crate::pin::{Pin, Role};
use bench_net::Netlist;
use die_sim::{Bind, BindList, Binding};
use plan_rows::PlanFault;
use std::alloc::Global;
use std::sync::Arc;
use tester_types::{Items, NoMemory};

/// The number of a net, or how many there are where none has the name.
pub(crate) fn net_number(net: &Netlist, name: &[u8]) -> u32
    ensures { result ≡ number net.now.net.names name.now }
{
    let nets = net.nets();
    match net.net(name) {
        Some(number) => number,
        None => nets,
    }
}

/// Whether a netlist has an input of this number.
fn is_input(net: &Netlist, number: u32) -> bool
    ensures { result ≡ is_input net.now number }
{
    number < net.nets() && net.is_input(number)
}

/// Whether a netlist has an output of this number.
fn is_output(net: &Netlist, number: u32) -> bool
    ensures { result ≡ is_output net.now number }
{
    number < net.nets() && net.is_output(number)
}

/// Whether a signal drives the net.
fn is_driven(driven: &[bool], number: u32) -> bool
    ensures { result ≡ slice_index_or driven.now number false }
{
    driven.get(number as usize).copied().unwrap_or(false)
}

/// The input of this number, unless another signal drives it.
fn as_input(net: &Netlist, driven: &[bool], number: u32) -> Option<Bind>
    ensures { result ≡ as_input net.now (λ n. slice_index_or driven.now n false) number }
{
    if is_input(net, number) && !is_driven(driven, number) {
        Some(Bind::Input(number))
    } else {
        None
    }
}

/// The output of this number.
fn as_output(net: &Netlist, number: u32) -> Option<Bind>
    ensures { result ≡ as_output net.now number }
{
    if is_output(net, number) {
        Some(Bind::Output(number))
    } else {
        None
    }
}

/// How a signal is bound to the net of this number, if it fits.
fn bind_as(net: &Netlist, driven: &[bool], role: Role, number: u32) -> Option<Bind>
    ensures { result ≡ bind_as net.now (λ n. slice_index_or driven.now n false) role number }
{
    match role {
        Role::Nothing => Some(Bind::Free),
        Role::Clock => Some(as_input(net, driven, number).unwrap_or(Bind::Free)),
        Role::Input => as_input(net, driven, number),
        Role::Output => as_output(net, number),
        Role::Either if is_input(net, number) => as_input(net, driven, number),
        Role::Either => as_output(net, number),
    }
}

/// How a signal is bound, if it can be.
fn bind_to(net: &Netlist, driven: &[bool], pin: &Pin<'_>) -> Option<Bind>
    ensures { result
        ≡ bind_to net.now (λ n. slice_index_or driven.now n false) (needed_by pin.now).role (needed_by pin.now).net }
{
    match pin.net {
        Some(name) => bind_as(net, driven, pin.role, net_number(net, name)),
        None => Some(Bind::Free),
    }
}

/// The bind, or else the refusal of the signal of this name.
fn bind_or(alloc: Global, bind: Option<Bind>, name: &[u8]) -> Result<Bind, PlanFault>
    ensures { Answers (λ b. bind ≡ Some b) (λ e. (bind ≡ None) × (e ≡ refused.Unbound name.now)) result }
{
    match bind {
        Some(bind) => Ok(bind),
        None => Err(PlanFault::Unbound(Items::from_slice(alloc, name)?)),
    }
}

/// Marks the net that a signal drives.
fn mark(driven: &mut Vec<bool>, bind: Bind)
    requires { IsMarkable (length driven.old.items) bind }
    ensures { Marks driven.old.items driven.new.items bind }
{
    if let Bind::Input(number) = bind {
        driven[number as usize] = true;
    }
}

/// Binds the next signal, and marks the net that it drives.
fn next_bind(
    alloc: Global,
    net: &Netlist,
    driven: &mut Vec<bool>,
    pin: &Pin<'_>,
) -> Result<Bind, PlanFault>
    requires whole { IsWhole net.now }
    requires nets { length driven.old.items ≡ length net.now.net.names }
    ensures count { length driven.new.items ≡ length driven.old.items }
    ensures bind { Answers
        (λ b. (bind_to net.now (λ n. slice_index_or driven.old.items n false) (needed_by pin.now).role
        (needed_by pin.now).net ≡ Some b)
        × Marks driven.old.items driven.new.items b)
        (λ e. (bind_to net.now (λ n. slice_index_or driven.old.items n false) (needed_by pin.now).role
        (needed_by pin.now).net ≡ None) × (e ≡ refused.Unbound pin.now.name.now))
        result }
{
    let bind = bind_or(alloc, bind_to(net, driven, pin), pin.name)?;
    mark(driven, bind);
    Ok(bind)
}

/// Marks for so many nets, none of them driven.
fn no_marks(alloc: Global, nets: u32) -> Result<Vec<bool>, NoMemory>
    ensures { IfOk result (λ marks. marks.items ≡ replicate nets false) }
{
    let mut marks = Vec::new(alloc);
    for _ in 0..nets {
        marks.push(false)?;
    }
    Ok(marks)
}

/// Puts a bind behind the others.
fn add_bind(binds: &mut Vec<Bind>, bind: Bind) -> Result<(), NoMemory>
    ensures { OnOk result (binds.new.items ≡ binds.old.items ++ bind ∷ []) }
{
    binds.push(bind)?;
    Ok(())
}

/// How the signals are bound to a netlist, which is whole, or the refusal of the first that has no net.
fn binds_of(alloc: Global, net: &Netlist, pins: &[Pin<'_>]) -> Result<BindList, PlanFault>
    ensures { Answers
        (λ binds. (binds_of net.now (map needed_by pins.now) ≡ Ok binds) × IsWhole net.now)
        (λ e. option_map refused.Unbound (unbound_in (binds_of net.now (map needed_by pins.now))) ≡ Some e)
        result }
{
    let mut driven = no_marks(alloc, net.nets())?;
    let mut binds = Vec::new(alloc);
    for pin in pins {
        let bind = next_bind(alloc, net, &mut driven, pin)?;
        add_bind(&mut binds, bind)?;
    }
    Ok(Items::from_vec(binds))
}

/// The binding of a clock and binds, to be shared.
fn shared(alloc: Global, clock: Option<u16>, nets: BindList) -> Result<Arc<Binding>, NoMemory>
    ensures { IfOk result (λ binding. arc_value binding ≡ record { clock = clock; nets = nets }) }
{
    Ok(Arc::new(alloc, Binding { clock, nets })?)
}

/// Puts a binding behind the others.
fn add_binding(bindings: &mut Vec<Arc<Binding>>, binding: Arc<Binding>) -> Result<(), NoMemory>
    ensures { OnOk result (bindings.new.items ≡ bindings.old.items ++ binding ∷ []) }
{
    bindings.push(binding)?;
    Ok(())
}

/// How the signals are bound to each netlist, or the refusal of the first that has no net.
pub(crate) fn bindings_of(
    alloc: Global,
    nets: &[Arc<Netlist>],
    pins: &[Pin<'_>],
    clock: Option<u16>,
) -> Result<Vec<Arc<Binding>>, PlanFault>
    ensures { Answers
        (λ bindings. AreBindings (map arc_value nets.now) (map needed_by pins.now) clock (map arc_value bindings.items))
        (λ e. option_map refused.Unbound (first_unbound (map needed_by pins.now) (map arc_value nets.now)) ≡ Some e)
        result }
{
    let mut bindings = Vec::new(alloc);
    for net in nets {
        let binds = binds_of(alloc, net, pins)?;
        let binding = shared(alloc, clock, binds)?;
        add_binding(&mut bindings, binding)?;
    }
    Ok(bindings)
}
