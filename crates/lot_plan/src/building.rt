//! The dies of a plan with all that their tries load.
ghost use Rattle.std.specs.Prelude.{◌≡◌, ◌<◌, ℕ, map, length, slice_index_or, IfOk};
ghost use Rattle.std.specs.Arc.{arc_value};
ghost use Rattle.text_bytes.specs.Texts.{behind};
ghost use Rattle.die_sim.specs.Die.{IsSound};
ghost use Rattle.lot_plan.specs.Bound.{numbered, is_active, active_at, loaded};
ghost use Rattle.lot_plan.specs.Building.{AreImages, circuit_no, binding_no, IsReady, IsBuilt, IsSiteReady, IsSiteBuilt, AreReady, AreBuilt};

use crate::bindings::net_number;
use crate::bound_die::{BoundDie, DieFault};
use crate::groups::{DieGroup, SiteGroup};
use bench_net::Netlist;
use die_sim::{Binding, DieImage, FaultList, StuckAt};
use plan_rows::FaultRow;
use std::alloc::Global;
use std::sync::Arc;
use tester_types::{Items, NoMemory};

/// A fault row by the number of its net.
fn numbered(net: &Netlist, row: &FaultRow) -> DieFault
    ensures { result ≡ numbered net.now row.now }
{
    DieFault {
        stuck: StuckAt {
            net: net_number(net, row.net.as_slice()),
            value: row.value,
        },
        tries: row.tries,
    }
}

/// Fault rows by the numbers of their nets.
fn numbered_rows(
    alloc: Global,
    net: &Netlist,
    rows: &[&FaultRow],
) -> Result<Vec<DieFault>, NoMemory>
    ensures { IfOk result (λ faults. faults.items ≡ map (numbered net.now) (behind rows.now)) }
{
    let mut faults = Vec::new(alloc);
    for row in rows {
        faults.push(numbered(net, row))?;
    }
    Ok(faults)
}

/// Whether a fault is active in the try of this number.
fn is_active(fault: &DieFault, number: u8) -> bool
    ensures { result ≡ is_active number fault.now }
{
    match fault.tries {
        Some(tries) => number <= tries,
        None => true,
    }
}

/// The faults that are active in the try of this number.
fn active_at(alloc: Global, faults: &[DieFault], number: u8) -> Result<FaultList, NoMemory>
    ensures { IfOk result (λ active. active ≡ active_at number faults.now) }
{
    let mut active = Vec::new(alloc);
    for fault in faults {
        if is_active(fault, number) {
            active.push(fault.stuck)?;
        }
    }
    Ok(Items::from_vec(active))
}

/// What is loaded: a netlist, its binding and faults.
fn image(net: &Arc<Netlist>, bind: &Arc<Binding>, faults: FaultList) -> Result<DieImage, NoMemory>
    requires { IsSound (record {
      circuit = arc_value net.now;
      clock = (arc_value bind.now).clock;
      binds = (arc_value bind.now).nets;
      faults = faults;
    }) }
    ensures { IfOk result (λ image. image ≡ record {
      circuit = arc_value net.now;
      clock = (arc_value bind.now).clock;
      binds = (arc_value bind.now).nets;
      faults = faults;
    }) }
{
    let net = Arc::try_clone(net)?;
    let bind = Arc::try_clone(bind)?;
    Ok(DieImage { net, bind, faults })
}

/// What is loaded for the try of this number.
fn image_at(
    alloc: Global,
    net: &Arc<Netlist>,
    bind: &Arc<Binding>,
    faults: &[DieFault],
    number: u8,
) -> Result<DieImage, NoMemory>
    requires { IsSound (loaded (arc_value net.now) (arc_value bind.now) number faults.now) }
    ensures { IfOk result (λ image. image ≡ loaded (arc_value net.now) (arc_value bind.now) number faults.now) }
{
    image(net, bind, active_at(alloc, faults, number)?)
}

/// What is loaded for each of so many tries.
fn images(
    alloc: Global,
    net: &Arc<Netlist>,
    bind: &Arc<Binding>,
    faults: &[DieFault],
    tries: u8,
) -> Result<Items<DieImage>, NoMemory>
    requires { (number : ℕ) → IsSound (loaded (arc_value net.now) (arc_value bind.now) number faults.now) }
    ensures { IfOk result (λ images. AreImages (arc_value net.now) (arc_value bind.now) faults.now tries images) }
{
    let mut images = Vec::new(alloc);
    for before in 0..tries {
        images.push(image_at(alloc, net, bind, faults, before + 1)?)?;
    }
    Ok(Items::from_vec(images))
}

/// A die with all that its tries load.
fn bound_die(
    alloc: Global,
    group: &DieGroup<'_>,
    net: &Arc<Netlist>,
    bind: &Arc<Binding>,
    tries: u8,
) -> Result<BoundDie, NoMemory>
    requires { (number : ℕ) →
        IsSound (loaded (arc_value net.now) (arc_value bind.now) number
        (map (numbered (arc_value net.now)) group.now.faults)) }
    ensures { IfOk result (λ die. IsBuilt (arc_value net.now) (arc_value bind.now) tries group.now die) }
{
    let faults = numbered_rows(alloc, net, group.faults())?;
    let images = images(alloc, net, bind, &faults, tries)?;
    Ok(BoundDie {
        name: Items::from_slice(alloc, group.die().name.as_slice())?,
        file: group.file(),
        images,
        stops: Items::from_slice(alloc, group.stops())?,
    })
}

/// The die of these rows, by the netlist and the binding of its file.
fn die_of(
    alloc: Global,
    group: &DieGroup<'_>,
    nets: &[Arc<Netlist>],
    bindings: &[Arc<Binding>],
    tries: u8,
) -> Result<BoundDie, NoMemory>
    requires { IsReady (map arc_value nets.now) (map arc_value bindings.now) group.now }
    ensures { IfOk result (λ die. IsBuilt (circuit_no (map arc_value nets.now) group.now.file)
        (binding_no (map arc_value bindings.now) group.now.file) tries group.now die) }
{
    let file = group.file();
    bound_die(alloc, group, &nets[file], &bindings[file], tries)
}

/// The dies of a site.
fn site_dies(
    alloc: Global,
    site: &[DieGroup<'_>],
    nets: &[Arc<Netlist>],
    bindings: &[Arc<Binding>],
    tries: u8,
) -> Result<Items<BoundDie>, NoMemory>
    requires { IsSiteReady (map arc_value nets.now) (map arc_value bindings.now) site.now }
    ensures { IfOk result
        (λ dies. IsSiteBuilt (map arc_value nets.now) (map arc_value bindings.now) tries site.now dies) }
{
    let mut dies = Vec::new(alloc);
    for group in site {
        dies.push(die_of(alloc, group, nets, bindings, tries)?)?;
    }
    Ok(Items::from_vec(dies))
}

/// The dies of all sites.
pub(crate) fn dies_of(
    alloc: Global,
    sites: &[SiteGroup<'_>],
    nets: &[Arc<Netlist>],
    bindings: &[Arc<Binding>],
    tries: u8,
) -> Result<Items<Items<BoundDie>>, NoMemory>
    requires { AreReady (map arc_value nets.now) (map arc_value bindings.now) sites.now }
    ensures { IfOk result
        (λ dies. AreBuilt (map arc_value nets.now) (map arc_value bindings.now) tries sites.now dies) }
{
    let mut dies = Vec::new(alloc);
    for site in sites {
        dies.push(site_dies(alloc, site.as_slice(), nets, bindings, tries)?)?;
    }
    Ok(Items::from_vec(dies))
}
