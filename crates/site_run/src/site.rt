//! One site of a tester: its tries and touchdowns, batch by batch.

ghost use Rattle.std.specs.Prelude.{◌≡◌, ◌==◌, ◌↔◌, ℕ, ◌+◌, ◌<◌, ◌≤◌, true, false, Option, Some, None, IsTrue, IfOk, OnOk, OnErr, IfSome, length, nat_lt, if◌then◌else◌};
ghost use Rattle.tester_types.specs.Outside.{HasRisen};
ghost use Rattle.die_sim.specs.Socket.{Told};
ghost use Rattle.plan_rows.specs.Rows.{sites_of, lot_of, dies_at};
ghost use Rattle.site_meaning.specs.Part.{Part, part_of};
ghost use Rattle.site_meaning.specs.Polls.{Seat, first_seat, with_word, with_trial, before_batch, poll};
ghost use Rattle.packed_code.specs.Cycles.{cycles_of};
ghost use Rattle.die_sim.specs.Die.{device_of};
ghost use Rattle.lot_plan.specs.Bound.{image_of};
ghost use Rattle.std.specs.Option.{option_map};
ghost use Rattle.site_run.specs.declared.site.BatchEnd.TheVariants as BatchEnd;
ghost use Rattle.site_run.specs.Taped.{IsTaped, calls_of_next};
ghost use Rattle.site_run.specs.Seat.{running_of, IsRunOn, IsMove, contact_of, HasMoved};
ghost use Rattle.site_run.specs.Touchdown.{IsIdle, IsTouchdown, RunsPolls};
ghost use Rattle.site_run.specs.Site.{seat_of, try_of, IsSiteOf, IsSeatOf, taken_with, Works, Leaves, Advances, OutcomeFits, Steps, IsPolled, without_record, end_of};

use crate::arrival::{Arrival, arrive};
use crate::fault::SiteFault;
use crate::run::{Move, Run, run_batch};
use crate::state::SiteState;
use crate::station::{Ground, Station};
use crate::task::Task;
use crate::trial::{Outcome, is_ordered, is_tried_again, outcome_of, without_cycles};
use die_sim::Socket;
use edge_gen::{HELD_SCHEDULES, Schedules};
use lot_plan::BoundPlan;
use pattern_mem::{PatternMem, PoolPass};
use std::alloc::Global;
use std::mem;
use std::sync::Wait;
use tester_types::{By, Items, NoMemory, Record, Trial, Verdict};

/// How far a batch came.
#[derive(Clone, Copy, Debug, PartialEq, Eq)]
pub enum BatchEnd {
    /// The executive goes on.
    More,
    /// The executive has ended, and the try goes on.
    ExecDone,
    /// The try has ended.
    TryDone,
}

/// One site of a tester.
#[derive(Drop)]
pub struct Site {
    alloc: Global,
    site: u8,
    pass: PoolPass,
    schedules: Schedules,
    state: SiteState,
    /// How many dies are planned.
    dies: u16,
    /// The die whose touchdown is next or under way.
    die: u16,
    /// The tries of it that have ended.
    trials: Vec<Trial>,
    running: Option<Run>,
    waiting: Option<Record>,
    spent: bool,
}

impl Site {
    /// A site of a bound plan, before its first touchdown.
    pub fn start(
        alloc: Global,
        mem: &PatternMem,
        pass: PoolPass,
        plan: &BoundPlan,
        site: u8,
    ) -> Result<Site, SiteFault>
        requires site { site < sites_of plan.now.rows }
        requires pass { pass ≡ mem.now }
        requires one_program { plan.now.program ≡ mem.now.code }
        ensures first { IfOk result (λ s. (word : ℕ) (told : Told) → seat_of word told s ≡ with_word first_seat word) }
        ensures is { IfOk result (λ s. (told : Told) → IsSiteOf mem.now plan.now told s) }
        ensures of { IfOk result (λ s. s.site ≡ site) }
        ensures idle { IfOk result (λ s. IsIdle s) }
        ensures spent { IfOk result (λ s. s.spent ≡ false) }
    {
        let _sites = plan.sites();
        Ok(Site {
            alloc,
            site,
            pass,
            schedules: Schedules::new(alloc, HELD_SCHEDULES)?,
            state: SiteState::new(),
            dies: plan.dies(site),
            die: 0,
            trials: Vec::new(alloc),
            running: None,
            waiting: None,
            spent: false,
        })
    }

    /// The record of a touchdown that has ended, if it wasn't taken before.
    pub fn take(&mut self) -> Option<Record>
        ensures record { result ≡ self.old.waiting }
        ensures rest { self.new ≡ without_record self.old }
    {
        mem::replace(&mut self.waiting, None)
    }

    /// Whether the touchdown of each planned die has ended.
    pub fn done(&self) -> bool
        ensures { IsTrue result ↔ (self.now.dies ≤ self.now.die) }
    {
        self.die >= self.dies
    }

    /// Whether an earlier call answered a fault.
    pub fn spent(&self) -> bool
        ensures { result ≡ self.now.spent }
    {
        self.spent
    }

    /// Ends a try: its die is tried again after a fail while tries are left, else its touchdown has ended.
    fn finish(&mut self, plan: &BoundPlan, trial: Trial) -> Result<(), NoMemory>
        requires within { self.old.site < sites_of plan.now.rows }
        requires tries { length self.old.trials.items < (lot_of plan.now.rows).tries }
        requires die { self.old.die < length (dies_at self.old.site plan.now.rows) }
        requires running { self.old.running ≡ None }
        ensures ended { OnOk result ((part : Part) (word : ℕ) (told : Told) → part ≡ part_of plan.now self.old.site
            → seat_of word told self.new ≡ with_trial part (seat_of word told self.old) trial) }
        ensures tries { OnOk result (length self.new.trials.items < (lot_of plan.now.rows).tries) }
        ensures running { self.new.running ≡ None }
        ensures site { self.new.site ≡ self.old.site }
        ensures pass { self.new.pass ≡ self.old.pass }
        ensures schedules { self.new.schedules ≡ self.old.schedules }
        ensures dies { self.new.dies ≡ self.old.dies }
        ensures spent { self.new.spent ≡ self.old.spent }
    {
        let _dies = plan.dies(self.site);
        let again = is_tried_again(&trial.verdict, self.trials.len(), plan.tries());
        self.trials.push(trial)?;
        if !again {
            let trials = mem::replace(&mut self.trials, Vec::new(self.alloc));
            let record = Record {
                site: self.site,
                die: self.die,
                trials: Items::from_vec(trials),
            };
            let _none = mem::replace(&mut self.waiting, Some(record));
            self.die += 1;
        }
        Ok(())
    }

    /// The number of the try that runs or is next.
    fn number(&self) -> u8
        requires { length self.now.trials.items < 255 }
        ensures { result ≡ try_of self.now }
    {
        self.trials.len() as u8 + 1
    }

    /// What comes of a try that stands before its next batch: a live stop ends it, else the plan's order does, else it runs.
    fn before_batch<R: Wait, K: Socket>(
        &mut self,
        task: &Task<R>,
        socket: &mut K,
        run: &mut Run,
    ) -> Result<Move, NoMemory>
        requires works { Works task.now (K.told socket.old) self.old }
        requires runs { IsRunOn task.now.mem.now.code
            (device_of (image_of task.now.plan.now self.old.site self.old.die (try_of self.old)))
            (K.told socket.old) run.old }
        requires more { run.old.done < length (cycles_of task.now.mem.now.code run.old.exec) }
        requires keep { run.old.at.bench.checker.count.keep ≡ (lot_of task.now.plan.now.rows).keep }
        ensures polled { IfOk result (λ move. (part : Part) (seat : Seat)
            → part ≡ part_of task.now.plan.now self.old.site → IsSeatOf task.now.stops self.old seat
            → IsMove (try_of self.old) (K.told socket.new) run.new move
            (before_batch part (contact_of move) seat (running_of (K.told socket.old) run.old))) }
        ensures moved { IfOk result (λ move. HasMoved task.now.mem.now.code
            (device_of (image_of task.now.plan.now self.old.site self.old.die (try_of self.old)))
            (K.told socket.new) run.old run.new move) }
        ensures tape { IfOk result (λ move. (part : Part) (seat : Seat)
            → part ≡ part_of task.now.plan.now self.old.site → IsSeatOf task.now.stops self.old seat
            → IsTaped (contact_of move) (calls_of_next part seat (running_of (K.told socket.old) run.old))
            (K.told socket.old).tape (K.told socket.new).tape) }
        ensures cause { IfOk result (λ move. IfSome (contact_of move)
            (λ _. HasRisen (K.told socket.old).count (K.told socket.new).count)) }
        ensures live { IfOk result (λ move. IfSome (contact_of move)
            (λ _. nat_lt self.old.state.taken task.now.stops ≡ false)) }
        ensures taken { self.new.state.taken ≡ taken_with task.now.stops self.old }
        ensures leaves { Leaves task.now (K.told socket.old) (K.told socket.new) self.old self.new }
        ensures running { self.new.running ≡ self.old.running }
    {
        let plan = task.plan;
        let number = self.number();
        if self.state.poll(task.stops) {
            return Ok(Move::Ends(Verdict::Stopped(run.batch, By::Desk(task.stops))));
        }
        if is_ordered(plan.stop(self.site, self.die, number), run.batch) {
            return Ok(Move::Ends(Verdict::Stopped(run.batch, By::Plan)));
        }
        let ground = Ground {
            alloc: self.alloc,
            mem: task.mem,
            image: plan.image(self.site, self.die, number),
            skews: plan.skews(self.site),
        };
        let mut station = Station {
            rt: task.rt,
            pass: &mut self.pass,
            schedules: &mut self.schedules,
            socket,
        };
        run_batch(&ground, &mut station, run, plan.batch())
    }

    /// Runs a try that stands before its next batch.
    fn go<R: Wait, K: Socket>(
        &mut self,
        task: &Task<R>,
        socket: &mut K,
        run: Run,
    ) -> Result<Outcome, NoMemory>
        requires works { Works task.now (K.told socket.old) self.old }
        requires runs { IsRunOn task.now.mem.now.code
            (device_of (image_of task.now.plan.now self.old.site self.old.die (try_of self.old)))
            (K.told socket.old) run }
        requires more { run.done < length (cycles_of task.now.mem.now.code run.exec) }
        requires keep { run.at.bench.checker.count.keep ≡ (lot_of task.now.plan.now.rows).keep }
        ensures advances { IfOk result (λ outcome. Advances task.now.plan.now task.now.stops self.old
            (K.told socket.old) (K.told socket.new) run outcome) }
        ensures fits { IfOk result (λ outcome. OutcomeFits task.now.mem.now task.now.plan.now
            (K.told socket.new) self.old outcome) }
        ensures taken { self.new.state.taken ≡ taken_with task.now.stops self.old }
        ensures leaves { Leaves task.now (K.told socket.old) (K.told socket.new) self.old self.new }
        ensures running { self.new.running ≡ self.old.running }
    {
        let mut run = run;
        match self.before_batch(task, socket, &mut run) {
            Ok(moved) => Ok(outcome_of(self.alloc, run, self.number(), moved)),
            Err(fault) => Err(fault),
        }
    }

    /// Loads the die of a try, and runs it up to the end of its first batch.
    fn begin<R: Wait, K: Socket>(
        &mut self,
        task: &Task<R>,
        socket: &mut K,
    ) -> Result<Outcome, NoMemory>
        requires works { Works task.now (K.told socket.old) self.old }
        requires none { self.old.running ≡ None }
        ensures steps { IfOk result (λ outcome. Steps task.now.plan.now task.now.stops self.old
            (K.told socket.old) (K.told socket.new) outcome self.new.state.taken) }
        ensures fits { IfOk result (λ outcome. OutcomeFits task.now.mem.now task.now.plan.now
            (K.told socket.new) self.old outcome) }
        ensures leaves { Leaves task.now (K.told socket.old) (K.told socket.new) self.old self.new }
        ensures running { self.new.running ≡ self.old.running }
    {
        let plan = task.plan;
        let number = self.number();
        let ground = Ground {
            alloc: self.alloc,
            mem: task.mem,
            image: plan.image(self.site, self.die, number),
            skews: plan.skews(self.site),
        };
        match arrive(&ground, plan.keep(), socket) {
            Ok(Arrival::Goes(run)) => self.go(task, socket, run),
            Ok(Arrival::Ends(verdict)) => {
                Ok(Outcome::Ends(without_cycles(self.alloc, number, verdict)))
            }
            Err(fault) => Err(fault),
        }
    }

    /// Runs the try that runs or is next up to the end of its next batch.
    fn advance<R: Wait, K: Socket>(
        &mut self,
        task: &Task<R>,
        socket: &mut K,
    ) -> Result<Outcome, NoMemory>
        requires works { Works task.now (K.told socket.old) self.old }
        ensures steps { IfOk result (λ outcome. Steps task.now.plan.now task.now.stops self.old
            (K.told socket.old) (K.told socket.new) outcome self.new.state.taken) }
        ensures fits { IfOk result (λ outcome. OutcomeFits task.now.mem.now task.now.plan.now
            (K.told socket.new) self.old outcome) }
        ensures leaves { Leaves task.now (K.told socket.old) (K.told socket.new) self.old self.new }
        ensures running { self.new.running ≡ None }
    {
        match self.running.take() {
            Some(run) => self.go(task, socket, run),
            None => self.begin(task, socket),
        }
    }

    /// Says that the site is spent.
    fn spend(&mut self) -> SiteFault
        ensures spent { self.new.spent ≡ true }
        ensures site { self.new.site ≡ self.old.site }
    {
        self.spent = true;
        SiteFault::NoMemory
    }

    /// Does one poll of the site: loads the die where no try runs, and does what follows up to the end of one batch. `stops` is
    /// how often the site was asked to stop.
    pub fn batch<R: Wait, K: Socket>(
        &mut self,
        rt: &R,
        mem: &PatternMem,
        plan: &BoundPlan,
        socket: &mut K,
        stops: u64,
    ) -> Result<BatchEnd, SiteFault>
        requires site { IsSiteOf mem.now plan.now (K.told socket.old) self.old }
        requires done { self.old.die < length (dies_at self.old.site plan.now.rows) }
        requires taken { self.old.waiting ≡ None }
        requires spent { self.old.spent ≡ false }
        ensures polled { OnOk result (IsPolled plan.now stops self.old self.new
            (K.told socket.old) (K.told socket.new)) }
        ensures end { IfOk result (λ e. (told : Told) → e ≡ end_of (option_map (running_of told) self.new.running)) }
        ensures is { OnOk result (IsSiteOf mem.now plan.now (K.told socket.new) self.new) }
        ensures ok { OnOk result (self.new.spent ≡ false) }
        ensures spent { OnErr result (self.new.spent ≡ true) }
        ensures number { OnOk result (self.new.site ≡ self.old.site) }
        ensures count { (K.told socket.old).count ≤ (K.told socket.new).count }
    {
        let task = Task {
            rt,
            mem,
            plan,
            stops,
        };
        let _sites = plan.sites();
        let _signals = mem.code().signals();
        match self.advance(&task, socket) {
            Ok(Outcome::Goes(run)) => {
                let end = end_of(run.done);
                let _none = self.running.replace(run);
                Ok(end)
            }
            Ok(Outcome::Ends(trial)) => {
                socket.unload();
                match self.finish(plan, trial) {
                    Ok(()) => Ok(BatchEnd::TryDone),
                    Err(_) => Err(self.spend()),
                }
            }
            Err(_) => Err(self.spend()),
        }
    }

    /// Runs the touchdown of the next die to its end, poll after poll, without a live stop, and gives its record. It may wait
    /// for the turns of the memory.
    pub fn touchdown<R: Wait, K: Socket>(
        &mut self,
        rt: &R,
        mem: &PatternMem,
        plan: &BoundPlan,
        socket: &mut K,
    ) -> Result<Record, SiteFault>
        requires site { IsSiteOf mem.now plan.now (K.told socket.old) self.old }
        requires done { self.old.die < length (dies_at self.old.site plan.now.rows) }
        requires idle { IsIdle self.old }
        requires spent { self.old.spent ≡ false }
        ensures polls { IfOk result (λ entry. RunsPolls plan.now self.old self.new
            (K.told socket.old) (K.told socket.new) entry) }
        ensures given { IfOk result (λ entry. IsTouchdown (part_of plan.now self.old.site) self.old.die
            (K.told socket.old) (K.told socket.new) entry) }
        ensures is { OnOk result (IsSiteOf mem.now plan.now (K.told socket.new) self.new) }
        ensures idle { OnOk result (IsIdle self.new) }
        ensures ok { OnOk result (self.new.spent ≡ false) }
        ensures spent { OnErr result (self.new.spent ≡ true) }
        ensures number { OnOk result (self.new.site ≡ self.old.site) }
        ensures die { OnOk result (self.new.die ≡ self.old.die + 1) }
        ensures taken { OnOk result (self.new.state.taken ≡ self.old.state.taken) }
        ensures count { (K.told socket.old).count ≤ (K.told socket.new).count }
    {
        let _sites = plan.sites();
        let _signals = mem.code().signals();
        let stops = self.state.taken;
        for _ in rt.forever() {
            self.batch(rt, mem, plan, socket, stops)?;
            if let Some(landed) = self.take() {
                return Ok(landed);
            }
        }
        unreachable!()
    }
}

/// How far a batch came behind which a try goes on, with so many cycles of its executive behind it.
fn end_of(done: u64) -> BatchEnd
    ensures { result ≡ (if done == 0 then BatchEnd.ExecDone else BatchEnd.More) }
{
    if done == 0 {
        BatchEnd::ExecDone
    } else {
        BatchEnd::More
    }
}
