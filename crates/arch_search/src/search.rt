//! The search.
ghost use Rattle.std.specs.Prelude.{◌≡◌, ◌≤◌, length, replicate, IfOk};
ghost use Rattle.std.specs.List.{All};
ghost use Rattle.resource_table.specs.Jobs.{JobValue, job_value, IsSoundJob};
ghost use Rattle.arch_schedule.specs.Problems.{IsProblem};
ghost use Rattle.arch_search.specs.States.{IsStateOf};
ghost use Rattle.arch_search.specs.Searches.{IsLent};
ghost use Rattle.arch_schedule.specs.Dealing.{IsTaken};

use crate::order::{change_order, reorder_tests};
use crate::rounds::{NextTry, Rounds, drawn_most};
use crate::setting::SearchSetting;
use crate::state::{State, first_state};
use crate::weighing::{schedule_state, weigh_state};
use arch_schedule::{
    DEALT_MOST, DealtModule, Draws, ScheduleRoom, TimedTests, change_buses, fits, zeros,
};
use live_tests::LiveTests;
use outside::{NoMemory, both};
use plan_model::Plan;
use resource_table::{Job, OwnTable};
use std::alloc::Global;
use std::marker::Model;
use std::mem;

/// How many changes a kick makes.
const KICK: usize = 4;
/// They are made from the current state, where that takes at most one part in `NEAR` more cycles than the best one, else from
/// the best one.
const NEAR: u64 = 64;
/// In a round, of a hundred changes this many are of the order of the tests alone, where that tells.
const ORDER: usize = 12;

/// A search for an architecture of fixed buses, and an order of the tests, whose schedule ends early. Its model is the cycles
/// of the best state so far, which never rise.
#[derive(Drop)]
pub struct Search<'a> {
    /// What it goes by.
    setting: SearchSetting<'a>,
    /// The table in which schedules are made.
    table: OwnTable<&'a Job>,
    /// Room for schedules.
    room: ScheduleRoom,
    /// Room for the modules that are dealt again.
    taken: Vec<DealtModule>,
    /// Room for the loads on one wire less.
    less: Vec<u64>,
    /// Where the draws come from.
    draws: Draws,
    /// The state of the fewest cycles so far.
    best: State,
    /// The state that the next one comes from.
    current: State,
    /// Room for the next one.
    next: State,
    /// How far it is.
    rounds: Rounds,
}

impl<'a> Model for Search<'a> {
    ghost use Rattle.std.specs.Prelude.{ℕ};
    ghost use Rattle.arch_search.specs.Searches.{IsSearch};

    ghost Value = { ℕ };

    ghost view = { λ s. s.best.cycles };

    ghost invariant = { λ s. IsSearch s.setting s.table s.room s.taken.items s.less.items s.best
        s.current s.next };
}

/// What a search found: its best state. The schedule is that of the last call of [`Search::schedule_best`].
#[derive(Drop)]
pub struct Found<'s> {
    /// What the search went by.
    pub problem: &'s TimedTests,
    /// For each slot the wires of its bus, none where it is unused.
    pub widths: &'s [u64],
    /// For each module with tests over the wires the slot of its bus.
    pub slots: &'s [usize],
    /// The tests in the order in which they are placed.
    pub order: &'s [usize],
    /// For each test its start, in cycles.
    pub starts: &'s [u64],
    /// The end of the test that ends last, in cycles.
    pub cycles: u64,
}

/// Room for `count` modules that are dealt again.
fn taken_room(alloc: Global, count: usize) -> Result<Vec<DealtModule>, NoMemory>
    ensures { IfOk result
        (λ taken. taken.items ≡ replicate count (record { «module» = 0; from = 0 })) }
{
    let none = DealtModule { module: 0, from: 0 };
    Ok(vec![in alloc; none; count]?)
}

/// Room for the modules of a problem that are dealt again.
fn no_modules(alloc: Global, problem: &TimedTests) -> Result<Vec<DealtModule>, NoMemory>
    requires { (job : JobValue) × IsProblem job problem.now }
    ensures { IfOk result
        (λ taken. All (IsTaken problem.now.wires (length problem.now.modules.items)) taken.items) }
{
    let count = problem.modules.len().min(DEALT_MOST);
    let taken = taken_room(alloc, count)?;
    Ok(taken)
}

impl<'a> Search<'a> {
    /// A search that begins at a plan of the job's tests, each found by its name among these. All memory that it ever takes is
    /// taken here; `NoMemory` where memory runs out.
    pub fn new(
        alloc: Global,
        names: &LiveTests,
        problem: &'a TimedTests,
        job: &'a Job,
        plan: &Plan,
        seed: u64,
    ) -> Result<Search<'a>, NoMemory>
        requires sound { IsSoundJob (job_value job.now) }
        requires problem { IsProblem (job_value job.now) problem.now }
        requires names { length names.now ≡ length (job_value job.now).tests }
    {
        let current = first_state(alloc, names, problem, job, plan)?;
        let best = current.copy(alloc)?;
        let next = current.copy(alloc)?;
        Search::with_states(alloc, problem, job, best, current, next, seed)
    }

    /// A search with these states, the next of which is weighed.
    fn with_states(
        alloc: Global,
        problem: &'a TimedTests,
        job: &'a Job,
        best: State,
        current: State,
        next: State,
        seed: u64,
    ) -> Result<Search<'a>, NoMemory>
        requires sound { IsSoundJob (job_value job.now) }
        requires problem { IsProblem (job_value job.now) problem.now }
        requires best { IsStateOf problem.now best }
        requires current { IsStateOf problem.now current }
        requires next { IsStateOf problem.now next }
    {
        let lists = both(no_modules(alloc, problem), zeros(alloc, problem.wires));
        let parts = both(ScheduleRoom::new(alloc, problem.tests.len()), lists);
        let base = both(
            SearchSetting::new(alloc, problem, job),
            OwnTable::new(alloc, job),
        );
        let all = both(base, parts);
        let (((setting, table), (room, (taken, less))), (best, (current, next))) = both(
            all,
            Ok((best, (current, next))),
        )?;
        let mut search = Search {
            setting,
            table,
            room,
            taken,
            less,
            draws: Draws::new(seed),
            best,
            current,
            next,
            rounds: Rounds::new(problem.tests.len()),
        };
        search.begin();
        Ok(search)
    }

    /// Weighs the first state.
    fn begin(&mut self)
        ensures { self.new ≤ self.old }
    {
        self.next.buses.reload_all(&self.setting.times);
        self.weigh_next(u64::MAX, true);
    }

    /// Makes one change of the buses of the next state. Whether anything changed.
    fn change_next_buses(&mut self, late: Option<usize>) -> bool
        ensures { self.new ≡ self.old }
    {
        change_buses(
            &self.setting.times,
            &mut self.next.buses,
            &mut self.taken,
            late,
            &mut self.draws,
        )
    }

    /// Makes the next state from the current one by one change of the buses. Whether they take at most `most` cycles.
    fn change_current_buses(&mut self, most: u64) -> bool
        ensures { self.new ≡ self.old }
    {
        self.next.take_buses(self.setting.problem, &self.current);
        if !self.change_next_buses(self.current.late) {
            return false;
        }
        fits(
            &self.setting.times,
            &mut self.next.buses,
            &mut self.less,
            most,
        )
    }

    /// Gives the next state the order of the current one, where orders tell, and by even chance lets two tests change places in it.
    fn take_current_order(&mut self)
        ensures { self.new ≡ self.old }
    {
        if self.setting.wires_alone {
            return;
        }
        self.next.take_order(self.setting.problem, &self.current);
        if self.draws.coin() {
            let _changed = change_order(
                &self.setting.problem.before,
                &mut self.next.order,
                &mut self.draws,
            );
        }
    }

    /// Makes the next state from the current one by a change of the order. Whether anything changed.
    fn reorder_current(&mut self) -> bool
        ensures { self.new ≡ self.old }
    {
        self.next.become_as(self.setting.problem, &self.current);
        reorder_tests(
            &self.setting.problem.before,
            &mut self.next.order,
            &mut self.draws,
        )
    }

    /// Whether a change is of the order alone: always where there are no other buses, else so many times in a hundred, where orders tell.
    fn is_of_order(&mut self, percent: usize) -> bool
        ensures { self.new ≡ self.old }
    {
        if !self.setting.has_other_buses() {
            return true;
        }
        if self.setting.wires_alone || percent == 0 {
            return false;
        }
        self.draws.below(100) < percent
    }

    /// Tries one change of the current state. What comes of it is taken on where it takes at most `most` cycles. So many changes in a
    /// hundred are of the order alone.
    fn step(&mut self, most: u64, percent: usize)
        ensures { self.new ≤ self.old }
    {
        if self.is_of_order(percent) {
            if !self.setting.wires_alone && self.reorder_current() {
                self.weigh_next(most, false);
            }
            return;
        }
        if self.change_current_buses(most) {
            self.take_current_order();
            self.weigh_next(most, true);
        }
    }

    /// Whether the current state takes few more cycles than the best one.
    fn is_near(&self) -> bool {
        let most = self.best.cycles.saturating_add(self.best.cycles / NEAR);
        self.current.cycles <= most
    }

    /// Makes the next state as the current one, where that is near the best one, else as the best one.
    fn return_near(&mut self)
        ensures { self.new ≡ self.old }
    {
        if self.is_near() {
            self.next.become_as(self.setting.problem, &self.current);
        } else {
            self.next.become_as(self.setting.problem, &self.best);
        }
    }

    /// Makes several changes of the next state. Whether anything changed.
    fn change_often(&mut self) -> bool
        ensures { self.new ≡ self.old }
    {
        let mut changed = false;
        for _change in 0..KICK {
            if self.change_next_buses(None) {
                changed = true;
            }
        }
        changed
    }

    /// Takes on what comes of several changes of a good state, where there are other buses.
    fn kick(&mut self)
        ensures { self.new ≤ self.old }
    {
        if !self.setting.has_other_buses() {
            return;
        }
        self.return_near();
        if self.change_often() {
            self.weigh_next(u64::MAX, true);
        }
    }

    /// Takes the current state as the best one, where it has fewer cycles.
    fn note_best(&mut self)
        ensures { self.new ≤ self.old }
    {
        if self.current.cycles < self.best.cycles {
            self.best.become_as(self.setting.problem, &self.current);
            self.rounds.note_gain();
        }
    }

    /// Takes the next state as the current one, where its tests end by `most` cycles. Where its order is refused, others are tried if
    /// `again` says so.
    fn weigh_next(&mut self, most: u64, again: bool)
        ensures { self.new ≤ self.old }
    {
        let ends = weigh_state(
            &self.setting,
            &mut self.table,
            &mut self.next,
            &mut self.room,
            most,
            again,
            &mut self.draws,
        );
        let Some(ends) = ends else {
            return;
        };
        self.next.cycles = ends.cycles;
        self.next.late = ends.late;
        mem::swap(&mut self.current, &mut self.next);
        self.note_best();
    }

    /// Tries a change that may make the current state somewhat worse.
    fn anneal(&mut self, heat: u64)
        ensures { self.new ≤ self.old }
    {
        let most = drawn_most(self.current.cycles, heat, &mut self.draws);
        self.step(most, ORDER);
    }

    /// Makes the next try.
    fn try_once(&mut self)
        ensures { self.new ≤ self.old }
    {
        match self.rounds.next_try() {
            NextTry::Kick => self.kick(),
            NextTry::Descent => self.step(self.current.cycles, 0),
            NextTry::Annealing { heat } => self.anneal(heat),
        }
    }

    /// Makes `tries` tries. Nothing in a try depends on how many there are to be, so that tries in several calls are as
    /// those of one call, and more of them never give more cycles.
    pub fn run(&mut self, tries: u64)
        ensures { self.new ≤ self.old }
    {
        for _try in 0..tries {
            self.try_once();
        }
    }

    /// The cycles of the best state so far; more than any plan has where no state could be scheduled.
    pub fn cycles(&self) -> u64
        ensures { result ≡ self.now }
    {
        self.best.cycles
    }

    /// Makes the schedule of the best state so far.
    pub fn schedule_best(&mut self)
        ensures { self.new ≡ self.old }
    {
        schedule_state(
            self.setting.problem,
            &mut self.table,
            &self.best,
            &mut self.room,
        );
    }

    /// Frees the search. (A caller that frees it otherwise is proved for each of its parts anew.)
    pub fn free(self) {
        drop(self);
    }

    /// The best state so far.
    pub fn found(&self) -> Found<'_>
        ensures lent { IsLent result }
        ensures cycles { result.cycles ≡ self.now }
    {
        Found {
            problem: self.setting.problem,
            widths: &self.best.buses.widths,
            slots: &self.best.buses.slots,
            order: &self.best.order,
            starts: &self.room.starts,
            cycles: self.best.cycles,
        }
    }
}
