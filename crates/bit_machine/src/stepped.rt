//! One live test of a chip under test, with its bits. A page is a part of a pattern's stimulus: for each chain the bits of the 64
//! cells from one on, in a word.
ghost use Rattle.std.specs.Prelude.{◌≡◌, ℕ, ◌-◌, ◌%◌, ◌<◌, true, false, Some, [], length, drop, get_or, set, slice_get, slice_index, IfOk};
ghost use Rattle.plan_model.specs.Plans.{PlannedTest};
ghost use Rattle.plan_model.specs.Moments.{moment_behind};
ghost use Rattle.plan_model.specs.Runs.{Content, wanted, next_bits, last_bit, chain_at};
ghost use Rattle.bit_machine.specs.Chips.{holds};
ghost use Rattle.bit_machine.specs.Lanes.{lane_bits, capture_answer, ArePages, AreAtRest, IsAtRest, IsBusy, IsLane, IsNow, IsSameTest, IsSteppable, resting_bits};
ghost use Rattle.bit_machine.specs.Packed.{IsLineWord};
ghost use Rattle.vector_lines.specs.Paths.{is_answered};
ghost use Rattle.vector_lines.specs.declared.path.Path.{Path};

use crate::bits::is_set;
use crate::ring::Ring;
use crate::stepping::{holds_stimulus, step_ring};
use crate::words::word_from;
use outside::{NoMemory, push};
use plan_model::Moment;
use std::alloc::Global;
use vector_lines::{Lane, Line, Path};

/// A part of a pattern's stimulus, for each chain of a test: the bits of the 64 cells from one on.
#[derive(Clone, Copy, Drop)]
pub struct Page {
    /// The pattern, counted from 1.
    pub pattern: u64,
    /// The first of the cells, counted from wire in.
    pub first: u64,
}

/// A live test that is stepped, with the bits of its chains. A self test has none.
#[derive(Drop)]
pub struct SteppedLane {
    /// The test as its plan places it.
    pub lane: Lane,
    /// The bits of each chain.
    pub rings: Vec<Ring>,
    /// What the test does at the cycle that it stands at.
    pub moment: Moment,
    /// The part of a stimulus that is wanted now, with its bits for each chain.
    pub page: Option<Page>,
    pub pages: Vec<u64>,
}

/// A word for each chain.
fn no_pages(alloc: Global, chains: usize) -> Result<Vec<u64>, NoMemory>
    ensures { IfOk result (λ pages. length pages.items ≡ chains) }
{
    Ok(vec![in alloc; 0u64; chains]?)
}

/// The bits of chains before any cycle: 0 in each cell.
fn rings_of(alloc: Global, paths: &[Path]) -> Result<Vec<Ring>, NoMemory>
    ensures { IfOk result (λ rings. rings.items ≡ resting_bits paths.now) }
{
    let mut rings = Vec::new(alloc);
    for path in paths {
        push(&mut rings, Ring::zeros(alloc, path.cells)?)?;
    }
    Ok(rings)
}

/// Live tests before any cycle, in their order.
pub fn resting_lanes(alloc: Global, lanes: Vec<Lane>) -> Result<Vec<SteppedLane>, NoMemory>
    ensures { IfOk result (λ stepped. AreAtRest lanes.items stepped.items) }
{
    let mut stepped = Vec::new(alloc);
    for lane in lanes {
        push(&mut stepped, SteppedLane::new(alloc, lane)?)?;
    }
    Ok(stepped)
}

impl SteppedLane {
    /// A live test before any cycle.
    fn new(alloc: Global, lane: Lane) -> Result<SteppedLane, NoMemory>
        ensures { IfOk result (IsAtRest lane) }
    {
        let rings = rings_of(alloc, &lane.paths)?;
        let pages = no_pages(alloc, lane.paths.len())?;
        Ok(SteppedLane {
            lane,
            rings,
            moment: Moment::Setup,
            page: None,
            pages,
        })
    }

    /// Stands at a cycle at which the test is active.
    pub fn stand(&mut self, cycle: u64)
        requires ready { IsSteppable self.old }
        requires busy { IsBusy self.old.lane cycle }
        ensures same { IsSameTest self.old self.new }
        ensures pages { ArePages self.new }
        ensures now { IsNow self.new cycle }
    {
        let moment = self.lane.phases.at(cycle - self.lane.start);
        self.moment = moment;
        if let Some(near) = moment.ahead() {
            let page = Page {
                pattern: near.pattern,
                first: near.shifts - near.shifts % 64,
            };
            if !self.has_page(page) {
                self.show_page(page);
            }
        }
    }

    /// Whether the words are those of a page.
    fn has_page(&self, page: Page) -> bool
        ensures { result ≡ true → self.now.page ≡ Some page }
    {
        match self.page {
            Some(own) => own.pattern == page.pattern && own.first == page.first,
            None => false,
        }
    }

    /// Makes the words of a page.
    fn show_page(&mut self, page: Page)
        requires ready { IsSteppable self.old }
        ensures same { IsSameTest self.old self.new }
        ensures moment { self.new.moment ≡ self.old.moment }
        ensures page { self.new.page ≡ Some page }
        ensures pages { ArePages self.new }
    {
        let line = Line::of(self.lane.key, page.pattern, 0);
        let first = page.first as usize;
        fill_words(&mut self.pages, &self.lane.paths, &line, first);
        self.page = Some(page);
    }

    /// The bit that a wire of the bus carries, counted from the first wire of the bus.
    pub fn wanted(&self, chain: usize) -> bool
        requires { IsSteppable self.now }
        ensures { (content : Content) (t : PlannedTest) (cycle : ℕ) → t.tam ≡ true →
            IsLane content t self.now.lane → IsNow self.now cycle →
            result
            ≡ wanted (content.stimulus t.id) (chain_at t chain)
            (drop (cycle - t.start) t.operations) }
    {
        if chain >= self.pages.len() {
            return false;
        }
        match self.moment.ahead() {
            Some(near) => is_set(self.pages[chain], (near.shifts % 64) as usize),
            None => false,
        }
    }

    /// The bit that a wire of the bus shows.
    pub fn shown(&self, chain: usize) -> bool
        ensures { result ≡ last_bit (get_or (lane_bits self.now) chain []) }
    {
        if chain >= self.rings.len() {
            return false;
        }
        self.rings[chain].last()
    }

    /// Whether a response bit is read on a wire of the bus.
    pub fn is_read(&self, chain: usize) -> bool
        ensures { (content : Content) (t : PlannedTest) → t.tam ≡ true →
            IsLane content t self.now.lane →
            result ≡ is_answered (chain_at t chain) (moment_behind self.now.moment) }
    {
        if chain >= self.lane.paths.len() {
            return false;
        }
        match self.moment.behind() {
            Some(near) => near.shifts < self.lane.paths[chain].answers.len() as u64,
            None => false,
        }
    }

    /// Whether all chains hold a pattern.
    fn holds(&self, pattern: u64) -> bool
        requires { IsSteppable self.now }
        ensures { (content : Content) (t : PlannedTest) → t.tam ≡ true →
            IsLane content t self.now.lane →
            result ≡ holds (content.stimulus t.id pattern) t.chains (lane_bits self.now) }
    {
        for chain in 0..self.lane.paths.len() {
            let path = &self.lane.paths[chain];
            if !holds_stimulus(path, &self.rings[chain], self.lane.key, pattern) {
                return false;
            }
        }
        true
    }

    /// Whether the test captures now, and whether its whole stimulus stands in the cells.
    pub fn capture_of(&self) -> Option<bool>
        requires { IsSteppable self.now }
        ensures { (content : Content) (t : PlannedTest) (cycle : ℕ) → t.tam ≡ true →
            IsLane content t self.now.lane → IsNow self.now cycle →
            result
            ≡ capture_answer (content.stimulus t.id) (slice_get t.operations (cycle - t.start))
            t.chains (lane_bits self.now) }
    {
        match self.moment {
            Moment::Capture { pattern } => Some(self.holds(pattern)),
            _ => None,
        }
    }

    /// One cycle of the chain on a wire of the bus.
    pub fn step(&mut self, chain: usize, drive: bool)
        requires { IsSteppable self.old }
        ensures lane { self.new.lane ≡ self.old.lane }
        ensures ready { IsSteppable self.new }
        ensures bits { (content : Content) (t : PlannedTest) (cycle : ℕ) → t.tam ≡ true →
            IsLane content t self.old.lane → IsNow self.old cycle →
            lane_bits self.new
            ≡ set (lane_bits self.old) chain (next_bits (content.response t.id)
            (chain_at t chain) (slice_get t.operations (cycle - t.start)) drive
            (get_or (lane_bits self.old) chain [])) }
        ensures now { (cycle : ℕ) → IsNow self.old cycle → IsNow self.new cycle }
    {
        if chain >= self.lane.paths.len() {
            return;
        }
        let (base, moment) = (self.lane.key, self.moment);
        let path = &self.lane.paths[chain];
        step_ring(path, &mut self.rings[chain], base, moment, drive);
    }
}

/// Fills for each chain the word of what its cells from one on load.
fn fill_words(words: &mut [u64], paths: &[Path], line: &Line, first: usize)
    requires first { line.now.first < 997 }
    requires step { line.now.step < 997 }
    requires many { length words.old ≡ length paths.now }
    ensures many { length words.new ≡ length paths.now }
    ensures words { (j : ℕ) (p : Path) → slice_get paths.now j ≡ Some p →
        IsLineWord line.now p.loads first (slice_index words.new j) }
{
    for place in 0..words.len() {
        words[place] = word_from(&paths[place].loads, line, first);
    }
}
