//! The widths at which the time of a module falls, and the slots of modules in a case.
//!
//! Shares are parts of the cycles that a better plan has at most, `ONE` is all of them.

use case_tables::{Case, ChipTables, RANGES_MOST, REST};
use outside::{NoMemory, push};
use std::alloc::Global;
use tables::{filled, item_or, put_item, share_of, short_share};

/// A width at which the time of a module falls.
#[derive(Clone, Copy)]
struct Step {
    width: usize,
    /// The packed times of the module's tests over the wires, together, in cycles.
    time: u64,
    share: u64,
}

/// No step.
const NO_STEP: Step = Step {
    width: 0,
    time: 0,
    share: 0,
};

/// The steps of all modules: the widths at which their times fall.
#[derive(Drop)]
pub struct Slots {
    /// The wires.
    wires: usize,
    /// Where the steps of each module begin; behind them where the last ones end.
    first: Vec<usize>,
    steps: Vec<Step>,
    /// The step of a width at [module * wires + width - 1].
    step: Vec<usize>,
    /// For each module the least width on which it takes fewer cycles than the plan; more than the wires where there is none.
    least: Vec<usize>,
    /// The share of a test at [test * wires + width - 1].
    test_share: Vec<u32>,
}

impl Slots {
    /// The steps of the modules of a chip. `NoMemory` where memory runs out.
    pub fn new(alloc: Global, chip: &ChipTables) -> Result<Slots, NoMemory> {
        let mut slots = Slots {
            wires: chip.wires,
            first: Vec::new(alloc),
            steps: Vec::new(alloc),
            step: Vec::new(alloc),
            least: Vec::new(alloc),
            test_share: Vec::new(alloc),
        };
        slots.push_modules(chip)?;
        slots.push_shares(chip)?;
        Ok(slots)
    }

    /// Adds the steps of all modules.
    fn push_modules(&mut self, chip: &ChipTables) -> Result<(), NoMemory> {
        push(&mut self.first, 0)?;
        for module in 0..chip.modules {
            self.push_module(chip, module)?;
            let end = self.steps.len();
            push(&mut self.first, end)?;
        }
        Ok(())
    }

    /// Adds the steps of a module.
    fn push_module(&mut self, chip: &ChipTables, module: usize) -> Result<(), NoMemory> {
        let mut least = usize::MAX;
        for place in 0..chip.wires {
            let width = place.saturating_add(1);
            self.push_width(chip, module, width)?;
            if least == usize::MAX && is_short(chip, module, width) {
                least = width;
            }
        }
        push(&mut self.least, least)
    }

    /// Adds a width of a module: a step, where its time falls there.
    fn push_width(
        &mut self,
        chip: &ChipTables,
        module: usize,
        width: usize,
    ) -> Result<(), NoMemory> {
        let time = chip.total_at(module, width);
        if width == 1 || time < chip.total_at(module, width.saturating_sub(1)) {
            let share = share_of(time, chip.cap);
            push(&mut self.steps, Step { width, time, share })?;
        }
        let last = self.steps.len().saturating_sub(1);
        push(&mut self.step, last)
    }

    /// Adds the shares of the tests on each width.
    fn push_shares(&mut self, chip: &ChipTables) -> Result<(), NoMemory> {
        for time in &chip.time {
            push(&mut self.test_share, short_share(*time, chip.cap))?;
        }
        Ok(())
    }

    /// The share of a test over the wires on a width of at least 1.
    pub fn share_of_test(&self, test: usize, width: usize) -> u64 {
        let row = test.saturating_mul(self.wires).saturating_add(width);
        u64::from(item_or(&self.test_share, row.saturating_sub(1), 0))
    }

    /// The step of a module on a width of at least 1.
    pub fn step_at(&self, module: usize, width: usize) -> usize {
        let place = module.saturating_mul(self.wires).saturating_add(width);
        item_or(&self.step, place.saturating_sub(1), 0)
    }

    /// The least width of a step.
    pub fn width_of(&self, step: usize) -> usize {
        item_or(&self.steps, step, NO_STEP).width
    }

    /// The cycles of a step.
    pub fn time_of(&self, step: usize) -> u64 {
        item_or(&self.steps, step, NO_STEP).time
    }

    /// The share of a step.
    pub fn share_of(&self, step: usize) -> u64 {
        item_or(&self.steps, step, NO_STEP).share
    }

    /// The least width on which a module takes fewer cycles than the plan.
    pub fn least_of(&self, module: usize) -> usize {
        item_or(&self.least, module, usize::MAX)
    }
}

/// Whether a module takes fewer cycles than the plan on a width.
fn is_short(chip: &ChipTables, module: usize, width: usize) -> bool {
    let own = item_or(&chip.selfs, module, 0);
    chip.total_at(module, width).saturating_add(own) < chip.goal
}

/// Widths of the buses of a rank, or of the rest.
#[derive(Clone, Copy)]
pub struct Range {
    /// The rank, `REST` for the rest.
    pub rank: usize,
    /// The least width of the case: a wire beyond it counts.
    pub low: usize,
    /// The least width of a slot.
    pub first: usize,
    /// The greatest width of a slot.
    pub high: usize,
}

/// A range without widths.
const NO_RANGE: Range = Range {
    rank: 0,
    low: 0,
    first: 1,
    high: 0,
};

/// Steps of a module on one range.
#[derive(Clone, Copy)]
pub struct StepRange {
    /// The place of the range.
    pub range: usize,
    /// The first step.
    pub from: usize,
    /// The step behind the last one.
    pub end: usize,
}

/// No steps.
const NO_SPAN: StepRange = StepRange {
    range: 0,
    from: 0,
    end: 0,
};

/// The ranges of a case and the spans of its modules.
#[derive(Drop)]
pub struct Spans {
    /// The wires beyond all least widths.
    pub spare: usize,
    /// How many ranks are known.
    pub known: usize,
    /// How many ranges there are.
    pub count: usize,
    ranges: Vec<Range>,
    /// Where the spans of each module begin; behind them where the last ones end.
    first: Vec<usize>,
    spans: Vec<StepRange>,
}

impl Spans {
    /// Room for the cases of `modules` modules on `wires` wires. `NoMemory` where memory runs out.
    pub fn new(alloc: Global, modules: usize, wires: usize) -> Result<Spans, NoMemory> {
        let ranges = filled(alloc, NO_RANGE, RANGES_MOST)?;
        let first = filled(alloc, 0usize, modules.saturating_add(1))?;
        let room = modules.saturating_mul(wires.saturating_add(1));
        let spans = filled(alloc, NO_SPAN, room)?;
        Ok(Spans {
            spare: 0,
            known: 0,
            count: 0,
            ranges,
            first,
            spans,
        })
    }

    /// Adds a range, where it has a width.
    fn add_range(&mut self, range: Range) {
        if range.first <= range.high {
            put_item(&mut self.ranges, self.count, range);
            self.count = self.count.saturating_add(1);
        }
    }

    /// Takes the ranges of a case.
    fn take_ranges(&mut self, case: &Case) {
        self.count = 0;
        self.known = case.known;
        self.spare = case.spare();
        for rank in 0..case.known {
            let low = case.low_of(rank);
            self.add_range(Range {
                rank,
                low,
                first: low.max(1),
                high: case.high_of(rank),
            });
        }
        self.add_range(Range {
            rank: REST,
            low: 0,
            first: 1,
            high: case.rest_high(),
        });
    }

    /// The range at a place.
    pub fn range(&self, place: usize) -> Range {
        item_or(&self.ranges, place, NO_RANGE)
    }

    /// Adds the span of a module on a range, where it has one. Answers where the spans end then.
    fn add_span(
        &mut self,
        slots: &Slots,
        case: &Case,
        module: usize,
        place: usize,
        end: usize,
    ) -> usize {
        let range = self.range(place);
        let first = range.first.max(slots.least_of(module));
        if first > range.high || !may_be_in(case, module, range.rank) {
            return end;
        }
        let from = slots.step_at(module, first);
        let last = slots.step_at(module, range.high);
        let span = StepRange {
            range: place,
            from,
            end: last.saturating_add(1),
        };
        put_item(&mut self.spans, end, span);
        end.saturating_add(1)
    }

    /// Adds the spans of a module. Answers where the spans end then.
    fn add_spans(&mut self, slots: &Slots, case: &Case, module: usize, end: usize) -> usize {
        let mut end = end;
        for place in 0..self.count {
            end = self.add_span(slots, case, module, place, end);
        }
        end
    }

    /// Takes the ranges and spans of a case; `false` where some module has no slot.
    pub fn take(&mut self, slots: &Slots, case: &Case) -> bool {
        self.take_ranges(case);
        let mut end: usize = 0;
        for module in 0..case.modules {
            let next = self.add_spans(slots, case, module, end);
            if next == end {
                return false;
            }
            end = next;
            put_item(&mut self.first, module.saturating_add(1), end);
        }
        true
    }

    /// Where the spans of a module begin.
    pub fn first_of(&self, module: usize) -> usize {
        item_or(&self.first, module, 0)
    }

    /// The span at a place.
    pub fn span(&self, place: usize) -> StepRange {
        item_or(&self.spans, place, NO_SPAN)
    }
}

/// Whether a module may be on a rank of a case, or on the rest.
fn may_be_in(case: &Case, module: usize, rank: usize) -> bool {
    if rank == REST {
        case.may_rest(module)
    } else {
        case.may_be(module, rank)
    }
}
