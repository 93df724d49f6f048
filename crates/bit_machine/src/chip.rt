//! A whole chip under test, cycle by cycle.
ghost use Rattle.std.specs.Prelude.{◌≡◌, ℕ, ◌+◌, ◌<◌, false, true, length, slice_get, slice_index_or, IfOk, Some};
ghost use Rattle.soc_model.specs.Chips.{soc_value};
ghost use Rattle.soc_model.specs.SoundChips.{IsSoundChip};
ghost use Rattle.plan_model.specs.Plans.{planned};
ghost use Rattle.plan_model.specs.Rules.{IsGoodAlone};
ghost use Rattle.plan_model.specs.Runs.{step};
ghost use Rattle.plan_model.specs.Views.{plan_value};
ghost use Rattle.vector_lines.specs.Lanes.{AreLanes};
ghost use Rattle.vector_lines.specs.Made.{made_keys};
ghost use Rattle.vector_lines.specs.Placed.{IsPlacedLane};
ghost use Rattle.bit_machine.specs.Chips.{at_first, carried_bits, shown_bits, chip_content, chip_tests, captures_at, right_loads_at};
ghost use Rattle.vector_lines.specs.Wires.{wires_of, IsCompared};

use crate::machine::Machine;
use crate::stepped::resting_lanes;
use live_tests::{LiveTests, Placed, PlacedPlan, first_wires};
use outside::NoMemory;
use plan_model::Plan;
use soc_model::Soc;
use std::alloc::Global;
use std::marker::Model;
use vector_lines::{Lane, MadeContents, placed_lanes};

/// What a chip under test has done.
#[derive(Clone, Copy, PartialEq, Eq, Debug)]
pub struct Report {
    /// Cycles done.
    pub cycle: u64,
    /// Captures in them.
    pub captures: u64,
    /// Captures that found their whole stimulus in the cells.
    pub right_loads: u64,
}

/// A chip under test by a good plan: the bits of all cells of its wrapped modules, stepped cycle by cycle.
#[derive(Drop)]
pub struct Chip<'a> {
    soc: &'a Soc,
    plan: &'a Plan,
    seed: u64,
    machine: Machine,
    captures: u64,
    right_loads: u64,
}

impl<'a> Model for Chip<'a> {
    ghost use Rattle.soc_model.specs.Chips.{soc_value};
    ghost use Rattle.plan_model.specs.Views.{plan_value};
    ghost use Rattle.bit_machine.specs.Chips.{ChipValue};
    ghost use Rattle.bit_machine.specs.Machines.{lanes_state};
    ghost use Rattle.bit_machine.specs.WholeChips.{IsChip};

    ghost Value = { ChipValue };

    ghost view = { λ c. record {
      soc = soc_value c.soc.now;
      plan = plan_value c.plan.now;
      seed = c.seed;
      cycle = c.machine.cycle;
      state = lanes_state c.machine.lanes.items;
      captures = c.captures;
      right_loads = c.right_loads;
    } };

    ghost invariant = { λ c. IsChip (soc_value c.soc.now) (plan_value c.plan.now) c.seed c.machine
        c.captures c.right_loads };
}

/// The cycles of a plan. The call tells that they are a machine's number.
fn cycles_of(plan: &Plan) -> u64
    ensures { result ≡ (plan_value plan.now).cycles }
{
    plan.cycles
}

/// Wires that belong to no test.
fn nobody(alloc: Global, wires: usize) -> Result<Vec<Option<usize>>, NoMemory>
    ensures { IfOk result (λ users. length users.items ≡ wires) }
{
    Ok(vec![in alloc; None; wires]?)
}

/// The live tests of a placed plan, by the made contents of a seed.
fn made_lanes(alloc: Global, placed: &PlacedPlan<'_>, seed: u64) -> Result<Vec<Lane>, NoMemory>
    ensures { IfOk result
        (λ lanes. AreLanes (IsPlacedLane (made_keys seed) placed.now.soc placed.now.plan)
        (planned placed.now.soc placed.now.plan) lanes.items) }
{
    let firsts = first_wires(alloc, placed.plan)?;
    placed_lanes(alloc, placed, &MadeContents { seed }, &firsts)
}

/// Places a good plan, and makes its live tests by the made contents of a seed.
fn lanes_of(alloc: Global, soc: &Soc, plan: &Plan, seed: u64) -> Result<Vec<Lane>, NoMemory>
    requires sound { IsSoundChip (soc_value soc.now) }
    requires good { IsGoodAlone (soc_value soc.now) (plan_value plan.now) }
    ensures { IfOk result
        (λ lanes. AreLanes (IsPlacedLane (made_keys seed) (soc_value soc.now) (plan_value plan.now))
        (planned (soc_value soc.now) (plan_value plan.now)) lanes.items) }
{
    let names = LiveTests::new(alloc, soc)?;
    let places = Placed::new(alloc, soc, plan)?;
    let placed = PlacedPlan::new(soc, plan, &names, &places);
    let lanes = made_lanes(alloc, &placed, seed);
    // dropped by calls: the end of the scope would drop each of their parts, and be proved for each
    drop(names);
    drop(places);
    lanes
}

impl<'a> Chip<'a> {
    /// A chip with its plan, before any cycle: bit 0 in each cell, and the made contents of a seed.
    pub fn new(alloc: Global, soc: &'a Soc, plan: &'a Plan, seed: u64) -> Result<Chip<'a>, NoMemory>
        requires sound { IsSoundChip (soc_value soc.now) }
        requires good { IsGoodAlone (soc_value soc.now) (plan_value plan.now) }
        ensures { IfOk result
            (λ chip. chip ≡ at_first (soc_value soc.now) (plan_value plan.now) seed) }
    {
        let lanes = lanes_of(alloc, soc, plan, seed)?;
        Chip::with_lanes(alloc, soc, plan, seed, lanes)
    }

    /// A chip with a plan that is placed, before any cycle: bit 0 in each cell, and the made contents of a seed.
    pub fn of(alloc: Global, placed: &PlacedPlan<'a>, seed: u64) -> Result<Chip<'a>, NoMemory>
        ensures { IfOk result (λ chip. chip ≡ at_first placed.now.soc placed.now.plan seed) }
    {
        let lanes = made_lanes(alloc, placed, seed)?;
        Chip::with_lanes(alloc, placed.soc, placed.plan, seed, lanes)
    }

    /// A chip whose live tests are at hand.
    fn with_lanes(
        alloc: Global,
        soc: &'a Soc,
        plan: &'a Plan,
        seed: u64,
        lanes: Vec<Lane>,
    ) -> Result<Chip<'a>, NoMemory>
        requires sound { IsSoundChip (soc_value soc.now) }
        requires good { IsGoodAlone (soc_value soc.now) (plan_value plan.now) }
        requires lanes { AreLanes
            (IsPlacedLane (made_keys seed) (soc_value soc.now) (plan_value plan.now))
            (planned (soc_value soc.now) (plan_value plan.now)) lanes.items }
        ensures { IfOk result
            (λ chip. chip ≡ at_first (soc_value soc.now) (plan_value plan.now) seed) }
    {
        let firsts = first_wires(alloc, plan)?;
        let wires = firsts[plan.buses.len()] as usize;
        let users = nobody(alloc, wires)?;
        let stepped = resting_lanes(alloc, lanes)?;
        let machine = Machine::new(stepped, users);
        Ok(Chip {
            soc,
            plan,
            seed,
            machine,
            captures: 0,
            right_loads: 0,
        })
    }

    /// Fills the bit that each wire of the plan's buses carries at this cycle, by the made contents.
    pub fn want(&self, drive: &mut [bool])
        requires { length drive.old ≡ wires_of self.now.plan }
        ensures { drive.new ≡ carried_bits self.now }
    {
        self.machine.want(drive);
    }

    /// Marks the wires on which a response bit is read at this cycle.
    pub fn compared(&self, care: &mut [bool])
        requires { length care.old ≡ wires_of self.now.plan }
        ensures long { length care.new ≡ wires_of self.now.plan }
        ensures read { (w : ℕ) → IsCompared (chip_tests self.now) self.now.cycle w →
            slice_get care.new w ≡ Some true }
        ensures only { (w : ℕ) → slice_get care.new w ≡ Some true →
            IsCompared (chip_tests self.now) self.now.cycle w }
    {
        self.machine.compare(care);
    }

    /// One cycle of the whole chip: `read` is filled with the bit that each wire shows as the cycle begins, and each test
    /// that is active does its operation, with the bits of `drive` on the wires. Fewer cycles are done than the plan has.
    pub fn cycle(&mut self, drive: &[bool], read: &mut [bool])
        requires left { self.old.cycle < self.old.plan.cycles }
        requires driven { length drive.now ≡ wires_of self.old.plan }
        requires shown { length read.old ≡ wires_of self.old.plan }
        ensures soc { self.new.soc ≡ self.old.soc }
        ensures plan { self.new.plan ≡ self.old.plan }
        ensures seed { self.new.seed ≡ self.old.seed }
        ensures cycle { self.new.cycle ≡ self.old.cycle + 1 }
        ensures state { self.new.state ≡ step (chip_content self.old) (chip_tests self.old)
            (λ w. slice_index_or drive.now w false) self.old.cycle self.old.state }
        ensures captures { self.new.captures
            ≡ self.old.captures + captures_at (chip_tests self.old) self.old.cycle }
        ensures right_loads { self.new.right_loads
            ≡ self.old.right_loads
            + right_loads_at (chip_content self.old) (chip_tests self.old) self.old.cycle
            self.old.state }
        ensures read { read.new ≡ shown_bits self.old }
    {
        let _cycles = cycles_of(self.plan);
        self.machine.show(read);
        let (captures, right_loads) = self.machine.captures();
        self.captures += captures;
        self.right_loads += right_loads;
        self.machine.step(drive);
        self.machine.advance();
    }

    /// How many cycles are done, with how many captures, and how many of these found their whole stimulus.
    pub fn report(&self) -> Report
        ensures cycle { result.cycle ≡ self.now.cycle }
        ensures captures { result.captures ≡ self.now.captures }
        ensures right_loads { result.right_loads ≡ self.now.right_loads }
    {
        Report {
            cycle: self.machine.cycle,
            captures: self.captures,
            right_loads: self.right_loads,
        }
    }
}
