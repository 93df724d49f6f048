//! What a tester drives and compares on the wires of a plan, line by line.
ghost use Rattle.std.specs.Prelude.{◌≡◌, ℕ, ◌+◌, ◌^◌, ◌<◌, length, IfOk};
ghost use Rattle.soc_model.specs.Chips.{SocValue};
ghost use Rattle.plan_model.specs.Plans.{PlanValue, planned};
ghost use Rattle.plan_model.specs.Runs.{Content};
ghost use Rattle.vector_lines.specs.Wires.{wires_of};
ghost use Rattle.vector_lines.specs.Placed.{StandFor};
ghost use Rattle.vector_lines.specs.Vectors.{AreVectors, HaveRoom, IsLineOf, Marks};

use crate::contents::Contents;
use crate::lane::Lane;
use crate::placing::placed_lanes;
use crate::stretches::put_tests;
use live_tests::{PlacedPlan, first_wires};
use outside::NoMemory;
use std::alloc::Global;

/// The vectors of a good plan. A vector is what stands on the wires at a cycle: the bit that each wire carries, and the mark of the
/// response bit that is read there, if one is. They are made from contents, with no run.
#[derive(Drop)]
pub struct Vectors {
    wires: usize,
    lanes: Vec<Lane>,
}

impl Vectors {
    /// The vectors of a good plan of a sound chip, for the contents that know its live tests by their keys. All memory is taken here.
    pub fn new<C: Contents>(
        alloc: Global,
        placed: &PlacedPlan<'_>,
        contents: &C,
    ) -> Result<Vectors, NoMemory>
        ensures { IfOk result (AreVectors (C.keys contents.now) placed.now.soc placed.now.plan) }
    {
        let plan = placed.plan;
        let firsts = first_wires(alloc, plan)?;
        let wires = firsts[plan.buses.len()] as usize;
        let lanes = placed_lanes(alloc, placed, contents, &firsts)?;
        Ok(Vectors { wires, lanes })
    }

    /// Writes the lines of `count` cycles from one on: in each the bits that the wires carry as digits, a space, for each
    /// wire the mark of the response bit that is read there or `-`, and a line feed. The contents are those that the vectors were made
    /// for, or others with the same keys.
    pub fn put_lines<C: Contents>(&self, contents: &C, text: &mut [u8], from: u64, count: u64)
        requires room { HaveRoom (C.keys contents.now) self.now count text.old }
        requires fits { from + count < 2 ^ 64 }
        ensures long { length text.new ≡ length text.old }
        ensures lines { (soc : SocValue) (plan : PlanValue) (content : Content) (marks : Marks) →
            AreVectors (C.keys contents.now) soc plan self.now →
            StandFor (C.keys contents.now) (C.drive contents.now) (C.mark contents.now) soc content
            marks → (r : ℕ) → r < count →
            IsLineOf content marks (planned soc plan) (wires_of plan) (from + r) r text.new }
    {
        put_tests(text, self.wires, &self.lanes, contents, from, count);
    }
}
