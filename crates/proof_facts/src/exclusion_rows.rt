//! Which live tests a live test excludes, as a row of marks.
ghost use Rattle.std.specs.Prelude.{◌≡◌, ℕ, ◌<◌, Some, length, slice_get, IfOk};
ghost use Rattle.soc_model.specs.Chips.{LiveTest, SocValue, live_tests};
ghost use Rattle.plan_model.specs.Plans.{LimitsValue};
ghost use Rattle.proof_facts.specs.declared.facts.TestFacts.{TestFacts};
ghost use Rattle.proof_facts.specs.Exclusions.{excludes, least_power};
ghost use Rattle.proof_facts.specs.Marks.{is_marked};
ghost use Rattle.proof_facts.specs.Rows.{AreRowsOf, HasRow, mark_of as the_mark};

use crate::facts::{TestFacts, all_facts, mark_of};
use crate::floods::{tests_after, tests_before};
use live_tests::{Neighbours, Problem, all_after, all_before};
use outside::NoMemory;
use std::alloc::Global;

/// What a chip and limits say of exclusions, from which the row of each live test is made. It holds a few numbers for each
/// live test and each precedence.
#[derive(Drop)]
pub struct ExclusionRows {
    facts: Vec<TestFacts>,
    after: Vec<Neighbours>,
    before: Vec<Neighbours>,
    power: Option<u64>,
}

impl ExclusionRows {
    /// Those of a chip and its limits. `NoMemory` where memory runs out.
    pub fn new(alloc: Global, problem: &Problem<'_>) -> Result<ExclusionRows, NoMemory>
        ensures { IfOk result (λ rows. AreRowsOf problem.now.soc problem.now.limits rows) }
    {
        let facts = all_facts(alloc, problem)?;
        let after = all_after(alloc, facts.len(), &problem.resolved.precedences)?;
        let before = all_before(alloc, facts.len(), &problem.resolved.precedences)?;
        Ok(ExclusionRows {
            facts,
            after,
            before,
            power: problem.limits.power,
        })
    }

    /// The row of the live test at a place: a mark for each live test, by its place, which is true exactly where the two
    /// exclude each other. `NoMemory` where memory runs out. It takes time by the live tests and the precedences.
    pub fn row(&self, alloc: Global, test: usize) -> Result<Vec<bool>, NoMemory>
        requires { HasRow self.now test }
        ensures long { IfOk result (λ marks. (soc : SocValue) (limits : LimitsValue) →
            AreRowsOf soc limits self.now → length marks.items ≡ length (live_tests soc)) }
        ensures marks { IfOk result
            (λ marks. (soc : SocValue) (limits : LimitsValue) → AreRowsOf soc limits self.now →
            (j : ℕ) → is_marked marks.items j ≡ excludes soc limits test j) }
    {
        let mut marks = tests_after(alloc, &self.after, test)?;
        let ahead = tests_before(alloc, &self.before, test)?;
        mark_row(&self.facts, self.power, test, &ahead, &mut marks);
        Ok(marks)
    }

    /// The least that the live test at a place draws at a cycle, in the unit of the limits.
    pub fn least(&self, test: usize) -> u64
        requires { HasRow self.now test }
        ensures { (soc : SocValue) (limits : LimitsValue) (l : LiveTest) →
            AreRowsOf soc limits self.now → slice_get (live_tests soc) test ≡ Some l →
            result ≡ least_power limits l }
    {
        self.facts[test].least
    }
}

/// Makes the row of a test from the marks of those that precedences lead to from it, and of those that they lead to it from.
fn mark_row(
    facts: &[TestFacts],
    power: Option<u64>,
    test: usize,
    ahead: &[bool],
    marks: &mut [bool],
)
    requires test { test < length facts.now }
    requires ahead { length ahead.now ≡ length facts.now }
    requires marks { length marks.old ≡ length facts.now }
    ensures long { length marks.new ≡ length marks.old }
    ensures marks { (j : ℕ) (own other : TestFacts) → j < length facts.now →
        slice_get facts.now test ≡ Some own → slice_get facts.now j ≡ Some other →
        is_marked marks.new j
        ≡ the_mark power own other test j (is_marked marks.old j) (is_marked ahead.now j) }
{
    let own = facts[test];
    for place in 0..facts.len() {
        let behind = marks[place];
        let before = ahead[place];
        marks[place] = mark_of(power, own, facts[place], test, place, behind, before);
    }
}
