//! What exclusions ask of each live test: its module, that module's parent, and the least that it draws.
ghost use Rattle.std.specs.Prelude.{◌≡◌, ◌++◌, ◌+◌, Some, map, IfOk, OnOk};
ghost use Rattle.std.specs.List.{filter};
ghost use Rattle.soc_model.specs.Chips.{is_live};
ghost use Rattle.proof_facts.specs.Exclusions.{is_passed as the_passed, is_place as the_place};
ghost use Rattle.proof_facts.specs.Rows.{all_facts as the_facts, are_apart as the_apart, are_kin as the_kin, facts_at, mark_of as the_mark};

use crate::powers::least_at;
use live_tests::{Problem, profile_place};
use outside::{NoMemory, push};
use soc_model::{Module, Test, TestId, live, module_at};
use std::alloc::Global;

/// What exclusions ask of a live test.
#[derive(Clone, Copy)]
pub(crate) struct TestFacts {
    /// The place of its module.
    pub place: usize,
    /// The place of that module's parent.
    pub parent: Option<usize>,
    /// The least that it draws at a cycle, in the unit of the limits.
    pub least: u64,
}

/// The place is there, and is this one.
fn is_place(found: Option<usize>, place: usize) -> bool
    ensures { result ≡ the_place found place }
{
    match found {
        Some(there) => there == place,
        None => false,
    }
}

/// There is a limit, and two powers together pass it.
fn is_passed(most: Option<u64>, first: u64, second: u64) -> bool
    ensures { result ≡ the_passed most (first + second) }
{
    match most {
        Some(limit) => u128::from(limit) < u128::from(first) + u128::from(second),
        None => false,
    }
}

impl TestFacts {
    /// Whether two tests are of one module, or of a module and its parent.
    fn are_kin(self, other: TestFacts) -> bool
        ensures { result ≡ the_kin self other }
    {
        self.place == other.place
            || is_place(other.parent, self.place)
            || is_place(self.parent, other.place)
    }

    /// Whether two tests are kin, or draw more than a limit of power together.
    fn are_apart(self, other: TestFacts, power: Option<u64>) -> bool
        ensures { result ≡ the_apart power self other }
    {
        self.are_kin(other) || is_passed(power, self.least, other.least)
    }
}

/// The mark of the test at a place in the row of another one, where precedences lead from that one as marked, and to it.
pub(crate) fn mark_of(
    power: Option<u64>,
    own: TestFacts,
    other: TestFacts,
    test: usize,
    place: usize,
    behind: bool,
    ahead: bool,
) -> bool
    ensures { result ≡ the_mark power own other test place behind ahead }
{
    test != place && (behind || ahead || own.are_apart(other, power))
}

/// What exclusions ask of a test of a module, whose place, parent and number these are.
fn test_facts(
    problem: &Problem<'_>,
    place: usize,
    parent: Option<usize>,
    number: u64,
    test: &Test,
) -> TestFacts
    ensures { result ≡ facts_at problem.now.limits place parent number test.now }
{
    let id = TestId {
        module: number,
        test: test.number,
    };
    let found = profile_place(&problem.limits.profiles, &problem.resolved.profiles, id);
    let least = least_at(problem.limits, found, test.power);
    TestFacts {
        place,
        parent,
        least,
    }
}

/// Adds what exclusions ask of the live tests of a module, whose place and parent these are.
fn push_facts(
    facts: &mut Vec<TestFacts>,
    problem: &Problem<'_>,
    place: usize,
    parent: Option<usize>,
    module: &Module,
) -> Result<(), NoMemory>
    ensures { OnOk result (facts.new.items
        ≡ facts.old.items
        ++ map (facts_at problem.now.limits place parent «module».now.number)
        (filter is_live «module».now.tests.items)) }
{
    for test in &module.tests {
        if live(test) {
            let number = module.number;
            push(facts, test_facts(problem, place, parent, number, test))?;
        }
    }
    Ok(())
}

/// What exclusions ask of each live test, in the order of the chip.
pub(crate) fn all_facts(alloc: Global, problem: &Problem<'_>) -> Result<Vec<TestFacts>, NoMemory>
    ensures { IfOk result (λ facts. facts.items ≡ the_facts problem.now.soc problem.now.limits) }
{
    let mut facts = Vec::new(alloc);
    for place in 0..problem.resolved.parents.len() {
        let parent = problem.resolved.parents[place];
        push_facts(
            &mut facts,
            problem,
            place,
            parent,
            module_at(problem.soc, place),
        )?;
    }
    Ok(facts)
}
