//! The rules of lists of tests: each test is marked in its turn, so that a row of marks tells all that the next one needs.
ghost use Rattle.std.specs.Prelude.{◌≡◌, ◌&&◌, ◌++◌, ◌<◌, ◌≤◌, ℕ, [], List, Some, false, true, length, map, position, slice_set, take, IfNone, IfOk, IfSome, OnOk};
ghost use Rattle.std.specs.List.{filter, sum};
ghost use Rattle.soc_model.specs.declared.TestId.{TestId};
ghost use Rattle.soc_model.specs.Chips.{LiveTest, is_live, live_tests, same_test, soc_value};
ghost use Rattle.soc_model.specs.declared.Test.{Test};
ghost use Rattle.leaf_bounds.specs.Takings.{bit_at};
ghost use Rattle.leaf_bounds.specs.ListRules.{AreCrowdMarks, AreHeavy, AreTurnMarks, IsListRules, MemberAdded, MembersMarked, TurnAdded, TurnsMarked, both_marked, chip_ruled, limits_ruled};

use live_tests::{LiveTests, Problem};
use outside::{NoMemory, push};
use plan_model::Limits;
use proof_facts::{ExclusionRows, sorted_lengths};
use soc_model::{Module, Soc, TestId, live, module_at};
use std::alloc::Global;

/// What the rules of lists are tested by.
#[derive(Drop)]
pub(crate) struct ListRules<'a> {
    pub soc: &'a Soc,
    pub limits: &'a Limits,
    /// The live tests, by name.
    pub names: &'a LiveTests,
    /// Which of them exclude each other.
    pub rows: ExclusionRows,
    /// For each live test whether it is over the wires.
    pub tams: Vec<bool>,
}

/// The marks of all live tests for some tests of a list of turns.
#[derive(Drop)]
pub(crate) struct TurnMarks {
    /// Whether they name it.
    pub among: Vec<bool>,
    /// Whether it excludes each of them.
    pub apart: Vec<bool>,
}

/// The marks of all live tests for some tests of a crowd.
#[derive(Drop)]
pub(crate) struct CrowdMarks {
    /// Whether they name it.
    pub among: Vec<bool>,
    /// The least power of each of them, in the unit of the limits.
    pub powers: Vec<u64>,
}

/// Adds for each live test of a module whether it is over the wires.
fn push_tams(tams: &mut Vec<bool>, module: &Module) -> Result<(), NoMemory>
    ensures { OnOk result (tams.new.items
        ≡ tams.old.items ++ map (λ (t : Test). t.tam) (filter is_live «module».now.tests.items)) }
{
    for test in &module.tests {
        if live(test) {
            push(tams, test.tam)?;
        }
    }
    Ok(())
}

/// For each live test whether it is over the wires.
fn all_tams(alloc: Global, soc: &Soc) -> Result<Vec<bool>, NoMemory>
    ensures { IfOk result
        (λ tams. tams.items ≡ map (λ (l : LiveTest). l.test.tam) (live_tests (soc_value soc.now))) }
{
    let mut tams = Vec::new(alloc);
    for place in 0..soc.modules.len() {
        push_tams(&mut tams, module_at(soc, place))?;
    }
    Ok(tams)
}

impl<'a> ListRules<'a> {
    /// Those of a chip and its limits. `NoMemory` where memory runs out.
    pub fn new(alloc: Global, problem: &Problem<'a>) -> Result<ListRules<'a>, NoMemory>
        ensures rules { IfOk result IsListRules }
        ensures chip { IfOk result (λ rules. chip_ruled rules ≡ problem.now.soc) }
        ensures limits { IfOk result (λ rules. limits_ruled rules ≡ problem.now.limits) }
    {
        let rows = ExclusionRows::new(alloc, problem)?;
        let tams = all_tams(alloc, problem.soc)?;
        Ok(ListRules {
            soc: problem.soc,
            limits: problem.limits,
            names: &problem.resolved.tests,
            rows,
            tams,
        })
    }
}

/// Marks the live test of a name that isn't marked yet, and tells its place. Without one nothing is changed.
fn mark_name(names: &LiveTests, among: &mut Vec<bool>, id: TestId) -> Option<usize>
    requires { length among.old.items ≡ length names.now }
    ensures found { IfSome result (λ place. position (same_test id) names.now ≡ Some place) }
    ensures within { IfSome result (λ place. place < length names.now) }
    ensures new { IfSome result (λ place. bit_at among.old.items place ≡ false) }
    ensures marked { IfSome result
        (λ place. among.new.items ≡ slice_set among.old.items place true) }
    ensures broken { IfNone result ((place : ℕ) → position (same_test id) names.now ≡ Some place →
        bit_at among.old.items place ≡ true) }
{
    let place = names.place(id)?;
    if among[place] {
        return None;
    }
    among[place] = true;
    Some(place)
}

/// Whether a place is marked both here and there. Both are read whatever they are, so that many places are gone over at once.
fn both_at(marks: &[bool], others: &[bool], place: usize) -> bool
    requires here { place < length marks.now }
    requires there { place < length others.now }
    ensures { result ≡ (bit_at marks.now place && bit_at others.now place) }
{
    marks[place] & others[place]
}

/// Leaves those marks that others have too.
fn keep_both(marks: &mut [bool], others: &[bool])
    requires { length others.now ≡ length marks.old }
    ensures { marks.new ≡ both_marked marks.old others.now }
{
    for place in 0..others.len() {
        marks[place] = both_at(marks, others, place);
    }
}

/// Marks the live tests for one test more of a list of turns. `false` where this one breaks its rule.
fn add_turn(
    alloc: Global,
    rules: &ListRules<'_>,
    id: TestId,
    marks: &mut TurnMarks,
) -> Result<bool, NoMemory>
    requires rules { IsListRules rules.now }
    requires among { length marks.old.among.items ≡ length (live_tests (chip_ruled rules.now)) }
    requires apart { length marks.old.apart.items ≡ length (live_tests (chip_ruled rules.now)) }
    ensures { IfOk result (λ kept. (earlier : List TestId) →
        AreTurnMarks rules.now earlier marks.old → TurnAdded rules.now earlier id marks.new kept) }
{
    let Some(place) = mark_name(rules.names, &mut marks.among, id) else {
        return Ok(false);
    };
    if !marks.apart[place] {
        return Ok(false);
    }
    let row = rules.rows.row(alloc, place)?;
    keep_both(&mut marks.apart, &row);
    Ok(true)
}

/// The marks for no test of a list of turns.
fn no_turns(alloc: Global, rules: &ListRules<'_>) -> Result<TurnMarks, NoMemory>
    requires { IsListRules rules.now }
    ensures { IfOk result (AreTurnMarks rules.now []) }
{
    let count = rules.tams.len();
    let among = Vec::from_elem(alloc, false, count)?;
    let apart = Vec::from_elem(alloc, true, count)?;
    Ok(TurnMarks { among, apart })
}

/// The marks for the tests of a list of turns. None comes exactly where one of them breaks its rule.
pub(crate) fn turn_marks(
    alloc: Global,
    rules: &ListRules<'_>,
    tests: &[TestId],
) -> Result<Option<TurnMarks>, NoMemory>
    requires { IsListRules rules.now }
    ensures { IfOk result (TurnsMarked rules.now tests.now) }
{
    let mut marks = no_turns(alloc, rules)?;
    for id in tests {
        if !add_turn(alloc, rules, *id, &mut marks)? {
            return Ok(None);
        }
    }
    Ok(Some(marks))
}

/// Marks the live tests for one test more of a crowd. `false` where this one breaks its rule.
fn add_member(rules: &ListRules<'_>, id: TestId, marks: &mut CrowdMarks) -> Result<bool, NoMemory>
    requires rules { IsListRules rules.now }
    requires among { length marks.old.among.items ≡ length (live_tests (chip_ruled rules.now)) }
    ensures { IfOk result
        (λ kept. (earlier : List TestId) → AreCrowdMarks rules.now earlier marks.old →
        MemberAdded rules.now earlier id marks.new kept) }
{
    let Some(place) = mark_name(rules.names, &mut marks.among, id) else {
        return Ok(false);
    };
    push(&mut marks.powers, rules.rows.least(place))?;
    Ok(true)
}

/// The marks for no test of a crowd.
fn no_members(alloc: Global, rules: &ListRules<'_>) -> Result<CrowdMarks, NoMemory>
    requires { IsListRules rules.now }
    ensures { IfOk result (AreCrowdMarks rules.now []) }
{
    let among = Vec::from_elem(alloc, false, rules.tams.len())?;
    Ok(CrowdMarks {
        among,
        powers: Vec::new(alloc),
    })
}

/// The marks for the tests of a crowd. None comes exactly where one of them breaks its rule.
pub(crate) fn crowd_marks(
    alloc: Global,
    rules: &ListRules<'_>,
    tests: &[TestId],
) -> Result<Option<CrowdMarks>, NoMemory>
    requires { IsListRules rules.now }
    ensures { IfOk result (MembersMarked rules.now tests.now) }
{
    let mut marks = no_members(alloc, rules)?;
    for id in tests {
        if !add_member(rules, *id, &mut marks)? {
            return Ok(None);
        }
    }
    Ok(Some(marks))
}

/// Whether the first powers are together more than a limit.
fn pass_limit(limit: u64, powers: &[u64], count: usize) -> bool
    requires { count ≤ length powers.now }
    ensures yes { result ≡ true → limit < sum (take count powers.now) }
    ensures no { result ≡ false → sum (take count powers.now) ≤ limit }
{
    let mut sum = 0u128;
    for place in 0..count {
        sum += u128::from(powers[place]);
    }
    u128::from(limit) < sum
}

/// Whether some powers are more than `most`, and any `most + 1` of them pass a limit, which is there.
pub(crate) fn are_heavy(
    alloc: Global,
    power: Option<u64>,
    most: u64,
    powers: &[u64],
) -> Result<bool, NoMemory>
    ensures yes { IfOk result (λ heavy. heavy ≡ true → AreHeavy power most powers.now) }
    ensures no { IfOk result (λ heavy. heavy ≡ false → AreHeavy power most powers.now → ⊥) }
{
    let Some(limit) = power else {
        return Ok(false);
    };
    if most == 0 || most >= powers.len() as u64 {
        return Ok(false);
    }
    let sorted = sorted_lengths(alloc, powers)?;
    Ok(pass_limit(limit, &sorted, most as usize + 1))
}
