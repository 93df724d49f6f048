//! Which tests the lists of a proof have, and which of the lists keep their rules.
ghost use Rattle.std.specs.Prelude.{◌≡◌, ◌++◌, ℕ, Bool, List, length, map, take, IfOk, OnOk};
ghost use Rattle.std.specs.List.{flat_map};
ghost use Rattle.soc_model.specs.declared.TestId.{TestId};
ghost use Rattle.leaf_bounds.specs.declared.list_table.Role.TheVariants.{Drawing};
ghost use Rattle.plan_model.specs.Proofs.{OfCrowd, OfPower, OfTurns, OfTurnsOn, list_value};
ghost use Rattle.leaf_bounds.specs.ListRules.{AreTurnMarks, IsListRules, ListAdded, chip_ruled, limits_ruled, member_role, roles_in, turn_role as the_turn_role};
ghost use Rattle.leaf_bounds.specs.ListTables.{IsListTable, KeepFirst};

use crate::list_rules::{ListRules, TurnMarks, are_heavy, crowd_marks, turn_marks};
use crate::lists::is_near;
use live_tests::Problem;
use outside::{NoMemory, push};
use plan_model::TestList;
use soc_model::TestId;
use std::alloc::Global;

/// How a live test is in a list.
#[derive(Clone, Copy, PartialEq, Eq)]
pub enum Role {
    /// It uses nothing of the list.
    Out,
    /// It uses the list as long as it runs.
    In,
    /// It uses the list as long as it runs where its module is on the bus of the list's rank.
    Beside,
    /// It uses the list by its power.
    Drawing,
}

/// How the live tests of a chip are in the lists of a proof.
#[derive(Drop)]
pub struct ListTable {
    /// How many lists keep their rules before the first that breaks its own; all of them where none does.
    pub kept: usize,
    /// List by list, of those that keep their rules before the first that doesn't, how each live test is in it.
    pub roles: Vec<Role>,
    /// The live tests of the chip.
    pub tests: usize,
}

/// Puts for each live test whether it is marked.
fn push_members(roles: &mut Vec<Role>, among: &[bool]) -> Result<(), NoMemory>
    ensures { OnOk result (roles.new.items ≡ roles.old.items ++ map member_role among.now) }
{
    for mark in among {
        push(roles, if *mark { Role::In } else { Role::Out })?;
    }
    Ok(())
}

/// Puts for each live test that it is in a list by its power.
fn push_drawing(roles: &mut Vec<Role>, tams: &[bool]) -> Result<(), NoMemory>
    ensures { OnOk result
        (roles.new.items ≡ roles.old.items ++ map (λ (tam : Bool). Drawing) tams.now) }
{
    for _tam in tams {
        push(roles, Role::Drawing)?;
    }
    Ok(())
}

/// How a live test is in a list of turns on a bus: one of its tests, or one over the wires that excludes each of them.
fn turn_role(among: bool, tam: bool, apart: bool) -> Role
    ensures { result ≡ the_turn_role among tam apart }
{
    if among {
        Role::In
    } else if tam && apart {
        Role::Beside
    } else {
        Role::Out
    }
}

/// Puts for each live test how it is in a list of turns on a bus, by its marks.
fn push_turns_on(
    roles: &mut Vec<Role>,
    rules: &ListRules<'_>,
    marks: &TurnMarks,
) -> Result<(), NoMemory>
    requires rules { IsListRules rules.now }
    requires among { length marks.now.among.items ≡ length rules.now.tams.items }
    requires apart { length marks.now.apart.items ≡ length rules.now.tams.items }
    ensures { OnOk result
        ((rank : ℕ) (tests : List TestId) → AreTurnMarks rules.now tests marks.now →
        roles.new.items ≡ roles.old.items ++ roles_in rules.now (OfTurnsOn rank tests)) }
{
    for place in 0..rules.tams.len() {
        let role = turn_role(marks.among[place], rules.tams[place], marks.apart[place]);
        push(roles, role)?;
    }
    Ok(())
}

/// Puts how the live tests are in a list of turns that keeps its rule; `false` where it breaks it.
fn add_turns(
    alloc: Global,
    rules: &ListRules<'_>,
    tests: &[TestId],
    roles: &mut Vec<Role>,
) -> Result<bool, NoMemory>
    requires { IsListRules rules.now }
    ensures { IfOk result
        (ListAdded rules.now (OfTurns tests.now) roles.old.items roles.new.items) }
{
    let Some(marks) = turn_marks(alloc, rules, tests)? else {
        return Ok(false);
    };
    push_members(roles, &marks.among)?;
    Ok(true)
}

/// Adds a list of turns on a bus, where it keeps its rule.
fn add_turns_on(
    alloc: Global,
    rules: &ListRules<'_>,
    tests: &[TestId],
    roles: &mut Vec<Role>,
) -> Result<bool, NoMemory>
    requires { IsListRules rules.now }
    ensures { IfOk result (λ kept. (rank : ℕ) →
        ListAdded rules.now (OfTurnsOn rank tests.now) roles.old.items roles.new.items kept) }
{
    let Some(marks) = turn_marks(alloc, rules, tests)? else {
        return Ok(false);
    };
    push_turns_on(roles, rules, &marks)?;
    Ok(true)
}

/// Adds a crowd, where it keeps its rule.
fn add_crowd(
    alloc: Global,
    rules: &ListRules<'_>,
    most: u64,
    tests: &[TestId],
    roles: &mut Vec<Role>,
) -> Result<bool, NoMemory>
    requires { IsListRules rules.now }
    ensures { IfOk result
        (ListAdded rules.now (OfCrowd most tests.now) roles.old.items roles.new.items) }
{
    let Some(marks) = crowd_marks(alloc, rules, tests)? else {
        return Ok(false);
    };
    if !are_heavy(alloc, rules.limits.power, most, &marks.powers)? {
        return Ok(false);
    }
    push_members(roles, &marks.among)?;
    Ok(true)
}

/// Adds the power, where it keeps its rule.
fn add_power(rules: &ListRules<'_>, near: u64, roles: &mut Vec<Role>) -> Result<bool, NoMemory>
    requires { IsListRules rules.now }
    ensures { IfOk result (ListAdded rules.now (OfPower near) roles.old.items roles.new.items) }
{
    if !is_near(rules.limits, near) {
        return Ok(false);
    }
    push_drawing(roles, &rules.tams)?;
    Ok(true)
}

/// Adds a list of any kind, where it keeps its rule.
fn add_list(
    alloc: Global,
    rules: &ListRules<'_>,
    list: &TestList,
    roles: &mut Vec<Role>,
) -> Result<bool, NoMemory>
    requires { IsListRules rules.now }
    ensures { IfOk result
        (ListAdded rules.now (list_value list.now) roles.old.items roles.new.items) }
{
    match list {
        TestList::Turns { tests } => add_turns(alloc, rules, tests, roles),
        TestList::TurnsOn { rank: _, tests } => add_turns_on(alloc, rules, tests, roles),
        TestList::Crowd { most, tests } => add_crowd(alloc, rules, *most, tests, roles),
        TestList::Power { near } => add_power(rules, *near, roles),
    }
}

/// Puts how the live tests are in each list before the first that breaks its rule, and tells how many lists these are.
fn add_lists(
    alloc: Global,
    rules: &ListRules<'_>,
    lists: &[TestList],
    roles: &mut Vec<Role>,
) -> Result<usize, NoMemory>
    requires { IsListRules rules.now }
    ensures first { IfOk result
        (KeepFirst (chip_ruled rules.now) (limits_ruled rules.now) (map list_value lists.now)) }
    ensures roles { IfOk result (λ kept. roles.new.items
        ≡ roles.old.items ++ flat_map (roles_in rules.now) (take kept (map list_value lists.now))) }
{
    for place in 0..lists.len() {
        if !add_list(alloc, rules, &lists[place], roles)? {
            return Ok(place);
        }
    }
    Ok(lists.len())
}

/// The table of some lists. `NoMemory` where memory runs out.
pub(crate) fn list_table(
    alloc: Global,
    problem: &Problem<'_>,
    lists: &[TestList],
) -> Result<ListTable, NoMemory>
    ensures { IfOk result
        (IsListTable problem.now.soc problem.now.limits (map list_value lists.now)) }
{
    let rules = ListRules::new(alloc, problem)?;
    let mut roles = Vec::new(alloc);
    let kept = add_lists(alloc, &rules, lists, &mut roles)?;
    let tests = rules.tams.len();
    Ok(ListTable { kept, roles, tests })
}
