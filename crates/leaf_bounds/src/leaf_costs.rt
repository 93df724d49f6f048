//! What modules cost at the weights of a leaf: their times at the rates of buses, and their uses of lists.
ghost use Rattle.std.specs.Prelude.{◌≡◌, ◌^◌, ◌*◌, ◌+◌, ◌/◌, ◌<◌, ◌≤◌, ℕ, true, Some, List, [], ◌∷◌, ◌++◌, IfOk, length, drop, position, slice_get, slice_index, vec_capacity};
ghost use Rattle.std.specs.List.{All, sum_by};
ghost use Rattle.soc_model.specs.Chips.{LiveTest, id_of, live_tests, module_value, same_test};
ghost use Rattle.plan_model.specs.declared.Profile.{Profile};
ghost use Rattle.plan_model.specs.Bounds.{sum_below};
ghost use Rattle.plan_model.specs.Plans.{power_of_id, step_power};
ghost use Rattle.plan_model.specs.SoundLimits.{Grow};
ghost use Rattle.plan_model.specs.Views.{limits_value};
ghost use Rattle.plan_model.specs.Proofs.{WeightsValue};
ghost use Rattle.leaf_bounds.specs.Lists.{IsNear, counted as the_counted, power_use as the_power_use, use_of};
ghost use Rattle.leaf_bounds.specs.Leaves.{cost, is_rank as the_rank, self_use, slot, weighed};
ghost use Rattle.leaf_bounds.specs.ListTables.{role_at as the_role};
ghost use Rattle.leaf_bounds.specs.Bases.{IsBasis, AllKept, chip_of, limits_of, lists_of};
ghost use Rattle.leaf_bounds.specs.LeafCosts.{AreTotals, AreUses, IsMade, all_weights, by_places, IsIdle, IsWeighed, HasSpaceFor, LEAF_COST_MOST, USES_COST_MOST, beside_use, drawn_use, in_weight, is_over as the_over, kind_cost as the_kind_cost};

use crate::basis::Basis;
use crate::list_table::{ListTable, Role};
use crate::lists::{counted, room_of};
use crate::test_table::{TestPlace, TestTable};
use outside::NoMemory;
use plan_model::{Limits, TestList};
use soc_model::{Module, Test, module_at};
use std::alloc::Global;

/// How many lists a leaf weighs at most, or modules it prices.
pub const USES_MOST: usize = 16_777_216;

/// A list that tests may be beside, as a leaf weighs it.
#[derive(Clone, Copy)]
pub struct BesideUse {
    /// The rank of its bus.
    pub rank: u64,
    /// Its place among the lists of the proof.
    pub list: usize,
    /// Its weight.
    pub weight: u64,
}

/// What a leaf weighs, made ready for sums over tests.
#[derive(Drop)]
pub struct Weighed {
    /// For each live test the weights of the lists that it is in, together.
    pub sums: Vec<u64>,
    /// For each list of the proof its weights together.
    pub totals: Vec<u64>,
    /// The lists that a test may be beside.
    pub beside: Vec<BesideUse>,
    /// The lists of power: how near, and the weight.
    pub power: Vec<(u64, u64)>,
    /// The weights of all lists, each as often as there is room in it.
    pub rooms: u128,
}

impl Weighed {
    /// Room for the leaves of a proof. `NoMemory` where memory runs out.
    pub(crate) fn new(alloc: Global, basis: &Basis<'_>) -> Result<Weighed, NoMemory>
        requires basis { IsBasis basis.now }
        ensures { IfOk result (HasSpaceFor basis.now) }
    {
        let lists = basis.proof.lists.len();
        let sums = Vec::from_elem(alloc, 0, basis.tests.tests.len())?;
        let totals = Vec::from_elem(alloc, 0, lists)?;
        let beside = Vec::with_capacity(alloc, lists)?;
        let power = Vec::with_capacity(alloc, lists)?;
        Ok(Weighed {
            sums,
            totals,
            beside,
            power,
            rooms: 0,
        })
    }
}

/// How the live test at a place is in the list at a place.
fn role_at(table: &ListTable, list: usize, test: usize) -> Role
    requires long { length table.now.roles.items ≡ table.now.kept * table.now.tests }
    requires list { list < table.now.kept }
    requires test { test < table.now.tests }
    ensures { result ≡ the_role table.now list test }
{
    table.roles[list * table.tests + test]
}

/// The weight of a list for a test that is in it so.
fn weight_of(role: Role, weight: u64) -> u64
    ensures weight { result ≡ in_weight role weight }
    ensures small { result ≤ weight }
{
    match role {
        Role::In => weight,
        Role::Out => 0,
        Role::Beside => 0,
        Role::Drawing => 0,
    }
}

/// Adds the weight of a list at each live test that is in it.
fn add_in(table: &ListTable, list: usize, weight: u64, sums: &mut [u64])
    requires long { length table.now.roles.items ≡ table.now.kept * table.now.tests }
    requires list { list < table.now.kept }
    requires tests { length sums.old ≡ table.now.tests }
    requires low { (i : ℕ) → i < length sums.old →
        slice_index sums.old i + weight ≤ 2 ^ 24 * 10 ^ 9 }
    ensures long { length sums.new ≡ length sums.old }
    ensures sums { (i : ℕ) → i < length sums.old →
        slice_index sums.new i
        ≡ slice_index sums.old i + in_weight (the_role table.now list i) weight }
{
    for test in 0..sums.len() {
        let more = weight_of(role_at(table, list, test), weight);
        sums[test] += more;
    }
}

/// Nothing is weighed yet.
fn clear_weighed(room: &mut Weighed)
    ensures made { (basis : Basis) →
        length room.old.sums.items ≡ length (live_tests (chip_of basis)) →
        IsMade basis [] room.new }
    ensures beside { vec_capacity room.new.beside ≡ vec_capacity room.old.beside }
    ensures power { vec_capacity room.new.power ≡ vec_capacity room.old.power }
    ensures totals { room.new.totals ≡ room.old.totals }
{
    room.sums.fill(0);
    room.beside.clear();
    room.power.clear();
    room.rooms = 0;
}

/// Adds a list at its weight.
fn weigh_list(basis: &Basis<'_>, list: usize, weight: u64, room: &mut Weighed)
    requires basis { IsBasis basis.now }
    requires kept { AllKept basis.now }
    requires list { list < length (lists_of basis.now) }
    requires made { (os : List (ℕ × ℕ)) × IsMade basis.now os room.old
        × (all_weights os + weight ≤ 2 ^ 24 * 10 ^ 9) }
    requires beside { length room.old.beside.items < vec_capacity room.old.beside }
    requires power { length room.old.power.items < vec_capacity room.old.power }
    ensures made { (os : List (ℕ × ℕ)) → IsMade basis.now os room.old →
        IsMade basis.now (os ++ (list, weight) ∷ []) room.new }
    ensures beside { vec_capacity room.new.beside ≡ vec_capacity room.old.beside }
    ensures power { vec_capacity room.new.power ≡ vec_capacity room.old.power }
    ensures totals { room.new.totals ≡ room.old.totals }
{
    let what = &basis.proof.lists[list];
    room.rooms += u128::from(weight) * u128::from(room_of(what));
    match what {
        TestList::Power { near } => {
            room.power.push_reserved((*near, weight));
        }
        TestList::TurnsOn { rank, tests: _ } => {
            room.beside.push_reserved(BesideUse {
                rank: *rank,
                list,
                weight,
            });
            add_in(&basis.lists, list, weight, &mut room.sums);
        }
        TestList::Turns { tests: _ } => {
            add_in(&basis.lists, list, weight, &mut room.sums);
        }
        TestList::Crowd { most: _, tests: _ } => {
            add_in(&basis.lists, list, weight, &mut room.sums);
        }
    }
}

/// Adds up for each list the weights that stand beside its place.
fn add_up(uses: &[(u64, u64)], totals: &mut [u64])
    requires few { length uses.now ≤ 2 ^ 24 }
    requires small { All (λ (o : ℕ × ℕ). o.1 ≤ 10 ^ 9) uses.now }
    requires listed { All (λ (o : ℕ × ℕ). o.0 < length totals.old) uses.now }
    requires none { AreTotals [] totals.old }
    ensures long { length totals.new ≡ length totals.old }
    ensures totals { AreTotals uses.now totals.new }
{
    for (list, weight) in uses {
        totals[*list as usize] += *weight;
    }
}

/// Adds a list at its weights together.
fn weigh_total(basis: &Basis<'_>, list: usize, room: &mut Weighed)
    requires basis { IsBasis basis.now }
    requires kept { AllKept basis.now }
    requires list { list < length (lists_of basis.now) }
    requires long { length room.old.totals.items ≡ length (lists_of basis.now) }
    requires made { (os : List (ℕ × ℕ)) × IsMade basis.now os room.old
        × (all_weights os + slice_index room.old.totals.items list ≤ 2 ^ 24 * 10 ^ 9) }
    requires beside { length room.old.beside.items < vec_capacity room.old.beside }
    requires power { length room.old.power.items < vec_capacity room.old.power }
    ensures made { (os : List (ℕ × ℕ)) → IsMade basis.now os room.old →
        IsMade basis.now (os ++ (list, slice_index room.old.totals.items list) ∷ []) room.new }
    ensures beside { vec_capacity room.new.beside ≡ vec_capacity room.old.beside }
    ensures power { vec_capacity room.new.power ≡ vec_capacity room.old.power }
    ensures totals { room.new.totals ≡ room.old.totals }
{
    let weight = room.totals[list];
    if weight == 0 {
        return;
    }
    weigh_list(basis, list, weight, room);
}

/// Adds all lists at their weights together.
fn weigh_totals(basis: &Basis<'_>, room: &mut Weighed)
    requires basis { IsBasis basis.now }
    requires kept { AllKept basis.now }
    requires space { HasSpaceFor basis.now room.old }
    requires made { IsMade basis.now [] room.old }
    requires few { all_weights (by_places room.old.totals.items (length (lists_of basis.now)))
        ≤ 2 ^ 24 * 10 ^ 9 }
    ensures made { IsMade basis.now (by_places room.old.totals.items (length (lists_of basis.now)))
        room.new }
    ensures beside { vec_capacity room.new.beside ≡ vec_capacity room.old.beside }
    ensures power { vec_capacity room.new.power ≡ vec_capacity room.old.power }
    ensures totals { room.new.totals ≡ room.old.totals }
{
    for list in 0..basis.proof.lists.len() {
        weigh_total(basis, list, room);
    }
}

/// Makes ready what a leaf weighs. However often it names a list, the list's tests are gone over once.
pub(crate) fn weigh_leaf(basis: &Basis<'_>, lists: &[(u64, u64)], room: &mut Weighed)
    requires basis { IsBasis basis.now }
    requires kept { AllKept basis.now }
    requires uses { (weights : WeightsValue) × (weights.lists ≡ lists.now)
        × AreUses basis.now weights }
    requires space { HasSpaceFor basis.now room.old }
    ensures weighed { (weights : WeightsValue) → weights.lists ≡ lists.now →
        AreUses basis.now weights → IsWeighed basis.now weights room.new }
    ensures space { HasSpaceFor basis.now room.new }
{
    room.totals.fill(0);
    add_up(lists, &mut room.totals);
    clear_weighed(room);
    weigh_totals(basis, room);
}

/// A power as it counts, over `cycles` cycles, together.
fn counted_cycles(limit: u64, near: u64, power: u64, cycles: u64) -> u128
    requires near { near ≤ limit }
    ensures drawn { result ≡ the_counted limit near power * cycles }
    ensures small { result ≤ limit * cycles }
{
    u128::from(counted(limit, near, power)) * u128::from(cycles)
}

/// What a test with these steps draws over its first `cycles` cycles as it counts, added up step by step.
fn counted_steps(limit: u64, near: u64, steps: &[(u64, u64)], cycles: u64) -> u128
    requires near { near ≤ limit }
    requires steps { Grow 0 steps.now }
    ensures sum { result
        ≡ sum_below (λ r. the_counted limit near (step_power r 0 steps.now)) cycles }
    ensures small { result ≤ limit * cycles }
{
    let mut sum = 0u128;
    let mut begun = 0u64;
    let mut power = 0u64;
    for (from, next) in steps {
        let end = cycles.min(*from);
        sum += counted_cycles(limit, near, power, end - begun);
        begun = end;
        power = *next;
    }
    sum + counted_cycles(limit, near, power, cycles - begun)
}

/// `drawn` in whole limits, rounded down.
fn whole_limits(drawn: u128, limit: u64, cycles: u64) -> u64
    requires some { 1 ≤ limit }
    requires few { drawn ≤ limit * cycles }
    ensures share { result ≡ drawn / limit }
    ensures small { result ≤ cycles }
{
    (drawn / u128::from(limit)) as u64
}

/// What a live test draws over its first `cycles` cycles as it counts, where this is the place of its profile, and its own power.
fn drawn_by(
    limits: &Limits,
    limit: u64,
    near: u64,
    profile: Option<usize>,
    own: u64,
    cycles: u64,
) -> u128
    requires near { near ≤ limit }
    requires steps { (i : ℕ) (p : Profile) → slice_get limits.now.profiles.items i ≡ Some p →
        Grow 0 p.steps.items }
    requires profile { (l : LiveTest)
        × (profile
        ≡ position (λ (p : Profile). same_test p.test (id_of l)) limits.now.profiles.items) }
    ensures sum { (l : LiveTest) →
        profile ≡ position (λ (p : Profile). same_test p.test (id_of l)) limits.now.profiles.items →
        own ≡ l.test.power →
        result
        ≡ sum_below
        (λ r. the_counted limit near
        (power_of_id (limits_value limits.now) (id_of l) l.test.power r)) cycles }
    ensures small { result ≤ limit * cycles }
{
    match profile {
        Some(place) => counted_steps(limit, near, &limits.profiles[place].steps, cycles),
        None => counted_cycles(limit, near, own, cycles),
    }
}

/// The share of all power that a live test takes in `cycles` cycles, where this is the place of its profile, and its own power.
fn power_use(limits: &Limits, near: u64, profile: Option<usize>, own: u64, cycles: u64) -> u64
    requires near { IsNear (limits_value limits.now) near }
    requires steps { (i : ℕ) (p : Profile) → slice_get limits.now.profiles.items i ≡ Some p →
        Grow 0 p.steps.items }
    requires profile { (l : LiveTest)
        × (profile
        ≡ position (λ (p : Profile). same_test p.test (id_of l)) limits.now.profiles.items) }
    ensures share { (l : LiveTest) →
        profile ≡ position (λ (p : Profile). same_test p.test (id_of l)) limits.now.profiles.items →
        own ≡ l.test.power →
        result ≡ the_power_use (limits_value limits.now) near l cycles limits.now.power }
    ensures small { result ≤ cycles }
{
    let Some(limit) = limits.power else {
        return 0;
    };
    let drawn = drawn_by(limits, limit, near, profile, own, cycles);
    whole_limits(drawn, limit, cycles)
}

/// Whether the bus of this rank, where it is known, is that of another one.
fn is_rank(own: Option<u64>, rank: u64) -> bool
    ensures { result ≡ the_rank own rank }
{
    match own {
        Some(known) => known == rank,
        None => false,
    }
}

/// What the test at a place uses of the lists that it is beside on the bus of a rank, at their weights.
fn beside_uses(
    table: &ListTable,
    beside: &[BesideUse],
    rank: Option<u64>,
    test: usize,
    cycles: u64,
) -> u128
    requires long { length table.now.roles.items ≡ table.now.kept * table.now.tests }
    requires listed { All (λ (b : BesideUse). b.list < table.now.kept) beside.now }
    requires test { test < table.now.tests }
    requires fits { sum_by (beside_use table.now (the_rank rank) test cycles) beside.now
        ≤ USES_COST_MOST }
    ensures { result ≡ sum_by (beside_use table.now (the_rank rank) test cycles) beside.now }
{
    let mut sum = 0u128;
    for list in beside {
        if is_rank(rank, list.rank) && role_at(table, list.list, test) == Role::Beside {
            sum += u128::from(list.weight) * u128::from(cycles);
        }
    }
    sum
}

/// What a test uses of the lists of power, at their weights, where this is the place of its profile, and its own power.
fn drawn_uses(
    limits: &Limits,
    power: &[(u64, u64)],
    profile: Option<usize>,
    own: u64,
    cycles: u64,
) -> u128
    requires near { All (λ (p : ℕ × ℕ). IsNear (limits_value limits.now) p.0) power.now }
    requires steps { (i : ℕ) (p : Profile) → slice_get limits.now.profiles.items i ≡ Some p →
        Grow 0 p.steps.items }
    requires test { (l : LiveTest)
        × (profile
        ≡ position (λ (p : Profile). same_test p.test (id_of l)) limits.now.profiles.items)
        × (own ≡ l.test.power)
        × (sum_by (drawn_use (limits_value limits.now) l cycles) power.now ≤ USES_COST_MOST) }
    ensures { (l : LiveTest) →
        profile ≡ position (λ (p : Profile). same_test p.test (id_of l)) limits.now.profiles.items →
        own ≡ l.test.power →
        result ≡ sum_by (drawn_use (limits_value limits.now) l cycles) power.now }
{
    let mut sum = 0u128;
    for (near, weight) in power {
        sum += u128::from(*weight) * u128::from(power_use(limits, *near, profile, own, cycles));
    }
    sum
}

/// The weights of the lists that the live test at a place is in, together, times `cycles`.
fn inside_uses(room: &Weighed, test: usize, cycles: u64) -> u128
    requires { test < length room.now.sums.items }
    ensures { result ≡ slice_index room.now.sums.items test * cycles }
{
    u128::from(room.sums[test]) * u128::from(cycles)
}

/// Where the live test at a place is in the chip.
fn place_at(table: &TestTable, test: usize) -> TestPlace
    requires { test < length table.now.tests.items }
    ensures { slice_get table.now.tests.items test ≡ Some result }
{
    table.tests[test]
}

/// How many live tests stand before those of the module at a place.
fn start_at(table: &TestTable, place: usize) -> usize
    requires { place < length table.now.starts.items }
    ensures { slice_get table.now.starts.items place ≡ Some result }
{
    table.starts[place]
}

/// The test at a place of a module.
fn test_at(module: &Module, test: usize) -> Test
    requires { test < length (module_value «module».now).tests }
    ensures { slice_get (module_value «module».now).tests test ≡ Some result }
{
    module.tests[test]
}

/// Whether a test is over the wires, or a self test, as is asked for.
fn is_over(wires: bool, tam: bool) -> bool
    ensures { result ≡ the_over wires tam }
{
    if wires { tam } else { !tam }
}

/// What `cycles` cycles cost at a rate.
pub(crate) fn rated(rate: u64, cycles: u64) -> u128
    requires rate { rate < 2 ^ 40 }
    requires cycles { cycles ≤ 10 ^ 18 }
    ensures rated { result ≡ rate * cycles }
    ensures small { result ≤ 2 ^ 40 * 10 ^ 18 }
{
    u128::from(rate) * u128::from(cycles)
}

/// What the live test at a place uses of all lists on the bus of a rank in `cycles` cycles, at their weights.
fn test_uses(
    basis: &Basis<'_>,
    room: &Weighed,
    test: usize,
    own: u64,
    rank: Option<u64>,
    cycles: u64,
) -> u128
    requires basis { IsBasis basis.now }
    requires kept { AllKept basis.now }
    requires test { (l : LiveTest) × (slice_get (live_tests (chip_of basis.now)) test ≡ Some l)
        × (own ≡ l.test.power) }
    requires cycles { cycles ≤ 10 ^ 18 }
    requires weighed { (weights : WeightsValue) × IsWeighed basis.now weights room.now }
    ensures { (weights : WeightsValue) (l : LiveTest) → IsWeighed basis.now weights room.now →
        slice_get (live_tests (chip_of basis.now)) test ≡ Some l → own ≡ l.test.power →
        result ≡ weighed (lists_of basis.now) weights (λ list.
        use_of (chip_of basis.now) (limits_of basis.now) (the_rank rank) list cycles l) }
{
    let profile = place_at(&basis.tests, test).profile;
    let inside = inside_uses(room, test, cycles);
    let beside = beside_uses(&basis.lists, &room.beside, rank, test, cycles);
    let drawn = drawn_uses(basis.limits, &room.power, profile, own, cycles);
    inside + beside + drawn
}

/// Whether the live test at a place is in no list that has a weight, and none has one that is beside tests or of power.
fn is_idle(room: &Weighed, test: usize) -> bool
    requires { test < length room.now.sums.items }
    ensures { result ≡ true → IsIdle room.now test }
{
    if room.sums[test] > 0 {
        return false;
    }
    if !room.beside.is_empty() {
        return false;
    }
    room.power.is_empty()
}

/// What the live test at a place costs where it is over the wires, or a self test, as is asked for.
fn kind_cost(
    basis: &Basis<'_>,
    room: &Weighed,
    test: usize,
    wires: bool,
    rank: Option<u64>,
    width: u64,
) -> u128
    requires basis { IsBasis basis.now }
    requires kept { AllKept basis.now }
    requires test { test < length (live_tests (chip_of basis.now)) }
    requires some_wire { 1 ≤ width }
    requires few_wires { width ≤ (limits_of basis.now).wires }
    requires weighed { (weights : WeightsValue) × IsWeighed basis.now weights room.now }
    ensures { (weights : WeightsValue) (l : LiveTest) → IsWeighed basis.now weights room.now →
        slice_get (live_tests (chip_of basis.now)) test ≡ Some l →
        result ≡ the_kind_cost basis.now weights wires rank width l }
{
    if is_idle(room, test) {
        return 0;
    }
    let place = place_at(&basis.tests, test);
    let own = test_at(module_at(basis.soc, place.module), place.test);
    if is_over(wires, own.tam) {
        let cycles = basis.times.test_time(place.module, &own, width);
        return test_uses(basis, room, test, own.power, rank, cycles);
    }
    0
}

/// What the live tests from one place up to another cost, of those over the wires, or of the self tests, as is asked for.
fn costs_between(
    basis: &Basis<'_>,
    room: &Weighed,
    from: usize,
    to: usize,
    wires: bool,
    rank: Option<u64>,
    width: u64,
) -> u128
    requires basis { IsBasis basis.now }
    requires kept { AllKept basis.now }
    requires from { from ≤ to }
    requires to { to ≤ length (live_tests (chip_of basis.now)) }
    requires some_wire { 1 ≤ width }
    requires few_wires { width ≤ (limits_of basis.now).wires }
    requires weighed { (weights : WeightsValue) × IsWeighed basis.now weights room.now }
    ensures sum { (weights : WeightsValue) → IsWeighed basis.now weights room.now →
        result
        + sum_by (the_kind_cost basis.now weights wires rank width)
        (drop to (live_tests (chip_of basis.now)))
        ≡ sum_by (the_kind_cost basis.now weights wires rank width)
        (drop from (live_tests (chip_of basis.now))) }
    ensures small { result ≤ USES_COST_MOST }
{
    let mut sum = 0u128;
    for test in from..to {
        sum += kind_cost(basis, room, test, wires, rank, width);
    }
    sum
}

/// What the module at a place costs on a bus of this rank, where it is known, of this width and rate.
pub(crate) fn module_cost(
    basis: &Basis<'_>,
    room: &Weighed,
    place: usize,
    rank: Option<u64>,
    width: u64,
    rate: u64,
) -> u128
    requires basis { IsBasis basis.now }
    requires kept { AllKept basis.now }
    requires place { place < length (chip_of basis.now).modules }
    requires some_wire { 1 ≤ width }
    requires few_wires { width ≤ (limits_of basis.now).wires }
    requires rate { rate < 2 ^ 40 }
    requires weighed { (weights : WeightsValue) × IsWeighed basis.now weights room.now }
    ensures cost { (weights : WeightsValue) → IsWeighed basis.now weights room.now →
        result
        ≡ cost (chip_of basis.now) (limits_of basis.now) (lists_of basis.now) weights place
        (slot rank width rate) }
    ensures small { result ≤ LEAF_COST_MOST }
{
    let time = basis.times.tam_time(place, width);
    let from = start_at(&basis.tests, place);
    let to = start_at(&basis.tests, place + 1);
    rated(rate, time) + costs_between(basis, room, from, to, true, rank, width)
}

/// What all self tests cost.
pub(crate) fn self_cost(basis: &Basis<'_>, room: &Weighed) -> u128
    requires basis { IsBasis basis.now }
    requires kept { AllKept basis.now }
    requires weighed { (weights : WeightsValue) × IsWeighed basis.now weights room.now }
    ensures cost { (weights : WeightsValue) → IsWeighed basis.now weights room.now →
        result
        ≡ weighed (lists_of basis.now) weights
        (self_use (chip_of basis.now) (limits_of basis.now)) }
    ensures small { result ≤ LEAF_COST_MOST }
{
    costs_between(basis, room, 0, basis.tests.tests.len(), false, None, 1)
}
