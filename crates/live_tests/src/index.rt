//! The buses, wrappers and starts of a plan, found by the numbers of modules and tests.
ghost use Rattle.std.specs.Prelude.{◌≡◌, ℕ, Bool, Some, map, nat_eq, position, unwrap_or, if◌then◌else◌, IfOk, OnOk};
ghost use Rattle.std.specs.List.{list_any};
ghost use Rattle.std.specs.Map.{lookup};
ghost use Rattle.soc_model.specs.declared.TestId.{TestId};
ghost use Rattle.soc_model.specs.Chips.{same_test};
ghost use Rattle.plan_model.specs.declared.Wrapper.{Wrapper};
ghost use Rattle.plan_model.specs.Plans.{bus_place as the_bus_place, of_first, wraps};
ghost use Rattle.plan_model.specs.Views.{bus_value, plan_value, wrapper_value};
ghost use Rattle.live_tests.specs.Index.{AreBusPlaces, is_pair};

use indexmap::IndexMap;
use outside::NoMemory;
use plan_model::{Bus, Plan, Wrapper};
use soc_model::TestId;
use std::alloc::Global;
use std::marker::Model;

/// A plan whose buses, wrappers and starts are found by the numbers of modules and tests.
#[derive(Drop)]
pub struct PlanIndex<'a> {
    plan: &'a Plan,
    buses: IndexMap<u64, usize>,
    wrappers: IndexMap<(u64, bool), usize>,
    starts: IndexMap<TestId, u64>,
}

impl<'a> Model for PlanIndex<'a> {
    ghost use Rattle.plan_model.specs.Plans.{PlanValue};
    ghost use Rattle.plan_model.specs.Views.{plan_value};
    ghost use Rattle.live_tests.specs.Index.{IsIndex};

    ghost Value = { PlanValue };

    ghost view = { λ t. plan_value t.plan.now };

    ghost invariant = { λ t. IsIndex (plan_value t.plan.now) t.buses.entries t.wrappers.entries
        t.starts.entries };
}

impl<'a> PlanIndex<'a> {
    /// The index of a plan. `NoMemory` where memory runs out.
    pub fn new(alloc: Global, plan: &'a Plan) -> Result<PlanIndex<'a>, NoMemory>
        ensures { IfOk result (λ index. index ≡ plan_value plan.now) }
    {
        let starts = starts_by_name(alloc, &plan.starts)?;
        let buses = buses_by_module(alloc, &plan.buses)?;
        PlanIndex::with_wrappers(alloc, plan, buses, starts)
    }

    /// The index of a plan whose buses and starts are found already.
    fn with_wrappers(
        alloc: Global,
        plan: &'a Plan,
        buses: IndexMap<u64, usize>,
        starts: IndexMap<TestId, u64>,
    ) -> Result<PlanIndex<'a>, NoMemory>
        requires buses { AreBusPlaces buses.entries (plan_value plan.now).buses }
        requires starts { (id : TestId) →
            lookup (same_test id) starts.entries
            ≡ lookup (same_test id) (plan_value plan.now).starts }
        ensures { IfOk result (λ index. index ≡ plan_value plan.now) }
    {
        let wrappers = wrappers_by_mode(alloc, &plan.wrappers)?;
        Ok(PlanIndex {
            plan,
            buses,
            wrappers,
            starts,
        })
    }

    /// The plan.
    pub fn plan(&self) -> &'a Plan
        ensures { plan_value result.now ≡ self.now }
    {
        self.plan
    }

    /// The place of the first bus that lists a module, the number of buses where none does.
    pub fn bus(&self, module: u64) -> usize
        ensures { result ≡ the_bus_place «module» 0 self.now.buses }
    {
        bus_place(&self.plan.buses, &self.buses, module)
    }

    /// The place of the first wrapper of a module in a mode. None comes exactly where there is none.
    pub fn wrapper(&self, module: u64, scan: bool) -> Option<usize>
        ensures { result ≡ position (wraps «module» scan) self.now.wrappers }
    {
        self.wrappers.get(&(module, scan)).copied()
    }

    /// The cycle of the first start of a test, 0 where it has none.
    pub fn start(&self, id: TestId) -> u64
        ensures { result
            ≡ of_first (λ (s : TestId × ℕ). same_test s.0 id) (λ s. s.1) 0 self.now.starts }
    {
        self.starts.get(&id).copied().unwrap_or(0)
    }
}

/// Notes a bus for each of its modules.
fn note_modules(
    buses: &mut IndexMap<u64, usize>,
    modules: &[u64],
    bus: usize,
) -> Result<(), NoMemory>
    ensures { OnOk result ((m : ℕ) →
        lookup (nat_eq m) buses.new.entries
        ≡ (if list_any (nat_eq m) modules.now then Some bus else lookup (nat_eq m)
        buses.old.entries)) }
{
    for module in modules {
        buses.insert(*module, bus)?;
    }
    Ok(())
}

/// The place of the bus of each module that is on one, by the module's number; of more than one the first.
pub fn buses_by_module(alloc: Global, buses: &[Bus]) -> Result<IndexMap<u64, usize>, NoMemory>
    ensures { IfOk result (λ named. AreBusPlaces named.entries (map bus_value buses.now)) }
{
    let mut named = IndexMap::new(alloc);
    for place in (0..buses.len()).rev() {
        note_modules(&mut named, &buses[place].modules, place)?;
    }
    Ok(named)
}

/// The place of the first bus that lists a module, found by those of all modules; the number of buses where none does.
pub fn bus_place(buses: &[Bus], places: &IndexMap<u64, usize>, module: u64) -> usize
    requires { AreBusPlaces places.now.entries (map bus_value buses.now) }
    ensures { result ≡ the_bus_place «module» 0 (map bus_value buses.now) }
{
    match places.get(&module) {
        Some(place) => *place,
        None => buses.len(),
    }
}

/// The place of the wrapper of each module and mode that has one, by the module's number and whether the mode is `scan`; of
/// more than one the first.
pub fn wrappers_by_mode(
    alloc: Global,
    wrappers: &[Wrapper],
) -> Result<IndexMap<(u64, bool), usize>, NoMemory>
    ensures { IfOk result (λ named. (m : ℕ) (scan : Bool) →
        lookup (is_pair m scan) named.entries
        ≡ position (wraps m scan) (map wrapper_value wrappers.now)) }
{
    let mut named = IndexMap::with_capacity(alloc, wrappers.len())?;
    for place in (0..wrappers.len()).rev() {
        let wrapper = &wrappers[place];
        named.insert((wrapper.module, wrapper.scan), place)?;
    }
    Ok(named)
}

/// The starts by the names of their tests; of two starts of a test the first.
fn starts_by_name(
    alloc: Global,
    starts: &[(TestId, u64)],
) -> Result<IndexMap<TestId, u64>, NoMemory>
    ensures { IfOk result (λ named. (id : TestId) →
        lookup (same_test id) named.entries ≡ lookup (same_test id) starts.now) }
{
    let mut named = IndexMap::with_capacity(alloc, starts.len())?;
    for place in (0..starts.len()).rev() {
        let (id, start) = starts[place];
        named.insert(id, start)?;
    }
    Ok(named)
}
