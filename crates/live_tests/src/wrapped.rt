//! The wrappers of a module in a plan, with their longest paths.
ghost use Rattle.std.specs.Prelude.{◌≡◌, true, false, ◌+◌, ◌^◌, ◌≤◌, length, map, position, slice_get, Some};
ghost use Rattle.soc_model.specs.Chips.{ModuleValue, module_value, soc_value};
ghost use Rattle.soc_model.specs.SoundChips.{IsSoundChip};
ghost use Rattle.plan_model.specs.Cells.{IsProper, chain_cells};
ghost use Rattle.plan_model.specs.Listing.{module_size};
ghost use Rattle.plan_model.specs.Plans.{PlanValue, chains_of, operations_of, si_of, so_of, wraps};
ghost use Rattle.plan_model.specs.Rules.{Each, HasProperCells, IsGoodAlone};
ghost use Rattle.plan_model.specs.Views.{chain_value, wrapper_value};
ghost use Rattle.live_tests.specs.Wrapped.{AreModeWrappers, IsWrappedTest, MayBeWrapper};

use crate::index::PlanIndex;
use plan_model::{Wrapper, closed_time, lengths};
use soc_model::{Module, Soc, Test};

/// A wrapper of a module, with the longest paths through its chains.
#[derive(Clone, Copy, Drop)]
pub struct ModeWrapper {
    /// Its place in the plan, counted from 0.
    pub place: usize,
    /// The longest path from the inputs, in cells.
    pub si: u64,
    /// The longest path to the outputs, in cells.
    pub so: u64,
}

/// The wrappers of a module in both modes, where the plan has them.
#[derive(Clone, Copy, Drop)]
pub struct ModeWrappers {
    /// The one for tests through scan chains and terminals.
    pub scan: Option<ModeWrapper>,
    /// The one for tests through terminals alone.
    pub terminals: Option<ModeWrapper>,
}

/// The wrapper at a place, walked once.
pub fn walked(module: &Module, wrapper: &Wrapper, place: usize) -> ModeWrapper
    requires proper { IsProper (module_value «module».now) wrapper.now.scan
        (map chain_value wrapper.now.chains.items) }
    requires small { module_size (module_value «module».now) ≤ 10 ^ 18 }
    ensures place { result.place ≡ place }
    ensures si { result.si
        ≡ si_of (chain_cells (module_value «module».now) wrapper.now.scan
        (map chain_value wrapper.now.chains.items)) }
    ensures so { result.so
        ≡ so_of (chain_cells (module_value «module».now) wrapper.now.scan
        (map chain_value wrapper.now.chains.items)) }
    ensures short { 1 + result.si + result.so ≤ module_size (module_value «module».now) }
{
    let (si, so) = lengths(module, wrapper);
    ModeWrapper { place, si, so }
}

/// The wrapper at the place that was found for a mode of the module, walked once; none where none was found.
fn wrapper_at(
    soc: &Soc,
    wrappers: &[Wrapper],
    place: usize,
    module: &Module,
    scan: bool,
    found: Option<usize>,
) -> Option<ModeWrapper>
    requires sound { IsSoundChip (soc_value soc.now) }
    requires proper { Each (HasProperCells (soc_value soc.now)) (map wrapper_value wrappers.now) }
    requires there { slice_get (soc_value soc.now).modules place
        ≡ Some (module_value «module».now) }
    requires found { found
        ≡ position (wraps «module».now.number scan) (map wrapper_value wrappers.now) }
    ensures { (plan : PlanValue) → plan.wrappers ≡ map wrapper_value wrappers.now →
        MayBeWrapper plan (module_value «module».now) scan result }
{
    match found {
        Some(at) => Some(walked(module, &wrappers[at], at)),
        None => None,
    }
}

impl ModeWrappers {
    /// The wrappers at the places that were found for the two modes of the module at a place of the chip. Each is walked
    /// once.
    pub fn found(
        soc: &Soc,
        wrappers: &[Wrapper],
        place: usize,
        module: &Module,
        scan: Option<usize>,
        terminals: Option<usize>,
    ) -> ModeWrappers
        requires sound { IsSoundChip (soc_value soc.now) }
        requires proper { Each (HasProperCells (soc_value soc.now))
            (map wrapper_value wrappers.now) }
        requires there { slice_get (soc_value soc.now).modules place
            ≡ Some (module_value «module».now) }
        requires scan { scan
            ≡ position (wraps «module».now.number true) (map wrapper_value wrappers.now) }
        requires terminals { terminals
            ≡ position (wraps «module».now.number false) (map wrapper_value wrappers.now) }
        ensures { (plan : PlanValue) → plan.wrappers ≡ map wrapper_value wrappers.now →
            AreModeWrappers plan (module_value «module».now) result }
    {
        ModeWrappers {
            scan: wrapper_at(soc, wrappers, place, module, true, scan),
            terminals: wrapper_at(soc, wrappers, place, module, false, terminals),
        }
    }

    /// The wrappers of the module at a place of the chip in a good plan. Each is walked once.
    pub(crate) fn new(
        soc: &Soc,
        index: &PlanIndex<'_>,
        place: usize,
        module: &Module,
    ) -> ModeWrappers
        requires sound { IsSoundChip (soc_value soc.now) }
        requires good { IsGoodAlone (soc_value soc.now) index.now }
        requires there { slice_get (soc_value soc.now).modules place
            ≡ Some (module_value «module».now) }
        ensures { AreModeWrappers index.now (module_value «module».now) result }
    {
        let scan = index.wrapper(module.number, true);
        let terminals = index.wrapper(module.number, false);
        let wrappers = &index.plan().wrappers;
        ModeWrappers::found(soc, wrappers, place, module, scan, terminals)
    }

    /// The cycles of a live test of the module that has these wrappers.
    pub fn cycles(&self, module: &Module, test: &Test) -> u64
        requires { (plan : PlanValue)
            × IsWrappedTest plan (module_value «module».now) test.now self.now }
        ensures cycles { (plan : PlanValue) →
            AreModeWrappers plan (module_value «module».now) self.now →
            result
            ≡ length (operations_of (module_value «module».now) test.now
            (chains_of plan (module_value «module».now) test.now)) }
        ensures small { result ≤ 10 ^ 18 }
    {
        if !test.tam {
            return test.patterns;
        }
        match self.in_mode(test.scan) {
            Some(long) => closed_time(module.setup, long.si, long.so, test.patterns),
            None => unreachable!(),
        }
    }

    /// The wrapper in a mode. None comes exactly where the plan has none.
    pub fn in_mode(&self, scan: bool) -> Option<ModeWrapper>
        ensures { (plan : PlanValue) (m : ModuleValue) → AreModeWrappers plan m self.now →
            MayBeWrapper plan m scan result }
    {
        if scan { self.scan } else { self.terminals }
    }
}
