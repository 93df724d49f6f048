//! The packed times of the tests of one module.
ghost use Rattle.std.specs.Prelude.{◌≡◌, ◌+◌, ◌^◌, ◌<◌, ◌≤◌, IsTrue};
ghost use Rattle.soc_model.specs.Chips.{module_value, is_live};
ghost use Rattle.soc_model.specs.Sizes.{test_work};
ghost use Rattle.proof_facts.specs.Packed.{packed_time};
ghost use Rattle.proof_facts.specs.Times.{IsPackingOf, longest_chain, self_times_of, tam_times_of, works_of};

use plan_model::closed_time;
use soc_model::{Module, Test, live, over_wires};

/// What the packed times of a module's tests depend on, at one width.
#[derive(Clone, Copy)]
pub struct Packing {
    /// The width, in wires.
    pub width: u64,
    /// How many cells of scan chains the longest of `width` wrapper chains has at least.
    pub packed: u64,
    /// The lengths of all scan chains together.
    pub flops: u64,
}

/// The least length of the longest of `packing.width` wrapper chains, with `ends` input or output cells in all.
fn chain_length(packing: &Packing, scan: bool, ends: u64) -> u64
    requires some_wire { 1 ≤ packing.now.width }
    requires fits { ends + packing.now.flops < 2 ^ 63 }
    ensures { result ≡ longest_chain packing.now scan ends }
{
    if scan {
        let dealt = (ends + packing.flops).div_ceil(packing.width);
        dealt.max(packing.packed)
    } else {
        ends.div_ceil(packing.width)
    }
}

/// The packed time of a live test of the module, in cycles.
pub fn test_time(module: &Module, packing: &Packing, test: &Test) -> u64
    requires packing { IsPackingOf (module_value «module».now) packing.now }
    requires live { IsTrue (is_live test.now) }
    requires work { test_work (module_value «module».now) test.now ≤ 10 ^ 18 }
    ensures time { result ≡ packed_time (module_value «module».now) test.now packing.now.width }
    ensures small { result ≤ 10 ^ 18 }
{
    if !test.tam {
        return test.patterns;
    }
    let si = chain_length(packing, test.scan, module.inputs + module.bidirs);
    let so = chain_length(packing, test.scan, module.outputs + module.bidirs);
    closed_time(module.setup, si, so, test.patterns)
}

/// The packed times of the module's live tests over the wires together, in cycles.
pub fn tam_time(module: &Module, packing: &Packing) -> u64
    requires packing { IsPackingOf (module_value «module».now) packing.now }
    requires work { works_of (module_value «module».now) «module».now.tests.items ≤ 10 ^ 18 }
    ensures time { result
        ≡ tam_times_of (module_value «module».now) packing.now.width «module».now.tests.items }
    ensures small { result ≤ 10 ^ 18 }
{
    let mut sum = 0u64;
    for test in &module.tests {
        if over_wires(test) {
            sum += test_time(module, packing, test);
        }
    }
    sum
}

/// The patterns of the module's live self tests together: as many cycles as they take.
pub fn self_time(module: &Module) -> u64
    requires work { works_of (module_value «module».now) «module».now.tests.items ≤ 10 ^ 18 }
    ensures time { result ≡ self_times_of «module».now.tests.items }
    ensures small { result ≤ 10 ^ 18 }
{
    let mut sum = 0u64;
    for test in &module.tests {
        if live(test) && !test.tam {
            sum += test.patterns;
        }
    }
    sum
}
