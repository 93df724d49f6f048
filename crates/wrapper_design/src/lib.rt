//! The wrapper of a module for one mode on a given number of wires: balanced chains, scan chains longest first (after the
//! wrapper design of Iyengar, Chakrabarty and Marinissen 2002; the order, the ties and the filling are this program's own).
//!
//! Widths are in wires, one chain a wire; lengths are in cells.
//!
//! The wrapper is proper for `plan_model`, and its chains are by the definition. The only error is out of memory.
#![tactic(auto)]

ghost use Rattle.std.specs.Prelude.{◌≡◌, ◌^◌, ◌≤◌, length, map, IfOk};
ghost use Rattle.soc_model.specs.Chips.{module_value};
ghost use Rattle.plan_model.specs.Listing.{module_size};
ghost use Rattle.plan_model.specs.Views.{wrapper_value, chain_value};
ghost use Rattle.plan_model.specs.Cells.{IsProper};
ghost use Rattle.wrapper_design.specs.Design.{mode_of, design};
ghost use Rattle.wrapper_design.specs.Balance.{IsBalanced};

mod dealing;
mod loads;
mod order;
mod path_lengths;

use dealing::build_chains;
use order::{flops_of, longest_first};
use outside::NoMemory;
pub use path_lengths::PathLengths;
use plan_model::{ChainPlan, Wrapper};
use soc_model::{Module, mode_chains};
use std::alloc::{AllocError, Global};

/// The wrapper of the module in one mode (the scan mode, or else the one over the terminals alone) on `width` wires:
/// `width` chains, balanced.
///
/// The scan chains go, longest first, ties by place, each into the first chain of least scan length. Then the chains in
/// order are filled with input cells up to the greater of the longest scan length and an even share of all input and scan
/// cells, and with output cells likewise.
///
/// Every module of a sound chip is small enough: `module_size-le` of plan_model's proofs/SoundChips.antt. `NoMemory` where
/// memory runs out.
pub fn design(alloc: Global, module: &Module, scan: bool, width: u64) -> Result<Wrapper, NoMemory>
    requires small { module_size (module_value «module».now) ≤ 10 ^ 18 }
    requires some_wire { 1 ≤ width }
    ensures designed { IfOk result (λ w. wrapper_value w ≡ record {
      «module» = «module».now.number;
      scan = scan;
      chains = design (mode_of (module_value «module».now) scan) width;
    }) }
    ensures width { IfOk result (λ w. length (wrapper_value w).chains ≡ width) }
    ensures proper { IfOk result
        (λ w. IsProper (module_value «module».now) scan (wrapper_value w).chains) }
    ensures balanced { IfOk result
        (λ w. IsBalanced (mode_of (module_value «module».now) scan) (wrapper_value w).chains) }
{
    let chains = chains_of(alloc, module, scan, width)?;
    Ok(Wrapper {
        module: module.number,
        scan,
        chains,
    })
}

/// The chains of the wrapper of a mode of the module.
fn chains_of(
    alloc: Global,
    module: &Module,
    scan: bool,
    width: u64,
) -> Result<Vec<ChainPlan>, AllocError>
    requires small { module_size (module_value «module».now) ≤ 10 ^ 18 }
    requires some_wire { 1 ≤ width }
    ensures { IfOk result
        (λ v. map chain_value v.items ≡ design (mode_of (module_value «module».now) scan) width) }
{
    let lengths = mode_chains(module, scan);
    let order = longest_first(alloc, lengths)?;
    let flops = flops_of(lengths);
    let ins = module.inputs + module.bidirs;
    let outs = module.outputs + module.bidirs;
    build_chains(alloc, &order, flops, ins, outs, width)
}
