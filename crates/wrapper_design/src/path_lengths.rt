//! The longest scan-in and scan-out paths of the designs of one mode, at any width, without the wrappers.
ghost use Rattle.std.specs.Prelude.{◌≡◌, ℕ, ◌+◌, ◌^◌, ◌≤◌, max, IfOk};
ghost use Rattle.std.specs.List.{sum};
ghost use Rattle.soc_model.specs.Chips.{module_value};
ghost use Rattle.plan_model.specs.Bounds.{quotient_up};
ghost use Rattle.plan_model.specs.Listing.{module_size};
ghost use Rattle.wrapper_design.specs.Design.{mode_of, design, longest_part};
ghost use Rattle.wrapper_design.specs.Balance.{in_length_of, out_length_of};

use crate::dealing::level;
use crate::loads::longest_part;
use crate::order::{ScanChain, flops_of, longest_first, longest_of};
use soc_model::{Module, mode_chains};
use std::alloc::{AllocError, Global};
use std::marker::Model;

/// What the path lengths of one mode of a module are taken from, at any widths: its scan chains in their order and its
/// cells. No wrapper is made.
#[derive(Drop)]
pub struct PathLengths<'a> {
    lengths: &'a [u64],
    order: Vec<ScanChain>,
    longest_chain: u64,
    loads: Vec<u64>,
    flops: u64,
    ins: u64,
    outs: u64,
}

impl<'a> Model for PathLengths<'a> {
    ghost use Rattle.wrapper_design.specs.Design.{Mode};
    ghost use Rattle.wrapper_design.specs.Loads.{IsPrepared};

    ghost Value = { Mode };

    ghost view = { λ d. record { lengths = d.lengths.now; ins = d.ins; outs = d.outs } };

    ghost invariant = { λ d. IsPrepared d.lengths.now d.order.items d.longest_chain d.flops d.ins
        d.outs };
}

/// A width up to `most` up to which chains are filled as at a width: a share of `cells` reaches the same level, or none is
/// longer than the longest scan length.
fn level_to(longest: u64, cells: u64, reached: u64, width: u64, most: u64) -> u64
    requires some { 1 ≤ width }
    requires within { width ≤ most }
    requires reached { reached ≡ max longest (quotient_up cells width) }
    ensures least { width ≤ result }
    ensures most { result ≤ most }
    ensures same { (v : ℕ) → width ≤ v → v ≤ result → max longest (quotient_up cells v) ≡ reached }
{
    if reached <= longest.max(1) {
        return most;
    }
    ((cells - 1) / (reached - 1)).min(most)
}

impl<'a> PathLengths<'a> {
    /// Takes the scan chains of the mode (the scan mode, or else the one over the terminals alone) in their order.
    /// `AllocError` where memory runs out.
    pub fn new(alloc: Global, module: &'a Module, scan: bool) -> Result<PathLengths<'a>, AllocError>
        requires { module_size (module_value «module».now) ≤ 10 ^ 18 }
        ensures { IfOk result (λ d. d ≡ mode_of (module_value «module».now) scan) }
    {
        let lengths = mode_chains(module, scan);
        let order = longest_first(alloc, lengths)?;
        let flops = flops_of(lengths);
        let longest_chain = longest_of(&order);
        Ok(PathLengths {
            lengths,
            order,
            longest_chain,
            loads: Vec::new(alloc),
            flops,
            ins: module.inputs + module.bidirs,
            outs: module.outputs + module.bidirs,
        })
    }

    /// The longest scan length of the design on `width` wires. Where there are no fewer wires than scan chains, each of these
    /// has a chain of its own.
    fn longest(&mut self, width: u64) -> Result<u64, AllocError>
        requires some_wire { 1 ≤ width }
        requires few_wires { width ≤ 256 }
        ensures kept { self.new ≡ self.old }
        ensures longest { IfOk result (λ longest. longest ≡ longest_part self.old.lengths width) }
    {
        if self.order.len() <= width as usize {
            return Ok(self.longest_chain);
        }
        self.loads.clear();
        self.loads.resize(width as usize, 0)?;
        Ok(longest_part(&self.order, &mut self.loads))
    }

    /// The greatest in-length and the greatest out-length of the design on `width` wires, in cells. `AllocError` where
    /// memory runs out.
    pub fn at(&mut self, width: u64) -> Result<(u64, u64), AllocError>
        requires some_wire { 1 ≤ width }
        requires few_wires { width ≤ 256 }
        ensures kept { self.new ≡ self.old }
        ensures si { IfOk result (λ r. r.0 ≡ in_length_of self.old (design self.old width)) }
        ensures so { IfOk result (λ r. r.1 ≡ out_length_of self.old (design self.old width)) }
        ensures si_bounded { IfOk result (λ r. r.0 ≤ self.old.ins + sum self.old.lengths) }
        ensures so_bounded { IfOk result (λ r. r.1 ≤ self.old.outs + sum self.old.lengths) }
    {
        let longest = self.longest(width)?;
        let si = level(longest, self.ins, self.flops, width);
        let so = level(longest, self.outs, self.flops, width);
        Ok((si, so))
    }

    /// A width up to `most` up to which the lengths stay as they are at a width, `si` and `so`. It takes no memory.
    pub fn same_to(&self, width: u64, si: u64, so: u64, most: u64) -> u64
        requires some_wire { 1 ≤ width }
        requires within { width ≤ most }
        requires si { si ≡ in_length_of self.now (design self.now width) }
        requires so { so ≡ out_length_of self.now (design self.now width) }
        ensures least { width ≤ result }
        ensures most { result ≤ most }
        ensures si { (v : ℕ) → width ≤ v → v ≤ result →
            in_length_of self.now (design self.now v) ≡ si }
        ensures so { (v : ℕ) → width ≤ v → v ≤ result →
            out_length_of self.now (design self.now v) ≡ so }
    {
        if self.order.len() > width as usize {
            return width;
        }
        let ins = level_to(self.longest_chain, self.ins + self.flops, si, width, most);
        let outs = level_to(self.longest_chain, self.outs + self.flops, so, width, most);
        ins.min(outs)
    }
}
