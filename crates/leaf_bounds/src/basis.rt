//! What the check asks of a chip, its limits and a proof, the same at all nodes.
ghost use Rattle.std.specs.Prelude.{◌≡◌, ℕ, None, ◌<◌, length, IfOk, IfSome};
ghost use Rattle.soc_model.specs.Chips.{soc_value};
ghost use Rattle.soc_model.specs.SoundChips.{IsSoundChip};
ghost use Rattle.plan_model.specs.Views.{limits_value};
ghost use Rattle.plan_model.specs.SoundLimits.{IsSoundLimits};
ghost use Rattle.plan_model.specs.Certificates.{HasTamTest, has_tam_at};
ghost use Rattle.live_tests.specs.Resolved.{IsResolved};
ghost use Rattle.plan_model.specs.Proofs.{proof_value};
ghost use Rattle.leaf_bounds.specs.Takings.{bit_at};
ghost use Rattle.leaf_bounds.specs.Bases.{IsBasis, IsWiredAt, chip_of, limits_of, proof_of};

use crate::list_table::{ListTable, list_table};
use crate::test_table::{TestTable, test_table};
use live_tests::{Problem, Resolved};
use outside::{NoMemory, push};
use plan_model::{Limits, Proof};
use proof_facts::PackedTimes;
use soc_model::{Soc, has_tam_test, module_at, place_of};
use std::alloc::Global;

/// A chip, limits and a proof, with what the check looks up.
#[derive(Drop)]
pub struct Basis<'a> {
    pub soc: &'a Soc,
    pub limits: &'a Limits,
    pub proof: &'a Proof,
    /// The packed times of all modules on all widths.
    pub times: PackedTimes<'a>,
    /// For each module whether it has a live test over the wires.
    pub wired: Vec<bool>,
    /// The live tests.
    pub tests: TestTable,
    /// The lists.
    pub lists: ListTable,
}

/// For each module whether it has a live test over the wires.
fn all_wired(alloc: Global, soc: &Soc) -> Result<Vec<bool>, NoMemory>
    ensures long { IfOk result (λ wired. length wired.items ≡ length (soc_value soc.now).modules) }
    ensures wired { IfOk result (λ wired. (place : ℕ) → place < length (soc_value soc.now).modules →
        bit_at wired.items place ≡ has_tam_at (soc_value soc.now) place) }
{
    let mut wired = Vec::new(alloc);
    for place in 0..soc.modules.len() {
        push(&mut wired, has_tam_test(module_at(soc, place)))?;
    }
    Ok(wired)
}

impl<'a> Basis<'a> {
    /// The basis of a check, where chip and limits are resolved. `NoMemory` where memory runs out.
    pub fn new(
        alloc: Global,
        soc: &'a Soc,
        limits: &'a Limits,
        resolved: &Resolved,
        proof: &'a Proof,
    ) -> Result<Basis<'a>, NoMemory>
        requires sound { IsSoundChip (soc_value soc.now) }
        requires limits { IsSoundLimits (soc_value soc.now) (limits_value limits.now) }
        requires resolved { IsResolved (soc_value soc.now) limits.now resolved.now }
        ensures basis { IfOk result IsBasis }
        ensures chip { IfOk result (λ basis. chip_of basis ≡ soc_value soc.now) }
        ensures limits { IfOk result (λ basis. limits_of basis ≡ limits_value limits.now) }
        ensures proof { IfOk result (λ basis. proof_of basis ≡ proof_value proof.now) }
    {
        let wired = all_wired(alloc, soc)?;
        let times = PackedTimes::new(alloc, soc, limits.wires)?;
        let tests = test_table(alloc, soc, limits, resolved)?;
        let problem = Problem::new(soc, limits, resolved);
        let lists = list_table(alloc, &problem, &proof.lists)?;
        Ok(Basis {
            soc,
            limits,
            proof,
            times,
            wired,
            tests,
            lists,
        })
    }
}

/// The place of the module of a number, where it has a live test over the wires.
pub fn wired_place(basis: &Basis<'_>, number: u64) -> Option<usize>
    requires { IsBasis basis.now }
    ensures some { IfSome result (λ place. IsWiredAt (chip_of basis.now) number place) }
    ensures none { result ≡ None → HasTamTest (chip_of basis.now) number → ⊥ }
{
    let Some(place) = place_of(basis.soc, number) else {
        return None;
    };
    if !basis.wired[place] {
        return None;
    }
    Some(place)
}
