//! Made chips for whoever wants to try the planner: a number of modules and a seed fix the chip.
//!
//! The chip is by its definition, and sound; it is made from `soc_model` alone. Errors are a number of modules that is 0 or too
//! large, and out of memory.
#![tactic(auto)]

ghost use Rattle.std.specs.Prelude.{◌≡◌, ℕ, ◌↔◌, ◌⊎◌, ◌+◌, ◌<◌, ◌≤◌, ◌^◌, ◌++◌, ◌∷◌, [], false, IfOk, OnOk, Err};
ghost use Rattle.std.specs.List.{All};
ghost use Rattle.soc_model.specs.Chips.{LiveTest, live_tests, module_value, soc_value};
ghost use Rattle.soc_model.specs.Lookups.{has_module_number};
ghost use Rattle.soc_model.specs.SoundChips.{IsSoundChip};
ghost use Rattle.sample_maker.specs.Samples.{made_chip, top_module};

mod drawing;
mod modules;

use modules::make_module;
use outside::{NoMemory, copied};
use soc_model::{Module, PutFault, Soc};
use std::alloc::Global;

/// Modules of a made chip, at most; its own module 0 isn't counted.
pub const SAMPLE_MODULES_MOST: u64 = 200;

/// Why a chip isn't made.
#[derive(Clone, Copy, PartialEq, Eq, Debug)]
pub enum SampleFault {
    /// The number of modules is 0 or passes [`SAMPLE_MODULES_MOST`].
    SampleSize { n: u64 },
    /// There was no memory for the chip.
    NoMemory,
}

impl From<NoMemory> for SampleFault {
    ghost use Rattle.sample_maker.specs.declared.SampleFault.TheVariants.{NoMemory};

    ghost from_gives = { λ _ fault. fault ≡ NoMemory };

    fn from(_want: NoMemory) -> SampleFault {
        SampleFault::NoMemory
    }
}

/// Adds a module last. `NoMemory` where memory runs out for it.
fn add_module(soc: &mut Soc, module: Module) -> Result<(), NoMemory>
    requires new { has_module_number (soc_value soc.old) «module».number ≡ false }
    ensures { OnOk result (soc_value soc.new ≡ record (soc_value soc.old) {
      keys = (soc_value soc.old).keys ++ «module».number ∷ [];
      modules = (soc_value soc.old).modules ++ module_value «module» ∷ [];
    }) }
{
    match soc.put(module) {
        Ok(()) => Ok(()),
        Err(PutFault::NoMemory { module: _ }) => Err(NoMemory),
        Err(PutFault::Known { module: _ }) => unreachable!(),
    }
}

/// The chip's own module.
fn make_top(alloc: Global) -> Module
    ensures { module_value result ≡ top_module }
{
    Module {
        number: 0,
        name: Vec::new(alloc),
        level: 0,
        inputs: 0,
        outputs: 0,
        bidirs: 0,
        setup: 0,
        chains: Vec::new(alloc),
        tests: Vec::new(alloc),
    }
}

/// A chip of its own module alone.
fn start_chip(alloc: Global, seed: u64) -> Result<Soc, NoMemory>
    ensures { IfOk result (λ soc. soc_value soc ≡ made_chip 0 seed) }
{
    let mut soc = Soc::new(alloc);
    soc.name = copied(alloc, b"sample")?;
    soc.power_flag = true;
    add_module(&mut soc, make_top(alloc))?;
    Ok(soc)
}

/// A chip of its own module and `n` made ones.
fn make_chip(alloc: Global, n: u64, seed: u64) -> Result<Soc, NoMemory>
    requires few { n ≤ 200 }
    requires seed { seed < 10 ^ 12 }
    ensures { IfOk result (λ soc. soc_value soc ≡ made_chip n seed) }
{
    let mut soc = start_chip(alloc, seed)?;
    for done in 0..n {
        let module = make_module(alloc, seed, done + 1)?;
        add_module(&mut soc, module)?;
    }
    Ok(soc)
}

/// The made chip of `n`, 1 to [`SAMPLE_MODULES_MOST`], and a seed: a sound chip of module 0, the top level, which has nothing, and
/// of `n` modules below it. These have up to nine scan chains, a test over the wires, and some a self test; no test draws more than
/// 99. `SampleSize` comes exactly where `n` is 0 or more than [`SAMPLE_MODULES_MOST`]; `NoMemory` where there is no memory for the
/// chip.
pub fn sample(alloc: Global, n: u64, seed: u64) -> Result<Soc, SampleFault>
    requires seed { seed < 10 ^ 12 }
    ensures chip { IfOk result (λ soc. soc_value soc ≡ made_chip n seed) }
    ensures sound { IfOk result (λ soc. IsSoundChip (soc_value soc)) }
    ensures power { IfOk result
        (λ soc. All (λ (l : LiveTest). l.test.power ≤ 99) (live_tests (soc_value soc))) }
    ensures size { (result ≡ Err (SampleFault.SampleSize n)) ↔ ((n ≡ 0) ⊎ (200 < n)) }
    ensures shown { (shown : ℕ) → result ≡ Err (SampleFault.SampleSize shown) → shown ≡ n }
{
    if n == 0 || n > SAMPLE_MODULES_MOST {
        return Err(SampleFault::SampleSize { n });
    }
    let soc = make_chip(alloc, n, seed)?;
    Ok(soc)
}
