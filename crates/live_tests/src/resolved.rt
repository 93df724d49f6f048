//! What a chip and its limits say by the places of modules and live tests, resolved once for all that ask for it.
ghost use Rattle.std.specs.Prelude.{◌≡◌, IfOk};
ghost use Rattle.soc_model.specs.Chips.{soc_value};
ghost use Rattle.plan_model.specs.Rules.{live_ids};
ghost use Rattle.plan_model.specs.Views.{limits_value};
ghost use Rattle.live_tests.specs.Names.{precedences as precedences_of};
ghost use Rattle.live_tests.specs.Profiles.{AreProfilePlaces};
ghost use Rattle.live_tests.specs.Resolved.{IsResolved};

use crate::{LiveTests, parents, profile_places};
use indexmap::IndexMap;
use outside::NoMemory;
use plan_model::Limits;
use soc_model::{Soc, TestId};
use std::alloc::Global;

/// What a chip and its limits say by the places of modules and live tests.
#[derive(Drop)]
pub struct Resolved {
    /// The live tests, by name.
    pub tests: LiveTests,
    /// For each module the place of its parent.
    pub parents: Vec<Option<usize>>,
    /// The precedences of live tests by the places of these, in their order.
    pub precedences: Vec<(usize, usize)>,
    /// The place of the profile of each test that has one, by the test's name.
    pub profiles: IndexMap<TestId, usize>,
}

impl Resolved {
    /// A chip and its limits, resolved. `NoMemory` where memory runs out.
    pub fn new(alloc: Global, soc: &Soc, limits: &Limits) -> Result<Resolved, NoMemory>
        ensures { IfOk result (λ resolved. IsResolved (soc_value soc.now) limits.now resolved) }
    {
        let tests = LiveTests::new(alloc, soc)?;
        let precedences = tests.precedences(alloc, &limits.before)?;
        let profiles = profile_places(alloc, &limits.profiles)?;
        Resolved::with_places(alloc, soc, limits, tests, precedences, profiles)
    }

    /// A chip and its limits, resolved, where what the limits name is at hand by place. `NoMemory` where memory runs out.
    pub fn with_places(
        alloc: Global,
        soc: &Soc,
        limits: &Limits,
        tests: LiveTests,
        precedences: Vec<(usize, usize)>,
        profiles: IndexMap<TestId, usize>,
    ) -> Result<Resolved, NoMemory>
        requires tests { tests ≡ live_ids (soc_value soc.now) }
        requires precedences { precedences.items
            ≡ precedences_of (soc_value soc.now) (limits_value limits.now) }
        requires profiles { AreProfilePlaces profiles limits.now.profiles.items }
        ensures { IfOk result (λ resolved. IsResolved (soc_value soc.now) limits.now resolved) }
    {
        let parents = parents(alloc, soc)?;
        Ok(Resolved {
            tests,
            parents,
            precedences,
            profiles,
        })
    }
}
