//! The live tests of a chip by name, and the precedences that items say by the places of these.
ghost use Rattle.std.specs.Prelude.{◌≡◌, map};
ghost use Rattle.soc_model.specs.Chips.{soc_value};
ghost use Rattle.plan_model.specs.Rules.{live_ids};
ghost use Rattle.limits_text.specs.Places.{AreNoted, AreNamed};
ghost use Rattle.limits_text.specs.Views.{item_of};

use crate::LimFault;
use crate::items::Item;
use crate::places::{ChipTests, precedences, some_names_test};
use live_tests::LiveTests;
use soc_model::Soc;
use std::alloc::Global;

/// The live tests of a chip by name, and precedences by the places of these.
#[derive(Drop)]
pub struct NamedTests {
    pub tests: LiveTests,
    pub precedences: Vec<(usize, usize)>,
}

/// The precedences that items say, where these are the live tests of the chip. `UnknownTest` with the line of the first
/// item that names a test which isn't in the chip.
fn precedences_said(
    alloc: Global,
    soc: &Soc,
    tests: &LiveTests,
    list: &[Item],
) -> Result<Vec<(usize, usize)>, LimFault>
    requires { tests.now ≡ live_ids (soc_value soc.now) }
    ensures { AreNoted (soc_value soc.now) (map item_of list.now) result }
{
    // most limits name no test, and then no row is made of a module
    if !some_names_test(list) {
        return Ok(Vec::new(alloc));
    }
    let tests = ChipTests::new(alloc, soc, tests)?;
    precedences(alloc, &tests, list)
}

/// The live tests of a chip, and the precedences that items say. `UnknownTest` as in [`precedences_said`].
pub fn named_tests(alloc: Global, soc: &Soc, list: &[Item]) -> Result<NamedTests, LimFault>
    ensures { AreNamed (soc_value soc.now) (map item_of list.now) result }
{
    let tests = LiveTests::new(alloc, soc)?;
    match precedences_said(alloc, soc, &tests, list) {
        Ok(precedences) => Ok(NamedTests { tests, precedences }),
        Err(fault) => Err(fault),
    }
}
