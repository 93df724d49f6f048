//! The limits of the parts.
ghost use Rattle.std.specs.Prelude.{◌≡◌, ◌++◌, map, OnOk, IfOk, IfSome};
ghost use Rattle.std.specs.List.{All, flat_map};
ghost use Rattle.soc_model.specs.declared.TestId.{TestId};
ghost use Rattle.live_tests.specs.Names.{AllDiffer};
ghost use Rattle.plan_model.specs.Views.{limits_value, profile_value};
ghost use Rattle.split_plan.specs.Cuts.{cut_named as the_cut};
ghost use Rattle.split_plan.specs.Parts.{chain, joined, kept_profile, precedences_of, profiles_of};
ghost use Rattle.split_plan.specs.Steps.{HasRoom, wholes};

use crate::cuts::Cut;
use crate::names::index_of;
use crate::parts::part_id;
use indexmap::IndexSet;
use outside::{NoMemory, copied, push};
use plan_model::{Limits, Profile};
use soc_model::{TestId, live};
use std::alloc::Global;

/// The names of tests.
fn whole_names(alloc: Global, cuts: &[Cut]) -> Result<Vec<TestId>, NoMemory>
    ensures { IfOk result (λ names. names.items ≡ wholes cuts.now) }
{
    let mut names = Vec::new(alloc);
    for cut in cuts {
        push(&mut names, cut.whole)?;
    }
    Ok(names)
}

/// The test of that name.
fn cut_named(index: &IndexSet<TestId>, cuts: &[Cut], id: TestId) -> Option<Cut>
    requires named { index.now.keys ≡ wholes cuts.now }
    requires room { All HasRoom cuts.now }
    ensures cut { result ≡ the_cut cuts.now id }
    ensures room { IfSome result HasRoom }
{
    let place = index.get_index_of(&id)?;
    Some(cuts[place])
}

/// Adds each part of a test before the next.
fn push_chain(before: &mut Vec<(TestId, TestId)>, cut: &Cut) -> Result<(), NoMemory>
    requires { HasRoom cut.now }
    ensures { OnOk result (before.new.items ≡ before.old.items ++ chain cut.now) }
{
    for place in 0..cut.count - 1 {
        push(before, (part_id(cut, place), part_id(cut, place + 1)))?;
    }
    Ok(())
}

/// Adds the last part of a test before the first part of another, where both are live.
fn push_joined(
    before: &mut Vec<(TestId, TestId)>,
    first: Option<Cut>,
    second: Option<Cut>,
) -> Result<(), NoMemory>
    requires first { IfSome first HasRoom }
    requires second { IfSome second HasRoom }
    ensures { OnOk result (before.new.items ≡ before.old.items ++ joined first second) }
{
    let Some(earlier) = first else {
        return Ok(());
    };
    let Some(later) = second else {
        return Ok(());
    };
    if live(&earlier.test) && live(&later.test) {
        push(
            before,
            (part_id(&earlier, earlier.count - 1), part_id(&later, 0)),
        )
    } else {
        Ok(())
    }
}

/// Adds each part of each test before the next.
fn push_chains(before: &mut Vec<(TestId, TestId)>, cuts: &[Cut]) -> Result<(), NoMemory>
    requires { All HasRoom cuts.now }
    ensures { OnOk result (before.new.items ≡ before.old.items ++ flat_map chain cuts.now) }
{
    for cut in cuts {
        push_chain(before, cut)?;
    }
    Ok(())
}

/// Adds the precedences of live tests, between parts.
fn push_all_joined(
    before: &mut Vec<(TestId, TestId)>,
    index: &IndexSet<TestId>,
    cuts: &[Cut],
    pairs: &[(TestId, TestId)],
) -> Result<(), NoMemory>
    requires named { index.now.keys ≡ wholes cuts.now }
    requires room { All HasRoom cuts.now }
    ensures { OnOk result (before.new.items
        ≡ before.old.items
        ++ flat_map
        (λ (p : TestId × TestId). joined (the_cut cuts.now p.0) (the_cut cuts.now p.1))
        pairs.now) }
{
    for (first, second) in pairs {
        push_joined(
            before,
            cut_named(index, cuts, *first),
            cut_named(index, cuts, *second),
        )?;
    }
    Ok(())
}

/// Adds the profile of a test of one part under its new number.
fn push_profile(
    alloc: Global,
    profiles: &mut Vec<Profile>,
    cut: Option<Cut>,
    profile: &Profile,
) -> Result<(), NoMemory>
    requires { IfSome cut HasRoom }
    ensures { OnOk result (map profile_value profiles.new.items
        ≡ map profile_value profiles.old.items ++ kept_profile cut (profile_value profile.now)) }
{
    let Some(cut) = cut else {
        return Ok(());
    };
    if cut.count > 1 {
        return Ok(());
    }
    let steps = copied(alloc, &profile.steps)?;
    push(
        profiles,
        Profile {
            test: part_id(&cut, 0),
            steps,
        },
    )
}

/// The profiles of tests of one part, under their new numbers.
fn kept_profiles(
    alloc: Global,
    index: &IndexSet<TestId>,
    cuts: &[Cut],
    profiles: &[Profile],
) -> Result<Vec<Profile>, NoMemory>
    requires named { index.now.keys ≡ wholes cuts.now }
    requires room { All HasRoom cuts.now }
    ensures { IfOk result (λ kept. map profile_value kept.items
        ≡ profiles_of cuts.now (map profile_value profiles.now)) }
{
    let mut kept = Vec::new(alloc);
    for profile in profiles {
        push_profile(
            alloc,
            &mut kept,
            cut_named(index, cuts, profile.test),
            profile,
        )?;
    }
    Ok(kept)
}

/// An index of the names of tests.
fn index_of_wholes(alloc: Global, cuts: &[Cut]) -> Result<IndexSet<TestId>, NoMemory>
    requires { AllDiffer (wholes cuts.now) }
    ensures { IfOk result (λ index. index.keys ≡ wholes cuts.now) }
{
    let names = whole_names(alloc, cuts)?;
    index_of(alloc, &names)
}

/// The precedences of the parts.
fn precedences(
    alloc: Global,
    index: &IndexSet<TestId>,
    cuts: &[Cut],
    pairs: &[(TestId, TestId)],
) -> Result<Vec<(TestId, TestId)>, NoMemory>
    requires named { index.now.keys ≡ wholes cuts.now }
    requires room { All HasRoom cuts.now }
    ensures { IfOk result (λ before. before.items ≡ precedences_of cuts.now pairs.now) }
{
    let mut before = Vec::new(alloc);
    push_chains(&mut before, cuts)?;
    push_all_joined(&mut before, index, cuts, pairs)?;
    Ok(before)
}

/// The limits of the parts, by the names of the tests.
fn limits_by(
    alloc: Global,
    index: &IndexSet<TestId>,
    limits: &Limits,
    cuts: &[Cut],
) -> Result<Limits, NoMemory>
    requires named { index.now.keys ≡ wholes cuts.now }
    requires room { All HasRoom cuts.now }
    ensures { IfOk result (λ made. limits_value made ≡ record (limits_value limits.now) {
      before = precedences_of cuts.now (limits_value limits.now).before;
      profiles = profiles_of cuts.now (limits_value limits.now).profiles;
    }) }
{
    let before = precedences(alloc, index, cuts, &limits.before)?;
    let profiles = kept_profiles(alloc, index, cuts, &limits.profiles)?;
    Ok(Limits {
        wires: limits.wires,
        power: limits.power,
        before,
        budget: limits.budget,
        profiles,
    })
}

/// The limits of the parts of these tests.
pub(crate) fn limits_of(alloc: Global, limits: &Limits, cuts: &[Cut]) -> Result<Limits, NoMemory>
    requires differ { AllDiffer (wholes cuts.now) }
    requires room { All HasRoom cuts.now }
    ensures { IfOk result (λ made. limits_value made ≡ record (limits_value limits.now) {
      before = precedences_of cuts.now (limits_value limits.now).before;
      profiles = profiles_of cuts.now (limits_value limits.now).profiles;
    }) }
{
    let index = index_of_wholes(alloc, cuts)?;
    limits_by(alloc, &index, limits, cuts)
}
