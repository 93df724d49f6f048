//! Prints limits.
ghost use Rattle.std.specs.Prelude.{◌≡◌, ◌++◌, [], map, IfOk, OnOk};
ghost use Rattle.std.specs.List.{flat_map};
ghost use Rattle.plan_model.specs.Views.{limits_value, profile_value};
ghost use Rattle.soc_model.specs.Chips.{SocValue};
ghost use Rattle.soc_model.specs.SoundChips.{IsSoundChip};
ghost use Rattle.plan_model.specs.SoundLimits.{IsSoundLimits};
ghost use Rattle.limits_text.specs.Answers.{AreReadLimits};
ghost use Rattle.limits_text.specs.Texts.{test_fields, number_line, power_lines, before_line, step_fields, profile_line, form_of as form_number_of, limits_text};

use outside::{NoMemory, extend, push_spaced};
use plan_model::{Limits, Profile};
use soc_model::TestId;
use std::alloc::Global;

/// Adds a word and a number on a line.
fn push_line(to: &mut Vec<u8>, word: &[u8], number: u64) -> Result<(), NoMemory>
    ensures { OnOk result (to.new.items ≡ to.old.items ++ number_line word.now number) }
{
    extend(to, word)?;
    push_spaced(to, number)?;
    extend(to, b"\n")?;
    Ok(())
}

/// Adds the two numbers of a test.
fn push_test(to: &mut Vec<u8>, test: TestId) -> Result<(), NoMemory>
    ensures { OnOk result (to.new.items ≡ to.old.items ++ test_fields test) }
{
    push_spaced(to, test.module)?;
    push_spaced(to, test.test)?;
    Ok(())
}

fn push_power(to: &mut Vec<u8>, power: Option<u64>) -> Result<(), NoMemory>
    ensures { OnOk result (to.new.items ≡ to.old.items ++ power_lines power) }
{
    match power {
        Some(power) => {
            push_line(to, b"Power", power)?;
            Ok(())
        }
        None => Ok(()),
    }
}

fn push_before(to: &mut Vec<u8>, first: TestId, second: TestId) -> Result<(), NoMemory>
    ensures { OnOk result (to.new.items ≡ to.old.items ++ before_line (first, second)) }
{
    extend(to, b"Before")?;
    push_test(to, first)?;
    push_test(to, second)?;
    extend(to, b"\n")?;
    Ok(())
}

fn push_precedences(to: &mut Vec<u8>, before: &[(TestId, TestId)]) -> Result<(), NoMemory>
    ensures { OnOk result (to.new.items ≡ to.old.items ++ flat_map before_line before.now) }
{
    for (first, second) in before {
        push_before(to, *first, *second)?;
    }
    Ok(())
}

fn push_steps(to: &mut Vec<u8>, steps: &[(u64, u64)]) -> Result<(), NoMemory>
    ensures { OnOk result (to.new.items ≡ to.old.items ++ step_fields steps.now) }
{
    for (from, power) in steps {
        push_spaced(to, *from)?;
        push_spaced(to, *power)?;
    }
    Ok(())
}

fn push_profile(to: &mut Vec<u8>, profile: &Profile) -> Result<(), NoMemory>
    ensures { OnOk result
        (to.new.items ≡ to.old.items ++ profile_line (profile_value profile.now)) }
{
    extend(to, b"Profile")?;
    push_test(to, profile.test)?;
    push_steps(to, profile.steps.as_slice())?;
    extend(to, b"\n")?;
    Ok(())
}

fn push_profiles(to: &mut Vec<u8>, profiles: &[Profile]) -> Result<(), NoMemory>
    ensures { OnOk result
        (to.new.items ≡ to.old.items ++ flat_map profile_line (map profile_value profiles.now)) }
{
    for profile in profiles {
        push_profile(to, profile)?;
    }
    Ok(())
}

/// The form of the text: 2 with profiles, and 1 without.
fn form_of(profiles: &[Profile]) -> u64
    ensures { result ≡ form_number_of (map profile_value profiles.now) }
{
    match profiles {
        [] => 1,
        _ => 2,
    }
}

/// The text of limits, one item a line.
fn lines_of_limits(alloc: Global, limits: &Limits) -> Result<Vec<u8>, NoMemory>
    ensures { IfOk result (λ text. text.items ≡ limits_text (limits_value limits.now)) }
{
    let mut text = Vec::new(alloc);
    push_line(&mut text, b"Limits", form_of(limits.profiles.as_slice()))?;
    push_line(&mut text, b"Wires", limits.wires)?;
    push_power(&mut text, limits.power)?;
    push_line(&mut text, b"Budget", limits.budget)?;
    push_precedences(&mut text, limits.before.as_slice())?;
    push_profiles(&mut text, limits.profiles.as_slice())?;
    Ok(text)
}

/// The text of limits, one item a line. Where the limits are sound for a sound chip, it is read for it as these limits.
pub fn print_limits(alloc: Global, limits: &Limits) -> Result<Vec<u8>, NoMemory>
    ensures text { IfOk result (λ text. text.items ≡ limits_text (limits_value limits.now)) }
    ensures read { IfOk result
        (λ text. (soc : SocValue) → IsSoundChip soc → IsSoundLimits soc (limits_value limits.now) →
        AreReadLimits text.items soc (limits_value limits.now)) }
{
    let text = lines_of_limits(alloc, limits)?;
    Ok(text)
}
