//! What a test over the wires does, a spell at a time: cycles in which it only rests, only shifts, or captures.
ghost use Rattle.std.specs.Prelude.{◌≡◌, ◌+◌, ◌<◌, ◌≤◌, length};
ghost use Rattle.plan_model.specs.Moments.{phase_ops, ArePhases};
ghost use Rattle.controls.specs.Spells.{GoesOn};

use plan_model::Phases;

/// What a test over the wires does at a cycle.
#[derive(Clone, Copy, Drop)]
pub enum Action {
    /// It rests before its first Shift.
    Rest,
    /// It shifts.
    Shift,
    /// It captures.
    Capture,
}

/// Cycles one after another in which a test does one thing.
#[derive(Clone, Copy, Drop)]
pub struct Spell {
    /// What it does.
    pub action: Action,
    /// For how many cycles.
    pub cycles: u64,
}

/// What a test over the wires does from a cycle on, counted from its start, as long as it isn't at its end.
pub fn spell_at(phases: &Phases, cycle: u64) -> Spell
    requires phases { ArePhases phases.now }
    requires active { cycle < length (phase_ops phases.now) }
    ensures some { 1 ≤ result.cycles }
    ensures goes_on { GoesOn phases.now cycle result }
{
    if cycle < phases.setup {
        return Spell {
            action: Action::Rest,
            cycles: phases.setup - cycle,
        };
    }
    let shifted = cycle - phases.setup;
    if shifted < phases.si {
        return Spell {
            action: Action::Shift,
            cycles: phases.si - shifted,
        };
    }
    spell_in_block(phases, shifted - phases.si)
}

/// What it does from a cycle on that is counted from the first Capture: each block begins with a Capture.
fn spell_in_block(phases: &Phases, cycle: u64) -> Spell
    requires phases { ArePhases phases.now }
    requires active { phases.now.setup + phases.now.si + cycle < length (phase_ops phases.now) }
    ensures some { 1 ≤ result.cycles }
    ensures goes_on { GoesOn phases.now (phases.now.setup + phases.now.si + cycle) result }
{
    let period = 1 + phases.si.max(phases.so);
    let place = cycle % period;
    if place == 0 {
        return Spell {
            action: Action::Capture,
            cycles: 1,
        };
    }
    Spell {
        action: Action::Shift,
        cycles: period - place,
    }
}
