//! The laws over the definitions. Each is the contract of a function that does nothing: a caller learns it by the call.
ghost use Rattle.std.specs.Prelude.{◌≡◌, ℕ, ◌+◌, Some, List, slice_get};
ghost use Rattle.cycle_texts.specs.Rows.{CycleRow};
ghost use Rattle.soc_model.specs.Chips.{SocValue};
ghost use Rattle.plan_model.specs.Plans.{PlanValue};
ghost use Rattle.controls.specs.Controls.{controls};
ghost use Rattle.tester_forms.specs.Naming.{ScopesNamed};
ghost use Rattle.tester_forms.specs.Dumps.{value_of};
ghost use Rattle.tester_forms.specs.Shown.{changes_before, last_written};
ghost use Rattle.tester_forms.specs.Variables.{Source, scopes_of};

/// The value that was written last for a variable, up to and with the part of a cycle, is the one that the row of that cycle shows,
/// whatever the rows are.
pub fn values_are_of_rows()
    ensures { (rows : ℕ → CycleRow) (sources : List Source) (cycle number : ℕ) (source : Source) →
        slice_get sources number ≡ Some source →
        last_written number (changes_before rows sources (cycle + 1))
        ≡ Some (value_of (rows cycle) source) }
{}

/// Each variable of a control has the name of the control that it shows.
pub fn controls_have_their_names()
    ensures { (soc : SocValue) (plan : PlanValue) →
        ScopesNamed (controls soc) (scopes_of soc plan) }
{}
