//! What holds of the rows of a plan's cycles. The law is the contract of a function that does nothing: a caller learns it by the call.
ghost use Rattle.std.specs.Prelude.{◌≡◌};
ghost use Rattle.soc_model.specs.Chips.{SocValue};
ghost use Rattle.plan_model.specs.Plans.{PlanValue};
ghost use Rattle.plan_model.specs.Runs.{Content};
ghost use Rattle.vector_lines.specs.Wires.{wires_of};
ghost use Rattle.vector_lines.specs.Marks.{Marks};
ghost use Rattle.tester_vectors.specs.VectorText.{marked_text};
ghost use Rattle.cycle_texts.specs.ProgramText.{row_at, vectors_of_rows};

/// The rows of a plan's cycles have the bits and the marks of the lines of its vectors, line for line.
pub fn rows_show_vectors()
    ensures { (soc : SocValue) (plan : PlanValue) (content : Content) (marks : Marks) →
        marked_text soc plan content marks
        ≡ vectors_of_rows (wires_of plan) plan.cycles (row_at soc plan content marks) }
{}
