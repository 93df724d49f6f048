//! The laws over the definitions. Each is the contract of a function that does nothing: a caller learns it by the call.
ghost use Rattle.soc_model.specs.Chips.{SocValue};
ghost use Rattle.plan_model.specs.Plans.{PlanValue, LimitsValue};
ghost use Rattle.plan_model.specs.Rules.{IsGood};
ghost use Rattle.plan_model.specs.Runs.{Content};
ghost use Rattle.tester_vectors.specs.Marks.{Marks, MarksReads, MarksStand};
ghost use Rattle.tester_vectors.specs.VectorText.{vector_text};
ghost use Rattle.tester_vectors.specs.DrivenRuns.{RunsAsShown};

/// In a good plan the mark of a wire at a cycle is the response bit that is read there, and `-` exactly where none is read.
pub fn marks_are_reads()
    ensures { (soc : SocValue) (limits : LimitsValue) (plan : PlanValue) (content : Content) →
        IsGood soc limits plan → MarksReads soc plan content }
{}

/// In a good plan the mark of a wire at a cycle is that of the response bit that is read there, and `-` where none is read.
pub fn marks_stand()
    ensures { (soc : SocValue) (limits : LimitsValue) (plan : PlanValue) (marks : Marks) →
        IsGood soc limits plan → MarksStand soc plan marks }
{}

/// A run that is driven with the bits of a good plan's vectors loads each pattern and reads the bits that they compare, for
/// every content and whatever stands in the cells at first.
pub fn vectors_run_as_shown()
    ensures { (soc : SocValue) (limits : LimitsValue) (plan : PlanValue) (content : Content) →
        IsGood soc limits plan → RunsAsShown soc plan content (vector_text soc plan content) }
{}
