//! What the texts with test data promise, and that files with test data say one thing. Each law is the contract of a function that does
//! nothing: a caller learns it by the call.
ghost use Rattle.std.specs.Prelude.{◌≡◌, List};
ghost use Rattle.soc_model.specs.Chips.{SocValue};
ghost use Rattle.soc_model.specs.SoundChips.{IsSoundChip};
ghost use Rattle.plan_model.specs.Plans.{LimitsValue, PlanValue};
ghost use Rattle.plan_model.specs.Rules.{IsGood};
ghost use Rattle.plan_model.specs.Runs.{Content};
ghost use Rattle.test_data.specs.Agreement.{Agrees, Suits};
ghost use Rattle.test_data.specs.DataWords.{EntryValue};
ghost use Rattle.tester_vectors.specs.VectorText.{vector_text};
ghost use Rattle.commands.specs.Settled.{RefusesOne, SaysOne};
ghost use Rattle.tester_commands.specs.ContentData.{IsDataOf};
ghost use Rattle.tester_commands.specs.ContentEntries.{entries_of};
ghost use Rattle.tester_commands.specs.DataRuns.{RunsWithData};
ghost use Rattle.tester_commands.specs.RetargetText.{retarget_text, SaysAllResponses};
ghost use Rattle.tester_commands.specs.DataReadings.{RefusesData, SaysSuiting};

/// What is written of a content's data is read back, suits the chip, and the content agrees with it.
pub fn contents_have_data()
    ensures { (soc : SocValue) (content : Content) → IsSoundChip soc → IsDataOf soc content }
{}

/// The text of a good plan with data that suits its chip runs right with each content that agrees with the data, and compares each
/// response bit that the data says, and nothing else.
pub fn retargeted_texts_run_right()
    ensures { (soc : SocValue) (limits : LimitsValue) (plan : PlanValue) (es : List EntryValue) →
        IsSoundChip soc → IsGood soc limits plan → Suits soc es →
        RunsWithData soc plan es (retarget_text soc plan es) }
{}

/// Where the data says each response bit, the text is that of the vectors of each content that agrees with the data.
pub fn full_data_gives_vectors()
    ensures { (soc : SocValue) (limits : LimitsValue) (plan : PlanValue) (es : List EntryValue)
        (content : Content) → IsSoundChip soc → IsGood soc limits plan → Suits soc es →
        Agrees soc es content → SaysAllResponses es →
        retarget_text soc plan es ≡ vector_text soc plan content }
{}

/// The text of a good plan with the data of a content is that of the content's vectors: `retarget` of what `data` writes for a seed is
/// what `vectors` writes for it.
pub fn data_of_contents_gives_vectors()
    ensures { (soc : SocValue) (limits : LimitsValue) (plan : PlanValue) (content : Content) →
        IsSoundChip soc → IsGood soc limits plan →
        retarget_text soc plan (entries_of soc content) ≡ vector_text soc plan content }
{}

/// A text says at most one list of entries that suit a chip, and is refused in no more than one line.
pub fn data_files_say_one_thing()
    ensures says { (chip : SocValue) → SaysOne (SaysSuiting chip) }
    ensures refused { (chip : SocValue) → RefusesOne (SaysSuiting chip) (RefusesData chip) }
{}
