//! What is settled of programs and of their texts. Each law is the contract of a function that does nothing: a caller learns
//! it by the call.
ghost use Rattle.shift_program.specs.Laws.{FaultlessAreRight, RightAreFaultless, RightAreLong, OneFault, FaultlessOrFault, EachTextHasAnAnswer, TextsHaveOneAnswer};

/// The programs for a live test in a proper wrapper in which no fault shows are exactly those that are right for every
/// content, and each of them has at least as many operations as the test.
pub fn faultless_programs_are_right()
    ensures right { FaultlessAreRight }
    ensures faultless { RightAreFaultless }
    ensures long { RightAreLong }
{}

/// In a program no fault shows, or exactly one shows first.
pub fn program_faults_are_exact()
    ensures one { OneFault }
    ensures some { FaultlessOrFault }
{}

/// Each text says a program in the grammar's range, or is refused at a line.
pub fn each_program_text_has_an_answer()
    ensures { EachTextHasAnAnswer }
{}

/// A text says at most one program, or is refused at no more than one line, and not both.
pub fn program_texts_have_one_answer()
    ensures { TextsHaveOneAnswer }
{}
