//! What a text is for a chip is settled. Each law is the contract of a function that does nothing: a caller learns it by
//! the call.
ghost use Rattle.limits_text.specs.Laws.{TextsHaveOneAnswer, EachTextHasAnAnswer, TextsAreAnswered, PrintedLimitsAreRead, PrintedLimitsAreAnswered, LoopsGoRound, LoopsHaveNoRank, RanksOrLoops};

/// For a chip a text is at most one: the limits that it says, or the first refusal that stands, with what it shows.
pub fn texts_have_one_answer()
    ensures { TextsHaveOneAnswer }
{}

/// For a chip a text of less than 10^12 bytes is one of these.
pub fn each_text_has_an_answer()
    ensures { EachTextHasAnAnswer }
{}

/// What a text is for a chip is what `read_limits` answers of it, unless memory runs out.
pub fn texts_are_answered()
    ensures { TextsAreAnswered }
{}

/// The printed text of limits that are sound for a sound chip is read as these limits.
pub fn printed_limits_are_read()
    ensures { PrintedLimitsAreRead }
{}

/// The printed text of limits that are sound for a sound chip is answered with these limits, unless memory runs out.
pub fn printed_limits_are_answered()
    ensures { PrintedLimitsAreAnswered }
{}

/// A shown loop is of live tests, each of them once: each precedes the next, and the last precedes the first.
pub fn loops_go_round()
    ensures { LoopsGoRound }
{}

/// A loop is shown exactly where the precedences of live tests have no rank.
pub fn loops_are_where_no_rank_is()
    ensures no_rank { LoopsHaveNoRank }
    ensures ranks_or_loop { RanksOrLoops }
{}
