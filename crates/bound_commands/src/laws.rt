//! Laws for the commands over bounds. They are the contract of a function that does nothing: a caller learns them by the call.
ghost use Rattle.bound_commands.specs.Laws.{BoundLaws};

use bus_proofs::{
    accepted_proofs_are_bounds, accepted_proofs_have_no_fault, proofs_have_one_fault,
};
use picture::good_plans_draw_right;
use proof_text::proof_texts_are_settled;

/// A text says at most one proof by cases on buses, or is refused in no more than one line; no good plan has fewer cycles than an accepted
/// proof claims. The picture of a good plan shows each of its tests where it runs, and nothing else.
pub fn bounds_are_trustworthy()
    ensures { BoundLaws }
{
    proof_texts_are_settled();
    proofs_have_one_fault();
    accepted_proofs_have_no_fault();
    accepted_proofs_are_bounds();
    good_plans_draw_right();
}
