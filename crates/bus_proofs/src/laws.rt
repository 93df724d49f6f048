//! What an accepted proof tells. Each law is the contract of a function that does nothing: a caller learns it by the call.
ghost use Rattle.bus_proofs.specs.Laws.{PlansHaveRankings, AcceptedCasesHaveNoPlan, AcceptedProofsAreBounds, NodesTellTheTree, ProofsHaveOneFault, AcceptedProofsHaveNoFault, LessShowsLess};

use proof_facts::{
    exclusions_are_decided, exclusions_hold, least_powers_are_drawn, planned_tests_are_packed,
};

/// The buses of every plan have a ranking by their widths.
pub fn plans_have_rankings()
    ensures { PlansHaveRankings }
{}

/// No good plan of fewer than the claimed cycles is in a case, by any ranking of its buses, where a tree of the case is
/// accepted.
pub fn accepted_cases_have_no_plan()
    ensures { AcceptedCasesHaveNoPlan }
{
    planned_tests_are_packed();
    exclusions_hold();
    exclusions_are_decided();
    least_powers_are_drawn();
}

/// No good plan has fewer cycles than an accepted proof claims.
pub fn accepted_proofs_are_bounds()
    ensures { AcceptedProofsAreBounds }
{
    planned_tests_are_packed();
    exclusions_hold();
    exclusions_are_decided();
    least_powers_are_drawn();
}

/// A list of nodes is that of at most one tree.
pub fn nodes_tell_the_tree()
    ensures { NodesTellTheTree }
{}

/// A proof has at most one fault.
pub fn proofs_have_one_fault()
    ensures { ProofsHaveOneFault }
{}

/// An accepted proof has no fault.
pub fn accepted_proofs_have_no_fault()
    ensures { AcceptedProofsHaveNoFault }
{}

/// A leaf that doesn't hold shows fewer cycles than claimed, where any are claimed.
pub fn less_shows_less()
    ensures { LessShowsLess }
{}
