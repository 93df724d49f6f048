//! The candidates for the planner's bound: the certificates of every kind but Forced, in their order, of which the first of
//! greatest value wins.
ghost use Rattle.std.specs.Prelude.{◌≡◌, ◌<◌, ◌&&◌, IfSome, length};
ghost use Rattle.std.specs.List.{fold, flat_map};
ghost use Rattle.soc_model.specs.Chips.{soc_value, module_value, parent_place};
ghost use Rattle.plan_model.specs.Plans.{OfArea};
ghost use Rattle.plan_model.specs.Rules.{Each};
ghost use Rattle.plan_model.specs.Certificates.{certificate_value, passes, IsChainItem};
ghost use Rattle.bound_certificate.specs.Best.{has_live, has_live_at, module_why, pair_why, chain_why, power_why, places, candidates, better, winner};
ghost use Rattle.bound_certificate.specs.Winners.{considered, seen, HasValue, names_of};

use bound_rules::{area_bound, chain_bound, module_bound, pair_bound_with, power_bound_with};
use live_tests::Problem;
use plan_model::Why;
use soc_model::{Module, Soc, TestId, live, module_at};

/// What one more candidate makes of the best so far; among equals the earlier one stays.
fn better_known(best: Option<(u128, Why)>, shown: u128, why: Why) -> Option<(u128, Why)>
    ensures { result ≡ considered best shown why }
{
    match best {
        None => Some((shown, why)),
        Some((most, kept)) => {
            if most < shown {
                Some((shown, why))
            } else {
                Some((most, kept))
            }
        }
    }
}

/// Whether a test of the module is live.
fn has_live(module: &Module) -> bool
    ensures { result ≡ has_live (module_value «module».now) }
{
    module.tests.iter().any(|test| live(test))
}

/// Whether the module at a place has a live test.
fn has_live_test(soc: &Soc, place: usize) -> bool
    requires { place < length (soc_value soc.now).modules }
    ensures { result ≡ has_live_at (soc_value soc.now) place }
{
    has_live(module_at(soc, place))
}

/// Whether both the module at a place and its parent have a live test.
fn has_live_family(soc: &Soc, place: usize, parent: Option<usize>) -> bool
    requires place { place < length (soc_value soc.now).modules }
    requires parent { parent ≡ parent_place (soc_value soc.now).modules place }
    ensures { result
        ≡ (has_live_at (soc_value soc.now) place
        && passes (has_live_at (soc_value soc.now))
        (parent_place (soc_value soc.now).modules place)) }
{
    if !has_live_test(soc, place) {
        return false;
    }
    match parent {
        None => false,
        Some(above) => has_live_test(soc, above),
    }
}

/// The module's candidate.
fn consider_module(
    problem: &Problem<'_>,
    place: usize,
    best: Option<(u128, Why)>,
) -> Option<(u128, Why)>
    requires place { place < length problem.now.soc.modules }
    requires value { HasValue problem.now.soc problem.now.limits best }
    ensures seen { seen result
        ≡ fold (better (certificate_value problem.now.soc problem.now.limits)) (seen best)
        (module_why problem.now.soc place) }
    ensures value { HasValue problem.now.soc problem.now.limits result }
{
    let soc = problem.soc;
    if !has_live_test(soc, place) {
        return best;
    }
    let module = module_at(soc, place).number;
    let shown = u128::from(module_bound(soc, place, problem.limits.wires));
    better_known(best, shown, Why::Module { module })
}

/// The candidates of the modules.
fn consider_modules(problem: &Problem<'_>, best: Option<(u128, Why)>) -> Option<(u128, Why)>
    requires value { HasValue problem.now.soc problem.now.limits best }
    ensures seen { seen result
        ≡ fold (better (certificate_value problem.now.soc problem.now.limits)) (seen best)
        (flat_map (module_why problem.now.soc) (places problem.now.soc)) }
    ensures value { HasValue problem.now.soc problem.now.limits result }
{
    let mut best = best;
    for place in 0..problem.soc.modules.len() {
        best = consider_module(problem, place, best);
    }
    best
}

/// The candidate of the module and its parent.
fn consider_pair(
    problem: &Problem<'_>,
    place: usize,
    best: Option<(u128, Why)>,
) -> Option<(u128, Why)>
    requires place { place < length problem.now.soc.modules }
    requires value { HasValue problem.now.soc problem.now.limits best }
    ensures seen { seen result
        ≡ fold (better (certificate_value problem.now.soc problem.now.limits)) (seen best)
        (pair_why problem.now.soc place) }
    ensures value { HasValue problem.now.soc problem.now.limits result }
{
    let soc = problem.soc;
    let parent = problem.resolved.parents[place];
    if !has_live_family(soc, place, parent) {
        return best;
    }
    let module = module_at(soc, place).number;
    match pair_bound_with(soc, place, parent, problem.limits.wires) {
        None => best,
        Some(shown) => better_known(best, u128::from(shown), Why::Pair { module }),
    }
}

/// The candidates of the modules with their parents.
fn consider_pairs(problem: &Problem<'_>, best: Option<(u128, Why)>) -> Option<(u128, Why)>
    requires value { HasValue problem.now.soc problem.now.limits best }
    ensures seen { seen result
        ≡ fold (better (certificate_value problem.now.soc problem.now.limits)) (seen best)
        (flat_map (pair_why problem.now.soc) (places problem.now.soc)) }
    ensures value { HasValue problem.now.soc problem.now.limits result }
{
    let mut best = best;
    for place in 0..problem.soc.modules.len() {
        best = consider_pair(problem, place, best);
    }
    best
}

/// The candidate Area.
fn consider_area(problem: &Problem<'_>, best: Option<(u128, Why)>) -> Option<(u128, Why)>
    requires value { HasValue problem.now.soc problem.now.limits best }
    ensures seen { seen result
        ≡ better (certificate_value problem.now.soc problem.now.limits) (seen best) OfArea }
    ensures value { HasValue problem.now.soc problem.now.limits result }
{
    better_known(
        best,
        u128::from(area_bound(problem.soc, problem.limits.wires)),
        Why::Area,
    )
}

/// The candidate Power, where the limits have a power.
fn consider_power(problem: &Problem<'_>, best: Option<(u128, Why)>) -> Option<(u128, Why)>
    requires value { HasValue problem.now.soc problem.now.limits best }
    ensures seen { seen result
        ≡ fold (better (certificate_value problem.now.soc problem.now.limits)) (seen best)
        (power_why problem.now.limits.power) }
    ensures value { HasValue problem.now.soc problem.now.limits result }
{
    match problem.limits.power {
        None => best,
        Some(_) => {
            let places = &problem.resolved.profiles;
            let shown = u128::from(power_bound_with(problem.soc, problem.limits, places));
            better_known(best, shown, Why::Power)
        }
    }
}

/// The candidate of the printed chain.
fn consider_chain(
    problem: &Problem<'_>,
    chain: Option<Vec<TestId>>,
    best: Option<(u128, Why)>,
) -> Option<(u128, Why)>
    requires chain { IfSome chain
        (λ v. Each (IsChainItem problem.now.soc problem.now.limits) v.items) }
    requires value { HasValue problem.now.soc problem.now.limits best }
    ensures seen { seen result
        ≡ fold (better (certificate_value problem.now.soc problem.now.limits)) (seen best)
        (chain_why (names_of chain)) }
    ensures value { HasValue problem.now.soc problem.now.limits result }
{
    match chain {
        None => best,
        Some(tests) => {
            let shown = chain_bound(problem.soc, &tests, problem.limits.wires);
            better_known(best, shown, Why::Chain { tests })
        }
    }
}

/// The first candidate of greatest value, with its value.
pub fn winner_of(problem: &Problem<'_>, chain: Option<Vec<TestId>>) -> Option<(u128, Why)>
    requires chain { IfSome chain
        (λ v. Each (IsChainItem problem.now.soc problem.now.limits) v.items) }
    ensures seen { seen result ≡ winner (certificate_value problem.now.soc problem.now.limits)
        (candidates problem.now.soc problem.now.limits (names_of chain)) }
    ensures value { HasValue problem.now.soc problem.now.limits result }
{
    let best = consider_modules(problem, None);
    let best = consider_pairs(problem, best);
    let best = consider_chain(problem, chain, best);
    let best = consider_area(problem, best);
    consider_power(problem, best)
}
