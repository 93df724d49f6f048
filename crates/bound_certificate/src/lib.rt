//! Certificates of lower bounds on the cycles of a chip's plans: their check, and the planner's bound.
//!
//! Claims and values are in cycles; a certificate's modules and tests go by their numbers.
//!
//! A certificate is accepted exactly where its definition says so, and then its claim bounds every good plan; the planner's bound
//! is accepted and at least every elementary value. The sums are those of `bound_rules`. Errors are a certificate's fault and out
//! of memory.
#![tactic(auto)]

ghost use Rattle.std.specs.Prelude.{◌≡◌, ◌+◌, ◌<◌, ◌≤◌, Ok, Err, IfErr, OnOk, nat_lt, if◌then◌else◌, vec_len};
ghost use Rattle.indexmap.specs.IndexMap.{index_map_len, spare};
ghost use Rattle.soc_model.specs.Chips.{soc_value};
ghost use Rattle.soc_model.specs.declared.TheConstants.{MODULES_MOST, TESTS_MOST};
ghost use Rattle.soc_model.specs.SoundChips.{IsSoundChip};
ghost use Rattle.plan_model.specs.Views.{limits_value, bound_value, why_value};
ghost use Rattle.plan_model.specs.Plans.{OfModule, OfPair, OfArea, OfPower};
ghost use Rattle.plan_model.specs.Rules.{IsBound};
ghost use Rattle.plan_model.specs.SoundLimits.{IsSoundLimits};
ghost use Rattle.plan_model.specs.Certificates.{IsAccepted, IsCertificateFault};
ghost use Rattle.bound_certificate.specs.Checks.{certificate_fault, IsCheck};

mod best;
mod candidates;
mod chains;
mod forced_lists;
mod forced_part;
mod nodes;
mod power_value;
mod precedence_lists;
mod sums;

pub use best::{best_bound, best_bound_with};
use bound_rules::{area_bound, module_bound, pair_bound};
use forced_lists::check_forced;
use indexmap::IndexMap;
use outside::NoMemory;
use plan_model::{Bound, Limits, Why};
use power_value::power_value;
use precedence_lists::{Pairs, check_chain};
use soc_model::{MODULES_MOST, Soc, TESTS_MOST, TestId, place_of};
use std::alloc::Global;

/// Why a certificate isn't accepted.
#[derive(Clone, Copy, PartialEq, Eq, Debug)]
pub enum BoundFault {
    /// The entry at this place breaks the rule of the list, and none before it does. Module and Pair have their module at
    /// place 0.
    BadList { place: usize },
    /// The list keeps its rule, and its value `shown` is less than the `claimed` cycles.
    Less { claimed: u64, shown: u128 },
}

/// Room for the check of a certificate: a mark for each module that a chip may have, and room for as many pairs and names
/// of tests as a chip may have tests. Every room does for every certificate.
#[derive(Drop)]
pub struct BoundScratch {
    /// Whether the module at a place is listed.
    marks: Vec<bool>,
    /// The neighbours in a chain, and whether a precedence sets the second behind the first.
    pairs: Pairs,
    /// The places of profiles, by the names of their tests.
    places: IndexMap<TestId, usize>,
    ghost marks_len: { vec_len marks ≡ MODULES_MOST },
    ghost pairs_room: { TESTS_MOST ≤ index_map_len pairs + spare pairs },
    ghost places_room: { TESTS_MOST ≤ index_map_len places + spare places },
}

impl BoundScratch {
    /// Room for the check of this certificate.
    pub fn new(alloc: Global, _bound: &Bound) -> Result<BoundScratch, NoMemory> {
        let marks = Vec::from_elem(alloc, false, MODULES_MOST as usize)?;
        let pairs = IndexMap::with_capacity(alloc, TESTS_MOST as usize)?;
        let places = IndexMap::with_capacity(alloc, TESTS_MOST as usize)?;
        Ok(BoundScratch {
            marks,
            pairs,
            places,
        })
    }
}

/// A certificate whose list keeps its rule is accepted where its value is at least the claim.
fn enough(claimed: u64, shown: u128) -> Result<(), BoundFault>
    ensures { result
        ≡ (if nat_lt shown claimed then Err (BoundFault.Less claimed shown) else Ok tt) }
{
    if shown < u128::from(claimed) {
        return Err(BoundFault::Less { claimed, shown });
    }
    Ok(())
}

/// The check of kind Module.
fn check_module(soc: &Soc, limits: &Limits, module: u64, claimed: u64) -> Result<(), BoundFault>
    requires sound { IsSoundChip (soc_value soc.now) }
    requires limits { IsSoundLimits (soc_value soc.now) (limits_value limits.now) }
    ensures { IsCheck (soc_value soc.now) (limits_value limits.now) claimed (OfModule «module»)
        result }
{
    match place_of(soc, module) {
        None => Err(BoundFault::BadList { place: 0 }),
        Some(place) => enough(claimed, u128::from(module_bound(soc, place, limits.wires))),
    }
}

/// The check of kind Pair.
fn check_pair(soc: &Soc, limits: &Limits, module: u64, claimed: u64) -> Result<(), BoundFault>
    requires sound { IsSoundChip (soc_value soc.now) }
    requires limits { IsSoundLimits (soc_value soc.now) (limits_value limits.now) }
    ensures { IsCheck (soc_value soc.now) (limits_value limits.now) claimed (OfPair «module»)
        result }
{
    match place_of(soc, module) {
        None => Err(BoundFault::BadList { place: 0 }),
        Some(place) => match pair_bound(soc, place, limits.wires) {
            None => Err(BoundFault::BadList { place: 0 }),
            Some(shown) => enough(claimed, u128::from(shown)),
        },
    }
}

/// The check of kind Area.
fn check_area(soc: &Soc, limits: &Limits, claimed: u64) -> Result<(), BoundFault>
    requires sound { IsSoundChip (soc_value soc.now) }
    requires limits { IsSoundLimits (soc_value soc.now) (limits_value limits.now) }
    ensures { IsCheck (soc_value soc.now) (limits_value limits.now) claimed OfArea result }
{
    enough(claimed, u128::from(area_bound(soc, limits.wires)))
}

/// The check of kind Power.
fn check_power(
    soc: &Soc,
    limits: &Limits,
    claimed: u64,
    places: &mut IndexMap<TestId, usize>,
) -> Result<(), BoundFault>
    requires sound { IsSoundChip (soc_value soc.now) }
    requires limits { IsSoundLimits (soc_value soc.now) (limits_value limits.now) }
    requires room { TESTS_MOST ≤ index_map_len places.old + spare places.old }
    ensures check { IsCheck (soc_value soc.now) (limits_value limits.now) claimed OfPower result }
    ensures room { TESTS_MOST ≤ index_map_len places.new + spare places.new }
{
    enough(claimed, u128::from(power_value(soc, limits, places)))
}

/// The check by the kind of the certificate.
fn check_why(
    soc: &Soc,
    limits: &Limits,
    why: &Why,
    claimed: u64,
    room: &mut BoundScratch,
) -> Result<(), BoundFault>
    requires sound { IsSoundChip (soc_value soc.now) }
    requires limits { IsSoundLimits (soc_value soc.now) (limits_value limits.now) }
    ensures { IsCheck (soc_value soc.now) (limits_value limits.now) claimed (why_value why.now)
        result }
{
    match why {
        Why::Module { module } => check_module(soc, limits, *module, claimed),
        Why::Pair { module } => check_pair(soc, limits, *module, claimed),
        Why::Chain { tests } => check_chain(soc, limits, tests, claimed, &mut room.pairs),
        Why::Area => check_area(soc, limits, claimed),
        Why::Power => check_power(soc, limits, claimed, &mut room.places),
        Why::Forced { modules } => check_forced(soc, limits, modules, claimed, &mut room.marks),
    }
}

/// Whether a certificate is accepted, for a sound chip and sound limits. Ok comes exactly where its list keeps the rule of
/// its kind and its value is at least the cycles that it claims; then no good plan has fewer cycles. `BadList` comes
/// exactly where an entry breaks the rule, with the first such place, and `Less` exactly where the rule is kept and the
/// value is less than claimed. No memory is taken.
pub fn check_bound(
    soc: &Soc,
    limits: &Limits,
    bound: &Bound,
    room: &mut BoundScratch,
) -> Result<(), BoundFault>
    requires sound { IsSoundChip (soc_value soc.now) }
    requires limits { IsSoundLimits (soc_value soc.now) (limits_value limits.now) }
    ensures accepted { OnOk result
        (IsAccepted (soc_value soc.now) (limits_value limits.now) (bound_value bound.now)) }
    ensures fault { IfErr result (λ f. IsCertificateFault (soc_value soc.now)
        (limits_value limits.now) (bound_value bound.now) (certificate_fault f)) }
    ensures exact { IsAccepted (soc_value soc.now) (limits_value limits.now)
        (bound_value bound.now) → result ≡ Ok tt }
    ensures bound { OnOk result
        (IsBound (soc_value soc.now) (limits_value limits.now) bound.now.cycles) }
{
    check_why(soc, limits, &bound.why, bound.cycles, room)
}
