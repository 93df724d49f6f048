//! What modules are worth on the buses of a case, at the prices of a leaf.
ghost use Rattle.std.specs.Prelude.{◌≡◌, ◌+◌, ◌-◌, ◌*◌, ◌/◌, ◌^◌, ◌<◌, ◌≤◌, ℕ, true, None, IfSome, length, replicate, slice_index};
ghost use Rattle.plan_model.specs.Proofs.{PricingValue, WeightsValue, pricing_value};
ghost use Rattle.plan_model.specs.Sayable.{ArePrices};
ghost use Rattle.pack_leaves.specs.Knapsacks.{with_item};
ghost use Rattle.leaf_bounds.specs.Cases.{Case, IsEmpty, spare};
ghost use Rattle.leaf_bounds.specs.CaseRooms.{HasCase, IsCaseOf};
ghost use Rattle.leaf_bounds.specs.Bases.{IsBasis, AllKept, chip_of, limits_of, lists_of, claim_of};
ghost use Rattle.leaf_bounds.specs.LeafCosts.{IsWeighed};
ghost use Rattle.leaf_bounds.specs.LeafAnswers.{IsCaseFor};
ghost use Rattle.leaf_bounds.specs.PackLeaves.{ArePlaces, IsMostFilled, bus_rank, cells_taken, has_slot, list_weights, may_be, price_at};
ghost use Rattle.leaf_bounds.specs.PackBuses.{AreKept, IsBusRoom, IsBusesRoom, IsKeptAt, IsLikeItem, IsLikeRank, IsPackLeaf, IsPackSetting, IsWiresRow, IsWorth, bus_most, net_at};

use crate::basis::Basis;
use crate::case::CaseRoom;
use crate::leaf_costs::{Weighed, module_cost};
use crate::leaf_slots::{is_short, is_without_list, rest_high};
use crate::pack_room::{BusRoom, KeptWorths, PackRoom};
use crate::pack_rules::cells_of;
use crate::places::{Placing, may_be_on};
use crate::ranks::is_left;
use crate::widths::{interval_at, known_ranks, spare_wires};
use pack_leaves::{add_item, add_rank, clear_row, fill_rest};
use plan_model::Pricing;
use proof_facts::packed_times_are_least;

/// A bus by its rank, with its width in wires. A rank that isn't known is of the rest.
#[derive(Clone, Copy)]
pub(crate) struct RankBus {
    pub rank: usize,
    pub width: u64,
}

/// A priced module by its place in the chip.
#[derive(Clone, Copy)]
pub(crate) struct PricedModule {
    pub place: usize,
    pub price: u64,
}

/// The rank of a bus, where the case speaks of it.
fn bus_rank(known: usize, rank: usize) -> Option<u64>
    ensures { result ≡ bus_rank known rank }
{
    if rank < known {
        return Some(rank as u64);
    }
    None
}

/// Whether the module at a place may be on the bus of a rank.
fn may_be(case: &CaseRoom, place: usize, rank: usize) -> bool
    requires case { HasCase case.now }
    requires known { (c : Case) × IsCaseOf case.now c }
    requires place { place < case.now.modules }
    ensures { (c : Case) → IsCaseOf case.now c → result ≡ may_be c place rank }
{
    let known = known_ranks(&case.widths);
    if rank < known {
        let at = Placing {
            place,
            modules: case.modules,
            known,
        };
        return may_be_on(&case.ranks, at, rank);
    }
    is_left(&case.ranks, place)
}

/// Whether the module at a place has a slot on a bus.
fn has_slot(basis: &Basis<'_>, case: &CaseRoom, place: usize, bus: RankBus) -> bool
    requires basis { IsBasis basis.now }
    requires case { HasCase case.now }
    requires of { IsCaseFor basis.now case.now }
    requires known { (c : Case) × IsCaseOf case.now c }
    requires place { place < length (chip_of basis.now).modules }
    requires width { bus.width ≤ (limits_of basis.now).wires }
    ensures { (c : Case) → IsCaseOf case.now c →
        result ≡ has_slot (chip_of basis.now) (claim_of basis.now) c place bus.rank bus.width }
{
    if !may_be(case, place, bus.rank) {
        return false;
    }
    if bus.width == 0 {
        return false;
    }
    is_short(basis, place, bus.width)
}

/// What a price leaves beyond the uses of lists.
fn beyond(price: u64, uses: u128) -> u64
    ensures net { result ≡ price - uses }
    ensures small { result ≤ price }
{
    if u128::from(price) <= uses {
        return 0;
    }
    price - uses as u64
}

/// What a priced module is worth on a bus.
fn net_worth(
    basis: &Basis<'_>,
    weighed: &Weighed,
    case: &CaseRoom,
    item: PricedModule,
    bus: RankBus,
) -> u64
    requires basis { IsBasis basis.now }
    requires kept { AllKept basis.now }
    requires place { item.place < length (chip_of basis.now).modules }
    requires some_wire { 1 ≤ bus.width }
    requires width { bus.width ≤ (limits_of basis.now).wires }
    requires weighed { (weights : WeightsValue) × IsWeighed basis.now weights weighed.now }
    ensures net { (c : Case) (pricing : PricingValue) → IsCaseOf case.now c →
        IsWeighed basis.now (list_weights pricing) weighed.now →
        result ≡ net_at basis.now c pricing item.place item.price bus.rank bus.width }
    ensures small { result ≤ item.price }
{
    let rank = bus_rank(known_ranks(&case.widths), bus.rank);
    let uses = module_cost(basis, weighed, item.place, rank, bus.width, 0);
    beyond(item.price, uses)
}

/// The whole cells of the time that the module at a place takes on a width.
fn cells_taken(basis: &Basis<'_>, grain: u64, place: usize, width: u64) -> usize
    requires basis { IsBasis basis.now }
    requires grain { 1 ≤ grain }
    requires place { place < length (chip_of basis.now).modules }
    requires some_wire { 1 ≤ width }
    requires few_wires { width ≤ (limits_of basis.now).wires }
    ensures { (pricing : PricingValue) → pricing.grain ≡ grain →
        result ≡ cells_taken (chip_of basis.now) pricing place width }
{
    (basis.times.tam_time(place, width) / grain) as usize
}

/// The priced module at a place among the prices.
fn priced_at(pricing: &Pricing, places: &[usize], item: usize) -> PricedModule
    requires prices { ArePrices (pricing_value pricing.now) }
    requires item { item < length pricing.now.prices.items }
    requires places { item < length places.now }
    ensures place { result.place ≡ slice_index places.now item }
    ensures price { result.price ≡ price_at (pricing_value pricing.now) item }
    ensures small { result.price ≤ 10 ^ 15 }
{
    PricedModule {
        place: places[item],
        price: pricing.prices[item].1,
    }
}

/// The row of a bus with one priced module more, where it may be there.
fn add_priced(
    basis: &Basis<'_>,
    weighed: &Weighed,
    case: &CaseRoom,
    grain: u64,
    row: &mut [u64],
    bus: RankBus,
    item: PricedModule,
)
    requires leaf { IsPackSetting basis.now case.now weighed.now grain }
    requires width { bus.width ≤ (limits_of basis.now).wires }
    requires place { item.place < length (chip_of basis.now).modules }
    requires few { (claim_of basis.now - 1) / grain ≤ 4096 }
    requires room { (claim_of basis.now - 1) / grain < length row.old }
    requires small { (x : ℕ) → x < (claim_of basis.now - 1) / grain + 1 →
        slice_index row.old x + item.price ≤ 10 ^ 18 }
    ensures long { length row.new ≡ length row.old }
    ensures row { (c : Case) (pricing : PricingValue) → IsCaseOf case.now c →
        pricing.grain ≡ grain → IsWeighed basis.now (list_weights pricing) weighed.now → (x : ℕ) →
        x < (claim_of basis.now - 1) / grain + 1 →
        slice_index row.new x
        ≡ with_item
        (has_slot (chip_of basis.now) (claim_of basis.now) c item.place bus.rank bus.width)
        (cells_taken (chip_of basis.now) pricing item.place bus.width)
        (net_at basis.now c pricing item.place item.price bus.rank bus.width)
        (slice_index row.old) x }
{
    if !has_slot(basis, case, item.place, bus) {
        return;
    }
    let net = net_worth(basis, weighed, case, item, bus);
    let cells = cells_taken(basis, grain, item.place, bus.width);
    let end = cells_of(basis.proof.claimed, grain) as usize + 1;
    add_item(row, end, cells, net);
}

/// The most that priced modules which fit are worth on a bus.
fn bus_most(
    basis: &Basis<'_>,
    weighed: &Weighed,
    case: &CaseRoom,
    pricing: &Pricing,
    room: &mut BusRoom,
    bus: RankBus,
) -> u64
    requires leaf { IsPackLeaf basis.now case.now weighed.now (pricing_value pricing.now) }
    requires room { IsBusRoom basis.now (pricing_value pricing.now) room.old }
    requires width { bus.width ≤ (limits_of basis.now).wires }
    ensures most { (c : Case) → IsCaseOf case.now c →
        result ≡ bus_most basis.now c (pricing_value pricing.now) bus.rank bus.width }
    ensures small { result ≤ 10 ^ 18 }
    ensures room { IsBusRoom basis.now (pricing_value pricing.now) room.new }
    ensures places { room.new.places ≡ room.old.places }
{
    let end = cells_of(basis.proof.claimed, pricing.grain) as usize + 1;
    clear_row(&mut room.cells, end);
    for item in 0..pricing.prices.len() {
        let priced = priced_at(pricing, &room.places, item);
        add_priced(
            basis,
            weighed,
            case,
            pricing.grain,
            &mut room.cells,
            bus,
            priced,
        );
    }
    room.cells[end - 1]
}

/// Whether a priced module has a slot on a bus of `before` wires as on the wider bus of the same rank, takes as many cells there, and is
/// worth as much.
fn is_worth_same(
    basis: &Basis<'_>,
    weighed: &Weighed,
    case: &CaseRoom,
    grain: u64,
    item: PricedModule,
    bus: RankBus,
    before: u64,
) -> bool
    requires leaf { IsPackSetting basis.now case.now weighed.now grain }
    requires width { bus.width ≤ (limits_of basis.now).wires }
    requires some_wire { 1 ≤ before }
    requires before { before ≤ bus.width }
    requires place { item.place < length (chip_of basis.now).modules }
    ensures { result ≡ true → (c : Case) (pricing : PricingValue) → IsCaseOf case.now c →
        pricing.grain ≡ grain → IsWeighed basis.now (list_weights pricing) weighed.now →
        IsLikeItem basis.now c pricing item.place item.price bus.rank bus.width bus.rank before }
{
    let narrow = RankBus {
        rank: bus.rank,
        width: before,
    };
    let has = has_slot(basis, case, item.place, bus);
    let had = has_slot(basis, case, item.place, narrow);
    if has != had {
        return false;
    }
    if !has {
        return true;
    }
    let cells = cells_taken(basis, grain, item.place, bus.width);
    let were = cells_taken(basis, grain, item.place, before);
    if cells != were {
        return false;
    }
    let net = net_worth(basis, weighed, case, item, bus);
    let was = net_worth(basis, weighed, case, item, narrow);
    net == was
}

/// Whether a priced module is alike on both buses: at once where its tests take as long on both, else by [`is_worth_same`].
fn is_like_item(
    basis: &Basis<'_>,
    weighed: &Weighed,
    case: &CaseRoom,
    grain: u64,
    item: PricedModule,
    bus: RankBus,
    before: u64,
) -> bool
    requires leaf { IsPackSetting basis.now case.now weighed.now grain }
    requires width { bus.width ≤ (limits_of basis.now).wires }
    requires some_wire { 1 ≤ before }
    requires before { before ≤ bus.width }
    requires place { item.place < length (chip_of basis.now).modules }
    ensures { result ≡ true → (c : Case) (pricing : PricingValue) → IsCaseOf case.now c →
        pricing.grain ≡ grain → IsWeighed basis.now (list_weights pricing) weighed.now →
        IsLikeItem basis.now c pricing item.place item.price bus.rank bus.width bus.rank before }
{
    packed_times_are_least();
    let time = basis.times.tam_time(item.place, bus.width);
    let was = basis.times.tam_time(item.place, before);
    if time == was {
        return true;
    }
    is_worth_same(basis, weighed, case, grain, item, bus, before)
}

/// Whether each priced module is on a bus of `before` wires as on the wider bus of the same rank, so that they are worth as much.
fn is_like_width(
    basis: &Basis<'_>,
    weighed: &Weighed,
    case: &CaseRoom,
    pricing: &Pricing,
    places: &[usize],
    bus: RankBus,
    before: u64,
) -> bool
    requires leaf { IsPackLeaf basis.now case.now weighed.now (pricing_value pricing.now) }
    requires long { length (pricing_value pricing.now).prices ≤ length places.now }
    requires places { ArePlaces (chip_of basis.now) (pricing_value pricing.now).prices
        (length (pricing_value pricing.now).prices) places.now }
    requires width { bus.width ≤ (limits_of basis.now).wires }
    requires some_wire { 1 ≤ before }
    requires before { before ≤ bus.width }
    ensures { result ≡ true → (c : Case) → IsCaseOf case.now c →
        bus_most basis.now c (pricing_value pricing.now) bus.rank bus.width
        ≡ bus_most basis.now c (pricing_value pricing.now) bus.rank before }
{
    for item in 0..pricing.prices.len() {
        let priced = priced_at(pricing, places, item);
        if !is_like_item(basis, weighed, case, pricing.grain, priced, bus, before) {
            return false;
        }
    }
    true
}

/// Whether each of the first `count` modules by their places may be on both ranks or on none.
fn are_both_or_none(
    case: &CaseRoom,
    places: &[usize],
    count: usize,
    rank: usize,
    other: usize,
) -> bool
    requires case { HasCase case.now }
    requires known { (c : Case) × IsCaseOf case.now c }
    requires long { count ≤ length places.now }
    requires places { (item : ℕ) → item < count → slice_index places.now item < case.now.modules }
    ensures { result ≡ true → (c : Case) → IsCaseOf case.now c → (item : ℕ) → item < count →
        may_be c (slice_index places.now item) rank ≡ may_be c (slice_index places.now item) other }
{
    for item in 0..count {
        let place = places[item];
        let on_rank = may_be(case, place, rank);
        let on_other = may_be(case, place, other);
        if on_rank != on_other {
            return false;
        }
    }
    true
}

/// Whether buses of the two ranks are worth the same: no list that is weighed speaks of either, and each of the first `count` modules by
/// their places may be on both or on none.
fn is_like_rank(
    weighed: &Weighed,
    case: &CaseRoom,
    places: &[usize],
    count: usize,
    rank: usize,
    other: usize,
) -> bool
    requires case { HasCase case.now }
    requires known { (c : Case) × IsCaseOf case.now c }
    requires long { count ≤ length places.now }
    requires places { (item : ℕ) → item < count → slice_index places.now item < case.now.modules }
    ensures { result ≡ true → IsLikeRank case.now weighed.now places.now count rank other }
{
    if !is_without_list(&weighed.beside, rank) {
        return false;
    }
    if !is_without_list(&weighed.beside, other) {
        return false;
    }
    are_both_or_none(case, places, count, rank, other)
}

/// Takes all worths away.
fn clear_worths(worths: &mut Vec<Option<u64>>)
    ensures { worths.new.items ≡ replicate (length worths.old.items) None }
{
    worths.fill(None);
}

/// Nothing is kept yet of a rank.
fn keep_nothing(kept: &mut KeptWorths, rank: usize)
    ensures rank { kept.new.rank ≡ rank }
    ensures long { length kept.new.worths.items ≡ length kept.old.worths.items }
    ensures none { (width worth : ℕ) → IsKeptAt kept.new width worth → ⊥ }
{
    clear_worths(&mut kept.worths);
    kept.rank = rank;
}

/// Keeps for a rank what is known of the one before, where their buses are worth the same; else nothing.
fn keep_for(
    weighed: &Weighed,
    case: &CaseRoom,
    places: &[usize],
    count: usize,
    kept: &mut KeptWorths,
    rank: usize,
)
    requires case { HasCase case.now }
    requires known { (c : Case) × IsCaseOf case.now c }
    requires long { count ≤ length places.now }
    requires places { (item : ℕ) → item < count → slice_index places.now item < case.now.modules }
    ensures rank { kept.new.rank ≡ rank }
    ensures long { length kept.new.worths.items ≡ length kept.old.worths.items }
    ensures kept { (width worth : ℕ) → IsKeptAt kept.new width worth →
        IsKeptAt kept.old width worth
        × IsLikeRank case.now weighed.now places.now count kept.old.rank rank }
{
    if is_like_rank(weighed, case, places, count, kept.rank, rank) {
        kept.rank = rank;
        return;
    }
    keep_nothing(kept, rank);
}

/// What is kept of a width.
fn kept_at(kept: &KeptWorths, width: u64) -> Option<u64>
    requires { width < length kept.now.worths.items }
    ensures { IfSome result (IsKeptAt kept.now width) }
{
    kept.worths[width as usize]
}

/// What the bus is worth, where that is kept of its width, or of a wire less and the widths are alike.
fn known_worth(
    basis: &Basis<'_>,
    weighed: &Weighed,
    case: &CaseRoom,
    pricing: &Pricing,
    room: &PackRoom,
    bus: RankBus,
) -> Option<u64>
    requires leaf { IsPackLeaf basis.now case.now weighed.now (pricing_value pricing.now) }
    requires room { IsBusesRoom basis.now (pricing_value pricing.now) room.now }
    requires kept { AreKept basis.now case.now (pricing_value pricing.now) room.now.kept }
    requires rank { room.now.kept.rank ≡ bus.rank }
    requires width { bus.width ≤ (limits_of basis.now).wires }
    ensures { IfSome result
        (IsWorth basis.now case.now (pricing_value pricing.now) bus.rank bus.width) }
{
    if let Some(worth) = kept_at(&room.kept, bus.width) {
        return Some(worth);
    }
    if bus.width < 2 {
        return None;
    }
    let before = bus.width - 1;
    let Some(worth) = kept_at(&room.kept, before) else {
        return None;
    };
    if is_like_width(basis, weighed, case, pricing, &room.bus.places, bus, before) {
        return Some(worth);
    }
    None
}

/// What the bus is worth, worked out where it isn't known.
fn found_worth(
    basis: &Basis<'_>,
    weighed: &Weighed,
    case: &CaseRoom,
    pricing: &Pricing,
    room: &mut PackRoom,
    bus: RankBus,
) -> u64
    requires leaf { IsPackLeaf basis.now case.now weighed.now (pricing_value pricing.now) }
    requires room { IsBusesRoom basis.now (pricing_value pricing.now) room.old }
    requires kept { AreKept basis.now case.now (pricing_value pricing.now) room.old.kept }
    requires rank { room.old.kept.rank ≡ bus.rank }
    requires width { bus.width ≤ (limits_of basis.now).wires }
    ensures worth { IsWorth basis.now case.now (pricing_value pricing.now) bus.rank bus.width
        result }
    ensures room { IsBusRoom basis.now (pricing_value pricing.now) room.new.bus }
    ensures places { room.new.bus.places ≡ room.old.bus.places }
    ensures kept { room.new.kept ≡ room.old.kept }
    ensures wires { room.new.wires ≡ room.old.wires }
    ensures noted { room.new.worth ≡ room.old.worth }
    ensures work { room.new.work ≡ room.old.work }
{
    if let Some(worth) = known_worth(basis, weighed, case, pricing, room, bus) {
        return worth;
    }
    bus_most(basis, weighed, case, pricing, &mut room.bus, bus)
}

/// What the bus is worth. It is kept.
fn kept_worth(
    basis: &Basis<'_>,
    weighed: &Weighed,
    case: &CaseRoom,
    pricing: &Pricing,
    room: &mut PackRoom,
    bus: RankBus,
) -> u64
    requires leaf { IsPackLeaf basis.now case.now weighed.now (pricing_value pricing.now) }
    requires room { IsBusesRoom basis.now (pricing_value pricing.now) room.old }
    requires kept { AreKept basis.now case.now (pricing_value pricing.now) room.old.kept }
    requires rank { room.old.kept.rank ≡ bus.rank }
    requires width { bus.width ≤ (limits_of basis.now).wires }
    ensures worth { IsWorth basis.now case.now (pricing_value pricing.now) bus.rank bus.width
        result }
    ensures small { result ≤ 10 ^ 18 }
    ensures room { IsBusesRoom basis.now (pricing_value pricing.now) room.new }
    ensures kept { AreKept basis.now case.now (pricing_value pricing.now) room.new.kept }
    ensures rank { room.new.kept.rank ≡ bus.rank }
    ensures places { room.new.bus.places ≡ room.old.bus.places }
    ensures wires { room.new.wires ≡ room.old.wires }
    ensures noted { room.new.worth ≡ room.old.worth }
    ensures work { room.new.work ≡ room.old.work }
{
    let worth = found_worth(basis, weighed, case, pricing, room, bus);
    room.kept.worths[bus.width as usize] = Some(worth);
    worth
}

/// Notes the most on the bus of a rank for each number of wires up to `span` beyond its least.
fn note_worths(
    basis: &Basis<'_>,
    weighed: &Weighed,
    case: &CaseRoom,
    pricing: &Pricing,
    room: &mut PackRoom,
    least: RankBus,
    span: u64,
)
    requires leaf { IsPackLeaf basis.now case.now weighed.now (pricing_value pricing.now) }
    requires room { IsBusesRoom basis.now (pricing_value pricing.now) room.old }
    requires kept { AreKept basis.now case.now (pricing_value pricing.now) room.old.kept }
    requires width { least.width + span ≤ (limits_of basis.now).wires }
    ensures worths { (c : Case) → IsCaseOf case.now c → (d : ℕ) → d ≤ span →
        slice_index room.new.worth.items d
        ≡ bus_most basis.now c (pricing_value pricing.now) least.rank (least.width + d) }
    ensures small { (d : ℕ) → d ≤ span → slice_index room.new.worth.items d ≤ 10 ^ 18 }
    ensures room { IsBusesRoom basis.now (pricing_value pricing.now) room.new }
    ensures kept { AreKept basis.now case.now (pricing_value pricing.now) room.new.kept }
    ensures wires { room.new.wires ≡ room.old.wires }
    ensures work { room.new.work ≡ room.old.work }
    ensures places { room.new.bus.places ≡ room.old.bus.places }
{
    let count = pricing.prices.len();
    keep_for(
        weighed,
        case,
        &room.bus.places,
        count,
        &mut room.kept,
        least.rank,
    );
    for more in 0..span as usize + 1 {
        let bus = RankBus {
            rank: least.rank,
            width: least.width + more as u64,
        };
        room.worth[more] = kept_worth(basis, weighed, case, pricing, room, bus);
    }
}

/// The row of wires for buses of the rest.
fn rest_row(
    basis: &Basis<'_>,
    weighed: &Weighed,
    case: &CaseRoom,
    pricing: &Pricing,
    room: &mut PackRoom,
)
    requires leaf { IsPackLeaf basis.now case.now weighed.now (pricing_value pricing.now) }
    requires room { IsBusesRoom basis.now (pricing_value pricing.now) room.old }
    ensures row { (c : Case) → IsCaseOf case.now c →
        IsWiresRow basis.now c (pricing_value pricing.now) 0 room.new.wires.items }
    ensures small { (x : ℕ) →
        x ≤ spare (limits_of basis.now).wires case.now.widths.intervals.items →
        slice_index room.new.wires.items x ≤ 300 * 10 ^ 18 }
    ensures room { IsBusesRoom basis.now (pricing_value pricing.now) room.new }
    ensures kept { AreKept basis.now case.now (pricing_value pricing.now) room.new.kept }
    ensures work { room.new.work ≡ room.old.work }
    ensures places { room.new.bus.places ≡ room.old.bus.places }
{
    let known = known_ranks(&case.widths);
    keep_nothing(&mut room.kept, known);
    let high = rest_high(case);
    let none = RankBus {
        rank: known,
        width: 0,
    };
    note_worths(basis, weighed, case, pricing, room, none, high);
    let end = spare_wires(&case.widths) as usize + 1;
    fill_rest(&mut room.wires, end, &room.worth, high as usize);
}

/// The row of wires with one known rank more.
fn rank_row(
    basis: &Basis<'_>,
    weighed: &Weighed,
    case: &CaseRoom,
    pricing: &Pricing,
    room: &mut PackRoom,
    rank: usize,
)
    requires leaf { IsPackLeaf basis.now case.now weighed.now (pricing_value pricing.now) }
    requires room { IsBusesRoom basis.now (pricing_value pricing.now) room.old }
    requires kept { AreKept basis.now case.now (pricing_value pricing.now) room.old.kept }
    requires some { (c : Case) → IsCaseOf case.now c → IsEmpty (limits_of basis.now).wires c → ⊥ }
    requires rank { rank < length case.now.widths.intervals.items }
    requires few { rank < 256 }
    requires small { (x : ℕ) →
        x ≤ spare (limits_of basis.now).wires case.now.widths.intervals.items →
        slice_index room.old.wires.items x ≤ (300 + rank) * 10 ^ 18 }
    ensures row { (c : Case) → IsCaseOf case.now c →
        IsWiresRow basis.now c (pricing_value pricing.now) rank room.old.wires.items →
        IsWiresRow basis.now c (pricing_value pricing.now) (rank + 1) room.new.wires.items }
    ensures small { (x : ℕ) →
        x ≤ spare (limits_of basis.now).wires case.now.widths.intervals.items →
        slice_index room.new.wires.items x ≤ (301 + rank) * 10 ^ 18 }
    ensures room { IsBusesRoom basis.now (pricing_value pricing.now) room.new }
    ensures kept { AreKept basis.now case.now (pricing_value pricing.now) room.new.kept }
    ensures work { room.new.work ≡ room.old.work }
    ensures places { room.new.bus.places ≡ room.old.bus.places }
{
    let interval = interval_at(&case.widths, rank);
    let span = interval.high.saturating_sub(interval.low);
    let least = RankBus {
        rank,
        width: interval.low,
    };
    note_worths(basis, weighed, case, pricing, room, least, span);
    let end = spare_wires(&case.widths) as usize + 1;
    add_rank(&mut room.wires, end, &room.worth, span as usize);
}

/// The most that all buses are worth on the wires.
pub(crate) fn most_filled(
    basis: &Basis<'_>,
    weighed: &Weighed,
    case: &CaseRoom,
    pricing: &Pricing,
    room: &mut PackRoom,
) -> u128
    requires leaf { IsPackLeaf basis.now case.now weighed.now (pricing_value pricing.now) }
    requires room { IsBusesRoom basis.now (pricing_value pricing.now) room.old }
    requires some { (c : Case) → IsCaseOf case.now c → IsEmpty (limits_of basis.now).wires c → ⊥ }
    ensures most { (c : Case) → IsCaseOf case.now c →
        IsMostFilled (chip_of basis.now) (limits_of basis.now) (lists_of basis.now)
        (claim_of basis.now) c (pricing_value pricing.now) result }
    ensures small { result ≤ 600 * 10 ^ 18 }
    ensures room { IsBusesRoom basis.now (pricing_value pricing.now) room.new }
    ensures work { room.new.work ≡ room.old.work }
    ensures places { room.new.bus.places ≡ room.old.bus.places }
{
    rest_row(basis, weighed, case, pricing, room);
    for rank in 0..known_ranks(&case.widths) {
        rank_row(basis, weighed, case, pricing, room, rank);
    }
    room.wires[spare_wires(&case.widths) as usize]
}
