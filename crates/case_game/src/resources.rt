//! The resources of the game of a case: the buses of the known ranks, the wires that are spare, and lists of tests. Each has a
//! part of the weights.

use case_tables::{ChosenLists, LISTS_MOST, LeafWeights, Lists, RANGES_MOST, REST, WEIGHT_MOST};
use leaf_values::Spans;
use outside::NoMemory;
use std::alloc::Global;
use tables::{NONE, ONE, as_number, as_part, fill_items, filled, item_or, put_item};

/// The most resources of a game.
pub(crate) const RESOURCES_MOST: usize = RANGES_MOST + LISTS_MOST;
/// A part for a wire, or for a cycle of a list, is taken `FINE` times.
const FINE: u128 = 1 << 40;

/// The resources of a game. Those of the known ranks come first, then the spare wires, then the lists.
#[derive(Drop)]
pub(crate) struct Resources {
    /// How many there are.
    pub count: usize,
    /// For each known rank its place among the resources, NONE where its bus has no wires.
    rank_place: Vec<usize>,
    /// The place of the spare wires, NONE where there are none.
    pub rest: usize,
    /// How many wires are spare.
    pub spare: u64,
    /// Where the lists begin.
    pub lists_from: usize,
    /// How many lists there are.
    pub listed: usize,
    /// For each of them its place among the lists of the proof.
    list_at: Vec<usize>,
}

/// The first parts of a list, together.
fn sum_of_parts(parts: &[i64], count: usize) -> i64 {
    let mut sum: i64 = 0;
    for place in 0..count {
        sum = sum.saturating_add(item_or(parts, place, 0));
    }
    sum
}

/// A part of a sum of parts as one of ONE.
fn normal_part(part: i64, sum: i64) -> i64 {
    let product = i128::from(part).wrapping_mul(i128::from(ONE));
    let normal = product.checked_div(i128::from(sum)).unwrap_or(0);
    i64::try_from(normal).unwrap_or(0)
}

/// Makes the first parts of a list such that are ONE together.
fn normalize_parts(parts: &mut [i64], count: usize) {
    if sum_of_parts(parts, count) == 0 {
        put_item(parts, 0, ONE);
    }
    let sum = sum_of_parts(parts, count);
    for place in 0..count {
        let normal = normal_part(item_or(parts, place, 0), sum);
        put_item(parts, place, normal);
    }
}

impl Resources {
    /// Room for the resources of games; there are none yet. `NoMemory` where memory runs out.
    pub fn new(alloc: Global) -> Result<Resources, NoMemory> {
        let rank_place = filled(alloc, NONE, RANGES_MOST)?;
        let list_at = filled(alloc, NONE, LISTS_MOST)?;
        Ok(Resources {
            count: 0,
            rank_place,
            rest: NONE,
            spare: 0,
            lists_from: 0,
            listed: 0,
            list_at,
        })
    }

    /// The place of the bus of a rank, NONE where that is none.
    pub fn of_rank(&self, rank: usize) -> usize {
        item_or(&self.rank_place, rank, NONE)
    }

    /// The place among the lists of the proof of one of its lists.
    pub fn list(&self, at: usize) -> usize {
        item_or(&self.list_at, at, NONE)
    }

    /// Adds a resource and answers its place.
    fn add(&mut self) -> usize {
        let place = self.count;
        self.count = place.saturating_add(1);
        place
    }

    /// Forgets all resources.
    fn clear_resources(&mut self) {
        self.count = 0;
        self.rest = NONE;
        for rank in 0..self.rank_place.len() {
            put_item(&mut self.rank_place, rank, NONE);
        }
    }

    /// Adds the buses of the known ranks that have wires.
    fn add_ranks(&mut self, spans: &Spans) {
        for at in 0..spans.count {
            let rank = spans.range(at).rank;
            if rank != REST {
                let place = self.add();
                put_item(&mut self.rank_place, rank, place);
            }
        }
    }

    /// Adds the spare wires, where there are any.
    fn add_rest(&mut self, spans: &Spans) {
        self.spare = spans.spare as u64;
        if self.spare > 0 {
            self.rest = self.add();
        }
    }

    /// Adds lists.
    fn add_lists(&mut self, chosen: &ChosenLists) {
        self.lists_from = self.count;
        self.listed = chosen.count;
        self.count = self.count.saturating_add(chosen.count);
        for at in 0..chosen.count {
            put_item(&mut self.list_at, at, chosen.at(at));
        }
    }

    /// Becomes the resources of a case, with lists.
    pub fn take(&mut self, spans: &Spans, chosen: &ChosenLists) {
        self.clear_resources();
        self.add_ranks(spans);
        self.add_rest(spans);
        self.add_lists(chosen);
    }

    /// How much there is of a resource: spare wires, tests of a list that are active together at most; 1 for a bus.
    fn room(&self, lists: &Lists, place: usize) -> u64 {
        if place == self.rest {
            return self.spare;
        }
        if place < self.lists_from {
            return 1;
        }
        lists.room(self.list(place.saturating_sub(self.lists_from)))
    }

    /// The part of one unit of a resource.
    fn ratio(&self, lists: &Lists, parts: &[i64], place: usize) -> u128 {
        let part = u128::from(as_number(item_or(parts, place, 0)));
        let room = u128::from(self.room(lists, place));
        part.saturating_mul(FINE).checked_div(room).unwrap_or(0)
    }

    /// The greatest part of one unit of any resource, at least 1.
    fn greatest(&self, lists: &Lists, parts: &[i64]) -> u128 {
        let mut greatest: u128 = 1;
        for place in 0..self.count {
            greatest = greatest.max(self.ratio(lists, parts, place));
        }
        greatest
    }

    /// The weight of a unit of a resource, where that of the greatest part has the greatest weight.
    fn weight(&self, lists: &Lists, parts: &[i64], place: usize, greatest: u128) -> u64 {
        let ratio = self.ratio(lists, parts, place);
        let product = ratio.saturating_mul(u128::from(WEIGHT_MOST));
        let weight = product.checked_div(greatest).unwrap_or(0);
        u64::try_from(weight).unwrap_or(WEIGHT_MOST)
    }

    /// Writes the weights of the buses of the known ranks.
    fn weigh_ranks(
        &self,
        lists: &Lists,
        parts: &[i64],
        known: usize,
        greatest: u128,
        weights: &mut LeafWeights,
    ) {
        for rank in 0..known {
            let place = self.of_rank(rank);
            if place != NONE {
                let weight = self.weight(lists, parts, place, greatest);
                put_item(&mut weights.ranks, rank, weight);
            }
        }
    }

    /// Adds the weights of the lists.
    fn weigh_lists(&self, lists: &Lists, parts: &[i64], greatest: u128, weights: &mut LeafWeights) {
        for at in 0..self.listed {
            let place = self.lists_from.saturating_add(at);
            let weight = self.weight(lists, parts, place, greatest);
            weights.add_list(self.list(at), weight);
        }
    }

    /// Writes parts as the weights of a leaf that has `known` known ranks.
    pub fn weigh(&self, lists: &Lists, parts: &[i64], known: usize, weights: &mut LeafWeights) {
        weights.clear_weights();
        let greatest = self.greatest(lists, parts);
        self.weigh_ranks(lists, parts, known, greatest, weights);
        if self.rest != NONE {
            weights.wire = self.weight(lists, parts, self.rest, greatest);
        }
        self.weigh_lists(lists, parts, greatest, weights);
    }

    /// Writes the weights of the buses of the known ranks as parts.
    fn part_ranks(&self, known: usize, weights: &LeafWeights, parts: &mut [i64]) {
        for rank in 0..known {
            let weight = weights.rank(rank);
            put_item(parts, self.of_rank(rank), as_part(weight));
        }
    }

    /// Writes the weights of the lists as parts.
    fn part_lists(&self, lists: &Lists, weights: &LeafWeights, parts: &mut [i64]) {
        for at in 0..weights.count {
            let room = lists.room(weights.list_at(at));
            let weight = weights.use_at(at).saturating_mul(room);
            let place = self.lists_from.saturating_add(at);
            put_item(parts, place, as_part(weight));
        }
    }

    /// Writes the weights of a leaf that has `known` known ranks as parts; all is the first one's where all weights are 0. The
    /// lists of the weights are the first ones of the resources.
    pub fn share(&self, lists: &Lists, known: usize, weights: &LeafWeights, parts: &mut [i64]) {
        fill_items(parts, 0);
        self.part_ranks(known, weights, parts);
        let wires = weights.wire.saturating_mul(self.spare);
        put_item(parts, self.rest, as_part(wires));
        self.part_lists(lists, weights, parts);
        normalize_parts(parts, self.count);
    }
}
