//! Prices to start from: what modules cost at least at the weights of a leaf Sum.

use case_tables::LeafWeights;
use pack_values::Prices;
use tables::item_or;

/// The binary places of the greatest price, at most.
const PLACES: u32 = 49;

/// The greatest of some costs.
fn greatest_of(costs: &[u128]) -> u128 {
    let mut most: u128 = 0;
    for module in 0..costs.len() {
        most = most.max(costs[module]);
    }
    most
}

/// How many binary places costs have too many.
fn places_over(most: u128) -> u32 {
    128u32
        .saturating_sub(most.leading_zeros())
        .saturating_sub(PLACES)
        .min(127)
}

/// Writes the costs of modules as prices, and the weights of lists in the same unit.
pub fn write_start(costs: &[u128], weights: &LeafWeights, start: &mut Prices) {
    let places = places_over(greatest_of(costs));
    start.clear_prices();
    for module in 0..costs.len() {
        let price = item_or(costs, module, 0).checked_shr(places).unwrap_or(0);
        start.set(module, u64::try_from(price).unwrap_or(0));
    }
    for at in 0..weights.count {
        let weight = weights.use_at(at).checked_shr(places).unwrap_or(0);
        start.add_list(weights.list_at(at), weight);
    }
}
