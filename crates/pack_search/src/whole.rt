//! Prices as whole numbers, and what they are worth.

use crate::listing::Listing;
use crate::points::Point;
use pack_values::Prices;
use tables::{FRACTION_PLACES, NONE, item_or};

/// The scale of whole prices, at most.
const SCALE_MOST: u64 = 1 << 44;
/// What the weight of a list of the least room becomes, at most.
const LEAST_MOST: u64 = 400_000_000;
/// The greatest price of a text.
const PRICE_MOST: u64 = 999_999_999_999_999;
/// The greatest weight of a text.
const WEIGHT_MOST: u64 = 999_999_999;

/// What all prices are together, and what all buses and lists are worth together.
#[derive(Clone, Copy)]
pub(crate) struct Ratio {
    /// The prices.
    pub sum: u128,
    /// The worths.
    pub total: u128,
}

/// The ratio of no prices.
pub(crate) const NO_RATIO: Ratio = Ratio { sum: 0, total: 1 };

impl Ratio {
    /// Whether the prices are more than what all is worth: the claim holds.
    pub fn holds(self) -> bool {
        self.sum > self.total
    }

    /// Whether it is greater than another one.
    pub fn is_above(self, other: Ratio) -> bool {
        self.sum.saturating_mul(other.total) > other.sum.saturating_mul(self.total)
    }
}

/// The scale of whole prices: so that the weight of each list is less than a text allows.
pub(crate) fn scale_of(lists: &Listing) -> u64 {
    SCALE_MOST.min(LEAST_MOST.saturating_mul(lists.least_room()))
}

/// A part of a whole as a whole number of a scale.
fn whole_of(part: i64, scale: u64) -> u64 {
    let parts = u128::from(u64::try_from(part).unwrap_or(0));
    let product = parts.saturating_mul(u128::from(scale));
    u64::try_from(product >> FRACTION_PLACES).unwrap_or(u64::MAX)
}

/// The weight of a list of this worth.
fn weight_of(worth: i64, scale: u64, room: u64) -> u64 {
    whole_of(worth, scale)
        .checked_div(room)
        .unwrap_or(0)
        .min(WEIGHT_MOST)
}

/// Writes a point as whole prices of a scale.
pub(crate) fn write_whole(
    point: &Point,
    modules: usize,
    lists: &Listing,
    scale: u64,
    prices: &mut Prices,
) {
    prices.clear_prices();
    for module in 0..modules {
        let price = whole_of(point.price(module), scale);
        prices.set(module, price.min(PRICE_MOST));
    }
    for at in 0..lists.count {
        let weight = weight_of(point.worth(at), scale, lists.room(at));
        if weight > 0 {
            prices.add_list(lists.list(at), weight);
        }
    }
}

/// Writes whole prices with the weights of those lists that are weighed.
pub(crate) fn write_weighed(from: &Prices, modules: usize, lists: &Listing, prices: &mut Prices) {
    prices.clear_prices();
    for module in 0..modules {
        prices.set(module, from.price(module).min(PRICE_MOST));
    }
    for place in 0..from.count {
        let list = item_or(&from.lists, place, NONE);
        let weight = item_or(&from.weights, place, 0).min(WEIGHT_MOST);
        if weight > 0 && lists.place_of(list) != NONE {
            prices.add_list(list, weight);
        }
    }
}

/// The ratio of whole prices, where all buses are worth `most` together.
pub(crate) fn ratio_of(prices: &Prices, modules: usize, lists: &Listing, most: u128) -> Ratio {
    let mut sum: u128 = 0;
    for module in 0..modules {
        sum = sum.saturating_add(u128::from(prices.price(module)));
    }
    let mut total = most;
    for place in 0..prices.count {
        let room = lists.room(lists.place_of(item_or(&prices.lists, place, NONE)));
        let weight = u128::from(item_or(&prices.weights, place, 0));
        total = total.saturating_add(weight.saturating_mul(u128::from(room)));
    }
    Ratio { sum, total }
}

/// A number scaled so that one of `most` becomes `whole`, rounded to the nearest.
fn scaled(number: u64, most: u64, whole: u64) -> u64 {
    let product = u128::from(number).saturating_mul(u128::from(whole));
    let rounded = product.saturating_add(u128::from(most / 2));
    let scaled = rounded.checked_div(u128::from(most)).unwrap_or(0);
    u64::try_from(scaled).unwrap_or(u64::MAX)
}

/// The greatest of the prices and weights.
pub(crate) fn greatest_of(prices: &Prices) -> u64 {
    let mut most = prices.greatest();
    for place in 0..prices.count {
        most = most.max(item_or(&prices.weights, place, 0));
    }
    most
}

/// Writes whole prices scaled so that the greatest price or weight is `whole`. Weights that become 0 are left out.
pub(crate) fn write_scaled(from: &Prices, modules: usize, whole: u64, prices: &mut Prices) {
    let most = greatest_of(from);
    prices.clear_prices();
    for module in 0..modules {
        prices.set(module, scaled(from.price(module), most, whole));
    }
    for place in 0..from.count {
        let weight = scaled(item_or(&from.weights, place, 0), most, whole);
        if weight > 0 {
            prices.add_list(item_or(&from.lists, place, NONE), weight);
        }
    }
}
