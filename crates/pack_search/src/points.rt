//! Prices and worths as parts of a whole.

use crate::listing::{LISTS_MOST, Listing};
use crate::warm::Warm;
use outside::NoMemory;
use pack_values::Prices;
use std::alloc::Global;
use tables::{NONE, UNIT, copy_items, fill_items, filled, item_or, put_item};

/// Prices of modules and worths of lists, in parts of `UNIT`: about a whole is what all buses and lists are worth together.
#[derive(Drop)]
pub(crate) struct Point {
    /// The price of each module.
    prices: Vec<i64>,
    /// The worth of each list of the attempt.
    worths: Vec<i64>,
}

/// Writes the means of two lists, as much as all have.
fn write_means(to: &mut [i64], one: &[i64], other: &[i64]) {
    for place in 0..to.len().min(one.len()).min(other.len()) {
        to[place] = one[place].saturating_add(other[place]) / 2;
    }
}

/// A number as a part of a total, which is a whole.
fn part_of(number: u128, total: u128) -> i64 {
    let parts = number
        .saturating_mul(UNIT as u128)
        .checked_div(total)
        .unwrap_or(0);
    i64::try_from(parts).unwrap_or(i64::MAX)
}

impl Point {
    /// A point of no prices. `NoMemory` where memory runs out.
    pub fn new(alloc: Global, modules: usize) -> Result<Point, NoMemory> {
        let prices = filled(alloc, 0i64, modules)?;
        let worths = filled(alloc, 0i64, LISTS_MOST)?;
        Ok(Point { prices, worths })
    }

    /// Makes all prices and worths 0.
    pub fn clear_point(&mut self) {
        fill_items(&mut self.prices, 0);
        fill_items(&mut self.worths, 0);
    }

    /// Becomes another point.
    pub fn copy_point(&mut self, other: &Point) {
        copy_items(&mut self.prices, &other.prices);
        copy_items(&mut self.worths, &other.worths);
    }

    /// Becomes the point half way between two.
    pub fn take_middle(&mut self, one: &Point, other: &Point) {
        write_means(&mut self.prices, &one.prices, &other.prices);
        write_means(&mut self.worths, &one.worths, &other.worths);
    }

    /// The price of a module.
    pub fn price(&self, module: usize) -> i64 {
        item_or(&self.prices, module, 0)
    }

    /// The worth of a list at a place of the attempt.
    pub fn worth(&self, at: usize) -> i64 {
        item_or(&self.worths, at, 0)
    }

    /// Sets the price of a module.
    pub fn set_price(&mut self, module: usize, price: i64) {
        put_item(&mut self.prices, module, price);
    }

    /// Sets the worth of a list at a place of the attempt.
    pub fn set_worth(&mut self, at: usize, worth: i64) {
        put_item(&mut self.worths, at, worth);
    }

    /// Becomes whole prices, for which `total` is a whole.
    pub fn take_whole(&mut self, prices: &Prices, lists: &Listing, total: u128) {
        self.clear_point();
        for module in 0..self.prices.len() {
            let price = part_of(u128::from(prices.price(module)), total);
            self.set_price(module, price);
        }
        for place in 0..prices.count {
            let at = lists.place_of(item_or(&prices.lists, place, NONE));
            let weight = u128::from(item_or(&prices.weights, place, 0));
            let worth = weight.saturating_mul(u128::from(lists.room(at)));
            self.set_worth(at, part_of(worth, total));
        }
    }

    /// Becomes the prices that were left by another attempt.
    pub fn take_warm(&mut self, warm: &Warm, lists: &Listing) {
        self.clear_point();
        for module in 0..self.prices.len() {
            self.set_price(module, warm.price(module));
        }
        for place in 0..warm.lists() {
            self.set_worth(lists.place_of(warm.list(place)), warm.worth(place));
        }
    }
}
