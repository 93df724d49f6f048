//! Prices of modules and weights of lists.

use outside::{NoMemory, both};
use std::alloc::Global;
use tables::{fill_items, filled, item_or, put_item};

/// The most lists that have a weight.
const LISTS_MOST: usize = 256;
/// The greatest price: those of 1,000 modules are together at most 10^18.
const PRICE_MOST: u64 = 1_000_000_000_000_000;

/// Whole prices of modules, and whole weights of some lists.
#[derive(Drop)]
pub struct Prices {
    /// The price of each module.
    pub modules: Vec<u64>,
    /// How many lists have a weight, at most 256.
    pub count: usize,
    /// The place of each such list.
    pub lists: Vec<usize>,
    /// The weight of each such list.
    pub weights: Vec<u64>,
}

/// Copies as much of a list as both have.
fn copy_all<T: Copy>(to: &mut [T], from: &[T]) {
    for place in 0..to.len().min(from.len()) {
        to[place] = from[place];
    }
}

impl Prices {
    /// Prices of 0 for `modules` modules, and no weights. `NoMemory` where memory runs out.
    pub fn new(alloc: Global, modules: usize) -> Result<Prices, NoMemory> {
        let prices = filled(alloc, 0u64, modules)?;
        let (lists, weights) = both(
            filled(alloc, 0usize, LISTS_MOST),
            filled(alloc, 0u64, LISTS_MOST),
        )?;
        Ok(Prices {
            modules: prices,
            count: 0,
            lists,
            weights,
        })
    }

    /// Makes all prices 0, and forgets the lists.
    pub fn clear_prices(&mut self) {
        self.count = 0;
        fill_items(&mut self.modules, 0);
    }

    /// Makes the prices and weights those of another one for as many modules.
    pub fn copy_prices(&mut self, other: &Prices) {
        self.count = other.count;
        copy_all(&mut self.modules, &other.modules);
        copy_all(&mut self.lists, &other.lists);
        copy_all(&mut self.weights, &other.weights);
    }

    /// Adds the weight of a list, where it isn't 0. After 256 no more is added.
    pub fn add_list(&mut self, list: usize, weight: u64) {
        if weight > 0 && self.count < LISTS_MOST {
            put_item(&mut self.lists, self.count, list);
            put_item(&mut self.weights, self.count, weight);
            self.count = self.count.saturating_add(1);
        }
    }

    /// The place of the list that was added at a place.
    pub fn list(&self, at: usize) -> usize {
        item_or(&self.lists, at, 0)
    }

    /// The weight of the list that was added at a place.
    pub fn weight(&self, at: usize) -> u64 {
        item_or(&self.weights, at, 0)
    }

    /// Sets the price of a module, at most 10^15: what is above is cut off.
    pub fn set(&mut self, module: usize, price: u64) {
        put_item(&mut self.modules, module, price.min(PRICE_MOST));
    }

    /// The price of a module.
    pub fn price(&self, module: usize) -> u64 {
        item_or(&self.modules, module, 0)
    }

    /// The greatest price of a module, 0 where there is none.
    pub fn greatest(&self) -> u64 {
        let mut most: u64 = 0;
        for module in 0..self.modules.len() {
            most = most.max(self.modules[module]);
        }
        most
    }

    /// How many modules have a price above 0.
    pub fn priced(&self) -> u64 {
        let mut count: u64 = 0;
        for module in 0..self.modules.len() {
            if self.modules[module] > 0 {
                count = count.saturating_add(1);
            }
        }
        count
    }

    /// The prices together.
    pub fn total(&self) -> u128 {
        let mut sum: u128 = 0;
        for module in 0..self.modules.len() {
            sum = sum.saturating_add(u128::from(self.modules[module]));
        }
        sum
    }
}
