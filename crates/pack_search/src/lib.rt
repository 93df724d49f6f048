//! Searches for whole prices of modules, with weights of lists, by which a case of a proof has no plan below a claim: modules that fit
//! together on buses are worth less than all prices.
//!
//! Times and claims are in cycles, widths in wires; modules and lists go by their places, buses by their ranks. Work is counted in
//! cells of knapsacks, and in numbers of the programme that pivots go over.
//!
//! For one claim (`attempts`) a linear programme looks for the greatest prices, as parts of a whole, that keep a row for each known
//! set of modules: what the set is worth on its bus (`rows`). It begins with few sets (`first_rows`). Each round (`rounds`) asks which
//! sets are worth most at the programme's prices, and half way to the best prices so far, the center; those that break their rows
//! most become rows (`worst`). All prices are valued exactly, as whole numbers (`whole`). Where modules that fit are then worth less
//! than all, the claim holds. A search (`packing`) tries some claims, and finds of each attempt the greatest claim at which its prices hold
//! (`claims`). What an attempt leaves to those after it stands in a `Warm`.
//!
//! No clause promises anything of all this but that it is safe and ends. Who names a claim has the leaf checked.
#![tactic(auto)]

mod asked;
mod attempts;
mod claims;
mod first_rows;
mod known_sets;
mod layout;
mod listing;
mod module_set;
mod packing;
mod points;
mod rounds;
mod rows;
mod scheme;
mod spans;
mod warm;
mod whole;
mod worst;

pub use asked::{Asked, Found};
pub use claims::PackLeaf;
pub use packing::PackSearch;
pub use warm::Warm;
