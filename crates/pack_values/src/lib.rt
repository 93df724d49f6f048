//! What prices of modules are worth exactly on the buses of a case: the most on each rank and width, and on all buses together.
//!
//! Times are in cycles, widths in wires; modules and lists go by their places, buses by their ranks, the widest first.
//!
//! A case is a set of plain tables (`cases`). Its ranges are the known ranks and the rest; ranges whose buses are worth the same at each
//! width are a group (`groups`). The widths of a group are taken upward: modules whose times fall are looked at again (`offers`), and
//! where none becomes another offer, nothing is worked out anew. A knapsack is cut down first: items that are taken in turn say what is
//! reached, a charge for each cell says what can be, and so most items are in each best set or in none (`greedy`). For those that are
//! left open a row of cells is filled, at the numbers of cells that can still matter (`knapsack`). Sets that are worth more than
//! those of fewer wires are kept (`sets`), and a row of wires adds up what all buses are worth (`wires`).
//!
//! No clause promises anything of all this but that it is safe and ends.
#![tactic(auto)]

mod cases;
mod greedy;
mod groups;
mod knapsack;
mod leaf;
mod offers;
mod prices;
mod room;
mod sets;
mod terms;
mod uses;
mod wires;

pub use cases::{PackCase, REST};
pub use leaf::leaf_work;
pub use prices::Prices;
pub use room::PackRoom;
pub use uses::Uses;
