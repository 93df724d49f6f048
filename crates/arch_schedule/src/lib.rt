//! The schedule that comes of buses and an order: the tests of a chip with their cycles on each width, the buses that they go over,
//! and a start for each test, the least one at which it fits. The cycles of a test are those in packed wrappers.
//!
//! Whether an order can be scheduled is found out as its tests are placed. Times are in cycles, widths in wires; modules, tests
//! and buses go by their places.
#![tactic(auto)]

mod buses;
mod chains;
mod changes;
mod dealing;
mod draws;
mod kinds;
mod moves;
mod pairs;
mod problem;
mod repair;
mod room;
mod scheduling;
mod sorting;
mod splits;
mod times;

pub use buses::Buses;
pub use chains::{draw_too_much, set_chains};
pub use changes::change_buses;
pub use dealing::{DEALT_MOST, DealtModule};
pub use draws::Draws;
pub use problem::{TestTimes, TimedTests};
pub use repair::fits;
pub use room::{ScheduleRoom, zeros};
pub use scheduling::{assign_buses, late_bus, place_order};
pub use sorting::{Keyed, sorted_by};
pub use times::{Column, ModuleCycles, Ranking, Times, times_of};
