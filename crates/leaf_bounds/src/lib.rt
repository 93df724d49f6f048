//! What the leaves of a proof of a lower bound show: whether a leaf keeps its rule in its case and holds, and the cycles that it
//! shows where it doesn't.
//!
//! A case says how wide the bus of each rank may be, and on which buses each module may be. Ranks are counted from 0, the widest
//! bus first; modules go by their places, which the numbers that a leaf names are looked up for. Widths are in wires, claims and
//! times in cycles, powers in the unit of the limits.
#![tactic(auto)]

mod basis;
mod case;
mod laws;
mod leaf;
mod leaf_costs;
mod leaf_slots;
mod leaf_sums;
mod list_rules;
mod list_table;
mod lists;
mod pack;
mod pack_buses;
mod pack_room;
mod pack_rules;
mod places;
mod ranks;
mod test_table;
mod twins;
mod widths;

pub use basis::{Basis, wired_place};
pub use case::{CaseRoom, Mark};
pub use laws::wider_slots_cost_no_less;
pub use leaf::{LeafAnswer, LeafRoom, check_leaf};
pub use leaf_costs::{BesideUse, USES_MOST, Weighed};
pub use list_table::{ListTable, Role};
pub use pack::check_pack;
pub use pack_room::{BusRoom, KeptWorths, PackRoom};
pub use ranks::Ranks;
pub use test_table::{TestPlace, TestTable};
pub use twins::are_alike;
pub use widths::{Interval, IntervalChange, Widths, interval_at, known_ranks};
