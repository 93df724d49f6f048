//! Packed times: what the live tests of a chip take at least, where no wrapper chain can have a part of a scan chain.
//!
//! They are at most a test's cycles in every proper wrapper of `plan_model` on as many wires, and never grow with the width.
//! Times are in cycles, widths in wires. The only error is out of memory.
#![tactic(auto)]

mod exclusion_laws;
mod exclusion_rows;
mod facts;
mod floods;
mod lengths;
mod powers;
mod table;
mod time_laws;
mod times;

pub use exclusion_laws::{exclusions_are_decided, exclusions_hold, least_powers_are_drawn};
pub use exclusion_rows::ExclusionRows;
pub use floods::{tests_after, tests_before};
pub use lengths::sorted_lengths;
pub use powers::least_power;
pub use table::PackedTimes;
pub use time_laws::{packed_times_are_least, planned_tests_are_packed};
