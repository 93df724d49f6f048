//! The times at which buses and modules are busy, and the least start at which a test meets none of them.
//!
//! Times are in cycles; buses and modules go by their places. Only [`new_latest_ends`] takes memory.
#![tactic(auto)]

mod crowds;
mod latest_ends;
mod marks;
mod points;
mod power;
mod profile;
mod spares;
mod timelines;

pub use crowds::calm_end;
pub use latest_ends::{LatestEnds, new_latest_ends};
pub use points::{Point, drop_last_unused};
pub use power::{Draw, after_power, are_low, push_draws};
pub use profile::{add_drawn, take_drawn};
pub use timelines::{
    BusyPlaces, Span, Timeline, Timelines, add_time, after_busy, clear_times, remove_time,
};
