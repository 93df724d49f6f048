//! Plans the tests of a chip: settled buses, the wrappers of the width table at their widths, a list schedule of the tests,
//! and a lower bound (after TR-ARCHITECT, Goel and Marinissen 2002, for fixed buses in place of TestRails).
//!
//! A plan that is answered runs right for every content, and its bound is one. Errors are out of memory alone, for a sound chip
//! and sound limits.
#![tactic(auto)]

mod buses;
mod job;
mod planning;
mod schedule;
mod wiring;
mod wrappers;

pub use job::{JobSource, job_of, job_with};
use outside::NoMemory;
pub use planning::{plan, plan_with};
pub use wrappers::{table_wrappers, width_of};
