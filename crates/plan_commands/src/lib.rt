//! The commands that make, check and tell plans: a chip as text and its times over wires, a plan, a chip cut into parts or made from a
//! seed and planned, and what is read off a plan that is accepted. Each takes its files, and decides its answer before anything is
//! written.
#![tactic(auto)]

mod accepted_plans;
mod chips;
mod fails;
mod laws;
mod logs;
mod planning;
mod programs;
mod reporting;
mod samples;
mod splitting;
mod widths;

pub use accepted_plans::{decide_chart, decide_check};
pub use chips::{decide_print, decide_widths};
pub use laws::plans_are_told_right;
pub use logs::decide_locate;
pub use planning::decide_plan;
pub use programs::decide_shift;
pub use reporting::decide_report;
pub use samples::decide_sample;
pub use splitting::decide_split;
