//! Better plans: from a plan that is accepted to one of at most its cycles, for the same chip and limits. A search over
//! architectures finds it, and the plan that comes of it is answered only where it is accepted and ends earlier. The command `improve`
//! is decided here, before anything is written.
#![tactic(auto)]

mod candidate;
mod deciding;
mod improving;
mod laws;
mod progress;

pub use deciding::{Drawing, decide_improve};
pub use improving::improved;
