//! Orders of the tests of a job, and a search for one whose list schedule ends early: a walk in depth over the orders, within
//! a budget, and exchanges of neighbours. Tests go by their places in the job.
//!
//! What is found is a topological order with the starts of its list schedule in a table of `resource_table`, of the fewest cycles
//! of all where the budget is enough. Times are in cycles. The only error is out of memory.
#![tactic(auto)]

mod ahead;
mod exchanges;
mod lists;
mod order;
mod order_laws;
mod placing;
mod prefix;
mod search;
mod sorted;
mod starts;
mod tries;
mod walk;

pub use ahead::Ahead;
pub use order::first_order;
pub use order_laws::{
    both_ends_are_estimates, complete_searches_agree, orders_take_cycles, walks_are_in_order,
    walks_are_short, walks_have_all_orders,
};
pub use search::{Found, Search};
