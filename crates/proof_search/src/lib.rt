//! Searches for a proof by cases on buses that no good plan of a chip ends before a claim. The weakest case is divided next; a
//! case's weights come of a small game of its resources against choices of slots, and each is valued exactly.
//!
//! The search owes nothing of what it finds: whoever prints the proof has it checked. Times are in cycles, widths in wires;
//! modules, tests, lists and nodes go by their places, buses by their ranks, the widest first.
//!
//! `case_tree` keeps the cases, and `queue` the one that shows least: it is divided by the width of a rank's bus, known or new, else by
//! the place of a module (`divisions`). `weighing` finds what a case is worth. It begins with the weights of the case that was divided
//! (`divided`) and plays the game of `case_game`; the lists that the best mix of the cuts passes, which `list_search` finds, become
//! resources, and the game goes on.
//!
//! A search may look for leaves Pack too (`packs`): before the weakest case is divided, whole prices are looked for that hold at a greater
//! claim in it (`pack_search`). What is found, and what the attempt left (`warms`), goes to the branches of the case.
//!
//! No clause promises anything of all this but that it is safe and ends. So tables are read by `item_or` and written by `put_item`, sums
//! stop at the limits of their types, each search is over after a fixed number of steps, and all memory is taken as the search begins.
#![tactic(auto)]

mod divided;
mod divisions;
mod filling;
mod packs;
mod queue;
mod search;
mod starting;
mod uses;
mod warms;
mod weighing;

pub use filling::{set_times, take_modules, take_ranks};
pub use search::Search;
pub use starting::write_start;
pub use uses::ListUses;
