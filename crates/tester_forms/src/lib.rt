//! The pieces that texts with a part for each cycle have in common: names of the signals of controls, and bytes and letters that are put
//! into a text of a fixed length.
#![tactic(auto)]

mod form_names;
mod pieces;
mod stil_head;
mod stil_vector;
mod vcd_changes;
mod vcd_code;
mod vcd_definitions;
mod vcd_form;
mod vcd_laws;
mod vcd_lines;
mod verilog_chip;
mod verilog_form;
mod verilog_head;
mod verilog_pushes;
mod verilog_task;

pub use form_names::push_signal;
pub use pieces::{Letters, put_letters, put_piece};
pub use stil_vector::StilForm;
pub use vcd_form::VcdForm;
pub use vcd_laws::{controls_have_their_names, values_are_of_rows};
pub use verilog_form::VerilogForm;
