//! What is answered of a chip alone.
ghost use Rattle.std.specs.Prelude.{◌≡◌, ◌≤◌};
ghost use Rattle.plan_model.specs.declared.TheConstants.{WIRES_MOST};
ghost use Rattle.commands.specs.Decides.{Follows};
ghost use Rattle.commands.specs.Loads.{LoadsGive};
ghost use Rattle.plan_commands.specs.Procedures.{print_procedure, widths_procedure};

use crate::widths::widths_text;
use commands::{Status, Verdict, answered_with, load_chip};
use outside::Shelf;
use soc_printer::print_soc;
use std::alloc::Global;

/// `print SOC`: the chip's text.
pub fn decide_print<H: Shelf>(alloc: Global, soc: &str, shelf: &mut H) -> Verdict
    ensures held_stays { H.held shelf.new ≡ H.held shelf.old }
    ensures faults_never_fall { H.faults shelf.old ≤ H.faults shelf.new }
    ensures follows { Follows (print_procedure soc.now) (H.held shelf.old) (H.faults shelf.old)
        (H.faults shelf.new) result }
    ensures by_loads { LoadsGive H.is_load (print_procedure soc.now) shelf.old result shelf.new }
{
    match load_chip(alloc, soc, shelf) {
        Ok(chip) => answered_with(Status::Done, print_soc(alloc, &chip)),
        Err(verdict) => verdict,
    }
}

/// `widths SOC WIRES`: the cycles of each module's tests over the wires, at each width.
pub fn decide_widths<H: Shelf>(alloc: Global, soc: &str, wires: u64, shelf: &mut H) -> Verdict
    requires some { 1 ≤ wires }
    requires few { wires ≤ WIRES_MOST }
    ensures held_stays { H.held shelf.new ≡ H.held shelf.old }
    ensures faults_never_fall { H.faults shelf.old ≤ H.faults shelf.new }
    ensures follows { Follows (widths_procedure soc.now wires) (H.held shelf.old)
        (H.faults shelf.old) (H.faults shelf.new) result }
    ensures by_loads { LoadsGive H.is_load (widths_procedure soc.now wires) shelf.old result
        shelf.new }
{
    match load_chip(alloc, soc, shelf) {
        Ok(chip) => answered_with(Status::Done, widths_text(alloc, &chip, wires)),
        Err(verdict) => verdict,
    }
}
