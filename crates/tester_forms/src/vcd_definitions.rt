//! The definitions of a dump: its variables in their scopes, each with its code.
ghost use Rattle.std.specs.Prelude.{◌≡◌, ℕ, ◌+◌, ◌*◌, ◌^◌, ◌<◌, ◌≤◌, ◌++◌, ◌∷◌, [], true, List, codes, decimal, length, map, sum, OnOk, IfOk};
ghost use Rattle.std.specs.List.{filter, list_any};
ghost use Rattle.soc_model.specs.Chips.{is_live, module_value, soc_value};
ghost use Rattle.soc_model.specs.Modes.{has_tam};
ghost use Rattle.plan_model.specs.Rules.{live_ids};
ghost use Rattle.plan_model.specs.Plans.{widths};
ghost use Rattle.plan_model.specs.Views.{bus_value, plan_value};
ghost use Rattle.controls.specs.Controls.{tam_numbers};
ghost use Rattle.tester_forms.specs.Dumps.{dump_head, scope_line, scope_lines, variable_line, variable_lines};
ghost use Rattle.tester_forms.specs.Forms.{control_sources, form_sources};
ghost use Rattle.tester_forms.specs.Listings.{AreListed, IsListed, number_of};
ghost use Rattle.tester_forms.specs.Variables.{OfControl, bus_scope, bus_scopes, live_of_module, module_scopes, one_if, run_name, run_variable, run_variables, scope_of_module, scopes_of, sources_of, wire_variables, wired_variables};

use controls::{controls_of, tam_modules};
use outside::{NoMemory, extend, push, push_number};
use plan_model::{Bus, Plan};
use soc_model::{Module, Soc, Test, has_tam_test, live};
use std::alloc::Global;

/// The end of a line that defines something.
const END: &[u8] = b" $end\n";

/// The line that ends a scope.
const UP: &[u8] = b"$upscope $end\n";

/// Appends a word and a number.
fn push_numbered(text: &mut Vec<u8>, word: &[u8], number: u128) -> Result<(), NoMemory>
    ensures { OnOk result (text.new.items ≡ text.old.items ++ (word.now ++ decimal number)) }
{
    extend(text, word)?;
    push_number(text, number)
}

/// Appends the line that begins a scope, whose name is a word with a number.
fn push_scope(text: &mut Vec<u8>, word: &[u8], number: u128) -> Result<(), NoMemory>
    ensures { OnOk result
        (text.new.items ≡ text.old.items ++ scope_line (word.now ++ decimal number)) }
{
    extend(text, b"$scope module ")?;
    push_numbered(text, word, number)?;
    extend(text, END)
}

/// Appends the front of the line of a variable, up to its name.
fn push_code(text: &mut Vec<u8>, number: u128) -> Result<(), NoMemory>
    ensures { OnOk result (text.new.items
        ≡ text.old.items ++ (codes "$var wire 1 s" ++ (decimal number ++ codes " "))) }
{
    push_numbered(text, b"$var wire 1 s", number)?;
    extend(text, b" ")
}

/// Appends the line of the variable of a number, whose name is a word with a number.
fn push_variable(text: &mut Vec<u8>, number: u128, word: &[u8], last: u128) -> Result<(), NoMemory>
    ensures { OnOk result
        (text.new.items ≡ text.old.items ++ variable_line number (word.now ++ decimal last)) }
{
    push_code(text, number)?;
    push_numbered(text, word, last)?;
    extend(text, END)
}

/// Appends the line of the variable that says whether a test is active.
fn push_run_line(text: &mut Vec<u8>, number: u128, module: u64, test: u64) -> Result<(), NoMemory>
    ensures { OnOk result
        (text.new.items ≡ text.old.items ++ variable_line number (run_name «module» test)) }
{
    push_code(text, number)?;
    push_numbered(text, b"run_", u128::from(module))?;
    push_numbered(text, b"_", u128::from(test))?;
    extend(text, END)
}

// ---- wires

/// Appends the lines of the variables of a wire.
fn push_wire(text: &mut Vec<u8>, wire: u64) -> Result<(), NoMemory>
    ensures { OnOk result
        (text.new.items ≡ text.old.items ++ variable_lines (2 * wire) (wire_variables wire)) }
{
    let wire = u128::from(wire);
    push_variable(text, 2 * wire, b"wi_", wire)?;
    push_variable(text, 2 * wire + 1, b"wo_", wire)
}

/// Appends the scope of a bus at a place, with the wires from `first` on.
fn push_bus(text: &mut Vec<u8>, place: usize, first: u64, width: u64) -> Result<(), NoMemory>
    requires { first + width < 2 ^ 64 }
    ensures { OnOk result (text.new.items
        ≡ text.old.items ++ scope_lines (2 * first) (bus_scope place first width ∷ [])) }
{
    push_scope(text, b"bus_", place as u128)?;
    for wire in first..first + width {
        push_wire(text, wire)?;
    }
    extend(text, UP)
}

/// Appends the scopes of all buses.
pub fn push_buses(text: &mut Vec<u8>, buses: &[Bus]) -> Result<(), NoMemory>
    requires { sum (map (λ (b : Bus). b.width) buses.now) < 2 ^ 64 }
    ensures { OnOk result (text.new.items
        ≡ text.old.items ++ scope_lines 0 (bus_scopes 0 0 (map bus_value buses.now))) }
{
    let mut first = 0;
    for place in 0..buses.len() {
        let width = buses[place].width;
        push_bus(text, place, first, width)?;
        first += width;
    }
    Ok(())
}

// ---- controls

/// Definitions under way, and the controls whose variables they have so far.
#[derive(Drop)]
pub struct Listing {
    /// The text so far.
    pub text: Vec<u8>,
    /// The number of the first variable of a control.
    pub first: usize,
    /// For each of these variables the place of its control in the list of all controls.
    pub places: Vec<usize>,
}

/// Where the controls of modules are in the list of all controls.
#[derive(Clone, Copy, Drop)]
pub struct Places {
    /// The place of the control of the next live test.
    pub run: usize,
    /// The place of the Shifts of the next module that has any.
    pub shift: usize,
    /// How many modules have any: a module's Captures are so many places behind its Shifts.
    pub wired: usize,
}

/// Whether a module has a live test.
fn has_live_test(module: &Module) -> bool
    ensures { result ≡ list_any is_live «module».now.tests.items }
{
    module.tests.iter().any(|test| live(test))
}

impl Listing {
    /// The number of the next variable.
    fn number(&self) -> u128
        ensures { result ≡ number_of self.now }
    {
        self.first as u128 + self.places.len() as u128
    }

    /// Adds the variable that says whether a test is active.
    fn push_run(&mut self, module: u64, test: u64, place: usize) -> Result<(), NoMemory>
        ensures { OnOk result (IsListed self.old self.new (run_variable «module» test place ∷ [])) }
    {
        let number = self.number();
        push_run_line(&mut self.text, number, module, test)?;
        push(&mut self.places, place)
    }

    /// Adds such a variable for each live test of these.
    fn push_runs(&mut self, module: u64, tests: &[Test], run: usize) -> Result<usize, NoMemory>
        requires { run + length (filter is_live tests.now) < 2 ^ 64 }
        ensures listed { OnOk result
            (IsListed self.old self.new (run_variables «module» run (filter is_live tests.now))) }
        ensures next { IfOk result (λ next. next ≡ run + length (filter is_live tests.now)) }
    {
        let mut place = run;
        for test in tests {
            if live(test) {
                self.push_run(module, test.number, place)?;
                place += 1;
            }
        }
        Ok(place)
    }

    /// Adds the variable of a control of a module.
    fn push_control(&mut self, word: &[u8], module: u64, place: usize) -> Result<(), NoMemory>
        ensures { OnOk result (IsListed self.old self.new
            (record { name = word.now ++ decimal «module»; source = OfControl place } ∷ [])) }
    {
        let number = self.number();
        push_variable(&mut self.text, number, word, module as u128)?;
        push(&mut self.places, place)
    }

    /// Adds the variables of the Shifts and the Captures of a module.
    fn push_wired(&mut self, module: u64, shift: usize, capture: usize) -> Result<(), NoMemory>
        ensures { OnOk result
            (IsListed self.old self.new (wired_variables «module» shift capture true)) }
    {
        self.push_control(b"shift_", module, shift)?;
        self.push_control(b"capture_", module, capture)
    }

    /// Adds these where a module has any.
    fn push_any_wired(&mut self, module: &Module, at: Places) -> Result<usize, NoMemory>
        requires { at.shift + at.wired < 2 ^ 63 }
        ensures listed { OnOk result
            (IsListed self.old self.new (wired_variables «module».now.number at.shift
            (at.shift + at.wired) (has_tam (module_value «module».now)))) }
        ensures next { IfOk result
            (λ next. next ≡ at.shift + one_if (has_tam (module_value «module».now))) }
    {
        if !has_tam_test(module) {
            return Ok(at.shift);
        }
        self.push_wired(module.number, at.shift, at.shift + at.wired)?;
        Ok(at.shift + 1)
    }

    /// Adds the scope of a module, where it has a live test, and answers the places of the next one.
    fn push_module(&mut self, module: &Module, at: Places) -> Result<Places, NoMemory>
        requires runs { at.run + length (live_of_module (module_value «module».now)) < 2 ^ 63 }
        requires shifts { at.shift + at.wired < 2 ^ 63 }
        ensures listed { OnOk result (AreListed self.old self.new
            (scope_of_module (at.run) (at.shift) (at.wired) (module_value «module».now))) }
        ensures run { IfOk result
            (λ next. next.run ≡ at.run + length (live_of_module (module_value «module».now))) }
        ensures shift { IfOk result
            (λ next. next.shift ≡ at.shift + one_if (has_tam (module_value «module».now))) }
        ensures wired { IfOk result (λ next. next.wired ≡ at.wired) }
    {
        if !has_live_test(module) {
            return Ok(at);
        }
        push_scope(&mut self.text, b"module_", module.number as u128)?;
        let run = self.push_runs(module.number, &module.tests, at.run)?;
        let shift = self.push_any_wired(module, at)?;
        extend(&mut self.text, UP)?;
        Ok(Places {
            run,
            shift,
            wired: at.wired,
        })
    }

    /// Adds the scopes of all modules.
    pub fn push_modules(&mut self, soc: &Soc, runs: usize, wired: usize) -> Result<(), NoMemory>
        requires runs { runs ≡ length (live_ids (soc_value soc.now)) }
        requires wired { wired ≡ length (tam_numbers (soc_value soc.now)) }
        requires few { runs + (wired + wired) < 2 ^ 63 }
        ensures { OnOk result
            (AreListed self.old self.new (module_scopes wired 0 runs (soc_value soc.now).modules)) }
    {
        let mut at = Places {
            run: 0,
            shift: runs,
            wired,
        };
        for module in soc.modules.values() {
            at = self.push_module(module, at)?;
        }
        Ok(())
    }
}

// ---- all

/// How many live tests a chip has, and how many modules with a live test over the wires.
#[derive(Clone, Copy, Drop)]
pub struct Counts {
    pub runs: usize,
    pub wired: usize,
}

/// These of a chip. Its controls are one for each live test and two for each of these modules.
pub fn counts_of(alloc: Global, soc: &Soc) -> Result<Counts, NoMemory>
    ensures runs { IfOk result (λ counts. counts.runs ≡ length (live_ids (soc_value soc.now))) }
    ensures wired { IfOk result
        (λ counts. counts.wired ≡ length (tam_numbers (soc_value soc.now))) }
{
    let modules = tam_modules(alloc, soc)?;
    let controls = controls_of(alloc, soc)?;
    let wired = modules.len();
    Ok(Counts {
        runs: controls.len() - 2 * wired,
        wired,
    })
}

/// The definitions of a plan, with the places of the controls whose variables they have.
pub fn definitions_of(
    alloc: Global,
    soc: &Soc,
    plan: &Plan,
    counts: Counts,
    wires: usize,
) -> Result<Listing, NoMemory>
    requires runs { counts.runs ≡ length (live_ids (soc_value soc.now)) }
    requires wired { counts.wired ≡ length (tam_numbers (soc_value soc.now)) }
    requires few { counts.runs + (counts.wired + counts.wired) < 2 ^ 63 }
    requires wires { wires ≡ sum (widths (plan_value plan.now)) }
    requires narrow { wires ≤ 256 }
    ensures text { IfOk result
        (λ listing. listing.text.items ≡ dump_head (soc_value soc.now) (plan_value plan.now)) }
    ensures sources { IfOk result (λ listing. form_sources wires listing.places.items
        ≡ sources_of (scopes_of (soc_value soc.now) (plan_value plan.now))) }
    ensures controls { IfOk result (λ listing. control_sources listing.places.items
        ≡ sources_of (module_scopes counts.wired 0 counts.runs (soc_value soc.now).modules)) }
{
    let mut text = Vec::new(alloc);
    extend(&mut text, b"$timescale 10 ns $end\n")?;
    extend(&mut text, b"$scope module soc $end\n")?;
    push_buses(&mut text, &plan.buses)?;
    let places = Vec::new(alloc);
    let mut listing = Listing {
        text,
        first: 2 * wires,
        places,
    };
    listing.push_modules(soc, counts.runs, counts.wired)?;
    extend(&mut listing.text, UP)?;
    extend(&mut listing.text, b"$enddefinitions $end\n")?;
    Ok(listing)
}
