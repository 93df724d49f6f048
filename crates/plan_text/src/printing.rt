//! Prints a plan, line by line.
ghost use Rattle.std.specs.Prelude.{◌≡◌, ◌++◌, ◌∷◌, map, OnOk, IfOk};
ghost use Rattle.plan_model.specs.Views.{bus_value, chain_value, wrapper_value, bound_value, why_value, plan_value};
ghost use Rattle.std.specs.List.{flat_map};
ghost use Rattle.plan_text.specs.Tokens.{spelling};
ghost use Rattle.keyword_text.specs.Lines.{spaced_numbers, line_text, text_of};
ghost use Rattle.plan_text.specs.PlanLines.{head_lines, bus_line, mode_key, chain_line, wrapper_line, wrapper_lines};
ghost use Rattle.plan_text.specs.PlanLines.{start_line, reason_key, reason_numbers, bound_line, test_numbers, plan_text};
ghost use Rattle.plan_text.specs.Grammar.{IsInRange};
ghost use Rattle.plan_text.specs.Answers.{SaysPlan};

use keyword_text::{push_listed, push_numbers};
use outside::{NoMemory, extend, push_spaced};
use plan_model::{Bound, Bus, ChainPlan, Plan, Why, Wrapper};
use soc_model::TestId;
use std::alloc::Global;

fn push_bus(to: &mut Vec<u8>, bus: &Bus) -> Result<(), NoMemory>
    ensures { OnOk result
        (to.new.items ≡ to.old.items ++ line_text spelling (bus_line (bus_value bus.now))) }
{
    extend(to, b"Bus")?;
    push_spaced(to, bus.width)?;
    push_listed(to, bus.modules.as_slice())?;
    extend(to, b"\n")
}

fn push_chain(to: &mut Vec<u8>, chain: &ChainPlan) -> Result<(), NoMemory>
    ensures { OnOk result
        (to.new.items ≡ to.old.items ++ line_text spelling (chain_line (chain_value chain.now))) }
{
    extend(to, b"Chain")?;
    push_spaced(to, chain.ins)?;
    push_spaced(to, chain.outs)?;
    push_listed(to, chain.scans.as_slice())?;
    extend(to, b"\n")
}

fn push_start(to: &mut Vec<u8>, test: &TestId, start: u64) -> Result<(), NoMemory>
    ensures { OnOk result
        (to.new.items ≡ to.old.items ++ line_text spelling (start_line (test.now, start))) }
{
    extend(to, b"Start")?;
    push_spaced(to, test.module)?;
    push_spaced(to, test.test)?;
    push_spaced(to, start)?;
    extend(to, b"\n")
}

fn push_mode(to: &mut Vec<u8>, scan: bool) -> Result<(), NoMemory>
    ensures { OnOk result (to.new.items ≡ to.old.items ++ (32 ∷ spelling (mode_key scan))) }
{
    if scan {
        extend(to, b" scan")
    } else {
        extend(to, b" terminals")
    }
}

fn push_wrapper_head(to: &mut Vec<u8>, module: u64, scan: bool) -> Result<(), NoMemory>
    ensures { OnOk result
        (to.new.items ≡ to.old.items ++ line_text spelling (wrapper_line «module» scan)) }
{
    extend(to, b"Wrapper")?;
    push_spaced(to, module)?;
    push_mode(to, scan)?;
    extend(to, b"\n")
}

fn push_chains(to: &mut Vec<u8>, chains: &[ChainPlan]) -> Result<(), NoMemory>
    ensures { OnOk result (to.new.items
        ≡ to.old.items ++ text_of spelling (map chain_line (map chain_value chains.now))) }
{
    for chain in chains {
        push_chain(to, chain)?;
    }
    Ok(())
}

fn push_wrapper(to: &mut Vec<u8>, wrapper: &Wrapper) -> Result<(), NoMemory>
    ensures { OnOk result (to.new.items
        ≡ to.old.items ++ text_of spelling (wrapper_lines (wrapper_value wrapper.now))) }
{
    push_wrapper_head(to, wrapper.module, wrapper.scan)?;
    push_chains(to, wrapper.chains.as_slice())
}

/// The word of a bound's reason, with a space before it.
fn reason_word(why: &Why) -> &'static [u8]
    ensures { result.now ≡ 32 ∷ spelling (reason_key (why_value why.now)) }
{
    match why {
        Why::Module { .. } => b" Module",
        Why::Pair { .. } => b" Pair",
        Why::Chain { .. } => b" Chain",
        Why::Area => b" Area",
        Why::Power => b" Power",
        Why::Forced { .. } => b" Forced",
    }
}

/// The numbers of tests, each with a space before it.
fn push_tests(to: &mut Vec<u8>, tests: &[TestId]) -> Result<(), NoMemory>
    ensures { OnOk result
        (to.new.items ≡ to.old.items ++ spaced_numbers (flat_map test_numbers tests.now)) }
{
    for test in tests {
        push_spaced(to, test.module)?;
        push_spaced(to, test.test)?;
    }
    Ok(())
}

/// The numbers of a bound's reason, each with a space before it.
fn push_reason_numbers(to: &mut Vec<u8>, why: &Why) -> Result<(), NoMemory>
    ensures { OnOk result
        (to.new.items ≡ to.old.items ++ spaced_numbers (reason_numbers (why_value why.now))) }
{
    match why {
        Why::Module { module } | Why::Pair { module } => push_spaced(to, *module),
        Why::Chain { tests } => push_tests(to, tests.as_slice()),
        Why::Area | Why::Power => Ok(()),
        Why::Forced { modules } => push_numbers(to, modules.as_slice()),
    }
}

fn push_bound(to: &mut Vec<u8>, bound: &Bound) -> Result<(), NoMemory>
    ensures { OnOk result
        (to.new.items ≡ to.old.items ++ line_text spelling (bound_line (bound_value bound.now))) }
{
    extend(to, b"Bound")?;
    push_spaced(to, bound.cycles)?;
    extend(to, reason_word(&bound.why))?;
    push_reason_numbers(to, &bound.why)?;
    extend(to, b"\n")
}

fn push_buses(to: &mut Vec<u8>, buses: &[Bus]) -> Result<(), NoMemory>
    ensures { OnOk result
        (to.new.items ≡ to.old.items ++ text_of spelling (map bus_line (map bus_value buses.now))) }
{
    for bus in buses {
        push_bus(to, bus)?;
    }
    Ok(())
}

fn push_wrappers(to: &mut Vec<u8>, wrappers: &[Wrapper]) -> Result<(), NoMemory>
    ensures { OnOk result (to.new.items
        ≡ to.old.items
        ++ text_of spelling (flat_map wrapper_lines (map wrapper_value wrappers.now))) }
{
    for wrapper in wrappers {
        push_wrapper(to, wrapper)?;
    }
    Ok(())
}

fn push_starts(to: &mut Vec<u8>, starts: &[(TestId, u64)]) -> Result<(), NoMemory>
    ensures { OnOk result
        (to.new.items ≡ to.old.items ++ text_of spelling (map start_line starts.now)) }
{
    for start in starts {
        push_start(to, &start.0, start.1)?;
    }
    Ok(())
}

/// The first two lines: the form, and the cycles.
fn push_head(to: &mut Vec<u8>, cycles: u64) -> Result<(), NoMemory>
    ensures { OnOk result (to.new.items ≡ to.old.items ++ text_of spelling (head_lines cycles)) }
{
    extend(to, b"Plan")?;
    push_spaced(to, 1)?;
    extend(to, b"\nCycles")?;
    push_spaced(to, cycles)?;
    extend(to, b"\n")
}

/// The text of a plan. Reading it gives the plan again, where the plan's numbers are in the grammar's range.
pub fn print_plan(alloc: Global, plan: &Plan) -> Result<Vec<u8>, NoMemory>
    ensures text { IfOk result (λ text. text.items ≡ plan_text (plan_value plan.now)) }
    ensures read_again { IfOk result
        (λ text. IsInRange (plan_value plan.now) → SaysPlan text.items (plan_value plan.now)) }
{
    let mut text = Vec::new(alloc);
    push_head(&mut text, plan.cycles)?;
    push_buses(&mut text, plan.buses.as_slice())?;
    push_wrappers(&mut text, plan.wrappers.as_slice())?;
    push_starts(&mut text, plan.starts.as_slice())?;
    push_bound(&mut text, &plan.bound)?;
    Ok(text)
}
