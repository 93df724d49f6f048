//! One module in its wrapper, stepped by itself.
ghost use Rattle.std.specs.Prelude.{◌≡◌, ◌+◌, ◌≤◌, ◌^◌, true, length, map, sum_by, IfOk};
ghost use Rattle.std.specs.List.{sum};
ghost use Rattle.soc_model.specs.Chips.{module_value};
ghost use Rattle.plan_model.specs.Cells.{IsProper, out_length};
ghost use Rattle.plan_model.specs.Listing.{module_size};
ghost use Rattle.plan_model.specs.Views.{chain_value};

use bit_machine::Session;
use outside::{NoMemory, push};
use plan_model::Wrapper;
use soc_model::Module;
use std::alloc::Global;

/// The bits of a response of the module, whose scan chains and output cells are read.
fn response_bits(module: &Module) -> u64
    requires { module_size (module_value «module».now) ≤ 10 ^ 18 }
    ensures { result
        ≡ sum «module».now.chains.items + («module».now.outputs + «module».now.bidirs) }
{
    let flops: u64 = module.chains.iter().sum();
    flops + (module.outputs + module.bidirs)
}

/// A session with the number of its chains and the bits of a response.
fn new_session(
    alloc: Global,
    module: &Module,
    wrapper: &Wrapper,
) -> Result<(Session, usize, usize), NoMemory>
    requires small { module_size (module_value «module».now) ≤ 10 ^ 18 }
    requires scan { wrapper.now.scan ≡ true }
    requires proper { IsProper (module_value «module».now) wrapper.now.scan
        (map chain_value wrapper.now.chains.items) }
    ensures chains { IfOk result (λ r. r.1 ≡ length r.0.cells) }
    ensures bits { IfOk result (λ r. r.2 ≡ sum_by out_length r.0.cells) }
{
    let session = Session::new(alloc, module, wrapper)?;
    Ok((
        session,
        wrapper.chains.len(),
        response_bits(module) as usize,
    ))
}

/// The bits of a text of `0` and `1`.
fn bits_of(alloc: Global, text: &str) -> Result<Vec<bool>, NoMemory> {
    let mut bits = Vec::new(alloc);
    for digit in text.as_bytes() {
        push(&mut bits, *digit == b'1')?;
    }
    Ok(bits)
}

/// One cycle of capturing a response of the module. A response of another length isn't taken.
fn run_capture(
    alloc: Global,
    session: &mut Session,
    reads: usize,
    response: &str,
) -> Result<(), NoMemory>
    requires { reads ≡ sum_by out_length session.old.cells }
    ensures { session.new.cells ≡ session.old.cells }
{
    let bits = bits_of(alloc, response)?;
    if bits.len() == reads {
        session.capture(&bits);
    }
    Ok(())
}

/// One cycle of shifting, whose bits, one for each chain, are driven; those that are read are appended. Bits for another
/// number of chains aren't taken.
fn run_shift(
    alloc: Global,
    session: &mut Session,
    chains: usize,
    drive: &str,
    answer: &mut Vec<u8>,
) -> Result<(), NoMemory>
    requires { chains ≡ length session.old.cells }
    ensures { session.new.cells ≡ session.old.cells }
{
    let drive = bits_of(alloc, drive)?;
    let mut read = bits_of(alloc, "")?;
    for _ in 0..chains {
        push(&mut read, false)?;
    }
    if drive.len() == chains && read.len() == chains {
        session.shift(&drive, &mut read);
    }
    if !answer.is_empty() {
        push(answer, b' ')?;
    }
    for bit in &read {
        push(answer, if *bit { b'1' } else { b'0' })?;
    }
    Ok(())
}

/// Goes by steps: `=` and the bits of a response that is captured, or the bits that are driven in one cycle of shifting, one
/// for each chain. Answers the bits that are read in each such cycle.
pub fn steps_of_session(
    alloc: Global,
    module: &Module,
    wrapper: &Wrapper,
    steps: &str,
) -> Result<Vec<u8>, NoMemory>
    requires small { module_size (module_value «module».now) ≤ 10 ^ 18 }
    requires scan { wrapper.now.scan ≡ true }
    requires proper { IsProper (module_value «module».now) wrapper.now.scan
        (map chain_value wrapper.now.chains.items) }
{
    let (mut session, chains, reads) = new_session(alloc, module, wrapper)?;
    let mut answer = Vec::new(alloc);
    for step in steps.split_whitespace() {
        match step.strip_prefix('=') {
            Some(response) => run_capture(alloc, &mut session, reads, response)?,
            None => run_shift(alloc, &mut session, chains, step, &mut answer)?,
        }
    }
    Ok(answer)
}
