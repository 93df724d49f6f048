//! Reads the words of a plan one by one.
ghost use Rattle.std.specs.Prelude.{◌≡◌, ◌++◌, ◌∷◌, [], Ok, OnOk, OnErr, option_map};
ghost use Rattle.plan_model.specs.Views.{bus_value, wrapper_value, chain_value, bound_value};
ghost use Rattle.plan_text.specs.PartValues.{draft_value, part_value, Begins, Steps};
ghost use Rattle.plan_text.specs.Steps.{with_bus, with_wrapper, with_start, with_chain, with_module, with_scan, at, start as state_at_first, step_number as steps_number, step_key as steps_key, step_wrapper as steps_wrapper, step as steps, begin as begins, begin_mode as begins_mode, begin_reason as begins_reason, begin_plan as begins_plan, begin_cycles as begins_cycles, is_chain as chains, bound_at as bound_there, in_bus, in_tests, wants_form, wants_start};

use crate::parts::{Draft, Part, Section};
use crate::tokens::Keyword;
use keyword_text::Token;
use outside::Stop;
use plan_model::{Bound, Bus, ChainPlan, START_MOST, Why, Wrapper};
use soc_model::TestId;
use std::alloc::Global;
use std::mem::replace;

/// A draft of which nothing was read.
pub fn new_draft(alloc: Global) -> Draft
    ensures { at (draft_value result) (part_value Part.WantsPlan) ≡ state_at_first }
{
    Draft {
        cycles: 0,
        buses: Vec::new(alloc),
        wrappers: Vec::new(alloc),
        starts: Vec::new(alloc),
    }
}

fn push_bus(draft: &mut Draft, bus: Bus) -> Result<(), Stop>
    ensures ok { OnOk result
        (draft_value draft.new ≡ with_bus (draft_value draft.old) (bus_value bus)) }
    ensures err { OnErr result (result ≡ Err Stop.NoMemory) }
{
    draft.buses.push(bus)?;
    Ok(())
}

fn push_wrapper(draft: &mut Draft, wrapper: Wrapper) -> Result<(), Stop>
    ensures ok { OnOk result
        (draft_value draft.new ≡ with_wrapper (draft_value draft.old) (wrapper_value wrapper)) }
    ensures err { OnErr result (result ≡ Err Stop.NoMemory) }
{
    draft.wrappers.push(wrapper)?;
    Ok(())
}

fn push_start(draft: &mut Draft, test: TestId, start: u64) -> Result<(), Stop>
    ensures ok { OnOk result
        (draft_value draft.new ≡ with_start (draft_value draft.old) test start) }
    ensures err { OnErr result (result ≡ Err Stop.NoMemory) }
{
    draft.starts.push((test, start))?;
    Ok(())
}

fn push_chain(wrapper: &mut Wrapper, chain: ChainPlan) -> Result<(), Stop>
    ensures ok { OnOk result
        (wrapper_value wrapper.new ≡ with_chain (wrapper_value wrapper.old) (chain_value chain)) }
    ensures err { OnErr result (result ≡ Err Stop.NoMemory) }
{
    wrapper.chains.push(chain)?;
    Ok(())
}

fn push_module(bus: &mut Bus, module: u64) -> Result<(), Stop>
    ensures ok { OnOk result (bus_value bus.new ≡ with_module (bus_value bus.old) «module») }
    ensures err { OnErr result (result ≡ Err Stop.NoMemory) }
{
    bus.modules.push(module)?;
    Ok(())
}

fn push_scan(chain: &mut ChainPlan, scan: u64) -> Result<(), Stop>
    ensures ok { OnOk result (chain_value chain.new ≡ with_scan (chain_value chain.old) scan) }
    ensures err { OnErr result (result ≡ Err Stop.NoMemory) }
{
    chain.scans.push(scan)?;
    Ok(())
}

fn push_forced(modules: &mut Vec<u64>, module: u64) -> Result<(), Stop>
    ensures ok { OnOk result (modules.new.items ≡ modules.old.items ++ «module» ∷ []) }
    ensures err { OnErr result (result ≡ Err Stop.NoMemory) }
{
    modules.push(module)?;
    Ok(())
}

/// What a keyword begins, where a section is not over.
fn begin_part(part: &mut Part, key: Keyword, section: Section) -> Result<(), Stop>
    ensures { Begins (begins key section) result part.new }
{
    *part = match (key, section) {
        (Keyword::Bus, Section::Buses) => Part::WantsWidth,
        (Keyword::Wrapper, Section::Buses | Section::Wrappers) => Part::WantsModule,
        (Keyword::Start, _) => Part::WantsTestModule,
        (Keyword::Bound, _) => Part::WantsBound,
        _ => return Err(Stop::Refused),
    };
    Ok(())
}

/// A wrapper in the mode of its keyword, without chains yet.
fn begin_mode(alloc: Global, part: &mut Part, key: Keyword, module: u64) -> Result<(), Stop>
    ensures { Begins (begins_mode key «module») result part.new }
{
    let scan = match key {
        Keyword::Scan => true,
        Keyword::Terminals => false,
        _ => return Err(Stop::Refused),
    };
    *part = Part::InWrapper(Wrapper {
        module,
        scan,
        chains: Vec::new(alloc),
    });
    Ok(())
}

/// A bound for the reason of its keyword.
fn begin_reason(alloc: Global, part: &mut Part, key: Keyword, cycles: u64) -> Result<(), Stop>
    ensures { Begins (begins_reason key cycles) result part.new }
{
    *part = match key {
        Keyword::Module => Part::WantsBoundModule { cycles },
        Keyword::Pair => Part::WantsPairModule { cycles },
        Keyword::Chain => Part::InTests {
            cycles,
            tests: Vec::new(alloc),
        },
        Keyword::Area => Part::Whole(Bound {
            cycles,
            why: Why::Area,
        }),
        Keyword::Power => Part::Whole(Bound {
            cycles,
            why: Why::Power,
        }),
        Keyword::Forced => Part::InForced {
            cycles,
            modules: Vec::new(alloc),
        },
        _ => return Err(Stop::Refused),
    };
    Ok(())
}

fn begin_plan(part: &mut Part, key: Keyword) -> Result<(), Stop>
    ensures { Begins (begins_plan key) result part.new }
{
    *part = match key {
        Keyword::Plan => Part::WantsForm,
        _ => return Err(Stop::Refused),
    };
    Ok(())
}

fn begin_cycles(part: &mut Part, key: Keyword) -> Result<(), Stop>
    ensures { Begins (begins_cycles key) result part.new }
{
    *part = match key {
        Keyword::Cycles => Part::WantsCycles,
        _ => return Err(Stop::Refused),
    };
    Ok(())
}

fn is_chain(key: Keyword) -> bool
    ensures { result ≡ chains key }
{
    matches!(key, Keyword::Chain)
}

/// A keyword after a wrapper that may go on.
fn step_wrapper(
    draft: &mut Draft,
    part: &mut Part,
    wrapper: Wrapper,
    key: Keyword,
) -> Result<(), Stop>
    ensures { Steps (steps_wrapper (draft_value draft.old) (wrapper_value wrapper) key (chains key))
        result part.new draft.new }
{
    if is_chain(key) {
        *part = Part::WantsIns(wrapper);
        return Ok(());
    }
    push_wrapper(draft, wrapper)?;
    begin_part(part, key, Section::Wrappers)
}

/// A keyword after a bus.
fn step_bus(draft: &mut Draft, part: &mut Part, bus: Bus, key: Keyword) -> Result<(), Stop>
    ensures { Steps (steps_key (draft_value draft.old) (in_bus (bus_value bus)) key) result part.new
        draft.new }
{
    push_bus(draft, bus)?;
    begin_part(part, key, Section::Buses)
}

/// A wrapper that stands where one is taken away.
fn no_wrapper(alloc: Global) -> Wrapper {
    Wrapper {
        module: 0,
        scan: false,
        chains: Vec::new(alloc),
    }
}

/// A chain that stands where one is taken away.
fn no_chain(alloc: Global) -> ChainPlan {
    ChainPlan {
        ins: 0,
        scans: Vec::new(alloc),
        outs: 0,
    }
}

/// A bus that stands where one is taken away.
fn no_bus(alloc: Global) -> Bus {
    Bus {
        width: 0,
        modules: Vec::new(alloc),
    }
}

/// A keyword as the next word.
fn step_key(alloc: Global, draft: &mut Draft, part: &mut Part, key: Keyword) -> Result<(), Stop>
    ensures { Steps (steps_key (draft_value draft.old) (part_value part.old) key) result part.new
        draft.new }
{
    match part {
        Part::WantsPlan => begin_plan(part, key),
        Part::WantsCyclesWord => begin_cycles(part, key),
        Part::AfterCycles => begin_part(part, key, Section::Buses),
        Part::InBus(bus) => {
            let bus = replace(bus, no_bus(alloc));
            step_bus(draft, part, bus, key)
        }
        Part::WantsMode { module } => {
            let module = *module;
            begin_mode(alloc, part, key, module)
        }
        Part::InWrapper(wrapper) => {
            let wrapper = replace(wrapper, no_wrapper(alloc));
            step_wrapper(draft, part, wrapper, key)
        }
        Part::InChain { wrapper, chain } => {
            let chain = replace(chain, no_chain(alloc));
            push_chain(wrapper, chain)?;
            let wrapper = replace(wrapper, no_wrapper(alloc));
            step_wrapper(draft, part, wrapper, key)
        }
        Part::AfterStart => begin_part(part, key, Section::Starts),
        Part::WantsReason { cycles } => {
            let cycles = *cycles;
            begin_reason(alloc, part, key, cycles)
        }
        Part::WantsForm
        | Part::WantsCycles
        | Part::WantsWidth
        | Part::WantsModule
        | Part::WantsIns(_)
        | Part::WantsOuts { .. }
        | Part::WantsTestModule
        | Part::WantsTest { .. }
        | Part::WantsStart(_)
        | Part::WantsBound
        | Part::WantsBoundModule { .. }
        | Part::WantsPairModule { .. }
        | Part::InTests { .. }
        | Part::WantsTestOf { .. }
        | Part::InForced { .. }
        | Part::Whole(_) => Err(Stop::Refused),
    }
}

/// The number of a plan's form, which is 1.
fn step_form(draft: &mut Draft, part: &mut Part, n: u64) -> Result<(), Stop>
    ensures { Steps (steps_number (draft_value draft.old) wants_form n) result part.new draft.new }
{
    if n == 1 {
        *part = Part::WantsCyclesWord;
        Ok(())
    } else {
        Err(Stop::Refused)
    }
}

/// The start of a test.
fn step_start(draft: &mut Draft, part: &mut Part, test: TestId, n: u64) -> Result<(), Stop>
    ensures { Steps (steps_number (draft_value draft.old) (wants_start test) n) result part.new
        draft.new }
{
    if n > START_MOST {
        return Err(Stop::Refused);
    }
    push_start(draft, test, n)?;
    *part = Part::AfterStart;
    Ok(())
}

/// The next test of a chain that bounds.
fn step_test(part: &mut Part, cycles: u64, mut tests: Vec<TestId>, test: TestId) -> Result<(), Stop>
    ensures ok { OnOk result (part_value part.new ≡ in_tests cycles (tests.items ++ test ∷ [])) }
    ensures err { OnErr result (result ≡ Err Stop.NoMemory) }
{
    tests.push(test)?;
    *part = Part::InTests { cycles, tests };
    Ok(())
}

/// Ends a step: puts the next part in place of this one. Each place that writes a part also drops whatever the old one may
/// own, and is proved for all of it, so one function writes. In its caller's place no whole part is moved through memory for
/// each word.
#[inline(always)]
fn go_on(part: &mut Part, next: Part) -> Result<(), Stop>
    ensures next { part.new ≡ next }
    ensures ok { result ≡ Ok tt }
{
    *part = next;
    Ok(())
}

/// A number as the next word. What goes on is changed where it stands.
fn step_number(alloc: Global, draft: &mut Draft, part: &mut Part, n: u64) -> Result<(), Stop>
    ensures { Steps (steps_number (draft_value draft.old) (part_value part.old) n) result part.new
        draft.new }
{
    match part {
        Part::WantsForm => step_form(draft, part, n),
        Part::WantsCycles => {
            draft.cycles = n;
            go_on(part, Part::AfterCycles)
        }
        Part::WantsWidth => {
            let bus = Bus {
                width: n,
                modules: Vec::new(alloc),
            };
            go_on(part, Part::InBus(bus))
        }
        Part::InBus(bus) => push_module(bus, n),
        Part::WantsModule => go_on(part, Part::WantsMode { module: n }),
        Part::WantsIns(wrapper) => {
            let wrapper = replace(wrapper, no_wrapper(alloc));
            go_on(part, Part::WantsOuts { wrapper, ins: n })
        }
        Part::WantsOuts { wrapper, ins } => {
            let wrapper = replace(wrapper, no_wrapper(alloc));
            let chain = ChainPlan {
                ins: *ins,
                scans: Vec::new(alloc),
                outs: n,
            };
            go_on(part, Part::InChain { wrapper, chain })
        }
        Part::InChain { chain, .. } => push_scan(chain, n),
        Part::WantsTestModule => go_on(part, Part::WantsTest { module: n }),
        Part::WantsTest { module } => {
            let module = *module;
            go_on(part, Part::WantsStart(TestId { module, test: n }))
        }
        Part::WantsStart(test) => {
            let test = *test;
            step_start(draft, part, test, n)
        }
        Part::WantsBound => go_on(part, Part::WantsReason { cycles: n }),
        Part::WantsBoundModule { cycles } => {
            let cycles = *cycles;
            let why = Why::Module { module: n };
            go_on(part, Part::Whole(Bound { cycles, why }))
        }
        Part::WantsPairModule { cycles } => {
            let cycles = *cycles;
            let why = Why::Pair { module: n };
            go_on(part, Part::Whole(Bound { cycles, why }))
        }
        Part::InTests { cycles, tests } => {
            let cycles = *cycles;
            let tests = replace(tests, Vec::new(alloc));
            let next = Part::WantsTestOf {
                cycles,
                tests,
                module: n,
            };
            go_on(part, next)
        }
        Part::WantsTestOf {
            cycles,
            tests,
            module,
        } => {
            let cycles = *cycles;
            let module = *module;
            let tests = replace(tests, Vec::new(alloc));
            step_test(part, cycles, tests, TestId { module, test: n })
        }
        Part::InForced { modules, .. } => push_forced(modules, n),
        Part::WantsPlan
        | Part::WantsCyclesWord
        | Part::AfterCycles
        | Part::WantsMode { .. }
        | Part::InWrapper(_)
        | Part::AfterStart
        | Part::WantsReason { .. }
        | Part::Whole(_) => Err(Stop::Refused),
    }
}

/// The next word.
pub fn take_token(
    alloc: Global,
    draft: &mut Draft,
    part: &mut Part,
    token: Token<Keyword>,
) -> Result<(), Stop>
    ensures { Steps (steps (at (draft_value draft.old) (part_value part.old)) token) result part.new
        draft.new }
{
    match token {
        Token::Key(key) => step_key(alloc, draft, part, key),
        Token::Number(n) => step_number(alloc, draft, part, n),
    }
}

/// The bound of a plan whose words end here.
pub fn bound_at(part: Part) -> Option<Bound>
    ensures { option_map bound_value result ≡ bound_there (part_value part) }
{
    match part {
        Part::Whole(bound) => Some(bound),
        Part::InTests { cycles, tests } => Some(Bound {
            cycles,
            why: Why::Chain { tests },
        }),
        Part::InForced { cycles, modules } => Some(Bound {
            cycles,
            why: Why::Forced { modules },
        }),
        _ => None,
    }
}
