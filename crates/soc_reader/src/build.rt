//! The chip that items say, as they are read.
ghost use Rattle.std.specs.Prelude.{◌≡◌, OnOk, IsOk, nat_eq, position, true};
ghost use Rattle.std.specs.List.{list_any};
ghost use Rattle.soc_model.specs.Chips.{soc_value, module_value};
ghost use Rattle.soc_model.specs.Lookups.{has_module_number, module_place as place_of_module};
ghost use Rattle.soc_reader.specs.Views.{value_of};
ghost use Rattle.soc_reader.specs.Drafts.{IsNumbered, IsIndexed};
ghost use Rattle.soc_reader.specs.Table.{entry, lengths, name as named_item};
ghost use Rattle.soc_reader.specs.Meaning.{test_says, module_says, chip_says, says as item_says, tells, empty_chip, at_module as modules_at, with_module as modules_with, with_test as tests_with, new_test as test_new, new_module as module_new, at_test as tests_at};

use crate::kept::ReadValue;
use crate::keys::{Key, Subject};
use indexmap::IndexSet;
use outside::{NoMemory, copied, push};
use soc_model::{Module, Soc, Test, place_of};
use std::alloc::Global;

/// The numbers of a module's tests, each at the place of its test.
#[derive(Drop)]
pub struct TestNumbers {
    pub set: IndexSet<u64>,
}

/// A chip that items are put into. Beside it stand the numbers of the tests of each module, at the module's place.
#[derive(Drop)]
pub struct Draft {
    pub soc: Soc,
    pub numbers: Vec<TestNumbers>,
}

/// A test of which nothing was said.
fn new_test(number: u64) -> Test
    ensures { result ≡ test_new number }
{
    Test {
        number,
        scan: true,
        tam: true,
        patterns: 0,
        power: 0,
    }
}

/// A module of which nothing was said.
fn new_module(alloc: Global, number: u64) -> Module
    ensures { module_value result ≡ module_new number }
{
    Module {
        number,
        name: Vec::new(alloc),
        level: if number == 0 { 0 } else { 1 },
        inputs: 0,
        outputs: 0,
        bidirs: 0,
        setup: 0,
        chains: Vec::new(alloc),
        tests: Vec::new(alloc),
    }
}

/// What a keyword and a value say of a test.
#[inline(always)]
fn give_test(test: &mut Test, key: Key, value: &ReadValue<'_>)
    ensures { test.new ≡ test_says key (value_of value.now) test.old }
{
    match (key, value) {
        (Key::ScanUse, ReadValue::Flag(b)) => test.scan = *b,
        (Key::TamUse, ReadValue::Flag(b)) => test.tam = *b,
        (Key::Patterns, ReadValue::Count { number, .. }) => test.patterns = *number,
        (Key::Power, ReadValue::Count { number, .. }) => test.power = *number,
        _ => {}
    }
}

/// The place of the test of a number. The last test is looked at first: most of a text speaks of that one.
fn test_place(numbers: &TestNumbers, number: u64) -> Option<usize>
    ensures { result ≡ position (nat_eq number) numbers.now.set.keys }
{
    let last = numbers.set.len().saturating_sub(1);
    match numbers.set.get_index(last) {
        Some(found) if *found == number => Some(last),
        _ => numbers.set.get_index_of(&number),
    }
}

/// What they say of the test of a number.
#[inline(always)]
fn give_test_at(
    tests: &mut Vec<Test>,
    numbers: &TestNumbers,
    number: u64,
    key: Key,
    value: &ReadValue<'_>,
)
    requires { IsNumbered numbers.now tests.old.items }
    ensures { tests.new.items
        ≡ tests_at number (test_says key (value_of value.now)) tests.old.items }
{
    if let Some(place) = test_place(numbers, number) {
        give_test(&mut tests[place], key, value);
    }
}

/// Adds a test where it is new. One that is there already takes no memory.
fn add_test(tests: &mut Vec<Test>, numbers: &mut TestNumbers, number: u64) -> Result<(), NoMemory>
    requires { IsNumbered numbers.old tests.old.items }
    ensures added { OnOk result (tests.new.items ≡ tests_with number tests.old.items) }
    ensures numbered { OnOk result (IsNumbered numbers.new tests.new.items) }
    ensures known { list_any (nat_eq number) numbers.old.set.keys ≡ true → IsOk result }
{
    if numbers.set.contains(&number) {
        return Ok(());
    }
    numbers.set.insert(number)?;
    push(tests, new_test(number))
}

/// What a keyword and a value say of a module.
fn give_module(
    found: &mut Module,
    numbers: &mut TestNumbers,
    key: Key,
    value: &ReadValue<'_>,
) -> Result<(), NoMemory>
    requires { IsNumbered numbers.old found.old.tests.items }
    ensures given { OnOk result
        (module_value found.new ≡ module_says key (value_of value.now) (module_value found.old)) }
    ensures numbered { OnOk result (IsNumbered numbers.new found.new.tests.items) }
{
    match (key, value) {
        (Key::Level, ReadValue::Count { number, .. }) => found.level = *number,
        (Key::Inputs, ReadValue::Count { number, .. }) => found.inputs = *number,
        (Key::Outputs, ReadValue::Count { number, .. }) => found.outputs = *number,
        (Key::Bidirs, ReadValue::Count { number, .. }) => found.bidirs = *number,
        (Key::Setup, ReadValue::Count { number, .. }) => found.setup = *number,
        (Key::Test, ReadValue::Count { number, .. }) => {
            return add_test(&mut found.tests, numbers, *number);
        }
        _ => {}
    }
    Ok(())
}

/// What a keyword and a list say of a module.
fn give_chains(found: &mut Module, key: Key, list: Vec<u64>)
    ensures given { module_value found.new
        ≡ module_says key (lengths list.items) (module_value found.old) }
    ensures tests { found.new.tests ≡ found.old.tests }
{
    match key {
        Key::ScanChains => found.chains = list,
        _ => {}
    }
}

/// The place of the module of a number. The last module is looked at first: most of a text speaks of that one.
fn module_place(soc: &Soc, number: u64) -> Option<usize>
    ensures { result ≡ place_of_module (soc_value soc.now) number }
{
    let last = soc.modules.len().saturating_sub(1);
    match soc.modules.get_index(last) {
        Some((found, _)) if *found == number => Some(last),
        _ => place_of(soc, number),
    }
}

/// Whether a module has a number. The last module is looked at first.
fn has_module(soc: &Soc, number: u64) -> bool
    ensures { result ≡ has_module_number (soc_value soc.now) number }
{
    match soc.modules.last() {
        Some((found, _)) if *found == number => true,
        _ => soc.modules.contains_key(&number),
    }
}

/// Adds a module where it is new. One that is there already takes no memory.
fn add_module(draft: &mut Draft, number: u64) -> Result<(), NoMemory>
    requires { IsIndexed draft.old }
    ensures added { OnOk result
        (soc_value draft.new.soc ≡ modules_with number (soc_value draft.old.soc)) }
    ensures indexed { OnOk result (IsIndexed draft.new) }
    ensures known { has_module_number (soc_value draft.old.soc) number ≡ true → IsOk result }
{
    if has_module(&draft.soc, number) {
        return Ok(());
    }
    let alloc = *draft.numbers.allocator();
    match draft.soc.put(new_module(alloc, number)) {
        Ok(()) => {}
        Err(_) => return Err(NoMemory),
    }
    let none = TestNumbers {
        set: IndexSet::new(alloc),
    };
    push(&mut draft.numbers, none)
}

/// What a keyword and a value say of the chip.
pub fn give_chip(draft: &mut Draft, key: Key, value: &ReadValue<'_>) -> Result<(), NoMemory>
    requires { IsIndexed draft.old }
    ensures given { OnOk result
        (soc_value draft.new.soc ≡ chip_says key (value_of value.now) (soc_value draft.old.soc)) }
    ensures indexed { OnOk result (IsIndexed draft.new) }
{
    match (key, value) {
        (Key::SocName, ReadValue::Word(name)) => {
            let alloc = *draft.numbers.allocator();
            draft.soc.name = copied(alloc, name)?;
        }
        (Key::PowerFlag, ReadValue::Flag(b)) => draft.soc.power_flag = *b,
        (Key::XyFlag, ReadValue::Flag(b)) => draft.soc.xy_flag = *b,
        (Key::Module, ReadValue::Count { number, .. }) => return add_module(draft, *number),
        _ => {}
    }
    Ok(())
}

/// What a keyword and a value say of the module of a number.
pub fn tell_module(
    draft: &mut Draft,
    number: u64,
    key: Key,
    value: &ReadValue<'_>,
) -> Result<(), NoMemory>
    requires { IsIndexed draft.old }
    ensures said { OnOk result (soc_value draft.new.soc
        ≡ modules_at number (tells (entry (Subject.OfModule number) key (value_of value.now)))
        (soc_value draft.old.soc)) }
    ensures indexed { OnOk result (IsIndexed draft.new) }
{
    let Some(place) = module_place(&draft.soc, number) else {
        return Ok(());
    };
    let numbers = &mut draft.numbers[place];
    match draft.soc.modules.get_index_mut(place) {
        Some(found) => give_module(found, numbers, key, value),
        None => unreachable!(),
    }
}

/// What a keyword and a list say of the module of a number.
fn put_chains(draft: &mut Draft, number: u64, key: Key, list: Vec<u64>)
    requires { IsIndexed draft.old }
    ensures said { soc_value draft.new.soc
        ≡ modules_at number (tells (entry (Subject.OfModule number) key (lengths list.items)))
        (soc_value draft.old.soc) }
    ensures indexed { IsIndexed draft.new }
{
    let Some(place) = module_place(&draft.soc, number) else {
        return;
    };
    match draft.soc.modules.get_index_mut(place) {
        Some(found) => give_chains(found, key, list),
        None => unreachable!(),
    }
}

/// What a keyword and a list say.
pub fn tell_chains(draft: &mut Draft, subject: Subject, key: Key, list: Vec<u64>)
    requires { IsIndexed draft.old }
    ensures said { soc_value draft.new.soc
        ≡ item_says (entry subject key (lengths list.items)) (soc_value draft.old.soc) }
    ensures indexed { IsIndexed draft.new }
{
    match subject {
        Subject::OfModule(number) => put_chains(draft, number, key, list),
        Subject::Chip => {}
        Subject::OfTest(_, _) => {}
    }
}

/// What they say of a test of a module.
#[inline(always)]
pub fn tell_test(draft: &mut Draft, number: u64, test: u64, key: Key, value: &ReadValue<'_>)
    requires { IsIndexed draft.old }
    ensures said { soc_value draft.new.soc
        ≡ modules_at number (tells (entry (Subject.OfTest number test) key (value_of value.now)))
        (soc_value draft.old.soc) }
    ensures indexed { IsIndexed draft.new }
{
    let Some(place) = module_place(&draft.soc, number) else {
        return;
    };
    let numbers = &draft.numbers[place];
    match draft.soc.modules.get_index_mut(place) {
        Some(found) => give_test_at(&mut found.tests, numbers, test, key, value),
        None => unreachable!(),
    }
}

/// Gives the module of a number a name.
pub fn put_name(draft: &mut Draft, number: u64, name: &[u8]) -> Result<(), NoMemory>
    requires { IsIndexed draft.old }
    ensures named { OnOk result (soc_value draft.new.soc
        ≡ modules_at number (tells (named_item number name.now)) (soc_value draft.old.soc)) }
    ensures indexed { OnOk result (IsIndexed draft.new) }
{
    let Some(place) = module_place(&draft.soc, number) else {
        return Ok(());
    };
    let alloc = *draft.numbers.allocator();
    match draft.soc.modules.get_index_mut(place) {
        Some(found) => {
            found.name = copied(alloc, name)?;
            Ok(())
        }
        None => unreachable!(),
    }
}

/// No chip yet.
pub fn no_chip(alloc: Global) -> Draft
    ensures none { soc_value result.soc ≡ empty_chip }
    ensures indexed { IsIndexed result }
{
    Draft {
        soc: Soc::new(alloc),
        numbers: Vec::new(alloc),
    }
}
