//! The parts of a picture's text: rectangles, labels, and what they say.
ghost use Rattle.std.specs.Prelude.{◌≡◌, [], ◌++◌, ◌≤◌, ◌<◌, ◌^◌, List, length, decimal, codes, nat_eq, take, OnOk, if◌then◌else◌};
ghost use Rattle.std.specs.List.{flat_map};
ghost use Rattle.std.specs.List.Sorted.{IsNonDecreasing};
ghost use Rattle.soc_model.specs.Chips.{soc_value};
ghost use Rattle.picture.specs.Marks.{box_text, bus_frame, bus_label as the_bus_label, bus_name, bus_text, bus_texts, escaped, fill_name, has_room as the_room, id_size as the_id_size, is_high as the_high, label_at, label_end, label_text, middle as the_middle, name_at as the_name, named_test, shown, sides, spaced_name, test_label, test_text, test_texts, title_text};
ghost use Rattle.picture.specs.declared.panels.Drawn.{Drawn as the_rectangle};
ghost use Rattle.picture.specs.Fills.{AreStarts};
ghost use Rattle.picture.specs.Rectangles.{between};

use crate::fills::{fill_of, sorted_starts};
use crate::panels::{Drawn, Outline, Panel, Rectangle, outline_of};
use crate::rectangles::bus_count;
use itoa::Buffer;
use live_tests::PlacedTest;
use outside::{NoMemory, extend, push, push_dotted, push_number};
use soc_model::{Soc, TestId, module_at};
use std::alloc::Global;

/// The most characters of a name that are shown.
const NAME_MOST: usize = 64;
/// How many characters of a longer name are shown, before three points.
const NAME_FRONT: usize = 61;

/// Appends a text and a number.
pub fn push_entry(text: &mut Vec<u8>, name: &[u8], number: u64) -> Result<(), NoMemory>
    ensures { OnOk result (text.new.items ≡ text.old.items ++ (name.now ++ decimal number)) }
{
    extend(text, name)?;
    push_number(text, u128::from(number))
}

/// Appends the sides of a rectangle, behind the name of its class.
#[tactic(auto, unfolding(crate::specs::Marks::sides))]
fn push_sides(text: &mut Vec<u8>, outline: &Outline) -> Result<(), NoMemory>
    ensures { OnOk result (text.new.items ≡ text.old.items ++ sides outline.now) }
{
    push_entry(text, b"' x='", outline.x)?;
    push_entry(text, b"' y='", outline.y)?;
    push_entry(text, b"' width='", outline.width)?;
    push_entry(text, b"' height='", outline.height)?;
    extend(text, b"'>")
}

/// Appends the begin of a label at a place in units.
#[tactic(auto, unfolding(crate::specs::Marks::label_at))]
pub fn push_label(text: &mut Vec<u8>, class: &[u8], x: u128, y: u128) -> Result<(), NoMemory>
    ensures { OnOk result (text.new.items ≡ text.old.items ++ label_at class.now x y) }
{
    extend(text, b"<text class='")?;
    extend(text, class)?;
    extend(text, b"' x='")?;
    push_number(text, x)?;
    extend(text, b"' y='")?;
    push_number(text, y)?;
    extend(text, b"'>")
}

/// Appends the end of a label.
pub fn end_label(text: &mut Vec<u8>) -> Result<(), NoMemory>
    ensures { OnOk result (text.new.items ≡ text.old.items ++ label_end) }
{
    extend(text, b"</text>\n")
}

/// The middle of a stretch.
fn middle(from: u64, size: u64) -> u128
    ensures is { result ≡ the_middle from size }
    ensures small { result ≤ 2 ^ 65 }
{
    u128::from(from) + u128::from(size / 2)
}

/// Whether a line of text has room in the height of a rectangle.
fn is_high(outline: &Outline) -> bool
    ensures { result ≡ the_high outline.now }
{
    outline.height >= 12
}

/// How many digits a number has.
pub fn digits(n: u64) -> u64
    ensures is { result ≡ length (decimal n) }
    ensures few { result ≤ 20 }
{
    let mut buffer = Buffer::new();
    buffer.format(n).len() as u64
}

/// How many characters the numbers of a test and of its module are, with a dot between them.
fn id_size(id: TestId) -> u64
    ensures is { result ≡ the_id_size id }
    ensures few { result ≤ 41 }
{
    digits(id.module) + digits(id.test) + 1
}

/// Whether a text of this number of characters has room in a rectangle.
fn has_room(outline: &Outline, characters: u128) -> bool
    requires { characters ≤ 2 ^ 66 }
    ensures { result ≡ the_room outline.now characters }
{
    7 * characters <= u128::from(outline.width) && is_high(outline)
}

/// The name of the module at a place, empty where it has none.
#[tactic(auto, unfolding(crate::specs::Marks::name_at))]
fn name_at(soc: &Soc, place: usize) -> &[u8]
    ensures { result.now ≡ the_name (soc_value soc.now) place }
{
    if place >= soc.modules.len() {
        return &[];
    }
    &module_at(soc, place).name
}

/// Appends a byte of a name, as the text of an element of XML.
fn push_escaped(text: &mut Vec<u8>, byte: u8) -> Result<(), NoMemory>
    ensures { OnOk result (text.new.items ≡ text.old.items ++ escaped byte) }
{
    if byte == b'&' {
        return extend(text, b"&amp;");
    }
    if byte == b'<' {
        return extend(text, b"&lt;");
    }
    if byte == b'>' {
        return extend(text, b"&gt;");
    }
    push(text, byte)
}

/// Appends all bytes of a name.
fn push_bytes(text: &mut Vec<u8>, name: &[u8]) -> Result<(), NoMemory>
    ensures { OnOk result (text.new.items ≡ text.old.items ++ flat_map escaped name.now) }
{
    for byte in name {
        push_escaped(text, *byte)?;
    }
    Ok(())
}

/// How many characters of a name are shown.
fn shown_size(name: &[u8]) -> u128
    ensures is { result ≡ length (shown name.now) }
    ensures few { result ≤ NAME_MOST }
{
    name.len().min(NAME_MOST) as u128
}

/// What is shown of a long name, before three points.
fn front(name: &[u8]) -> &[u8]
    requires { 64 < length name.now }
    ensures { result.now ≡ take 61 name.now }
{
    &name[0..NAME_FRONT]
}

/// Appends as much of a name as is shown. Each test shows that of its module, so all of a long one would be written many times.
#[tactic(auto, unfolding(crate::specs::Marks::shown))]
fn push_shown(text: &mut Vec<u8>, name: &[u8]) -> Result<(), NoMemory>
    ensures { OnOk result (text.new.items ≡ text.old.items ++ flat_map escaped (shown name.now)) }
{
    if name.len() <= NAME_MOST {
        return push_bytes(text, name);
    }
    push_bytes(text, front(name))?;
    extend(text, b"...")
}

/// Appends a name, as it is shown, behind a space, and nothing where there is none.
#[tactic(auto, unfolding(crate::specs::Marks::spaced_name))]
fn push_spaced_name(text: &mut Vec<u8>, name: &[u8]) -> Result<(), NoMemory>
    ensures { OnOk result (text.new.items ≡ text.old.items ++ spaced_name name.now) }
{
    if name.is_empty() {
        return Ok(());
    }
    extend(text, b" ")?;
    push_shown(text, name)
}

/// Appends the name of a fill.
fn push_fill(text: &mut Vec<u8>, fill: u8) -> Result<(), NoMemory>
    requires { fill < 4 }
    ensures { OnOk result (text.new.items ≡ text.old.items ++ fill_name fill) }
{
    push(text, b'a' + fill)
}

/// Appends what the picture says of a test of a module of that name.
#[tactic(auto, unfolding(crate::specs::Marks::title_text))]
fn push_title(text: &mut Vec<u8>, name: &[u8], test: &PlacedTest) -> Result<(), NoMemory>
    ensures { OnOk result (text.new.items ≡ text.old.items ++ title_text name.now test.now) }
{
    push_entry(text, b"<title>module ", test.id.module)?;
    push_spaced_name(text, name)?;
    push_entry(text, b", test ", test.id.test)?;
    push_entry(text, b": start ", test.start)?;
    push_entry(text, b", end ", test.end)?;
    extend(text, b"</title></rect>\n")
}

/// Appends the rectangle of a test.
#[tactic(auto, unfolding(crate::specs::Marks::box_text))]
fn push_box(
    text: &mut Vec<u8>,
    outline: &Outline,
    fill: u8,
    name: &[u8],
    test: &PlacedTest,
) -> Result<(), NoMemory>
    requires { fill < 4 }
    ensures { OnOk result
        (text.new.items ≡ text.old.items ++ box_text outline.now fill name.now test.now) }
{
    extend(text, b"<rect class='")?;
    push_fill(text, fill)?;
    push_sides(text, outline)?;
    push_title(text, name, test)
}

/// Appends the label of a test, in the middle of its rectangle.
#[tactic(auto, unfolding(crate::specs::Marks::test_label))]
fn push_test_label(
    text: &mut Vec<u8>,
    outline: &Outline,
    id: TestId,
    name: &[u8],
) -> Result<(), NoMemory>
    ensures { OnOk result (text.new.items ≡ text.old.items ++ test_label outline.now id name.now) }
{
    let x = middle(outline.x, outline.width);
    let y = middle(outline.y, outline.height) + 4;
    push_label(text, b"m", x, y)?;
    push_dotted(text, id.module, id.test)?;
    push_spaced_name(text, name)?;
    end_label(text)
}

/// Appends the label of a test where there is room, with the name of its module or without.
#[tactic(auto, unfolding(crate::specs::Marks::label_text))]
fn push_label_within(
    text: &mut Vec<u8>,
    outline: &Outline,
    id: TestId,
    name: &[u8],
) -> Result<(), NoMemory>
    ensures { OnOk result (text.new.items ≡ text.old.items ++ label_text outline.now id name.now) }
{
    let alone = u128::from(id_size(id));
    if has_room(outline, alone + 1 + shown_size(name)) {
        return push_test_label(text, outline, id, name);
    }
    if has_room(outline, alone) {
        return push_test_label(text, outline, id, &[]);
    }
    Ok(())
}

/// Appends a test of a module of that name.
fn push_named_test(
    text: &mut Vec<u8>,
    outline: &Outline,
    fill: u8,
    name: &[u8],
    test: &PlacedTest,
) -> Result<(), NoMemory>
    requires { fill < 4 }
    ensures { OnOk result
        (text.new.items ≡ text.old.items ++ named_test outline.now fill name.now test.now) }
{
    push_box(text, outline, fill, name, test)?;
    push_label_within(text, outline, test.id, name)
}

/// Appends a test of a chip in a panel, among those whose rectangles have these starts.
fn push_test(
    text: &mut Vec<u8>,
    soc: &Soc,
    panel: &Panel,
    starts: &[u128],
    one: &Drawn,
) -> Result<(), NoMemory>
    requires { IsNonDecreasing starts.now }
    ensures { (drawn : List the_rectangle) → AreStarts drawn starts.now →
        OnOk result (text.new.items
        ≡ text.old.items ++ test_text (soc_value soc.now) panel.now drawn one.now) }
{
    let outline = outline_of(panel, &one.rectangle);
    let fill = fill_of(starts, one);
    let name = name_at(soc, one.test.place);
    push_named_test(text, &outline, fill, name, &one.test)
}

/// Appends tests of a chip in a panel.
pub fn push_tests(
    alloc: Global,
    text: &mut Vec<u8>,
    soc: &Soc,
    panel: &Panel,
    drawn: &[Drawn],
) -> Result<(), NoMemory>
    ensures { OnOk result
        (text.new.items ≡ text.old.items ++ test_texts (soc_value soc.now) panel.now drawn.now) }
{
    let starts = sorted_starts(alloc, drawn)?;
    for one in drawn {
        push_test(text, soc, panel, &starts, one)?;
    }
    Ok(())
}

/// Appends the word behind a number of wires.
fn push_wires_word(text: &mut Vec<u8>, wires: u64) -> Result<(), NoMemory>
    ensures { OnOk result (text.new.items
        ≡ text.old.items ++ (if nat_eq wires 1 then codes " wire" else codes " wires")) }
{
    if wires == 1 {
        return extend(text, b" wire");
    }
    extend(text, b" wires")
}

/// Appends the place of a bus, and how many wires it has.
#[tactic(auto, unfolding(crate::specs::Marks::bus_label))]
fn push_bus_label(text: &mut Vec<u8>, place: usize, wires: u64) -> Result<(), NoMemory>
    ensures { OnOk result (text.new.items ≡ text.old.items ++ the_bus_label place wires) }
{
    extend(text, b"bus ")?;
    push_number(text, place as u128)?;
    push_entry(text, b", ", wires)?;
    push_wires_word(text, wires)
}

/// Appends the frame of the bus at a place. Its title gives the number of wires.
#[tactic(auto, unfolding(crate::specs::Marks::bus_frame))]
fn push_frame(
    text: &mut Vec<u8>,
    outline: &Outline,
    place: usize,
    wires: u64,
) -> Result<(), NoMemory>
    ensures { OnOk result (text.new.items ≡ text.old.items ++ bus_frame outline.now place wires) }
{
    extend(text, b"<rect class='w")?;
    push_sides(text, outline)?;
    extend(text, b"<title>")?;
    push_bus_label(text, place, wires)?;
    extend(text, b"</title></rect>\n")
}

/// Appends the label of a bus beside its frame, where there is room.
#[tactic(auto, unfolding(crate::specs::Marks::bus_name))]
fn push_bus_name(
    text: &mut Vec<u8>,
    outline: &Outline,
    place: usize,
    wires: u64,
) -> Result<(), NoMemory>
    ensures { OnOk result (text.new.items ≡ text.old.items ++ bus_name outline.now place wires) }
{
    if !is_high(outline) {
        return Ok(());
    }
    let y = middle(outline.y, outline.height) + 4;
    push_label(text, b"e", 114, y)?;
    push_bus_label(text, place, wires)?;
    end_label(text)
}

/// Appends the bus at a place, with its first wire and the first one after it.
fn push_bus(
    text: &mut Vec<u8>,
    panel: &Panel,
    place: usize,
    wires: (u64, u64),
) -> Result<(), NoMemory>
    ensures { OnOk result (text.new.items ≡ text.old.items ++ bus_text panel.now place wires) }
{
    let (first, last) = wires;
    let all = Rectangle {
        start: 0,
        end: panel.cycles,
        first,
        last,
    };
    let outline = outline_of(panel, &all);
    let width = last.saturating_sub(first);
    push_frame(text, &outline, place, width)?;
    push_bus_name(text, &outline, place, width)
}

/// Appends all buses, of which these are the first wires, with the number of all wires behind them.
pub fn push_buses(text: &mut Vec<u8>, panel: &Panel, firsts: &[u64]) -> Result<(), NoMemory>
    ensures { OnOk result
        (text.new.items ≡ text.old.items ++ bus_texts panel.now 0 (between firsts.now)) }
{
    for place in 0..bus_count(firsts) {
        push_bus(text, panel, place, (firsts[place], firsts[place + 1]))?;
    }
    Ok(())
}
