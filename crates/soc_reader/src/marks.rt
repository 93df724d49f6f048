//! What was given, found by its subject: a bit for each row of the table.
ghost use Rattle.std.specs.Prelude.{◌≡◌, ◌&&◌, ◌^◌, nat_eq, OnOk, OnErr, IfSome, ◌||◌, true, false, is_some, if◌then◌else◌};
ghost use Rattle.std.specs.Int.Bits.{bit_or};
ghost use Rattle.std.specs.Option.{option_map_or};
ghost use Rattle.soc_reader.specs.Grammar.{same_subject, row};
ghost use Rattle.soc_reader.specs.Marks.{bits_of, is_marked, is_same, with_row};

use crate::keys::{Given, Key, Subject};
use indexmap::IndexMap;
use outside::Stop;

/// Of each subject the rows of the table that were given, one bit a row.
pub type Marks = IndexMap<Subject, u32>;

/// The bit of a keyword's row.
fn row_bit(key: Key) -> u32
    ensures { result ≡ 2 ^ row key }
{
    match key {
        Key::SocName => 0x1,
        Key::TotalModules => 0x2,
        Key::Options => 0x4,
        Key::PowerFlag => 0x8,
        Key::XyFlag => 0x10,
        Key::Module => 0x20,
        Key::Level => 0x40,
        Key::Inputs => 0x80,
        Key::Outputs => 0x100,
        Key::Bidirs => 0x200,
        Key::Setup => 0x400,
        Key::ScanChains => 0x800,
        Key::TotalTests => 0x1000,
        Key::Test => 0x2000,
        Key::ScanUse => 0x4000,
        Key::TamUse => 0x8000,
        Key::Patterns => 0x1_0000,
        Key::Power => 0x2_0000,
    }
}

/// The rows of a subject, where it is the last of which rows were given: most of a text speaks of that one.
fn last_rows(marks: &Marks, subject: Subject) -> Option<u32>
    ensures { IfSome result (λ rows. bits_of marks.now subject ≡ Some rows) }
{
    let (last, rows) = marks.get_index(marks.len().saturating_sub(1))?;
    if *last != subject {
        return None;
    }
    Some(*rows)
}

/// Whether this was given.
pub fn is_in(marks: &Marks, given: Given) -> bool
    ensures { result ≡ is_marked given.subject given.key marks.now }
{
    if let Some(rows) = last_rows(marks, given.subject) {
        return rows & row_bit(given.key) != 0;
    }
    match marks.get(&given.subject) {
        Some(rows) => *rows & row_bit(given.key) != 0,
        None => false,
    }
}

/// Notes a row of a subject of which rows were given.
fn add_row(marks: &mut Marks, subject: Subject, bit: u32)
    ensures { (s : Subject) → bits_of marks.new s ≡ with_row subject bit s (bits_of marks.old s) }
{
    if let Some(rows) = marks.get_mut(&subject) {
        *rows |= bit;
    }
}

/// Notes a row of a subject, where it is the last of which rows were given, and says whether it is.
#[inline(always)]
fn add_to_last(marks: &mut Marks, subject: Subject, bit: u32) -> bool
    ensures last { result ≡ true → is_some (bits_of marks.old subject) ≡ true }
    ensures row { result ≡ true → (s : Subject) →
        bits_of marks.new s ≡ with_row subject bit s (bits_of marks.old s) }
    ensures other { result ≡ false → marks.new ≡ marks.old }
{
    let place = marks.len().saturating_sub(1);
    match marks.get_index(place) {
        Some((last, _)) if *last == subject => {}
        _ => return false,
    }
    match marks.get_index_mut(place) {
        Some(rows) => {
            *rows |= bit;
            true
        }
        None => unreachable!(),
    }
}

/// Notes a row of a subject, found by its hash. It stands apart, since most rows are of the last subject.
#[inline(never)]
fn add_by_hash(marks: &mut Marks, subject: Subject, bit: u32) -> Result<(), Stop>
    ensures ok { OnOk result ((s : Subject) →
        bits_of marks.new s
        ≡ (if is_same subject s then Some
        (option_map_or (λ rows. bit_or rows bit) (bits_of marks.old subject) bit) else
        bits_of marks.old s)) }
    ensures memory { OnErr result (result ≡ Err Stop.NoMemory) }
{
    match marks.insert(subject, bit)? {
        Some(rows) => {
            add_row(marks, subject, rows);
            Ok(())
        }
        None => Ok(()),
    }
}

/// Notes that this was given.
#[inline(always)]
pub fn mark_given(marks: &mut Marks, given: Given) -> Result<(), Stop>
    ensures ok { OnOk result ((s : Subject) (k : Key) →
        is_marked s k marks.new
        ≡ ((same_subject s given.subject && nat_eq (row k) (row given.key))
        || is_marked s k marks.old)) }
    ensures memory { OnErr result (result ≡ Err Stop.NoMemory) }
{
    let bit = row_bit(given.key);
    if add_to_last(marks, given.subject, bit) {
        return Ok(());
    }
    add_by_hash(marks, given.subject, bit)
}

/// Makes the rows of a subject the last ones, if there are none yet: what is said of it next is found there. None is noted.
pub fn open_rows(marks: &mut Marks, subject: Subject) -> Result<(), Stop>
    ensures ok { OnOk result
        ((s : Subject) (k : Key) → is_marked s k marks.new ≡ is_marked s k marks.old) }
    ensures memory { OnErr result (result ≡ Err Stop.NoMemory) }
{
    add_by_hash(marks, subject, 0)
}
