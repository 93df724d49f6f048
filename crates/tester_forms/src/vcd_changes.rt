//! The values of a cycle: those of the wires, and those of the controls.
ghost use Rattle.std.specs.Prelude.{◌≡◌, ℕ, ◌+◌, ◌*◌, ◌<◌, ◌≤◌, true, length, slice_index};
ghost use Rattle.std.specs.List.{flat_map};
ghost use Rattle.cycle_texts.specs.Rows.{IsPutAt, row_of};
ghost use Rattle.tester_forms.specs.Dumps.{change_line, changes, has_changed};
ghost use Rattle.tester_forms.specs.Forms.{AreCodes, control_sources, sources_of_wire, wire_sources};

use crate::vcd_code::Code;
use crate::vcd_lines::{put_change, put_value, shown};
use cycle_texts::Row;

/// Writes what a wire carries and what is compared there, from the byte `at` on, and answers where that ends.
fn put_wire_value(codes: &[Code], wire: usize, row: Row<'_>, text: &mut [u8], at: usize) -> usize
    requires narrow { wire < 256 }
    requires codes { AreCodes (length codes.now) codes.now }
    requires coded { 2 * wire + 2 ≤ length codes.now }
    requires driven { wire < length row.driven.now }
    requires compared { wire < length row.compared.now }
    requires room { at + 16 ≤ length text.old }
    ensures within { result ≤ at + 16 }
    ensures put { IsPutAt at
        (flat_map change_line
        (changes (λ s. true) (row_of row.entry) (2 * wire) (sources_of_wire wire))) result
        text.old text.new }
{
    let (driven, compared) = (&codes[2 * wire], &codes[2 * wire + 1]);
    let end = put_value(text, at, row.driven[wire], driven);
    put_value(text, end, shown(row.compared[wire]), compared)
}

/// Writes these where they aren't as before.
fn put_wire_change(
    codes: &[Code],
    wire: usize,
    before: Row<'_>,
    row: Row<'_>,
    text: &mut [u8],
    at: usize,
) -> usize
    requires narrow { wire < 256 }
    requires codes { AreCodes (length codes.now) codes.now }
    requires coded { 2 * wire + 2 ≤ length codes.now }
    requires driven { wire < length row.driven.now }
    requires compared { wire < length row.compared.now }
    requires driven_before { wire < length before.driven.now }
    requires compared_before { wire < length before.compared.now }
    requires room { at + 16 ≤ length text.old }
    ensures within { result ≤ at + 16 }
    ensures put { IsPutAt at
        (flat_map change_line (changes (has_changed (row_of before.entry) (row_of row.entry))
        (row_of row.entry) (2 * wire) (sources_of_wire wire))) result text.old text.new }
{
    let (driven, compared) = (&codes[2 * wire], &codes[2 * wire + 1]);
    let end = put_change(text, at, before.driven[wire], row.driven[wire], driven);
    let (was, is) = (shown(before.compared[wire]), shown(row.compared[wire]));
    put_change(text, end, was, is, compared)
}

/// Writes what each wire carries and what is compared there.
pub fn put_wire_values(
    codes: &[Code],
    wires: usize,
    row: Row<'_>,
    text: &mut [u8],
    at: usize,
) -> usize
    requires narrow { wires ≤ 256 }
    requires codes { AreCodes (length codes.now) codes.now }
    requires coded { 2 * wires ≤ length codes.now }
    requires driven { length row.driven.now ≡ wires }
    requires compared { length row.compared.now ≡ wires }
    requires room { at + 16 * wires ≤ length text.old }
    ensures within { result ≤ at + 16 * wires }
    ensures put { IsPutAt at
        (flat_map change_line (changes (λ s. true) (row_of row.entry) 0 (wire_sources wires)))
        result text.old text.new }
{
    let mut end = at;
    for wire in 0..wires {
        end = put_wire_value(codes, wire, row, text, end);
    }
    end
}

/// Writes what each wire carries and what is compared there, where it isn't as before.
pub fn put_wire_changes(
    codes: &[Code],
    wires: usize,
    before: Row<'_>,
    row: Row<'_>,
    text: &mut [u8],
    at: usize,
) -> usize
    requires narrow { wires ≤ 256 }
    requires codes { AreCodes (length codes.now) codes.now }
    requires coded { 2 * wires ≤ length codes.now }
    requires driven { length row.driven.now ≡ wires }
    requires compared { length row.compared.now ≡ wires }
    requires driven_before { length before.driven.now ≡ wires }
    requires compared_before { length before.compared.now ≡ wires }
    requires room { at + 16 * wires ≤ length text.old }
    ensures within { result ≤ at + 16 * wires }
    ensures put { IsPutAt at
        (flat_map change_line (changes (has_changed (row_of before.entry) (row_of row.entry))
        (row_of row.entry) 0 (wire_sources wires))) result text.old text.new }
{
    let mut end = at;
    for wire in 0..wires {
        end = put_wire_change(codes, wire, before, row, text, end);
    }
    end
}

/// Writes the bit of each control. `first` is the number of the first one's variable.
pub fn put_control_values(
    codes: &[Code],
    first: usize,
    places: &[usize],
    row: Row<'_>,
    text: &mut [u8],
    at: usize,
) -> usize
    requires codes { AreCodes (length codes.now) codes.now }
    requires coded { length codes.now ≡ first + length places.now }
    requires there { (i : ℕ) → i < length places.now →
        slice_index places.now i < length row.controls.now }
    requires room { at + 8 * length places.now ≤ length text.old }
    ensures within { result ≤ at + 8 * length places.now }
    ensures put { IsPutAt at
        (flat_map change_line
        (changes (λ s. true) (row_of row.entry) first (control_sources places.now))) result
        text.old text.new }
{
    let mut end = at;
    for i in 0..places.len() {
        let code = &codes[first + i];
        end = put_value(text, end, row.controls[places[i]], code);
    }
    end
}

/// Whether two rows of bytes are the same.
fn are_same(one: &[u8], other: &[u8]) -> bool
    ensures { result ≡ true → one.now ≡ other.now }
{
    one == other
}

/// Writes the bit of each control, where it isn't as before. At most cycles all are as before.
pub fn put_control_changes(
    codes: &[Code],
    first: usize,
    places: &[usize],
    before: Row<'_>,
    row: Row<'_>,
    text: &mut [u8],
    at: usize,
) -> usize
    requires codes { AreCodes (length codes.now) codes.now }
    requires coded { length codes.now ≡ first + length places.now }
    requires there { (i : ℕ) → i < length places.now →
        slice_index places.now i < length row.controls.now }
    requires there_before { length before.controls.now ≡ length row.controls.now }
    requires room { at + 8 * length places.now ≤ length text.old }
    ensures within { result ≤ at + 8 * length places.now }
    ensures put { IsPutAt at
        (flat_map change_line (changes (has_changed (row_of before.entry) (row_of row.entry))
        (row_of row.entry) first (control_sources places.now))) result text.old text.new }
{
    if are_same(before.controls, row.controls) {
        return at;
    }
    let mut end = at;
    for i in 0..places.len() {
        let (place, code) = (places[i], &codes[first + i]);
        end = put_change(text, end, before.controls[place], row.controls[place], code);
    }
    end
}
