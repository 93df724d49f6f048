//! From cycles and rows to the units of a picture.
ghost use Rattle.std.specs.Prelude.{◌≡◌, ◌-◌, ◌^◌, ◌≤◌, max};
ghost use Rattle.picture.specs.Panels.{below as end_of_panel, column as the_column, lanes_panel as the_lanes, outline_of as the_outline, row_line as the_line, scaled as the_scaled, wires_panel as the_wires};

use live_tests::PlacedTest;

/// Cycles, and the rows from the first to before the last: wires or lanes, counted from 0.
#[derive(Clone, Copy, Drop)]
pub struct Rectangle {
    pub start: u64,
    pub end: u64,
    pub first: u64,
    pub last: u64,
}

/// A test with its rectangle.
#[derive(Clone, Copy, Drop)]
pub struct Drawn {
    pub rectangle: Rectangle,
    pub test: PlacedTest,
}

/// A part of a picture: rows below each other, over cycles beside each other. `top` and `height` are in units.
#[derive(Clone, Copy, Drop)]
pub struct Panel {
    pub top: u32,
    pub height: u32,
    pub rows: u64,
    pub cycles: u64,
}

/// A rectangle in units.
#[derive(Clone, Copy, Drop)]
pub struct Outline {
    pub x: u64,
    pub y: u64,
    pub width: u64,
    pub height: u64,
}

/// Where `part` of `all` stands on a stretch of `size` units.
#[tactic(auto, unfolding(crate::specs::Panels::scaled))]
pub fn scaled(part: u64, all: u64, size: u32) -> u32
    ensures is { result ≡ the_scaled part all size }
    ensures within { result ≤ size }
{
    if all == 0 {
        return 0;
    }
    let units = u128::from(part) * u128::from(size) / u128::from(all);
    units.min(u128::from(size)) as u32
}

/// Where a cycle begins, of `cycles` cycles beside each other.
pub fn column(cycle: u64, cycles: u64) -> u64
    ensures is { result ≡ the_column cycle cycles }
    ensures left { 120 ≤ result }
    ensures right { result ≤ 1120 }
{
    120 + u64::from(scaled(cycle, cycles, 1_000))
}

/// Where a row of a panel begins.
fn row_line(panel: &Panel, row: u64) -> u64
    ensures { result ≡ the_line panel.now row }
{
    u64::from(panel.top) + u64::from(scaled(row, panel.rows, panel.height))
}

/// How far it is from one line to a later one, at least 1.
fn gap(from: u64, to: u64) -> u64
    ensures { result ≡ max 1 (to - from) }
{
    to.saturating_sub(from).max(1)
}

/// A rectangle of a panel in units, at least one wide and one high.
pub fn outline_of(panel: &Panel, rectangle: &Rectangle) -> Outline
    ensures { result ≡ the_outline panel.now rectangle.now }
{
    let x = column(rectangle.start, panel.cycles);
    let y = row_line(panel, rectangle.first);
    Outline {
        x,
        y,
        width: gap(x, column(rectangle.end, panel.cycles)),
        height: gap(y, row_line(panel, rectangle.last)),
    }
}

/// The panel of the wires.
pub fn wires_panel(cycles: u64, wires: u64) -> Panel
    ensures { result ≡ the_wires cycles wires }
{
    Panel {
        top: 40,
        height: 20 * (wires.min(24) as u32),
        rows: wires,
        cycles,
    }
}

/// The panel of the lanes of self tests, below that of the wires.
pub fn lanes_panel(cycles: u64, wires: u64, lanes: u64) -> Panel
    ensures { result ≡ the_lanes cycles wires lanes }
{
    Panel {
        top: 52 + 20 * (wires.min(24) as u32),
        height: 16 * (lanes.min(128) as u32),
        rows: lanes,
        cycles,
    }
}

/// Where a panel ends.
pub fn below(panel: &Panel) -> u64
    ensures is { result ≡ end_of_panel panel.now }
    ensures small { result ≤ 2 ^ 33 }
{
    u64::from(panel.top) + u64::from(panel.height)
}
