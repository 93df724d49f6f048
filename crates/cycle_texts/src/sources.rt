//! Where the rows of a plan's cycles come from: the vectors of the plan and its controls.
ghost use Rattle.std.specs.Prelude.{◌≡◌, ◌+◌, ◌*◌, ◌^◌, ◌<◌, ◌≤◌, length, IfOk};
ghost use Rattle.soc_model.specs.Chips.{soc_value};
ghost use Rattle.plan_model.specs.Runs.{Content};
ghost use Rattle.plan_model.specs.Views.{plan_value};
ghost use Rattle.vector_lines.specs.Wires.{wires_of};
ghost use Rattle.vector_lines.specs.Marks.{Marks};
ghost use Rattle.vector_lines.specs.Placed.{StandFor};
ghost use Rattle.cycle_texts.specs.ProgramText.{row_at};
ghost use Rattle.cycle_texts.specs.RowBlocks.{AreRows};
ghost use Rattle.cycle_texts.specs.Sources.{HaveRoom, IsSource, IsSourceOf};

use crate::blocks::line_length;
use controls::ControlRows;
use live_tests::{PlacedPlan, all_wires};
use outside::NoMemory;
use plan_model::Plan;
use soc_model::Soc;
use std::alloc::Global;
use vector_lines::{Contents, Vectors};

/// How many bytes of rows are made at a time, some.
const BLOCK: usize = 65_536;

/// How many cycles a block has, at least one: some [`BLOCK`] bytes of rows, and no more cycles than there are.
fn cycles_in_block(row: usize, cycles: u64) -> u64
    requires { 1 ≤ row }
    ensures some { 1 ≤ result }
    ensures few { result ≤ cycles + 1 }
{
    ((BLOCK / row) as u64).min(cycles).max(1)
}

/// All that the rows of a plan's cycles are made from.
#[derive(Drop)]
pub struct RowSource<'a> {
    pub soc: &'a Soc,
    pub plan: &'a Plan,
    pub vectors: Vectors,
    pub controls: ControlRows,
    /// The wires, the controls and the cycles of the plan, and how many cycles a block has.
    pub wires: usize,
    pub width: usize,
    pub cycles: u64,
    pub most: u64,
}

impl<'a> RowSource<'a> {
    /// What the rows of a good plan of a sound chip are made from, for contents. `NoMemory` where memory runs out.
    pub fn new<C: Contents>(
        alloc: Global,
        placed: &PlacedPlan<'a>,
        contents: &C,
    ) -> Result<RowSource<'a>, NoMemory>
        requires { wires_of placed.now.plan ≤ 256 }
        ensures soc { IfOk result (λ source. soc_value source.soc.now ≡ placed.now.soc) }
        ensures plan { IfOk result (λ source. plan_value source.plan.now ≡ placed.now.plan) }
        ensures source { IfOk result
            (IsSourceOf (C.keys contents.now) placed.now.soc placed.now.plan) }
    {
        let plan = placed.plan;
        let wires = all_wires(plan) as usize;
        let controls = ControlRows::new(alloc, placed)?;
        let vectors = Vectors::new(alloc, placed, contents)?;
        let width = controls.count();
        let row = line_length(wires).saturating_add(width);
        Ok(RowSource {
            soc: placed.soc,
            plan,
            vectors,
            controls,
            wires,
            width,
            cycles: plan.cycles,
            most: cycles_in_block(row, plan.cycles),
        })
    }

    /// Puts the rows of `count` cycles from one on: the lines of the vectors, and the digits of the controls.
    pub fn fill<C: Contents>(
        &self,
        contents: &C,
        lines: &mut [u8],
        digits: &mut [u8],
        first: u64,
        count: u64,
    )
        requires source { IsSource (C.keys contents.now) self.now }
        requires lines { count * (2 * self.now.wires + 2) ≤ length lines.old }
        requires digits { count * self.now.width ≤ length digits.old }
        requires fits { first + count < 2 ^ 64 }
        ensures lines { length lines.new ≡ length lines.old }
        ensures digits { length digits.new ≡ length digits.old }
        ensures rows { (content : Content) (marks : Marks) →
            StandFor (C.keys contents.now) (C.drive contents.now) (C.mark contents.now)
            (soc_value self.now.soc.now) content marks →
            AreRows
            (row_at (soc_value self.now.soc.now) (plan_value self.now.plan.now) content marks)
            self.now.wires self.now.width lines.new digits.new first count }
    {
        self.vectors.put_lines(contents, lines, first, count);
        self.controls.put_rows(digits, first, count);
    }
}

/// Room for the rows of a block and of the cycle before it, and for parts of the text.
#[derive(Drop)]
pub struct BlockRooms {
    pub lines: Vec<u8>,
    pub digits: Vec<u8>,
    pub text: Vec<u8>,
}

/// `count` bytes.
fn bytes(alloc: Global, count: usize) -> Result<Vec<u8>, NoMemory>
    ensures { IfOk result (λ text. length text.items ≡ count) }
{
    Ok(vec![in alloc; 0u8; count]?)
}

/// As many bytes as `count` times some, where these can be counted.
fn rows_of_bytes(alloc: Global, count: usize, row: usize) -> Result<Vec<u8>, NoMemory>
    ensures { IfOk result (λ text. length text.items ≡ count * row) }
{
    match count.checked_mul(row) {
        Some(size) => bytes(alloc, size),
        None => Err(NoMemory),
    }
}

impl BlockRooms {
    /// Room for the blocks of a source, and for a text with parts of at most `room` bytes. `NoMemory` where memory runs out.
    pub fn new(alloc: Global, source: &RowSource<'_>, room: usize) -> Result<BlockRooms, NoMemory>
        requires narrow { source.now.wires ≤ 256 }
        requires few { source.now.most < 2 ^ 63 }
        ensures { IfOk result (λ rooms. HaveRoom source.now room rooms.lines.items
            rooms.digits.items rooms.text.items) }
    {
        let rows = source.most as usize + 1;
        let lines = rows_of_bytes(alloc, rows, line_length(source.wires))?;
        let digits = rows_of_bytes(alloc, rows, source.width)?;
        let text = bytes(alloc, room.saturating_add(BLOCK))?;
        Ok(BlockRooms {
            lines,
            digits,
            text,
        })
    }
}
