//! A run of vectors and its text.
ghost use Rattle.std.specs.Prelude.{◌≡◌, ◌+◌, ◌*◌, ◌++◌, ◌<◌, ◌≤◌, length, max, nat_lt, take, IfOk, OnOk, OnErr, true, false};
ghost use Rattle.soc_model.specs.Chips.{soc_value};
ghost use Rattle.outside.specs.Held.{Rose, Appended, AppendedFront};
ghost use Rattle.outside.specs.Puts.{Puts};
ghost use Rattle.plan_model.specs.Views.{plan_value};
ghost use Rattle.plan_model.specs.Runs.{Content};
ghost use Rattle.vector_lines.specs.Wires.{wires_of};
ghost use Rattle.vector_lines.specs.Marks.{Marks};
ghost use Rattle.vector_lines.specs.Placed.{StandFor};
ghost use Rattle.tester_vectors.specs.VectorText.{head_line, marked_text, more_than, too_many};
ghost use Rattle.tester_vectors.specs.Lines.{lines_of, IsRun, IsSamePlan};

use crate::RUN_MOST;
use live_tests::{PlacedPlan, all_wires};
use outside::{NoMemory, Sink, WriteFault, extend, push_number, put_all};
use plan_model::Plan;
use soc_model::Soc;
use std::alloc::Global;
use vector_lines::{Contents, Vectors};

/// How many bytes of lines are written at a time, some.
const BLOCK: usize = 65_536;

/// Cycles times wires; without wires, times 1.
fn wire_cycles(cycles: u64, wires: u64) -> u128
    ensures { result ≡ cycles * max 1 wires }
{
    u128::from(cycles) * u128::from(wires.max(1))
}

/// Whether a number is above another.
fn is_above(most: u128, cells: u128) -> bool
    ensures { result ≡ nat_lt most cells }
{
    cells > most
}

/// The cycles of a plan times its wires, where these are more than `most`; a plan without wires counts as one of one wire.
pub fn cells_over(most: u128, plan: &Plan) -> Option<u128>
    requires { wires_of (plan_value plan.now) ≤ 256 }
    ensures { result ≡ more_than most (plan_value plan.now) }
{
    let cells = wire_cycles(plan.cycles, all_wires(plan));
    if is_above(most, cells) {
        Some(cells)
    } else {
        None
    }
}

/// The cycles of a plan times its wires, where these are more than [`RUN_MOST`]; a plan without wires counts as one of one
/// wire. None comes exactly where its run isn't too long.
pub fn too_many_cells(plan: &Plan) -> Option<u128>
    requires { wires_of (plan_value plan.now) ≤ 256 }
    ensures { result ≡ too_many (plan_value plan.now) }
{
    cells_over(RUN_MOST, plan)
}

/// The characters of a cycle's line: two for each wire, a space and a line feed.
fn line_length(wires: usize) -> usize
    requires { wires ≤ 256 }
    ensures { result ≡ 2 * wires + 2 }
{
    2 * wires + 2
}

/// How many lines a block has, at least one: some [`BLOCK`] bytes, and no more lines than there are.
fn lines_in_block(line: usize, cycles: u64) -> u64
    requires { 1 ≤ line }
    ensures some { 1 ≤ result }
    ensures few { result * line ≤ 65536 + line }
{
    ((BLOCK / line) as u64).min(cycles).max(1)
}

/// `count` bytes.
fn bytes(alloc: Global, count: usize) -> Result<Vec<u8>, NoMemory>
    ensures { IfOk result (λ text. length text.items ≡ count) }
{
    Ok(vec![in alloc; 0u8; count]?)
}

/// Appends the first line.
fn push_head(text: &mut Vec<u8>, wires: u64, cycles: u64) -> Result<(), NoMemory>
    ensures { OnOk result (text.new.items ≡ text.old.items ++ head_line wires cycles) }
{
    extend(text, b"vectors ")?;
    push_number(text, u128::from(wires))?;
    extend(text, b" ")?;
    push_number(text, u128::from(cycles))?;
    extend(text, b"\n")
}

/// All that a run of vectors needs, before its first cycle.
#[derive(Drop)]
pub struct Run<'a> {
    soc: &'a Soc,
    plan: &'a Plan,
    vectors: Vectors,
    /// The first line.
    head: Vec<u8>,
    /// The bytes of a line, the lines of a block, and the block.
    line: usize,
    lines: u64,
    block: Vec<u8>,
}

impl<'a> Run<'a> {
    /// A run of a placed plan, for contents.
    pub fn new<C: Contents>(
        alloc: Global,
        placed: &PlacedPlan<'a>,
        contents: &C,
        wires: u64,
    ) -> Result<Run<'a>, NoMemory>
        requires wires { wires ≡ wires_of placed.now.plan }
        requires few { wires ≤ 256 }
        ensures soc { IfOk result (λ run. soc_value run.soc.now ≡ placed.now.soc) }
        ensures plan { IfOk result (λ run. plan_value run.plan.now ≡ placed.now.plan) }
        ensures run { IfOk result (IsRun (C.keys contents.now)) }
    {
        let (soc, plan) = (placed.soc, placed.plan);
        let line = line_length(wires as usize);
        let lines = lines_in_block(line, plan.cycles);
        let block = bytes(alloc, lines as usize * line)?;
        let vectors = Vectors::new(alloc, placed, contents)?;
        let mut head = Vec::new(alloc);
        push_head(&mut head, wires, plan.cycles)?;
        Ok(Run {
            soc,
            plan,
            vectors,
            head,
            line,
            lines,
            block,
        })
    }

    /// Fills the block with the lines from a cycle on, as many as it has room for, and answers how many these are.
    fn next_block<C: Contents>(&mut self, contents: &C, done: u64) -> u64
        requires run { IsRun (C.keys contents.now) self.old }
        requires left { done < (plan_value self.old.plan.now).cycles }
        ensures some { 1 ≤ result }
        ensures within { done + result ≤ (plan_value self.old.plan.now).cycles }
        ensures run { IsRun (C.keys contents.now) self.new }
        ensures same { IsSamePlan self.old self.new }
        ensures line { self.new.line ≡ self.old.line }
        ensures size { result * self.new.line ≤ length self.new.block.items }
        ensures text { (content : Content) (marks : Marks) →
            StandFor (C.keys contents.now) (C.drive contents.now) (C.mark contents.now)
            (soc_value self.old.soc.now) content marks →
            take (result * self.new.line) self.new.block.items
            ≡ lines_of (soc_value self.old.soc.now) (plan_value self.old.plan.now) content marks
            done result }
    {
        let count = self.lines.min(self.plan.cycles - done);
        self.vectors
            .put_lines(contents, &mut self.block, done, count);
        count
    }

    /// Writes the whole text: the first line by itself, and then block by block, each of whole lines. The run serves again.
    pub fn write<C: Contents, K: Sink>(
        &mut self,
        contents: &C,
        out: &mut K,
    ) -> Result<(), WriteFault>
        requires run { IsRun (C.keys contents.now) self.old }
        ensures faults_never_fall { K.faults out.old ≤ K.faults out.new }
        ensures all { (content : Content) (marks : Marks) →
            StandFor (C.keys contents.now) (C.drive contents.now) (C.mark contents.now)
            (soc_value self.old.soc.now) content marks →
            OnOk result (Appended (K.written out.old)
            (marked_text (soc_value self.old.soc.now) (plan_value self.old.plan.now) content
            marks) (K.written out.new)) }
        ensures front { (content : Content) (marks : Marks) →
            StandFor (C.keys contents.now) (C.drive contents.now) (C.mark contents.now)
            (soc_value self.old.soc.now) content marks →
            OnErr result (AppendedFront (K.written out.old)
            (marked_text (soc_value self.old.soc.now) (plan_value self.old.plan.now) content
            marks) (K.written out.new)) }
        ensures fault { OnErr result (Rose (K.faults out.old) (K.faults out.new)) }
        ensures none_failed { OnOk result (Puts K.is_put out.old false out.new) }
        ensures last_failed { OnErr result (Puts K.is_put out.old true out.new) }
    {
        put_all(out, &self.head)?;
        match self.write_lines(contents, self.plan.cycles, out) {
            Ok(()) => Ok(()),
            Err(fault) => Err(fault),
        }
    }

    /// Writes the lines of all cycles.
    fn write_lines<C: Contents, K: Sink>(
        &mut self,
        contents: &C,
        cycles: u64,
        out: &mut K,
    ) -> Result<(), WriteFault>
        requires run { IsRun (C.keys contents.now) self.old }
        requires cycles { cycles ≡ (plan_value self.old.plan.now).cycles }
        ensures faults_never_fall { K.faults out.old ≤ K.faults out.new }
        ensures all { (content : Content) (marks : Marks) →
            StandFor (C.keys contents.now) (C.drive contents.now) (C.mark contents.now)
            (soc_value self.old.soc.now) content marks →
            OnOk result (Appended (K.written out.old)
            (lines_of (soc_value self.old.soc.now) (plan_value self.old.plan.now) content marks
            0 cycles) (K.written out.new)) }
        ensures front { (content : Content) (marks : Marks) →
            StandFor (C.keys contents.now) (C.drive contents.now) (C.mark contents.now)
            (soc_value self.old.soc.now) content marks →
            OnErr result (AppendedFront (K.written out.old)
            (lines_of (soc_value self.old.soc.now) (plan_value self.old.plan.now) content marks
            0 cycles) (K.written out.new)) }
        ensures fault { OnErr result (Rose (K.faults out.old) (K.faults out.new)) }
        ensures none_failed { OnOk result (Puts K.is_put out.old false out.new) }
        ensures last_failed { OnErr result (Puts K.is_put out.old true out.new) }
    {
        let mut done = 0;
        while done < cycles {
            let count = self.next_block(contents, done);
            let size = count as usize * self.line;
            put_all(out, &self.block[..size])?;
            done += count;
        }
        Ok(())
    }
}
