//! The cycles of each module on each width, and which modules take the most of them.
ghost use Rattle.std.specs.Prelude.{◌≡◌, ◌+◌, ◌<◌, ◌≤◌, length, IfOk};
ghost use Rattle.std.specs.List.{All};
ghost use Rattle.resource_table.specs.Jobs.{JobValue};
ghost use Rattle.arch_schedule.specs.Problems.{IsProblem};
ghost use Rattle.arch_schedule.specs.Times.{IsRow, IsColumn, IsRanking, AreTimes, AreTimesOf};

use crate::problem::TimedTests;
use crate::room::zeros;
use crate::sorting::sorted_by;
use outside::{NoMemory, push};
use std::alloc::Global;

/// The cycles of a module.
#[derive(Drop)]
pub struct ModuleCycles {
    /// The cycles that its tests over the wires take together, for each number of wires of the bus, from none on. On none it
    /// can't be tested, which stands as the greatest number.
    pub cycles: Vec<u64>,
}

/// The cycles of all modules on one width.
#[derive(Drop)]
pub struct Column {
    /// For each module its cycles there.
    pub cycles: Vec<u64>,
}

/// The modules in an order.
#[derive(Drop)]
pub struct Ranking {
    /// Their places among the modules with tests over the wires.
    pub modules: Vec<usize>,
}

/// The cycles of all modules with tests over the wires.
#[derive(Drop)]
pub struct Times {
    /// The greatest width.
    pub wires: usize,
    /// For each module its cycles.
    pub rows: Vec<ModuleCycles>,
    /// These cycles by width, from none on, so that a sum over the modules goes through one list.
    pub columns: Vec<Column>,
    /// For each width, from none on, the modules, those of the most cycles first.
    pub rankings: Vec<Ranking>,
}

impl Times {
    /// The cycles of a module on a bus of `width` wires.
    pub fn on(&self, module: usize, width: u64) -> u64
        requires times { AreTimes self.now }
        requires there { «module» < length self.now.rows.items }
        requires within { width ≤ self.now.wires }
    {
        self.rows[module].cycles[width as usize]
    }

    /// The cycles of all modules on a bus of `width` wires.
    pub(crate) fn column(&self, width: u64) -> &[u64]
        requires times { AreTimes self.now }
        requires within { width ≤ self.now.wires }
        ensures { length result.now ≡ length self.now.rows.items }
    {
        &self.columns[width as usize].cycles
    }

    /// The modules, those of the most cycles on `width` wires first.
    pub fn ranked(&self, width: u64) -> &[usize]
        requires times { AreTimes self.now }
        requires within { width ≤ self.now.wires }
        ensures { All (λ m. m < length self.now.rows.items) result.now }
    {
        &self.rankings[width as usize].modules
    }
}

/// The cycles of a module without tests.
fn empty_row(alloc: Global, wires: usize) -> Result<ModuleCycles, NoMemory>
    requires { wires ≤ 256 }
    ensures { IfOk result (IsRow wires) }
{
    let mut cycles = zeros(alloc, wires + 1)?;
    cycles[0] = u64::MAX;
    Ok(ModuleCycles { cycles })
}

/// The cycles of `modules` modules without tests.
fn empty_rows(alloc: Global, modules: usize, wires: usize) -> Result<Vec<ModuleCycles>, NoMemory>
    requires { wires ≤ 256 }
    ensures long { IfOk result (λ rows. length rows.items ≡ modules) }
    ensures rows { IfOk result (λ rows. All (IsRow wires) rows.items) }
{
    let mut rows = Vec::new(alloc);
    for _module in 0..modules {
        let row = empty_row(alloc, wires)?;
        push(&mut rows, row)?;
    }
    Ok(rows)
}

/// Adds the cycles of a test to those of its module.
fn add_cycles(sums: &mut [u64], cycles: &[u64])
    requires { length cycles.now ≡ length sums.old }
    ensures { length sums.new ≡ length sums.old }
{
    for width in 0..sums.len() {
        sums[width] = sums[width].saturating_add(cycles[width]);
    }
}

/// Adds a test to its module, where it is over the wires.
fn add_test(rows: &mut Vec<ModuleCycles>, problem: &TimedTests, test: usize)
    requires problem { (job : JobValue) × IsProblem job problem.now }
    requires test { test < length problem.now.tests.items }
    requires long { length rows.old.items ≡ length problem.now.modules.items }
    requires rows { All (IsRow problem.now.wires) rows.old.items }
    ensures long { length rows.new.items ≡ length rows.old.items }
    ensures rows { All (IsRow problem.now.wires) rows.new.items }
{
    let Some(module) = problem.tests[test].module else {
        return;
    };
    add_cycles(&mut rows[module].cycles, &problem.tests[test].cycles);
}

/// For each module its cycles.
fn rows_of(alloc: Global, problem: &TimedTests) -> Result<Vec<ModuleCycles>, NoMemory>
    requires { (job : JobValue) × IsProblem job problem.now }
    ensures long { IfOk result (λ rows. length rows.items ≡ length problem.now.modules.items) }
    ensures rows { IfOk result (λ rows. All (IsRow problem.now.wires) rows.items) }
{
    let mut rows = empty_rows(alloc, problem.modules.len(), problem.wires)?;
    for test in 0..problem.tests.len() {
        add_test(&mut rows, problem, test);
    }
    Ok(rows)
}

/// The cycles of the modules on a width.
fn column_of(
    alloc: Global,
    problem: &TimedTests,
    rows: &[ModuleCycles],
    width: usize,
) -> Result<Column, NoMemory>
    requires rows { All (IsRow problem.now.wires) rows.now }
    requires long { length rows.now ≡ length problem.now.modules.items }
    requires width { width ≤ problem.now.wires }
    ensures { IfOk result (IsColumn (length problem.now.modules.items)) }
{
    let mut cycles = zeros(alloc, problem.modules.len())?;
    for module in 0..cycles.len() {
        cycles[module] = rows[module].cycles[width];
    }
    Ok(Column { cycles })
}

/// For each width the cycles of the modules.
fn columns_of(
    alloc: Global,
    problem: &TimedTests,
    rows: &[ModuleCycles],
) -> Result<Vec<Column>, NoMemory>
    requires few_wires { problem.now.wires ≤ 256 }
    requires rows { All (IsRow problem.now.wires) rows.now }
    requires long { length rows.now ≡ length problem.now.modules.items }
    ensures long { IfOk result (λ columns. length columns.items ≡ problem.now.wires + 1) }
    ensures columns { IfOk result
        (λ columns. All (IsColumn (length problem.now.modules.items)) columns.items) }
{
    let mut columns = Vec::new(alloc);
    for width in 0..problem.wires + 1 {
        let column = column_of(alloc, problem, rows, width)?;
        push(&mut columns, column)?;
    }
    Ok(columns)
}

/// What the modules are sorted by for a width: the fewer, the more cycles they take.
fn ranks(
    alloc: Global,
    problem: &TimedTests,
    rows: &[ModuleCycles],
    width: usize,
) -> Result<Vec<u64>, NoMemory>
    requires rows { All (IsRow problem.now.wires) rows.now }
    requires long { length rows.now ≡ length problem.now.modules.items }
    requires width { width ≤ problem.now.wires }
    ensures { IfOk result (λ keys. length keys.items ≡ length problem.now.modules.items) }
{
    let mut keys = zeros(alloc, problem.modules.len())?;
    for module in 0..keys.len() {
        keys[module] = u64::MAX - rows[module].cycles[width];
    }
    Ok(keys)
}

/// The modules, those of the most cycles on a width first.
fn ranking_of(
    alloc: Global,
    problem: &TimedTests,
    rows: &[ModuleCycles],
    width: usize,
) -> Result<Ranking, NoMemory>
    requires rows { All (IsRow problem.now.wires) rows.now }
    requires long { length rows.now ≡ length problem.now.modules.items }
    requires width { width ≤ problem.now.wires }
    ensures { IfOk result (IsRanking (length problem.now.modules.items)) }
{
    let keys = ranks(alloc, problem, rows, width)?;
    let modules = sorted_by(alloc, &keys)?;
    Ok(Ranking { modules })
}

/// For each width the modules, those of the most cycles first.
fn rankings_of(
    alloc: Global,
    problem: &TimedTests,
    rows: &[ModuleCycles],
) -> Result<Vec<Ranking>, NoMemory>
    requires few_wires { problem.now.wires ≤ 256 }
    requires rows { All (IsRow problem.now.wires) rows.now }
    requires long { length rows.now ≡ length problem.now.modules.items }
    ensures long { IfOk result (λ rankings. length rankings.items ≡ problem.now.wires + 1) }
    ensures rankings { IfOk result
        (λ rankings. All (IsRanking (length problem.now.modules.items)) rankings.items) }
{
    let mut rankings = Vec::new(alloc);
    for width in 0..problem.wires + 1 {
        let ranking = ranking_of(alloc, problem, rows, width)?;
        push(&mut rankings, ranking)?;
    }
    Ok(rankings)
}

/// The cycles of a problem's modules. `NoMemory` where memory runs out.
pub fn times_of(alloc: Global, problem: &TimedTests) -> Result<Times, NoMemory>
    requires { (job : JobValue) × IsProblem job problem.now }
    ensures { IfOk result (AreTimesOf problem.now) }
{
    let rows = rows_of(alloc, problem)?;
    let columns = columns_of(alloc, problem, &rows)?;
    let rankings = rankings_of(alloc, problem, &rows)?;
    Ok(Times {
        wires: problem.wires,
        rows,
        columns,
        rankings,
    })
}
