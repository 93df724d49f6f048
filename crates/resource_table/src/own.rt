//! Tables that no frame lends, which may be restarted.
ghost use Rattle.std.specs.Prelude.{◌≡◌, ◌<◌, [], length, IfOk, IfSome};
ghost use Rattle.std.specs.Borrow.{sem};
ghost use Rattle.std.specs.List.{All};
ghost use Rattle.plan_model.specs.declared.TheConstants.{WIRES_MOST};
ghost use Rattle.resource_table.specs.Jobs.{job_value, job_over, IsSoundJob};
ghost use Rattle.resource_table.specs.Lent.{LendsOwn};
ghost use Rattle.resource_table.specs.Schedules.{IsSoundTable};

use crate::Job;
use crate::table::TableOf;
use outside::NoMemory;
use std::alloc::Global;
use std::marker::Model;

/// A table that is lent by no frame, and so may be restarted: there is no placement in it that a frame is to take back.
#[derive(Drop)]
pub struct OwnTable<J> {
    table: TableOf<J>,
}

impl<J> Model for OwnTable<J> {
    ghost use Rattle.resource_table.specs.Schedules.{TableValue};

    ghost Value = { TableValue };

    ghost view = { λ t. t.table };
}

impl<'a> OwnTable<&'a Job> {
    /// An empty table of a sound job. All memory that it ever takes is taken here; `NoMemory` where memory runs out.
    pub fn new(alloc: Global, job: &'a Job) -> Result<OwnTable<&'a Job>, NoMemory>
        requires { IsSoundJob (job_value job.now) }
        ensures empty { IfOk result (λ t. t ≡ record { job = job_value job.now; placed = [] }) }
        ensures sound { IfOk result IsSoundTable }
    {
        let table = TableOf::new(alloc, job)?;
        Ok(OwnTable { table })
    }
}

impl<J> OwnTable<J> {
    /// Lends the table. What is lent can't be restarted.
    pub fn lend(&mut self) -> &mut TableOf<J>
        ensures* lends { sem 𝓛 (LendsOwn J.row self.entry result) }
        ensures value { result.now ≡ self.old }
        ensures sound { IsSoundTable result.now }
    {
        self.table.tables_are_sound();
        &mut self.table
    }

    /// Takes all placements back, and lets each test go over the bus and take the cycles that stand at its place. Powers,
    /// modules and precedences stay. It is then as a new table of that job, and takes no memory: the tests of the job and the
    /// timelines are gone through once. There is room for as many buses as a chip may have.
    pub fn restart(&mut self, buses: &[Option<usize>], lengths: &[u64])
        requires buses { length buses.now ≡ length self.old.job.tests }
        requires lengths { length lengths.now ≡ length self.old.job.tests }
        requires room { All (λ bus. IfSome bus (λ k. k < WIRES_MOST)) buses.now }
        requires sound { IsSoundJob (job_over buses.now lengths.now self.old.job) }
        ensures empty { self.new
            ≡ record { job = job_over buses.now lengths.now self.old.job; placed = [] } }
        ensures sound { IsSoundTable self.new }
    {
        self.table.restart(buses, lengths);
    }
}
