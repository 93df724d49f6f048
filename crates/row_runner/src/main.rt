//! Runs rows of data: what the commands answer to files and words that are held in memory, and what a few calls answer that
//! no command makes. The words of the command line name the files of rows. A line is printed for each row whose answer
//! differs, and then how many rows passed.
#![tactic(auto)]

mod archs;
mod bus_cases;
mod calls;
mod chips;
mod comparing;
mod frames;
mod held;
mod keeping;
mod lines;
mod made_chips;
mod plans;
mod proving;
mod real_files;
mod rig;
mod row_report;
mod rows;
mod runs;
mod searches;
mod sessions;
mod texts;

use crate::row_report::RowReport;
use crate::rows::take_file;
use outside::{NoMemory, RealSink, put_all};
use std::env;
use std::process::ExitCode;
use std::rt::{Env, Files};

/// Goes by the files of rows that the command line names.
fn take_files<R: Env + Files + AllocGlobal>(rt: &R) -> Result<RowReport, NoMemory> {
    let mut report = RowReport::new(rt.alloc());
    let Ok(names) = env::args(rt) else {
        return Err(NoMemory);
    };
    for name in names.skip(1) {
        take_file(rt, &mut report, name.as_str())?;
    }
    report.end()?;
    Ok(report)
}

fn main(rt: HostRuntime) -> ExitCode {
    let Ok(report) = take_files(&rt) else {
        return ExitCode::from(6);
    };
    let mut out = RealSink::new(rt.stdout());
    match put_all(&mut out, report.text()) {
        Ok(()) if report.is_clean() => ExitCode::from(0),
        _ => ExitCode::from(1),
    }
}
