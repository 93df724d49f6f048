//! The program: the words of its command line over the files of the system, standard output and standard error.
#![tactic(auto)]

use commands::{Status, words_after_name};
use outside::{RealShelf, RealSink};
use soctest::soctest_with_progress;
use std::process::ExitCode;

fn main(rt: HostRuntime) -> ExitCode {
    let Some(words) = words_after_name(&rt) else {
        return ExitCode::from(Status::NoMemory.number());
    };
    let mut shelf = RealShelf::new(&rt);
    let mut out = RealSink::new(rt.stdout());
    // only `improve` and `prove` write to it: the handle alone does nothing
    let mut progress = RealSink::new(rt.stderr());
    let status = soctest_with_progress(
        rt.alloc(),
        words.as_slice(),
        &mut shelf,
        &mut out,
        &mut progress,
    );
    ExitCode::from(status.number())
}
