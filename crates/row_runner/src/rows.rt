//! A file of rows, line by line.

use crate::archs::cycles_of_steps;
use crate::bus_cases::answer_to_proof;
use crate::calls::{printed_again, session_of_plan, under_the_plan};
use crate::comparing::{are_same, takes_fewer};
use crate::keeping::keep_lines;
use crate::lines::{RowLine, line_of, part};
use crate::made_chips::text_of_made_chip;
use crate::plans::{text_of_lower_time, text_of_planned};
use crate::proving::text_of_proved;
use crate::real_files::{hold_data, run_of_real_files, what_a_load_answers};
use crate::rig::Rig;
use crate::row_report::RowReport;
use crate::runs::run_of_command;
use crate::texts::is_text;
use outside::{Loaded, NoMemory, RealShelf, Shelf, copied};
use std::rt::Files;

/// The greatest length of a file of rows, in bytes.
const ROWS_FILE_MOST: u64 = 1_048_576;

/// The answer to a row of this kind. None where there is no such kind.
fn answer_of<R: Files + AllocGlobal>(
    rt: &R,
    rig: &mut Rig,
    kind: &str,
    words: &str,
) -> Result<Option<Vec<u8>>, NoMemory> {
    let answer = match kind {
        "run" => run_of_command(rig, words)?,
        "reported" => copied(rig.alloc(), rig.reported())?,
        "same" => are_same(rig, words)?,
        "fewer" => takes_fewer(rig, words)?,
        "real" => run_of_real_files(rt, words)?,
        "load" => what_a_load_answers(rt, words)?,
        "prints" => printed_again(rig, words)?,
        "stream" | "chip" | "chart" | "best" | "order" | "search" | "frames" => {
            under_the_plan(rig, kind, words)?
        }
        "session" => session_of_plan(rig, words)?,
        "buses" => cycles_of_steps(rig, words)?,
        "plan" => text_of_planned(rig, words)?,
        "lower" => text_of_lower_time(rig, words)?,
        "made" => text_of_made_chip(rig, words)?,
        "proof" => answer_to_proof(rig)?,
        "proved" => text_of_proved(rig, words)?,
        _ => return Ok(None),
    };
    Ok(Some(answer))
}

/// Whether an answer is a status and what a file holds.
fn is_status_and_file(rig: &Rig, status: &str, name: &str, answer: &[u8]) -> bool {
    match answer.strip_prefix(status.as_bytes()) {
        Some([b' ', written @ ..]) => written == rig.bytes_of(name),
        _ => false,
    }
}

/// Whether an answer is what is wanted: a text, or `=` and the name of a file that holds it, maybe behind a status.
fn is_wanted(rig: &Rig, wanted: &str, answer: &[u8]) -> bool {
    if let Some(name) = wanted.strip_prefix("= ") {
        return answer == rig.bytes_of(name);
    }
    let (status, text) = part(wanted);
    match text.strip_prefix("= ") {
        Some(name) => is_status_and_file(rig, status, name, answer),
        None => is_text(wanted, answer),
    }
}

/// Goes by one line of a file of rows. Where it fails, what is said of it.
fn said_of_line<R: Files + AllocGlobal>(
    rt: &R,
    rig: &mut Rig,
    report: &mut RowReport,
    line: RowLine<'_>,
) -> Result<Option<Vec<u8>>, NoMemory> {
    match line {
        RowLine::Blank => {}
        RowLine::Hold { name, text } => rig.hold(name, text)?,
        RowLine::More { name, copies, text } => rig.hold_more(name, copies, text)?,
        RowLine::Data { name, file } => {
            if !hold_data(rt, rig, name, file)? {
                return Ok(Some(copied(rt.alloc(), b"cannot be read")?));
            }
        }
        RowLine::Keep { name, begin, end } => keep_lines(rig, name, begin, end)?,
        RowLine::Loads { failing } => rig.renew_shelf(failing)?,
        RowLine::Puts { shape } => rig.set_output(shape)?,
        RowLine::Reports { shape } => rig.set_second_output(shape)?,
        RowLine::Row {
            kind,
            words,
            wanted,
        } => {
            let Some(answer) = answer_of(rt, rig, kind, words)? else {
                return Ok(Some(copied(rt.alloc(), b"no row")?));
            };
            if !is_wanted(rig, wanted, &answer) {
                return Ok(Some(answer));
            }
            report.pass();
        }
    }
    Ok(None)
}

/// Goes by the lines of a file of rows.
pub fn take_file<R: Files + AllocGlobal>(
    rt: &R,
    report: &mut RowReport,
    name: &str,
) -> Result<(), NoMemory> {
    let mut shelf = RealShelf::new(rt);
    let mut bytes = Vec::new(rt.alloc());
    let loaded = shelf.load(name, ROWS_FILE_MOST, &mut bytes);
    let (Loaded::Whole, Ok(text)) = (loaded, str::from_utf8(&bytes)) else {
        return report.fail(name, 0, b"cannot be read");
    };
    let mut rig = Rig::new(rt.alloc());
    let mut place = 0u64;
    for line in text.lines() {
        place = place.saturating_add(1);
        if let Some(said) = said_of_line(rt, &mut rig, report, line_of(line))? {
            report.fail(name, place, &said)?;
        }
    }
    Ok(())
}
