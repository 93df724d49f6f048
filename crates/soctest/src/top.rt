//! The top call of every command: it decides first, and then writes once.
ghost use Rattle.std.specs.Prelude.{◌≡◌, ◌≤◌, None, map, string_bytes};
ghost use Rattle.outside.specs.Held.{Rose};
ghost use Rattle.commands.specs.Commands.{command_of as asked_command};
ghost use Rattle.commands.specs.Promises.{IsTopCall};
ghost use Rattle.soctest.specs.Commands.{EndsByCommand, fixes_text, requested};
ghost use Rattle.soctest.specs.Headlines.{Headline};
ghost use Rattle.soctest.specs.Reports.{IsQuiet, MayReport};

use crate::deciding::decide;
use bound_commands::bounds_are_trustworthy;
use commands::{Status, Unheard, command_of, files_say_one_thing, plans_are_trustworthy};
use outside::{Shelf, Sink};
use plan_commands::plans_are_told_right;
use plan_text::printed_plans_are_read;
use std::alloc::Global;
use tester_commands::write_ending;

/// Runs the command of these words over the files of a shelf, and writes its answer.
///
/// Files are taken in the order of the command. The first that can't be read, is too long or is refused decides, and
/// nothing later is loaded. All memory is taken before the first byte is written; each line ends with a line feed. Nothing is
/// reported while a long search runs; `soctest_with_progress` is the same with reports.
pub fn soctest<H: Shelf, K: Sink>(
    alloc: Global,
    words: &[String],
    shelf: &mut H,
    out: &mut K,
) -> Status
    ensures held_stays { H.held shelf.new ≡ H.held shelf.old }
    ensures faults_never_fall { (H.faults shelf.old ≤ H.faults shelf.new)
        × (K.faults out.old ≤ K.faults out.new) }

    // What is promised of every answer.
    ensures answers { IsTopCall H.is_load K.is_put
        (fixes_text (asked_command (map string_bytes words.now)))
        (requested (asked_command (map string_bytes words.now))) (H.held shelf.old) shelf.old
        shelf.new (H.faults shelf.old) (H.faults shelf.new) out.old out.new (K.faults out.old)
        (K.faults out.new) (K.written out.old) result (K.written out.new) }

    // The words are bad exactly where they are no command; then no file is loaded.
    ensures by_words { EndsByCommand (asked_command (map string_bytes words.now))
        (Rose (K.faults out.old) (K.faults out.new)) result }
    ensures untouched { asked_command (map string_bytes words.now) ≡ None →
        shelf.new ≡ shelf.old }

    // The headline: a plan that is printed or accepted, by any command, runs right, and its bound is one; beside it what each
    // command promises of its answer.
    ensures headline { Headline (asked_command (map string_bytes words.now)) (H.held shelf.old)
        (K.written out.old) result (K.written out.new) }
{
    let mut progress = Unheard;
    soctest_with_progress(alloc, words, shelf, out, &mut progress)
}

/// Runs a command as `soctest` does, and reports on `progress` how far a long search is.
///
/// `improve` reports at each tenth of its tries from 100,000 tries on, and `prove` at each tenth of its nodes from 10,000 nodes on.
/// All other commands leave `progress` as it is, and what becomes of a report changes nothing else.
pub fn soctest_with_progress<H: Shelf, K: Sink, T: Sink>(
    alloc: Global,
    words: &[String],
    shelf: &mut H,
    out: &mut K,
    progress: &mut T,
) -> Status
    ensures held_stays { H.held shelf.new ≡ H.held shelf.old }
    ensures faults_never_fall { (H.faults shelf.old ≤ H.faults shelf.new)
        × (K.faults out.old ≤ K.faults out.new) × (T.faults progress.old ≤ T.faults progress.new) }

    // What is promised of every answer.
    ensures answers { IsTopCall H.is_load K.is_put
        (fixes_text (asked_command (map string_bytes words.now)))
        (requested (asked_command (map string_bytes words.now))) (H.held shelf.old) shelf.old
        shelf.new (H.faults shelf.old) (H.faults shelf.new) out.old out.new (K.faults out.old)
        (K.faults out.new) (K.written out.old) result (K.written out.new) }

    // The words are bad exactly where they are no command; then no file is loaded.
    ensures by_words { EndsByCommand (asked_command (map string_bytes words.now))
        (Rose (K.faults out.old) (K.faults out.new)) result }
    ensures untouched { asked_command (map string_bytes words.now) ≡ None →
        shelf.new ≡ shelf.old }

    // Nothing is reported but by `improve` and `prove`, of long searches.
    ensures quiet { IsQuiet (asked_command (map string_bytes words.now)) →
        progress.new ≡ progress.old }
    ensures reported { MayReport (asked_command (map string_bytes words.now))
        (T.written progress.old) (T.written progress.new) }

    // The headline: a plan that is printed or accepted, by any command, runs right, and its bound is one; beside it what each
    // command promises of its answer.
    ensures headline { Headline (asked_command (map string_bytes words.now)) (H.held shelf.old)
        (K.written out.old) result (K.written out.new) }
{
    files_say_one_thing();
    plans_are_trustworthy();
    plans_are_told_right();
    bounds_are_trustworthy();
    printed_plans_are_read();
    let command = command_of(words);
    let ending = decide(alloc, command, shelf, progress);
    write_ending(alloc, ending, out)
}
