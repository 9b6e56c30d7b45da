//! The commands of the program, over any shelf.
//!
//! A command is judged by the words behind the program's name. It reads its inputs, judges them, makes its texts, and
//! writes its outputs; the answer is the exit status, and for each status other than 0 a line goes to standard error.
//! `specs/Commands.antt` says for all commands what each status means and what it leaves; `specs/Plain.antt`,
//! `specs/RunCommand.antt`, `specs/DriveCommand.antt` and `specs/DumpCommand.antt` say what each command judges and writes.
#![tactic(auto)]

ghost use Rattle.std.specs.Prelude.{◌≡◌, ◌||◌, true};
ghost use Rattle.shelf.specs.Changes.{change};
ghost use Rattle.shelf.specs.Shelf.{NoneFell, StaysSure};
ghost use Rattle.yoda_app.specs.Commands.{IsOutcome, IsUsage};
ghost use Rattle.yoda_app.specs.DriveCommand.{drive_command};
ghost use Rattle.yoda_app.specs.DriveWords.{are_drive};
ghost use Rattle.yoda_app.specs.DumpCommand.{dump_command};
ghost use Rattle.yoda_app.specs.Plain.{plain_command};
ghost use Rattle.yoda_app.specs.RunCommand.{run_command};
ghost use Rattle.yoda_app.specs.RunWords.{are_run};
ghost use Rattle.yoda_app.specs.Words.{texts, are_plain, are_dump};

mod drive;
mod drive_words;
mod dump;
mod dump_line;
mod ending;
mod fault_text;
mod filling;
mod longer_run;
mod output;
mod outs_text;
mod parts;
mod plain;
mod report;
mod run;
mod run_texts;
mod run_words;
mod sent_parts;
mod spliced;
mod texts;
mod windows;
mod words;
mod writing;

use crate::drive::drive;
use crate::drive_words::drive_numbers;
use crate::dump::dump;
pub use crate::ending::refuse_memory;
use crate::ending::{finish, refuse_words};
pub use crate::longer_run::longer_texts;
use crate::plain::plain;
use crate::run::run;
use crate::run_words::run_names;
use crate::words::{dump_name, plain_names};
use shelf::Shelf;
use std::alloc::Global;
use std::sync::Wait;
use std::thread::Threads;

/// The command `plain`, by the words behind the program's name: `plain RULES TRACE SCRIPT OUT REPORT`. It answers the
/// exit status. It always returns, and it answers 2 for another command's words.
pub fn yoda_plain<H: Shelf>(alloc: Global, words: &[String], shelf: &mut H) -> u8
    ensures usage { IsUsage (are_plain (texts words.now)) (change H.content H.faults H.sure shelf.old shelf.new) result }
    ensures outcome { are_plain (texts words.now) ≡ true
        → IsOutcome (plain_command (texts words.now)) (change H.content H.faults H.sure shelf.old shelf.new) result }
    ensures counts { NoneFell (H.faults shelf.old) (H.faults shelf.new) }
    ensures stays { StaysSure (H.sure shelf.old) (H.sure shelf.new) }
{
    match plain_names(words) {
        Some(names) => {
            let done = plain(alloc, shelf, &names);
            finish(shelf, &done)
        }
        None => refuse_words(shelf),
    }
}

/// The command `dump`, by the words behind the program's name: `dump TRACE`. It answers the exit status. It always
/// returns, and it answers 2 for another command's words.
pub fn yoda_dump<H: Shelf>(alloc: Global, words: &[String], shelf: &mut H) -> u8
    ensures usage { IsUsage (are_dump (texts words.now)) (change H.content H.faults H.sure shelf.old shelf.new) result }
    ensures outcome { are_dump (texts words.now) ≡ true
        → IsOutcome (dump_command (texts words.now)) (change H.content H.faults H.sure shelf.old shelf.new) result }
    ensures counts { NoneFell (H.faults shelf.old) (H.faults shelf.new) }
    ensures stays { StaysSure (H.sure shelf.old) (H.sure shelf.new) }
{
    match dump_name(words) {
        Some(trace) => {
            let dumped = dump(alloc, shelf, trace);
            finish(shelf, &dumped)
        }
        None => refuse_words(shelf),
    }
}

/// The command `drive`, by the words behind the program's name: `drive FLOWS BYTES NUMBER`. It answers the exit status. It
/// always returns, and it answers 2 for another command's words.
pub fn yoda_drive<H: Shelf>(alloc: Global, words: &[String], shelf: &mut H) -> u8
    ensures usage { IsUsage (are_drive (texts words.now)) (change H.content H.faults H.sure shelf.old shelf.new) result }
    ensures outcome { are_drive (texts words.now) ≡ true
        → IsOutcome (drive_command (texts words.now)) (change H.content H.faults H.sure shelf.old shelf.new) result }
    ensures counts { NoneFell (H.faults shelf.old) (H.faults shelf.new) }
    ensures stays { StaysSure (H.sure shelf.old) (H.sure shelf.new) }
{
    match drive_numbers(words) {
        Some(numbers) => {
            let driven = drive(alloc, shelf, numbers);
            finish(shelf, &driven)
        }
        None => refuse_words(shelf),
    }
}

// The command `run`, by the words behind the program's name: `run RULES TRACE SCRIPT OUT REPORT JOURNAL`. It answers the
// exit status, and 2 for another command's words. It may wait, for threads.
fn yoda_run<R: Threads + Wait + Sync, H: Shelf>(
    rt: &R,
    alloc: Global,
    words: &[String],
    shelf: &mut H,
) -> u8
    ensures usage { IsUsage (are_run (texts words.now)) (change H.content H.faults H.sure shelf.old shelf.new) result }
    ensures outcome { are_run (texts words.now) ≡ true
        → IsOutcome (run_command (texts words.now)) (change H.content H.faults H.sure shelf.old shelf.new) result }
    ensures counts { NoneFell (H.faults shelf.old) (H.faults shelf.new) }
    ensures stays { StaysSure (H.sure shelf.old) (H.sure shelf.new) }
{
    match run_names(words) {
        Some(names) => {
            let done = run(rt, alloc, shelf, &names);
            finish(shelf, &done)
        }
        None => refuse_words(shelf),
    }
}

/// Any command, by the words behind the program's name. It answers the exit status, by the command's own call. For `run` it
/// may wait, for threads.
pub fn yoda<R: Threads + Wait + Sync, H: Shelf>(
    rt: &R,
    alloc: Global,
    words: &[String],
    shelf: &mut H,
) -> u8
    ensures usage { IsUsage (are_plain (texts words.now) || (are_run (texts words.now) || (are_drive (texts words.now) || are_dump (texts words.now)))) (change H.content H.faults H.sure shelf.old shelf.new) result }
    ensures plain { are_plain (texts words.now) ≡ true
        → IsOutcome (plain_command (texts words.now)) (change H.content H.faults H.sure shelf.old shelf.new) result }
    ensures run { are_run (texts words.now) ≡ true
        → IsOutcome (run_command (texts words.now)) (change H.content H.faults H.sure shelf.old shelf.new) result }
    ensures drive { are_drive (texts words.now) ≡ true
        → IsOutcome (drive_command (texts words.now)) (change H.content H.faults H.sure shelf.old shelf.new) result }
    ensures dump { are_dump (texts words.now) ≡ true
        → IsOutcome (dump_command (texts words.now)) (change H.content H.faults H.sure shelf.old shelf.new) result }
    ensures counts { NoneFell (H.faults shelf.old) (H.faults shelf.new) }
    ensures stays { StaysSure (H.sure shelf.old) (H.sure shelf.new) }
{
    if run_names(words).is_some() {
        yoda_run(rt, alloc, words, shelf)
    } else if drive_numbers(words).is_some() {
        yoda_drive(alloc, words, shelf)
    } else if dump_name(words).is_some() {
        yoda_dump(alloc, words, shelf)
    } else {
        yoda_plain(alloc, words, shelf)
    }
}

#[cfg(test)]
mod tests;
