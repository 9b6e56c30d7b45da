// The words of the command `run`.
ghost use Rattle.std.specs.Prelude.{◌≡◌, ◌<◌, IfSome, is_some, length};
ghost use Rattle.yoda_app.specs.RunWords.{name_files, are_run, given_paths, run_paths};
ghost use Rattle.yoda_app.specs.Words.{texts};

use crate::words::{PlainNames, all_differ, is_file_name, is_report_name, word_at};

/// The names that `run` is given.
#[derive(Clone, Copy)]
pub struct RunNames<'a> {
    /// Those that `plain` has too.
    pub plain: PlainNames<'a>,
    pub journal: &'a str,
}

// Whether the words from the second to the fifth can be names of files.
fn name_files(words: &[String]) -> bool
    requires { 4 < length words.now }
    ensures { result ≡ name_files (texts words.now) }
{
    is_file_name(word_at(words, 1))
        && is_file_name(word_at(words, 2))
        && is_file_name(word_at(words, 3))
        && is_file_name(word_at(words, 4))
}

/// The names, where the words are those of `run`.
pub fn run_names(words: &[String]) -> Option<RunNames<'_>>
    ensures is_run { is_some result ≡ are_run (texts words.now) }
    ensures names { IfSome result (λ n. given_paths n ≡ run_paths (texts words.now)) }
{
    if words.len() != 7 {
        return None;
    }
    let plain = PlainNames {
        rules: word_at(words, 1),
        trace: word_at(words, 2),
        script: word_at(words, 3),
        out: word_at(words, 4),
        report: word_at(words, 5),
    };
    let journal = word_at(words, 6);
    let well_formed = word_at(words, 0) == "run"
        && name_files(words)
        && is_report_name(plain.report)
        && is_file_name(journal)
        && all_differ(&words[1..]);
    if well_formed {
        Some(RunNames { plain, journal })
    } else {
        None
    }
}
