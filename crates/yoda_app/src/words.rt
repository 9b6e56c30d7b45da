// The words of a command line behind the program's name.
ghost use Rattle.std.specs.Prelude.{◌≡◌, ◌<◌, length, IfOk, IfSome, is_some};
ghost use Rattle.std.specs.List.{list_any};
ghost use Rattle.std.specs.Str.{bytes_eq};
ghost use Rattle.std.specs.String.{string_bytes};
ghost use Rattle.yoda_app.specs.Plain.{paths, plain_paths};
ghost use Rattle.yoda_app.specs.Words.{texts, word, is_file_name, is_report_name, all_differ, are_plain, are_dump};

use plain_run::Names;
use rule_text::Name;
use std::alloc::{AllocError, Global};

/// The names that `plain` is given.
#[derive(Clone, Copy)]
pub struct PlainNames<'a> {
    pub rules: &'a str,
    pub trace: &'a str,
    pub script: &'a str,
    pub out: &'a str,
    pub report: &'a str,
}

/// A name of its own, a copy of the word. The one error is want of memory.
pub fn name_of(alloc: Global, word: &str) -> Result<Name, AllocError>
    ensures { IfOk result (λ name. name ≡ word.now) }
{
    let text = String::from_str(alloc, word)?;
    Ok(Name::new(text))
}

/// The names of the inputs among them, each a copy of its word. The one error is want of memory.
pub fn input_names(alloc: Global, names: &PlainNames<'_>) -> Result<Names, AllocError>
    ensures { IfOk result (λ n. n ≡ record { rules = names.now.rules.now; trace = names.now.trace.now; script = names.now.script.now }) }
{
    Ok(Names {
        rules: name_of(alloc, names.rules)?,
        trace: name_of(alloc, names.trace)?,
        script: name_of(alloc, names.script)?,
    })
}

/// Whether a file can have this name.
pub fn is_file_name(name: &str) -> bool
    ensures { result ≡ is_file_name name.now }
{
    !(name.is_empty() || name == "-" || name == "!")
}

/// Whether the report can have this name.
pub fn is_report_name(name: &str) -> bool
    ensures { result ≡ is_report_name name.now }
{
    name == "-" || is_file_name(name)
}

fn has(names: &[String], name: &str) -> bool
    ensures { result ≡ list_any (λ w. bytes_eq (string_bytes w) name.now) names.now }
{
    names.iter().any(|other| other.as_str() == name)
}

/// Whether no name stands there twice.
pub fn all_differ(names: &[String]) -> bool
    ensures { result ≡ all_differ (texts names.now) }
{
    match names.split_first() {
        Some((first, rest)) => !has(rest, first.as_str()) && all_differ(rest),
        None => true,
    }
}

/// The word at this place.
pub fn word_at(words: &[String], at: usize) -> &str
    requires { at < length words.now }
    ensures { result.now ≡ word at (texts words.now) }
{
    words[at].as_str()
}

/// The names, where the words are those of `plain`.
pub fn plain_names(words: &[String]) -> Option<PlainNames<'_>>
    ensures is_plain { is_some result ≡ are_plain (texts words.now) }
    ensures names { IfSome result (λ n. paths n ≡ plain_paths (texts words.now)) }
{
    if words.len() != 6 {
        return None;
    }
    let names = PlainNames {
        rules: word_at(words, 1),
        trace: word_at(words, 2),
        script: word_at(words, 3),
        out: word_at(words, 4),
        report: word_at(words, 5),
    };
    let well_formed = word_at(words, 0) == "plain"
        && is_file_name(names.rules)
        && is_file_name(names.trace)
        && is_file_name(names.script)
        && is_file_name(names.out)
        && is_report_name(names.report)
        && all_differ(&words[1..]);
    if well_formed { Some(names) } else { None }
}

/// The trace's name, where the words are those of `dump`.
pub fn dump_name(words: &[String]) -> Option<&str>
    ensures is_dump { is_some result ≡ are_dump (texts words.now) }
    ensures trace { IfSome result (λ n. n.now ≡ word 1 (texts words.now)) }
{
    if words.len() != 2 {
        return None;
    }
    let trace = word_at(words, 1);
    if word_at(words, 0) == "dump" && is_file_name(trace) {
        Some(trace)
    } else {
        None
    }
}
