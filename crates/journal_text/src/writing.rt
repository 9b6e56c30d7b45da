// The lines of a journal.
ghost use Rattle.std.specs.Prelude.{◌≡◌, ◌++◌, length, map, take, IfOk, OnOk, OnErr};
ghost use Rattle.std.specs.String.{string_bytes};
ghost use Rattle.journal_text.specs.Journals.{entry_text, shard_text, journal_text};

use bench::Call;
use seen_lock::Entry;
use std::alloc::{AllocError, Global};

// Adds the line of a call.
fn add_entry(text: &mut String, entry: &Entry<Call>) -> Result<(), AllocError>
    ensures { OnOk result (string_bytes text.new ≡ string_bytes text.old ++ entry_text entry.now) }
{
    match &entry.call {
        Call::Take { instance, item, .. } => write!(text, "take {instance} {item}\n"),
        Call::Step { instance } => write!(text, "step {instance}\n"),
        Call::Crash { instance } => write!(text, "crash {instance}\n"),
        Call::Fail { place } => write!(text, "fail {place}\n"),
    }
}

// The text of the shard with this number, which has this history.
fn history_text(alloc: Global, shard: usize, history: &[Entry<Call>]) -> Result<String, AllocError>
    ensures { IfOk result (λ text. string_bytes text ≡ shard_text shard history.now) }
{
    let mut text = String::new(alloc);
    write!(text, "shard {shard}\n")?;
    for entry in history {
        add_entry(&mut text, entry)?;
    }
    Ok(text)
}

/// Appends the journal of these histories, one for each shard, from shard 0 on. The one error is want of memory, and then
/// `out` begins with what it held.
pub fn journal(histories: &[Vec<Entry<Call>>], out: &mut Vec<u8>) -> Result<(), AllocError>
    ensures text { OnOk result (out.new.items ≡ out.old.items ++ journal_text (map (λ h. h.items) histories.now)) }
    ensures refused { OnErr result (take (length out.old.items) out.new.items ≡ out.old.items) }
{
    let alloc = *out.allocator();
    let mut rest = histories;
    let mut shard = 0;
    while let [history, after @ ..] = rest {
        let text = history_text(alloc, shard, history)?;
        out.extend_from_slice(text.as_bytes())?;
        shard += 1;
        rest = after;
    }
    Ok(())
}
