//! What an instance comes to keep of a flow: the records that a handling was answered with, once it has opened the flow or
//! passed a segment of it on.

ghost use Rattle.std.specs.Prelude.{◌≡◌, ◌≤◌, [], ◌∷◌, ◌++◌, length, take, IfOk, OnOk, OnErr};
ghost use Rattle.flow_record.specs.Records.{port_owner};
ghost use Rattle.bench.specs.Bench.{entry_by as entry_of, is_kept as is_kept_of, kept_by};
ghost use Rattle.bench.specs.Desks.{IsKeptIfAny, taken_back};

use flow_id::Flow;
use flow_record::Record;
use job_core::{Aim, Answer, ForgedNumbers, Verdict};
use kept_records::{Kept, KeptList};
use std::alloc::AllocError;

/// The owner that a record of a port names.
fn owner_of(item: &Record) -> Flow
    ensures { result ≡ port_owner item.now }
{
    match *item {
        Record::Port(flow) => flow,
        _ => Flow {
            service: 0,
            address: 0,
            port: 0,
            life: 0,
        },
    }
}

/// The flow of a handling with the Syn and the Open that its answers decided, where this is the next of them.
pub(crate) fn entry_by(aim: Aim, answers: &[Answer], got: Answer) -> Option<(Flow, Kept)>
    ensures { result ≡ entry_of aim (answers.now ++ got ∷ []) }
{
    match (aim, answers, got) {
        (Aim::Client(flow), [Answer::Decided(syn)], Answer::Decided(opened)) => {
            Some((flow, Kept { syn: *syn, opened }))
        }
        (Aim::Client(flow), [Answer::Decided(syn), Answer::Decided(opened), ..], _) => {
            let (syn, opened) = (*syn, *opened);
            Some((flow, Kept { syn, opened }))
        }
        (
            Aim::Server { .. },
            [Answer::Decided(owner), Answer::Decided(syn)],
            Answer::Decided(opened),
        ) => Some((owner_of(owner), Kept { syn: *syn, opened })),
        (
            Aim::Server { .. },
            [
                Answer::Decided(owner),
                Answer::Decided(syn),
                Answer::Decided(opened),
                ..
            ],
            _,
        ) => {
            let (syn, opened) = (*syn, *opened);
            Some((owner_of(owner), Kept { syn, opened }))
        }
        _ => None,
    }
}

/// Whether a handling with this verdict has opened its flow, or passed a segment of it on.
pub(crate) fn is_kept(verdict: &Verdict) -> bool
    ensures { result ≡ is_kept_of verdict.now }
{
    match verdict {
        Verdict::Opened | Verdict::Forwarded => true,
        _ => false,
    }
}

/// Puts an entry in front where its flow has none, and tells for which flow. The flow's forged number is kept before, so that
/// nobody needs memory for it who passes a segment of the flow on. The one error is want of memory, and then nothing has
/// changed.
pub(crate) fn add_entry(
    forged: &mut ForgedNumbers,
    kept: &mut KeptList,
    entry: Option<(Flow, Kept)>,
) -> Result<Option<Flow>, AllocError>
    requires few { length kept.old ≤ 256 }
    requires entry { IsKeptIfAny entry }
    ensures added { OnOk result (take 256 kept.new ≡ kept_by entry kept.old) }
    ensures back { IfOk result (λ o. taken_back o kept.new ≡ kept.old) }
    ensures err { OnErr result (kept.new ≡ kept.old) }
    ensures forged { forged.new ≡ forged.old }
{
    let Some((flow, found)) = entry else {
        return Ok(None);
    };
    if kept.peek(&flow).is_some() {
        return Ok(None);
    }
    forged.forged(&flow)?;
    kept.keep(flow, found)?;
    Ok(Some(flow))
}

/// Drops the entry that was put in front, if one was.
pub(crate) fn take_back(kept: &mut KeptList, added: Option<Flow>)
    ensures { kept.new ≡ taken_back added kept.old }
{
    if let Some(flow) = added {
        kept.forget(&flow);
    }
}
