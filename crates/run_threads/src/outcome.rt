ghost use Rattle.std.specs.Prelude.{◌≡◌, None, Some, []};
ghost use Rattle.run_threads.specs.Handling.{end_of};
ghost use Rattle.run_threads.specs.Items.{outcome_of, ended as ended_outcome};

use crate::handling::Refused;
use bench::Reply;
use bench::input::Line;
use job_core::Verdict;
use std::alloc::Global;
use std::marker::Model;
use tcp_segment::Outs;

/// What became of a record: its line, and the segments that are sent for it. Contracts see the list of them.
#[derive(Debug, Drop)]
pub(crate) struct Outcome {
    pub(crate) line: Line,
    pub(crate) outs: Outs,
}

impl Model for Outcome {
    ghost use Rattle.run_threads.specs.Outcomes.{OutcomeView};

    ghost Value = { OutcomeView };

    ghost view = { λ o. record { line = o.line; outs = o.outs.list } };
}

/// A record whose handling came to this.
pub(crate) fn outcome_of(alloc: Global, instance: u16, end: Result<Reply, Refused>) -> Outcome
    ensures { result ≡ outcome_of instance (end_of end) }
{
    let (verdict, outs) = match end {
        Ok(Reply::Done { verdict, outs }) => (verdict, outs),
        Ok(Reply::Going | Reply::Idle | Reply::Noted) => {
            (Verdict::Crashed, Outs::new(Vec::new(alloc)))
        }
        Err(Refused { calls }) => (Verdict::NoMemory { calls }, Outs::new(Vec::new(alloc))),
    };
    let line = Line {
        instance: Some(instance),
        verdict,
    };
    Outcome { line, outs }
}

/// A record that no instance handled, and for which nothing is sent.
pub(crate) fn ended(alloc: Global, verdict: Verdict) -> Outcome
    ensures { result ≡ ended_outcome verdict }
{
    let line = Line {
        instance: None,
        verdict,
    };
    Outcome {
        line,
        outs: Outs::new(Vec::new(alloc)),
    }
}
