//! How a work is settled: it moves as long as its ask is known, by what its instance keeps. It takes no memory.

ghost use Rattle.std.specs.Prelude.{◌≡◌, option_map};
ghost use Rattle.std.specs.Option.{is_some};
ghost use Rattle.bench.specs.Bench.{Held, IsPassedAtOnce, Known, known as known_of, settle, settled};
ghost use Rattle.bench.specs.Desks.{IsTurn, KeptFit, desk_of, left, reply_of};
ghost use Rattle.bench.specs.Laws.{Asks};
ghost use Rattle.bench.specs.declared.call.Reply.TheVariants.{Going};
ghost use Rattle.job_core.specs.Rooms.{IsReady};
ghost use Rattle.rule_table.specs.Setups.{IsSetup};

use crate::call::Reply;
use crate::desk::Work;
use flow_id::{Flow, Key};
use flow_record::{Ask, Record};
use job_core::{ForgedNumbers, Move, Next};
use kept_records::KeptList;
use rule_table::Setup;
use store_walk::start;
use tcp_segment::Outs;

/// The most asks of a handling.
const ASKS_LIMIT: u8 = 11;

/// The record with which a kept list answers an ask, and the flow whose entry that is.
fn known(setup: &Setup, kept: &KeptList, ask: Ask) -> Option<(Flow, Record)>
    ensures { result ≡ option_map (λ (k : Known). (k.flow, k.item)) (known_of setup.now kept.now ask) }
{
    match ask {
        Ask::Get(Key::Syn(flow)) => match kept.peek(&flow) {
            Some(found) => Some((flow, found.syn)),
            None => None,
        },
        Ask::Get(Key::Open(flow)) => match kept.peek(&flow) {
            Some(found) => Some((flow, found.opened)),
            None => None,
        },
        Ask::Get(
            Key::Port {
                service,
                server,
                port,
            },
        ) => {
            if service != setup.service().number {
                return None;
            }
            match kept.owner(server, port) {
                Some(flow) => Some((flow, Record::Port(flow))),
                None => None,
            }
        }
        _ => None,
    }
}

/// Makes the work's next move where its ask is known, and tells how it went; None where it is not known, and then nothing
/// changes. A segment that is passed on is sent in the room that is lent, and takes it.
fn turn_on(
    setup: &Setup,
    forged: &ForgedNumbers,
    work: &mut Work,
    kept: &mut KeptList,
    room: &mut Outs,
) -> Option<Reply>
    requires good { IsSetup setup.now }
    requires secret { forged.now ≡ setup.now.secret }
    requires stands { work.old.job.ask ≡ work.old.walk.ask }
    requires asks { Asks setup.now work.old.job.instance work.old.job.aim work.old.job.segment work.old.job.answers work.old.job.ask }
    requires fits { KeptFit setup.now kept.old }
    requires room { IsReady room.old }
    ensures one { (held : Held) → settled 1 setup.now work.old.job.instance (desk_of work.old held kept.old, Going) ≡ left (reply_of result) work.new held kept.new }
    ensures known { is_some result ≡ is_some (known_of setup.now kept.old work.old.job.ask) }
    ensures kind { IsTurn (reply_of result) }
    ensures room { (IsPassedAtOnce result → ⊥) → room.new ≡ room.old }
    ensures stands { reply_of result ≡ Going → work.new.job.ask ≡ work.new.walk.ask }
    ensures asks { reply_of result ≡ Going → Asks setup.now work.old.job.instance work.new.job.aim work.new.job.segment work.new.job.answers work.new.job.ask }
    ensures instance { reply_of result ≡ Going → work.new.job.instance ≡ work.old.job.instance }
    ensures fits { KeptFit setup.now kept.new }
{
    let Some((flow, item)) = known(setup, kept, work.job.ask()) else {
        return None;
    };
    let _ = kept.find(&flow);
    let Move { next, held } = work.job.answer_known(setup, forged, item, room);
    drop(held);
    match next {
        Next::Ask(ask) => {
            work.walk = start(ask);
            Some(Reply::Going)
        }
        Next::End { verdict, outs } => Some(Reply::Done { verdict, outs }),
    }
}

/// Settles a work whose ask stands: it moves as long as its ask is known. A segment that is passed on is sent in the room
/// that is lent, and takes it.
pub(crate) fn settle_on(
    setup: &Setup,
    forged: &ForgedNumbers,
    work: &mut Work,
    kept: &mut KeptList,
    room: &mut Outs,
) -> Reply
    requires good { IsSetup setup.now }
    requires secret { forged.now ≡ setup.now.secret }
    requires stands { work.old.job.ask ≡ work.old.walk.ask }
    requires asks { Asks setup.now work.old.job.instance work.old.job.aim work.old.job.segment work.old.job.answers work.old.job.ask }
    requires fits { KeptFit setup.now kept.old }
    requires room { IsReady room.old }
    ensures settled { (held : Held) → settle setup.now work.old.job.instance (desk_of work.old held kept.old, Going) ≡ left result work.new held kept.new }
    ensures kind { IsTurn result }
    ensures room { (IsPassedAtOnce (Some result) → ⊥) → room.new ≡ room.old }
    ensures stands { result ≡ Going → work.new.job.ask ≡ work.new.walk.ask }
    ensures instance { result ≡ Going → work.new.job.instance ≡ work.old.job.instance }
{
    for _turn in 0..ASKS_LIMIT {
        match turn_on(setup, forged, work, kept, room) {
            None => return Reply::Going,
            Some(Reply::Going) => {}
            Some(Reply::Done { verdict, outs }) => return Reply::Done { verdict, outs },
            Some(Reply::Idle | Reply::Noted) => unreachable!(),
        }
    }
    Reply::Going
}
