ghost use Rattle.std.specs.Prelude.{◌≡◌, ◌≤◌, ℕ, List, [], ◌∷◌, ◌++◌, true, length, IfOk, OnErr, IsTrue};
ghost use Rattle.flow_record.specs.Records.{is_syn as is_syn_record};
ghost use Rattle.job_core.specs.Rooms.{AsksOrPasses, IsReady, Leaves, MayNeedMemory, held_by_step};
ghost use Rattle.job_core.specs.declared.moves.HeldChange.TheVariants.{Same};
ghost use Rattle.tcp_segment.specs.Sending.{outs_of};
ghost use Rattle.job_core.specs.declared.moves.Answer.TheVariants.{Decided, Absent};
ghost use Rattle.job_core.specs.Jobs.{GoesOn, IsAnswered, IsTaken, KnowsServers, answered as answered_by, MayAnswer, begun, first_ask, flow_by, is_get, mark_of, marked_job, move_after};
ghost use Rattle.job_core.specs.Phases.{AtPhase, IsKnownOpen, Leads, StepsTo, passed_from, step_move};
ghost use Rattle.job_core.specs.declared.verdict.Verdict.TheVariants.{Forwarded};
ghost use Rattle.job_core.specs.Moves.{ends};

use crate::aim::{Aim, is_opening};
use crate::answers::Answers;
use crate::asking::{asks_open, asks_syn};
use crate::client::{claimed, client_before_open, client_of_open};
use crate::ending::{ended, passing, unknown};
use crate::forged::ForgedNumbers;
use crate::mark::JobMark;
use crate::moves::{Answer, HeldChange, Move, Next};
use crate::phase::Phase;
use crate::ports::{chosen, ported};
use crate::server::{opened_by, resolved, server_before_open, server_of_open};
use crate::step::Step;
use crate::verdict::Verdict;
use client_hand::syn_record;
use flow_id::{Flow, Key, Side};
use flow_record::{Ask, Record};
use rule_table::Setup;
use seq_space::Num;
use std::alloc::{AllocError, Global};
use std::marker::Model;
use std::mem;
use tcp_segment::{Bytes, Outs, Segment};
use translate::{to_client, to_server};

/// One segment's way through the handling table.
#[derive(Drop)]
pub struct Job {
    alloc: Global,
    instance: u16,
    aim: Aim,
    seg: Segment,
    ask: Ask,
    answers: Answers,
    phase: Phase,
}

impl Model for Job {
    ghost use Rattle.std.specs.Prelude.{◌≡◌, length};
    ghost use Rattle.job_core.specs.Jobs.{JobView};
    ghost use Rattle.job_core.specs.Phases.{AtPhase, answers_of};

    ghost Value = { JobView };

    ghost view = { λ j. record { instance = j.instance; aim = j.aim; segment = j.seg; ask = j.ask; answers = answers_of j.answers } };

    ghost invariant = { λ j. (length (answers_of j.answers) ≡ j.answers.count) × AtPhase j.phase j.aim j.seg.head.flags (answers_of j.answers) j.ask };
}

impl Job {
    /// The job of a segment that this instance handles, before its first answer. The aim is the segment's, and a client
    /// or a server. It takes no memory.
    pub fn begin(alloc: Global, setup: &Setup, instance: u16, aim: Aim, seg: Segment) -> Job
        requires { IsTaken setup.now aim seg }
        ensures { result ≡ begun setup.now instance aim seg }
    {
        let (ask, phase) = first(setup, aim, &seg);
        Job {
            alloc,
            instance,
            aim,
            seg,
            ask,
            answers: Answers::new(),
            phase,
        }
    }

    /// The ask that stands.
    pub fn ask(&self) -> Ask
        ensures { result ≡ self.now.ask }
    {
        self.ask
    }

    /// Whom the segment comes from.
    pub fn aim(&self) -> Aim
        ensures { result ≡ self.now.aim }
    {
        self.aim
    }

    /// What was answered to its asks so far, lent.
    pub fn answers(&self) -> &[Answer]
        ensures { result.now ≡ self.now.answers }
    {
        self.answers.as_slice()
    }

    /// The flow that the segment is known to be of, None exactly for a server's segment before the owner of its port is
    /// decided.
    pub fn flow(&self) -> Option<Flow>
        ensures { result ≡ flow_by self.now.aim self.now.answers }
    {
        match self.phase {
            Phase::Owning => None,
            Phase::Claiming { flow }
            | Phase::Finding { flow }
            | Phase::Resolving { flow }
            | Phase::Looking { flow, .. }
            | Phase::Opening { flow, .. }
            | Phase::Passing { flow, .. }
            | Phase::Ending { flow, .. }
            | Phase::Choosing { flow, .. }
            | Phase::Porting { flow, .. } => Some(flow),
        }
    }

    /// The table's next move after one more answer to the ask that stands. The job has not ended, the answer may answer
    /// the ask, and `held` is what is held of the flow. At an ask the job goes on with it; at an end it is to be dropped.
    /// The one error is want of memory, and then the job is as before.
    pub fn answer(&mut self, setup: &Setup, got: Answer, held: &[u8]) -> Result<Move, AllocError>
        requires may { MayAnswer setup.now self.old.ask got }
        requires servers { KnowsServers setup.now self.old }
        requires held { length held.now ≤ 14600 }
        ensures answered { IfOk result (λ m. IsAnswered setup.now self.old got held.now m self.new) }
        ensures refused { OnErr result (self.new ≡ self.old) }
    {
        let mut forged = ForgedNumbers::new(self.alloc, setup.secret());
        self.answer_with(setup, &mut forged, got, held)
    }

    /// The table's next move like `answer`, with the forged numbers by the setup's secret: the number of a flow whose
    /// segment is passed on is taken from them. The one error is want of memory, and then the job is as before.
    pub fn answer_with(
        &mut self,
        setup: &Setup,
        forged: &mut ForgedNumbers,
        got: Answer,
        held: &[u8],
    ) -> Result<Move, AllocError>
        requires may { MayAnswer setup.now self.old.ask got }
        requires servers { KnowsServers setup.now self.old }
        requires held { length held.now ≤ 14600 }
        requires secret { forged.old ≡ setup.now.secret }
        ensures answered { IfOk result (λ m. IsAnswered setup.now self.old got held.now m self.new) }
        ensures refused { OnErr result (self.new ≡ self.old) }
        ensures forged { forged.new ≡ forged.old }
    {
        match self.step(setup, got, held)? {
            Step::Asks { ask, phase, held } => {
                self.go_on(got, ask, phase);
                let next = Next::Ask(ask);
                Ok(Move { next, held })
            }
            Step::Ends {
                verdict,
                outs,
                held,
            } => {
                let next = Next::End { verdict, outs };
                Ok(Move { next, held })
            }
            Step::ToServer { flow, syn, opened } => {
                self.pass(setup, forged, flow, syn, opened, Side::Client)
            }
            Step::ToClient { flow, syn, opened } => {
                self.pass(setup, forged, flow, syn, opened, Side::Server)
            }
        }
    }

    /// The table's next move like `answer_with`, where a record is looked for and this one is decided. What is held does not
    /// matter and stays. The room is empty and there is room for one segment. A segment that is passed on is sent in it and
    /// leaves nothing of it; every other move leaves it as it was. It takes no memory.
    pub fn answer_known(
        &mut self,
        setup: &Setup,
        forged: &ForgedNumbers,
        item: Record,
        room: &mut Outs,
    ) -> Move
        requires get { IsTrue (is_get self.old.ask) }
        requires may { MayAnswer setup.now self.old.ask (Decided item) }
        requires secret { forged.now ≡ setup.now.secret }
        requires room { IsReady room.old }
        ensures answered { (held : List ℕ) → IsAnswered setup.now self.old (Decided item) held result self.new }
        ensures same { result.held ≡ Same }
        ensures room { Leaves result.next room.old room.new }
    {
        let step = self.known(setup, item);
        self.moved_in(setup, forged, Answer::Decided(item), step, room)
    }

    /// The table's next move like `answer`, where whatever is held this is an ask that leaves what is held, or the end of a
    /// segment that is passed on. The room is empty and there is room for one segment. A segment that is passed on is sent in
    /// it and leaves nothing of it; an ask leaves it as it was. It takes no memory.
    pub fn answer_in(&mut self, setup: &Setup, got: Answer, room: &mut Outs) -> Move
        requires may { MayAnswer setup.now self.old.ask got }
        requires servers { KnowsServers setup.now self.old }
        requires moves { (held : List ℕ) → AsksOrPasses (move_after setup.now self.old got held) }
        requires room { IsReady room.old }
        ensures answered { (held : List ℕ) → IsAnswered setup.now self.old got held result self.new }
        ensures room { Leaves result.next room.old room.new }
    {
        let Ok(step) = self.step(setup, got, &[]) else {
            unreachable!()
        };
        let forged = ForgedNumbers::new(self.alloc, setup.secret());
        self.moved_in(setup, &forged, got, step, room)
    }

    /// The move of a step that the answer leads to. A segment that is passed on is sent in the room. It takes no memory.
    fn moved_in(
        &mut self,
        setup: &Setup,
        forged: &ForgedNumbers,
        got: Answer,
        step: Step,
        room: &mut Outs,
    ) -> Move
        requires steps { StepsTo setup.now self.old.aim self.old.segment.head.flags (self.old.answers ++ got ∷ []) step }
        requires secret { forged.now ≡ setup.now.secret }
        requires room { IsReady room.old }
        ensures moves { result ≡ step_move setup.now self.old.segment step }
        ensures goes_on { GoesOn self.old got result.next self.new }
        ensures room { Leaves result.next room.old room.new }
    {
        match step {
            Step::Asks { ask, phase, held } => {
                self.go_on(got, ask, phase);
                let next = Next::Ask(ask);
                Move { next, held }
            }
            Step::Ends {
                verdict,
                outs,
                held,
            } => {
                let next = Next::End { verdict, outs };
                Move { next, held }
            }
            Step::ToServer { flow, syn, opened } => {
                let number = Num(forged.look(&flow));
                let seg = self.take_segment();
                sent_in(room, to_server(setup, seg, number, &syn, &opened))
            }
            Step::ToClient { flow, syn, opened } => {
                let number = Num(forged.look(&flow));
                let seg = self.take_segment();
                sent_in(room, to_client(setup, seg, number, &syn, &opened, &flow))
            }
        }
    }

    /// What a decided record leads to that was looked for. It takes no memory.
    #[tactic(auto, unfolding(crate::specs::Table::next_move))]
    fn known(&self, setup: &Setup, item: Record) -> Step
        requires get { IsTrue (is_get self.now.ask) }
        requires may { MayAnswer setup.now self.now.ask (Decided item) }
        ensures moves { (held : List ℕ) → step_move setup.now self.now.segment result ≡ move_after setup.now self.now (Decided item) held }
        ensures steps { StepsTo setup.now self.now.aim self.now.segment.head.flags (self.now.answers ++ Decided item ∷ []) result }
        ensures same { held_by_step result ≡ Same }
    {
        let (alloc, seg) = (self.alloc, &self.seg);
        match (self.phase, self.aim, item) {
            (Phase::Finding { flow }, _, _) => asks_open(flow, item),
            (Phase::Owning, _, Record::Port(flow)) => asks_syn(flow),
            (Phase::Resolving { flow }, aim, _) => resolved(alloc, aim, flow, item, seg),
            (Phase::Looking { flow, syn }, Aim::Client(_), _) => {
                client_of_open(flow, syn, item, seg)
            }
            (Phase::Looking { flow, syn }, Aim::Server { .. }, _) => {
                server_of_open(flow, syn, item, seg)
            }
            _ => unreachable!(),
        }
    }

    /// All of the job but its segment.
    pub fn mark(&self) -> JobMark
        ensures { result ≡ mark_of self.now }
    {
        JobMark {
            instance: self.instance,
            aim: self.aim,
            flags: self.seg.head.flags,
            ask: self.ask,
            answers: self.answers,
            phase: self.phase,
        }
    }

    /// Makes the job what it was at the mark, which was taken of it. The job has not ended since.
    pub fn back(&mut self, mark: JobMark)
        requires { mark.flags ≡ self.old.segment.head.flags }
        ensures { self.new ≡ marked_job mark self.old.segment }
    {
        self.instance = mark.instance;
        self.aim = mark.aim;
        self.ask = mark.ask;
        self.answers = mark.answers;
        self.phase = mark.phase;
    }

    /// Takes the answer, and stands at the next ask.
    fn go_on(&mut self, got: Answer, ask: Ask, phase: Phase)
        requires { AtPhase phase self.old.aim self.old.segment.head.flags (self.old.answers ++ got ∷ []) ask }
        ensures { self.new ≡ answered_by self.old got ask }
    {
        self.answers.push(got);
        self.ask = ask;
        self.phase = phase;
    }

    /// Passes the segment on, from this side. Its data is moved. The one error is want of memory, and then the job is as
    /// before.
    fn pass(
        &mut self,
        setup: &Setup,
        forged: &mut ForgedNumbers,
        flow: Flow,
        syn: Record,
        opened: Record,
        from: Side,
    ) -> Result<Move, AllocError>
        requires syn { is_syn_record syn ≡ true }
        requires opened { IsKnownOpen setup.now opened }
        requires secret { forged.old ≡ setup.now.secret }
        ensures passed { IfOk result (λ m. m ≡ ends Forwarded (passed_from from setup.now flow self.old.segment syn opened ∷ [])) }
        ensures refused { OnErr result (self.new ≡ self.old) }
        ensures forged { forged.new ≡ forged.old }
    {
        let mut items = Vec::with_capacity(self.alloc, 1)?;
        let forged = Num(forged.forged(&flow)?);
        let seg = self.take_segment();
        let passed = match from {
            Side::Client => to_server(setup, seg, forged, &syn, &opened),
            Side::Server => to_client(setup, seg, forged, &syn, &opened, &flow),
        };
        let Ok(()) = items.push(passed) else {
            unreachable!()
        };
        let outs = Outs::full(items);
        let next = Next::End {
            verdict: Verdict::Forwarded,
            outs,
        };
        Ok(Move {
            next,
            held: HeldChange::Same,
        })
    }

    /// The segment, whose data is moved out of the job.
    fn take_segment(&mut self) -> Segment
        ensures { result ≡ self.old.segment }
    {
        let body = mem::replace(&mut self.seg.body, Bytes::new(Vec::new(self.alloc)));
        Segment {
            source: self.seg.source,
            target: self.seg.target,
            head: self.seg.head,
            body,
        }
    }

    /// What the answer leads to. The one error is want of memory.
    fn step(&self, setup: &Setup, got: Answer, held: &[u8]) -> Result<Step, AllocError>
        requires may { MayAnswer setup.now self.now.ask got }
        requires servers { KnowsServers setup.now self.now }
        requires held { length held.now ≤ 14600 }
        ensures leads { IfOk result (Leads setup.now self.now.aim self.now.segment (self.now.answers ++ got ∷ []) (move_after setup.now self.now got held.now)) }
        ensures refused { OnErr result (MayNeedMemory (move_after setup.now self.now got held.now)) }
    {
        match got {
            Answer::Decided(item) => self.decided(setup, item, held),
            Answer::Absent => self.absent(setup, held),
            Answer::Down => Ok(Step::silent(self.alloc, Verdict::StoreDown)),
        }
    }

    /// What a decided record leads to. The one error is want of memory.
    #[tactic(auto, unfolding(crate::specs::Table::next_move))]
    fn decided(&self, setup: &Setup, item: Record, held: &[u8]) -> Result<Step, AllocError>
        requires may { MayAnswer setup.now self.now.ask (Decided item) }
        requires servers { KnowsServers setup.now self.now }
        ensures leads { IfOk result (Leads setup.now self.now.aim self.now.segment (self.now.answers ++ Decided item ∷ []) (move_after setup.now self.now (Decided item) held.now)) }
        ensures refused { OnErr result (MayNeedMemory (move_after setup.now self.now (Decided item) held.now)) }
    {
        let (alloc, seg) = (self.alloc, &self.seg);
        match (self.phase, self.aim, item) {
            (Phase::Claiming { flow }, _, _) => claimed(alloc, setup, flow, seg, item),
            (Phase::Finding { flow }, _, _) => Ok(asks_open(flow, item)),
            (Phase::Owning, _, Record::Port(flow)) => Ok(asks_syn(flow)),
            (Phase::Resolving { flow }, aim, _) => Ok(resolved(alloc, aim, flow, item, seg)),
            (Phase::Looking { flow, syn }, Aim::Client(_), _) => {
                Ok(client_of_open(flow, syn, item, seg))
            }
            (Phase::Looking { flow, syn }, Aim::Server { .. }, _) => {
                Ok(server_of_open(flow, syn, item, seg))
            }
            (Phase::Opening { syn, .. }, _, _) => opened_by(alloc, setup, syn, item, seg, held),
            (Phase::Passing { flow, syn, opened }, aim, _) => Ok(passing(aim, flow, syn, opened)),
            (Phase::Ending { flow, .. }, aim, _) => ended(alloc, setup, aim, flow),
            (Phase::Choosing { flow, syn }, _, _) => {
                chosen(alloc, setup, flow, syn, seg, held, item)
            }
            (
                Phase::Porting {
                    flow,
                    syn,
                    choice,
                    owners,
                },
                _,
                Record::Port(owner),
            ) => ported(alloc, setup, flow, syn, choice, owners, owner),
            _ => unreachable!(),
        }
    }

    /// What it leads to that no record is decided. The one error is want of memory.
    #[tactic(auto, unfolding(crate::specs::Table::next_move))]
    fn absent(&self, setup: &Setup, held: &[u8]) -> Result<Step, AllocError>
        requires may { MayAnswer setup.now self.now.ask Absent }
        requires held { length held.now ≤ 14600 }
        ensures leads { IfOk result (Leads setup.now self.now.aim self.now.segment (self.now.answers ++ Absent ∷ []) (move_after setup.now self.now Absent held.now)) }
        ensures refused { OnErr result (MayNeedMemory (move_after setup.now self.now Absent held.now)) }
    {
        let (alloc, seg) = (self.alloc, &self.seg);
        match (self.phase, self.aim) {
            (Phase::Finding { .. } | Phase::Owning | Phase::Resolving { .. }, _) => {
                unknown(alloc, seg)
            }
            (Phase::Looking { flow, syn }, Aim::Client(_)) => {
                client_before_open(alloc, setup, self.instance, flow, syn, seg, held)
            }
            (Phase::Looking { flow, syn }, Aim::Server { .. }) => {
                Ok(server_before_open(alloc, flow, syn, seg))
            }
            _ => unreachable!(),
        }
    }
}

/// The end of a segment that is passed on, in the room that is lent.
fn sent_in(room: &mut Outs, passed: Segment) -> Move
    requires { IsReady room.old }
    ensures passed { result ≡ ends Forwarded (passed ∷ []) }
    ensures room { room.new ≡ outs_of [] }
{
    let outs = room.fill(passed);
    let next = Next::End {
        verdict: Verdict::Forwarded,
        outs,
    };
    Move {
        next,
        held: HeldChange::Same,
    }
}

/// The first ask of a segment, and its phase.
fn first(setup: &Setup, aim: Aim, seg: &Segment) -> (Ask, Phase)
    requires { IsTaken setup.now aim seg.now }
    ensures ask { result.0 ≡ first_ask setup.now aim seg.now }
    ensures phase { AtPhase result.1 aim seg.now.head.flags [] result.0 }
{
    match aim {
        Aim::Client(flow) if is_opening(&seg.head) => {
            let ask = Ask::Add(Key::Syn(flow), syn_record(&seg.head));
            (ask, Phase::Claiming { flow })
        }
        Aim::Client(flow) => (Ask::Get(Key::Syn(flow)), Phase::Finding { flow }),
        Aim::Server { server, port } => {
            let service = setup.service().number;
            let key = Key::Port {
                service,
                server,
                port,
            };
            (Ask::Get(key), Phase::Owning)
        }
        Aim::Odd(_) | Aim::NotOurs => unreachable!(),
    }
}
