ghost use Rattle.std.specs.Prelude.{◌≡◌, ◌≤◌, [], ◌∷◌, ◌++◌, IsTrue, List};
ghost use Rattle.flow_record.specs.Records.{is_syn, syn_number as syn_number_of};
ghost use Rattle.life_chain.specs.Chains.{Follows, IsSettledSyn, MayFollow, Stands, chain_at, claimed_at, finding_behind, found_by, may_find, now_at, opening_behind, stood, syn_at};
ghost use Rattle.life_chain.specs.Lives.{Line, continues, flow_at, opens, stand};
ghost use Rattle.life_chain.specs.declared.answer.Answer.{Answer};

use crate::answer::Answer;
use crate::found::Found;
use crate::stage::Stage;
use flow_id::{Flow, Key, Side};
use flow_record::{Ask, Record};
use seq_space::Num;

/// The last life of a client's address and port.
const LAST_LIFE: u16 = 7;

/// A part of the handling table that finds the life of a client's segment, ask by ask.
///
/// A SYN goes from life 0 on: it is the life's whose Syn has its number, and passes over a life with another number only
/// where that life has ended, by a reset or by the close of both sides. Any other segment is the last life's whose Syn is
/// decided, from the life on at which the chain begins.
#[derive(Clone, Copy, Debug, PartialEq, Eq)]
pub struct Chain {
    flow: Flow,
    life: u16,
    stage: Stage,
}

impl Chain {
    /// The chain of a client's SYN, whose record this is. It begins at life 0.
    pub fn syn(flow: Flow, record: Record) -> Chain
        requires { IsTrue (is_syn «record») }
        ensures { Stands (opens flow «record») [] result }
    {
        Chain {
            flow,
            life: 0,
            stage: Stage::Claiming { own: record },
        }
    }

    /// The chain of another segment of a client. It begins at this life.
    pub fn current(flow: Flow, from: u16) -> Chain
        requires { from ≤ 7 }
        ensures { Stands (continues flow from) [] result }
    {
        Chain {
            flow,
            life: from,
            stage: Stage::Finding { before: None },
        }
    }

    /// Where the chain stands.
    pub fn next(&self) -> Found
        ensures stood { result ≡ stood self.now }
        // That is where its line stands after the answers so far.
        ensures found { (line : Line) (answers : List Answer) → Stands line answers self.now → result ≡ found_by line answers }
        // A SYN's chain does not answer Unknown, and another segment's neither Other nor Spent.
        ensures may { (line : Line) (answers : List Answer) → Stands line answers self.now → IsTrue (may_find line result) }
    {
        self.stood()
    }

    /// The Syn of the life on which the chain has settled, as its line has with the last answer.
    pub fn settled_syn(&self) -> Option<Record>
        ensures now { result ≡ syn_at (now_at self.now) }
        ensures settled { (line : Line) (answers : List Answer) → Stands line answers self.now → IsSettledSyn (stand line answers) result }
    {
        self.syn_now()
    }

    /// Takes the answer to the ask that stands: it may answer that ask, and is not that each cell had failed.
    pub fn answer(&mut self, got: Answer)
        requires { MayFollow (stood self.old) got }
        ensures { (line : Line) (answers : List Answer) → Stands line answers self.old → Stands line (answers ++ got ∷ []) self.new }
    {
        *self = self.after(got);
    }

    /// Where the chain stands, by its stage.
    fn stood(&self) -> Found
        ensures { result ≡ stood self.now }
    {
        let flow = self.flow_at(self.life);
        match self.stage {
            Stage::Claiming { own } => Found::Ask(Ask::Add(Key::Syn(flow), own)),
            Stage::Resetting { .. } => Found::Ask(Ask::Get(Key::Gone(flow))),
            Stage::ClientClosing { .. } => Found::Ask(Ask::Get(Key::Fin(flow, Side::Client))),
            Stage::ServerClosing { .. } => Found::Ask(Ask::Get(Key::Fin(flow, Side::Server))),
            Stage::Finding { .. } => Found::Ask(Ask::Get(Key::Syn(flow))),
            Stage::Settled { life, .. } => Found::At { life },
            Stage::Other { number } => Found::Other { number },
            Stage::Unknown => Found::Unknown,
            Stage::Spent => Found::Spent,
        }
    }

    /// The Syn of the settled life, by the chain's stage.
    fn syn_now(&self) -> Option<Record>
        ensures { result ≡ syn_at (now_at self.now) }
    {
        match self.stage {
            Stage::Settled { syn, .. } => Some(syn),
            _ => None,
        }
    }

    /// The chain after the answer.
    fn after(&self, got: Answer) -> Chain
        requires { MayFollow (stood self.now) got }
        ensures { Follows self.now got result }
    {
        match (self.stage, got) {
            (Stage::Claiming { own }, Answer::Decided(syn)) => self.claimed(own, syn),
            (Stage::Resetting { own, .. }, Answer::Decided(_)) => self.opening_behind(own),
            (Stage::Resetting { own, number }, Answer::Absent) => {
                self.at(self.life, Stage::ClientClosing { own, number })
            }
            (Stage::ClientClosing { own, number }, Answer::Decided(_)) => {
                self.at(self.life, Stage::ServerClosing { own, number })
            }
            (Stage::ClientClosing { number, .. }, Answer::Absent) => {
                self.at(self.life, Stage::Other { number })
            }
            (Stage::ServerClosing { own, .. }, Answer::Decided(_)) => self.opening_behind(own),
            (Stage::ServerClosing { number, .. }, Answer::Absent) => {
                self.at(self.life, Stage::Other { number })
            }
            (Stage::Finding { .. }, Answer::Decided(syn)) => self.finding_behind(syn),
            (Stage::Finding { before: None }, Answer::Absent) => {
                self.at(self.life, Stage::Unknown)
            }
            (
                Stage::Finding {
                    before: Some((life, syn)),
                },
                Answer::Absent,
            ) => { self.at(self.life, Stage::Settled { life, syn }) }
            _ => unreachable!(),
        }
    }

    /// A SYN's chain at a life whose Syn this is.
    fn claimed(&self, own: Record, syn: Record) -> Chain
        ensures { result ≡ claimed_at self.now own syn }
    {
        let number = syn_number(&syn);
        let life = self.life;
        if number == syn_number(&own) {
            return self.at(life, Stage::Settled { life, syn });
        }
        self.at(life, Stage::Resetting { own, number })
    }

    /// A SYN's chain behind a life that has ended.
    fn opening_behind(&self, own: Record) -> Chain
        ensures { result ≡ opening_behind self.now own }
    {
        if self.life >= LAST_LIFE {
            return self.at(self.life, Stage::Spent);
        }
        self.at(self.life + 1, Stage::Claiming { own })
    }

    /// Another segment's chain behind a life whose Syn is decided.
    fn finding_behind(&self, syn: Record) -> Chain
        ensures { result ≡ finding_behind self.now syn }
    {
        let life = self.life;
        if life >= LAST_LIFE {
            return self.at(life, Stage::Settled { life, syn });
        }
        let before = Some((life, syn));
        self.at(life + 1, Stage::Finding { before })
    }

    /// The chain at this life and stage.
    fn at(&self, life: u16, stage: Stage) -> Chain
        ensures { result ≡ chain_at self.now life stage }
    {
        Chain {
            flow: self.flow,
            life,
            stage,
        }
    }

    /// The flow in this life.
    fn flow_at(&self, life: u16) -> Flow
        ensures { result ≡ flow_at self.now.flow life }
    {
        Flow { life, ..self.flow }
    }
}

/// The number in a Syn, and 0 for another record.
fn syn_number(record: &Record) -> Num
    ensures { result.0 ≡ syn_number_of «record».now }
{
    match *record {
        Record::Syn { number, .. } => number,
        _ => Num(0),
    }
}
