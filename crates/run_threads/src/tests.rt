ghost use Rattle.std.specs.Prelude.{◌≡◌, ◌≤◌, ◌<◌, length, map, false, None, IfOk, IfSome};
ghost use Rattle.bench.specs.Calls.{IsCall, AreCalls};
ghost use Rattle.bench.specs.Inputs.{IsInputs};
ghost use Rattle.pcap_file.specs.Frames.{capture_of, left_of};
ghost use Rattle.run_threads.specs.Run.{IsThreadRun};

use crate::{Gate, Locks, OpenGate, RunResult, run_all, serve};
use bench::input::{Frames, Inputs, TRACE_BYTES, TRACE_RECORDS};
use bench::{Bench, Call, Reply, apply};
use flow_id::{Flow, candidate, marks_of};
use inbox::{Giver, pair};
use job_core::Verdict;
use journal_text::journal;
use pcap_file::{Reader, write_header, write_record};
use rule_table::{Choices, Rule, Server, Service, Setup, Sizes, Text};
use script_text::script_of;
use seen_lock::Entry;
use seq_space::Num;
use std::alloc::{AllocError, Global};
use std::sync::Wait;
use std::sync::atomic::{AtomicU64, Ordering};
use std::test::Fail;
use std::thread;
use std::thread::Threads;
use tcp_segment::{ACK, Bytes, FIN, Head, Options, PSH, SYN, Segment, write};

const CLIENT: (u32, u16) = (0xc000_0207, 40000);

const SERVER: (u32, u16) = (0x0a00_0001, 8080);

const SERVICE: (u32, u16) = (0xc633_640a, 80);

const SECRET: [u8; 32] = [
    0, 1, 2, 3, 4, 5, 6, 7, 8, 9, 10, 11, 12, 13, 14, 15, 16, 17, 18, 19, 20, 21, 22, 23, 24, 25,
    26, 27, 28, 29, 30, 31,
];

/// The client's request head, of 69 bytes.
const HEAD: &[u8] =
    b"GET /cart/1 HTTP/1.1\r\nHost: Shop.Example:80\r\nCookie: id=9; beta=1\r\n\r\n";

/// A segment: from where, to where, its number and its acknowledgment, its flags and its data.
type Row<'a> = ((u32, u16), (u32, u16), (u32, u32), u8, &'a [u8]);

/// So many instances, three copies of each record, four shards and one server.
fn shop(alloc: Global, instances: u16) -> Result<Setup, AllocError>
    requires some { 1 ≤ instances }
    requires few { instances ≤ 16 }
{
    let sizes = Sizes {
        instances,
        replicas: 3,
        copies: 3,
        shards: 4,
        secret: SECRET,
    };
    let service = Service {
        number: 0,
        address: 0xc633_640a,
        port: 80,
    };
    let mut servers = Vec::new(alloc);
    servers.push(Server {
        address: 0x0a00_0001,
        port: 8080,
    })?;
    let mut rules = Vec::new(alloc);
    rules.push(Rule {
        host: None,
        path: Some(Text::new(Vec::from_slice(alloc, b"/cart")?)),
        cookie: None,
        to: Choices::new(Vec::from_slice(alloc, &[(0, 1)])?),
    })?;
    Ok(Setup::make(sizes, service, servers, rules))
}

/// Adds the packet of a segment, where it is short and has no blocks.
#[tactic(auto, using(crate::proofs::Replays::short))]
fn add_segment(packets: &mut Vec<u8>, segment: &Segment) -> Result<(), Fail> {
    if segment.body.as_slice().len() > 1460 || !segment.head.options.sack.as_slice().is_empty() {
        return Err("too much data".into());
    }
    Ok(write(segment, packets)?)
}

/// The packet of a segment.
fn packet_of(alloc: Global, row: &Row<'_>) -> Result<Vec<u8>, Fail> {
    let (from, to, numbers, flags, body) = row;
    let segment = Segment {
        source: from.0,
        target: to.0,
        head: Head {
            source_port: from.1,
            target_port: to.1,
            seq: Num(numbers.0),
            ack: Num(numbers.1),
            flags: *flags,
            window: 64240,
            urgent: 0,
            options: Options::none(),
        },
        body: Bytes::new(Vec::from_slice(alloc, body)?),
    };
    let mut packet = Vec::new(alloc);
    add_segment(&mut packet, &segment)?;
    Ok(packet)
}

/// Adds a record of this packet to a capture.
fn add_packet(trace: &mut Vec<u8>, packet: &[u8]) -> Result<(), Fail> {
    if packet.len() > 65535 {
        return Err("too long a packet".into());
    }
    Ok(write_record(1, 0, packet, trace)?)
}

/// How many frames a reader has left, where it finds no fault.
fn counted(mut reader: Reader, trace: &[u8]) -> Option<usize>
    requires fits { length trace.now ≤ TRACE_BYTES }
    requires inside { reader.place ≤ length trace.now }
    ensures frames { IfSome result (λ n. n ≡ length (left_of reader trace.now).frames) }
    ensures whole { IfSome result (λ n. (left_of reader trace.now).fault ≡ None) }
{
    let mut frames = 0;
    loop {
        match reader.next(trace) {
            Ok(Some(_)) => frames += 1,
            Ok(None) => return Some(frames),
            Err(_) => return None,
        }
    }
}

/// How many records a capture has, where it is one.
fn records_of(trace: &[u8]) -> Option<usize>
    requires { length trace.now ≤ TRACE_BYTES }
    ensures frames { IfSome result (λ n. n ≡ length (capture_of trace.now).frames) }
    ensures whole { IfSome result (λ n. (capture_of trace.now).fault ≡ None) }
{
    match Reader::open(trace) {
        Ok(reader) => counted(reader, trace),
        Err(_) => None,
    }
}

/// The inputs of a run over a capture, for so many instances and with this script.
fn inputs_over(alloc: Global, instances: u16, trace: Vec<u8>, script: &[u8]) -> Result<Inputs, Fail>
    requires some { 1 ≤ instances }
    requires few { instances ≤ 16 }
    ensures { IfOk result IsInputs }
{
    let setup = shop(alloc, instances)?;
    let Ok(script) = script_of(alloc, script, setup.instances(), setup.replicas()) else {
        return Err("no script".into());
    };
    if trace.len() as u64 > TRACE_BYTES {
        return Err("too long a capture".into());
    }
    let Some(records) = records_of(&trace) else {
        return Err("no capture".into());
    };
    if records > TRACE_RECORDS as usize {
        return Err("too many records".into());
    }
    let records = records as u32;
    let frames = Frames::of(alloc, &trace, records)?;
    Ok(Inputs {
        setup,
        trace: Bytes::new(trace),
        frames,
        script,
        records,
    })
}

/// The inputs of a run over these segments, for so many instances and with this script.
fn inputs_of(alloc: Global, instances: u16, rows: &[Row<'_>], script: &[u8]) -> Result<Inputs, Fail>
    requires some { 1 ≤ instances }
    requires few { instances ≤ 16 }
    ensures { IfOk result IsInputs }
{
    let mut trace = Vec::new(alloc);
    write_header(&mut trace)?;
    for row in rows {
        add_packet(&mut trace, &packet_of(alloc, row)?)?;
    }
    inputs_over(alloc, instances, trace, script)
}

/// A SYN of a client from this port.
fn syn(port: u16) -> Row<'static> {
    ((CLIENT.0, port), SERVICE, (1000, 0), SYN, b"")
}

/// What the client acknowledges first, and the port from which its server is asked first.
fn marks() -> (u32, u16) {
    let flow = Flow {
        service: 0,
        address: CLIENT.0,
        port: CLIENT.1,
        life: 0,
    };
    let marks = marks_of(&SECRET, &flow);
    (marks.forged.wrapping_add(1), candidate(&marks, 3, 4, 0))
}

/// The journal of a run.
fn journal_of(alloc: Global, done: &RunResult) -> Result<Vec<u8>, AllocError> {
    let mut out = Vec::new(alloc);
    journal(&done.histories, &mut out)?;
    Ok(out)
}

/// The journal of a run of records that instance 1 handles on shard 3 of four, each with so many steps.
fn lines_of(alloc: Global, steps: &[u32]) -> Result<String, AllocError> {
    let mut text = String::from_str(alloc, "shard 0\nshard 1\nshard 2\nshard 3\n")?;
    for (item, count) in steps.iter().enumerate() {
        write!(text, "take 1 {item}\n")?;
        for _ in 0..*count {
            text.push_str("step 1\n")?;
        }
    }
    Ok(text)
}

/// Adds the packets of these segments.
fn add_packets(packets: &mut Vec<u8>, outs: Vec<Segment>) -> Result<(), Fail> {
    for out in outs {
        add_segment(packets, &out)?;
    }
    Ok(())
}

/// Makes the call of an entry.
fn make(bench: &mut Bench, entry: &Entry<Call>) -> Result<Reply, AllocError>
    requires { IsCall bench.old.state.setup bench.old.state.shard entry.now.call }
    ensures setup { bench.new.state.setup ≡ bench.old.state.setup }
    ensures shard { bench.new.state.shard ≡ bench.old.state.shard }
{
    apply(bench, &entry.call)
}

/// The packets of what a shard's bench sends in a replay of its history, one after the other.
fn replayed(
    alloc: Global,
    setup: &Setup,
    shard: u8,
    history: &[Entry<Call>],
) -> Result<Vec<u8>, Fail>
    requires { AreCalls setup.now shard (map (λ e. e.call) history.now) }
{
    let mut bench = Bench::new(alloc, setup.copy()?, shard)?;
    let mut packets = Vec::new(alloc);
    for entry in history {
        if let Reply::Done { outs, .. } = make(&mut bench, entry)? {
            add_packets(&mut packets, outs.into_vec())?;
        }
    }
    Ok(packets)
}

/// The packets of what a run sent.
fn packets_of(alloc: Global, done: &RunResult) -> Result<Vec<u8>, Fail> {
    let mut packets = Vec::new(alloc);
    for (_, out) in done.result.outs.as_slice() {
        add_segment(&mut packets, out)?;
    }
    Ok(packets)
}

/// Whether the replay of this shard's history alone sends what the run sent.
fn is_replayed(alloc: Global, inputs: &Inputs, done: &RunResult, shard: u8) -> Result<bool, Fail>
    requires run { IsThreadRun inputs.now done.now.result.lines done.now.result.outs (map (λ h. h.items) done.now.histories.items) }
    requires shard { shard < inputs.now.setup.shards }
{
    let Some(history) = done.histories.get(shard as usize) else {
        return Ok(false);
    };
    let packets = replayed(alloc, &inputs.setup, shard, history)?;
    Ok(packets.as_slice() == packets_of(alloc, done)?.as_slice())
}

/// A whole flow, from the client's SYN to the last acknowledgment: what became of each segment, and the journal, whose replay
/// sends the same. Once the flow is open its records are kept: what the balancer then passes on takes no step, but for the
/// three that store each side's end.
#[test]
fn a_whole_flow_has_its_journal(rt: HostRuntime) -> Result<(), Fail> {
    let alloc = rt.alloc();
    let (y, port) = marks();
    let near = (SERVICE.0, port);
    let data = [b'x'; 200];
    let later = y.wrapping_add(200);
    let last = y.wrapping_add(201);
    let rows: [Row<'_>; 10] = [
        (CLIENT, SERVICE, (1000, 0), SYN, b""),
        (CLIENT, SERVICE, (1001, y), ACK, b""),
        (CLIENT, SERVICE, (1001, y), PSH + ACK, HEAD),
        (SERVER, near, (70000, 1001), SYN + ACK, b""),
        (SERVER, near, (70001, 1070), ACK, b""),
        (SERVER, near, (70001, 1070), PSH + ACK, &data),
        (CLIENT, SERVICE, (1070, later), ACK, b""),
        (SERVER, near, (70201, 1070), FIN + ACK, b""),
        (CLIENT, SERVICE, (1070, last), FIN + ACK, b""),
        (SERVER, near, (70202, 1071), ACK, b""),
    ];
    let verdicts = [
        Verdict::Answered,
        Verdict::Waiting,
        Verdict::Asked { server: 0, port },
        Verdict::Opened,
        Verdict::Forwarded,
        Verdict::Forwarded,
        Verdict::Forwarded,
        Verdict::Forwarded,
        Verdict::Forwarded,
        Verdict::Forwarded,
    ];
    let inputs = inputs_of(alloc, 2, &rows, b"")?;
    let done = run_all(&rt, alloc, &inputs, &OpenGate)?;
    let lines = done.result.lines.as_slice();
    assert!(rt;
        lines
            .iter()
            .map(|l| (l.instance, l.verdict))
            .eq(verdicts.iter().map(|v| (Some(1), *v)))
    );
    assert_eq!(rt; done.result.outs.as_slice().len(), 10);
    let wanted = lines_of(alloc, &[3, 4, 10, 9, 0, 0, 0, 3, 3, 0])?;
    assert!(rt; journal_of(alloc, &done)?.as_slice() == wanted.as_bytes());
    assert!(rt; inputs.setup.shards() == 4);
    assert!(rt; is_replayed(alloc, &inputs, &done, 3)?);
    Ok(())
}

/// How many calls a run made of each kind: takes, steps, crashes and failures.
fn counts(done: &RunResult) -> [u64; 4] {
    let mut counts = [0u64; 4];
    for history in &done.histories {
        for entry in history {
            let kind = match &entry.call {
                Call::Take { .. } => 0,
                Call::Step { .. } => 1,
                Call::Crash { .. } => 2,
                Call::Fail { .. } => 3,
            };
            counts[kind] = counts[kind].wrapping_add(1);
        }
    }
    counts
}

/// SYNs of clients from so many ports, which stand for two instances in turn: what becomes of the first one, and how many
/// calls there are. The others are answered.
#[test]
fn scripts_are_run(rt: HostRuntime) -> Result<(), Fail> {
    let alloc = rt.alloc();
    let rows: [(u16, u16, &[u8], Verdict, [u64; 4]); 6] = [
        (2, 2, b"", Verdict::Answered, [2, 6, 0, 0]),
        // The crash comes within the handling, and right after the take.
        (
            2,
            2,
            b"crash 1 at 0 after 1\nback 1 at 1\n",
            Verdict::Crashed,
            [2, 4, 4, 0],
        ),
        (
            2,
            2,
            b"crash 1 at 0 after 0\nfail 2 at 1\n",
            Verdict::Crashed,
            [2, 3, 4, 4],
        ),
        // .. right after the handling, and while another instance handles the record.
        (
            2,
            2,
            b"crash 1 at 0 after 88\n",
            Verdict::Answered,
            [2, 6, 4, 0],
        ),
        (
            2,
            2,
            b"crash 0 at 0 after 5\nback 0 at 1\n",
            Verdict::Answered,
            [2, 6, 4, 0],
        ),
        (
            16,
            32,
            b"fail 0 at 3\nfail 1 at 18\n",
            Verdict::Answered,
            [32, 96, 0, 8],
        ),
    ];
    for (instances, clients, script, first, calls) in rows {
        let mut syns = Vec::new(alloc);
        for client in 0..clients {
            syns.push(syn(40000 + client % 100))?;
        }
        if instances == 0 || instances > 16 {
            return Err("no such instances".into());
        }
        let inputs = inputs_of(alloc, instances, &syns, script)?;
        let done = run_all(&rt, alloc, &inputs, &OpenGate)?;
        let lines = done.result.lines.as_slice();
        assert_eq!(rt; lines.len(), clients as usize);
        assert!(rt; lines.iter().take(1).all(|l| l.verdict == first));
        assert!(rt; lines.iter().skip(1).all(|l| l.verdict == Verdict::Answered));
        assert!(rt; counts(&done) == calls);
    }
    Ok(())
}

/// Holds the first record of one worker until the other worker has handled one.
#[derive(Drop)]
struct Holding {
    held: u16,
    left: AtomicU64,
    met: AtomicU64,
}

impl Gate for Holding {
    fn enter(&self, worker: u16, _item: u32) {
        if worker != self.held {
            return;
        }
        for _ in 0..10_000_000 {
            if self.left.load(Ordering::SeqCst) == 1 {
                self.met.store(1, Ordering::SeqCst);
                return;
            }
            // The other worker may wait for a processor.
            thread::yield_now();
        }
    }

    fn leave(&self, worker: u16, _item: u32) {
        if worker != self.held {
            self.left.store(1, Ordering::SeqCst);
        }
    }

    fn fed(&self, _worker: u16, _record: u32) {}
}

/// Whether the worker that is held sees the other one handle a record while it is held.
fn overlaps<R: Threads + Wait + Sync>(rt: &R, alloc: Global, held: u16) -> Result<bool, Fail> {
    let inputs = inputs_of(alloc, 2, &[syn(40000), syn(40001)], b"")?;
    let gate = Holding {
        held,
        left: AtomicU64::new(0),
        met: AtomicU64::new(0),
    };
    let done = run_all(rt, alloc, &inputs, &gate)?;
    Ok(gate.met.load(Ordering::SeqCst) == 1 && done.result.lines.as_slice().len() == 2)
}

#[test]
fn two_workers_run_at_once(rt: HostRuntime) -> Result<(), Fail> {
    assert!(rt; overlaps(&rt, rt.alloc(), 1)?);
    assert!(rt; overlaps(&rt, rt.alloc(), 0)?);
    Ok(())
}

/// SYNs of a hundred clients, whose segments all go to instance 1 of two.
fn hundred_syns(alloc: Global) -> Result<Inputs, Fail>
    ensures { IfOk result IsInputs }
{
    let mut syns: Vec<Row<'static>> = Vec::new(alloc);
    for client in 0..100u16 {
        syns.push((
            (0xc000_0209, 5000 + 2 * client),
            SERVICE,
            (1000, 0),
            SYN,
            b"",
        ))?;
    }
    inputs_of(alloc, 2, &syns, b"")
}

/// Gives the numbers below 100 in order, and then the end. False where the inbox was full.
fn give_hundred<R: Wait>(rt: &R, giver: &mut Giver<u32>) -> bool
    requires { giver.old.ended ≡ false }
    ensures { giver.new.inbox ≡ giver.old.inbox }
{
    for item in 0..100 {
        if giver.try_give(rt, item).is_err() {
            return false;
        }
    }
    giver.end(rt)
}

#[test]
fn a_worker_is_served_from_its_inbox(rt: HostRuntime) -> Result<(), Fail> {
    let alloc = rt.alloc();
    let inputs = hundred_syns(alloc)?;
    if inputs.setup.instances() != 2 {
        return Err("other instances".into());
    }
    let (locks, mut crew) = Locks::open(alloc, &inputs.setup)?;
    let (mut giver, mut taker) = pair::<u32>(alloc, 128)?;
    assert!(rt; give_hundred(&rt, &mut giver));
    let made = serve(
        &rt, alloc, &inputs, 1, &locks, &mut crew, &mut taker, &OpenGate,
    )?;
    taker.take_in(giver);
    assert_eq!(rt; made.as_slice().len(), 100);
    assert!(rt; made.as_slice().iter().map(|m| m.0).eq(0..100));
    assert!(rt;
        made.as_slice().iter().all(|m| m.1.instance == Some(1)
            && m.1.verdict == Verdict::Answered
            && m.2.as_slice().len() == 1)
    );
    Ok(())
}

/// Holds the first record of worker 1 until so many numbers were given or are about to be, and looks for one more.
#[derive(Drop)]
struct Filling {
    fed: AtomicU64,
    /// How many times a worker came to a record.
    entered: AtomicU64,
    /// How many numbers had been given or were about to be when it stopped waiting for them, and a while later.
    seen: AtomicU64,
    later: AtomicU64,
}

/// The one that the worker has taken, those in its inbox, and the one that waits to be given.
const HELD_BACK: u64 = 1 + 64 + 1;

impl Gate for Filling {
    fn enter(&self, _worker: u16, _item: u32) {
        if self.entered.fetch_add(1, Ordering::SeqCst) != 0 {
            return;
        }
        for _ in 0..10_000_000 {
            if self.fed.load(Ordering::SeqCst) >= HELD_BACK {
                break;
            }
            thread::yield_now();
        }
        self.seen
            .store(self.fed.load(Ordering::SeqCst), Ordering::SeqCst);
        for _ in 0..1_000_000 {
            if self.fed.load(Ordering::SeqCst) > HELD_BACK {
                break;
            }
            thread::yield_now();
        }
        self.later
            .store(self.fed.load(Ordering::SeqCst), Ordering::SeqCst);
    }

    fn leave(&self, _worker: u16, _item: u32) {}

    fn fed(&self, _worker: u16, _record: u32) {
        self.fed.fetch_add(1, Ordering::SeqCst);
    }
}

#[test]
fn a_full_inbox_holds_its_giver_back(rt: HostRuntime) -> Result<(), Fail> {
    let alloc = rt.alloc();
    let inputs = hundred_syns(alloc)?;
    let gate = Filling {
        fed: AtomicU64::new(0),
        entered: AtomicU64::new(0),
        seen: AtomicU64::new(0),
        later: AtomicU64::new(0),
    };
    let done = run_all(&rt, alloc, &inputs, &gate)?;
    let lines = done.result.lines.as_slice();
    assert_eq!(rt; lines.len(), 100);
    assert!(rt; lines.iter().all(|l| l.verdict == Verdict::Answered));
    assert_eq!(rt; gate.seen.load(Ordering::SeqCst), HELD_BACK);
    assert_eq!(rt; gate.later.load(Ordering::SeqCst), HELD_BACK);
    assert_eq!(rt; gate.fed.load(Ordering::SeqCst), 100);
    Ok(())
}
