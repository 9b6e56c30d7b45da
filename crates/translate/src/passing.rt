ghost use Rattle.std.specs.Prelude.{◌≡◌, ◌<◌, length, IsTrue};
ghost use Rattle.flow_record.specs.Records.{is_open, is_syn, open_server};
ghost use Rattle.window_scale.specs.Windows.{AreShifts};
ghost use Rattle.sack_opt.specs.Moves.{moved_blocks};
ghost use Rattle.translate.specs.Translation.{GoesToClient, GoesToServer, both_permit, kept_flags, passed_options, shifts_between, to_client_segment, to_server_segment};

use flow_id::Flow;
use flow_record::Record;
use rule_table::Setup;
use sack_opt::shifted;
use seq_space::{Blocks, Num};
use tcp_segment::{ACK, FIN, Head, Options, PSH, RST, SYN, Segment, URG};
use window_scale::{Shifts, restate, shifts};

/// The flags without CWR and ECE (RFC 3168, 6.1), which speak of one connection alone.
fn without_congestion(flags: u8) -> u8
    ensures { result ≡ kept_flags flags }
{
    flags & (URG | ACK | PSH | RST | SYN | FIN)
}

/// By how many bits each side of the flow shifts its windows.
fn shifts_of(syn: &Record, opened: &Record) -> Shifts
    requires syn { IsTrue (is_syn syn.now) }
    requires opened { IsTrue (is_open opened.now) }
    ensures shifts { result ≡ shifts_between syn.now opened.now }
    ensures bound { AreShifts result }
{
    let Record::Syn {
        scale: syn_scale,
        ..
    } = *syn
    else {
        unreachable!()
    };
    let Record::Open {
        scale: open_scale,
        ..
    } = *opened
    else {
        unreachable!()
    };
    shifts(syn_scale, open_scale)
}

/// Whether both ends of the flow take selective acknowledgments.
fn both_permit(syn: &Record, opened: &Record) -> bool
    ensures { result ≡ both_permit syn.now opened.now }
{
    matches!(syn, Record::Syn { sack: true, .. })
        && matches!(opened, Record::Open { sack: true, .. })
}

/// The options of a segment that goes on to the server: its blocks, moved, where both ends of the flow take them.
fn options_to_server(
    syn: &Record,
    opened: &Record,
    blocks: &Blocks,
    forged: Num,
    number: Num,
) -> Options
    ensures { result ≡ passed_options syn.now opened.now (moved_blocks forged.0 number.0 blocks.now) }
{
    if !both_permit(syn, opened) {
        return Options::none();
    }
    Options {
        sack: sack_opt::to_server(blocks, forged, number),
        ..Options::none()
    }
}

/// The options of a segment that goes on to the client: its blocks, where both ends of the flow take them.
fn options_to_client(syn: &Record, opened: &Record, blocks: &Blocks) -> Options
    ensures { result ≡ passed_options syn.now opened.now blocks.now }
{
    if !both_permit(syn, opened) {
        return Options::none();
    }
    Options {
        sack: sack_opt::to_client(blocks),
        ..Options::none()
    }
}

/// A client's segment as it goes on to the server: from the source port that the flow owns, with what it acknowledges
/// counted from the server's first number in place of the forged one, and with its window as the server reads it. Its
/// blocks, moved in the same way, go with it where both ends take selective acknowledgments (RFC 2018); all other options,
/// CWR and ECE are dropped. The data is moved, so that it takes no memory.
pub fn to_server(setup: &Setup, seg: Segment, forged: Num, syn: &Record, opened: &Record) -> Segment
    requires syn { IsTrue (is_syn syn.now) }
    requires opened { IsTrue (is_open opened.now) }
    requires known { open_server opened.now < length setup.now.servers }
    ensures segment { result ≡ to_server_segment setup.now seg forged.0 syn.now opened.now }
    ensures goes { GoesToServer setup.now seg forged.0 syn.now opened.now result }
{
    server_bound(setup, seg, forged, syn, opened)
}

#[tactic(auto, unfolding(crate::specs::Translation::to_server_segment))]
fn server_bound(setup: &Setup, seg: Segment, forged: Num, syn: &Record, opened: &Record) -> Segment
    requires syn { IsTrue (is_syn syn.now) }
    requires opened { IsTrue (is_open opened.now) }
    requires known { open_server opened.now < length setup.now.servers }
    ensures { result ≡ to_server_segment setup.now seg forged.0 syn.now opened.now }
{
    let Record::Open {
        server,
        port,
        number,
        ..
    } = *opened
    else {
        unreachable!()
    };
    let Some(server) = setup.server(server) else {
        unreachable!()
    };
    let by = shifts_of(syn, opened);
    let ack = if seg.head.has_ack() {
        shifted(forged, number, seg.head.ack)
    } else {
        Num(0)
    };
    let options = options_to_server(syn, opened, &seg.head.options.sack, forged, number);
    Segment {
        source: setup.service().address,
        target: server.address,
        head: Head {
            source_port: port,
            target_port: server.port,
            ack,
            flags: without_congestion(seg.head.flags),
            window: restate(seg.head.window, by.client_gives, by.server_reads),
            options,
            ..seg.head
        },
        body: seg.body,
    }
}

/// A server's segment as it goes on to the client: from the service, with its sequence number counted from the forged
/// number in place of the server's first one, and with its window as the client reads it. Its blocks go with it as
/// they are where both ends take selective acknowledgments (RFC 2018); all other options, CWR and ECE are dropped. The data is
/// moved, so that it takes no memory.
pub fn to_client(
    setup: &Setup,
    seg: Segment,
    forged: Num,
    syn: &Record,
    opened: &Record,
    flow: &Flow,
) -> Segment
    requires syn { IsTrue (is_syn syn.now) }
    requires opened { IsTrue (is_open opened.now) }
    ensures segment { result ≡ to_client_segment setup.now seg forged.0 syn.now opened.now flow.now }
    ensures goes { GoesToClient setup.now seg forged.0 syn.now opened.now flow.now result }
{
    client_bound(setup, seg, forged, syn, opened, flow)
}

#[tactic(auto, unfolding(crate::specs::Translation::to_client_segment))]
fn client_bound(
    setup: &Setup,
    seg: Segment,
    forged: Num,
    syn: &Record,
    opened: &Record,
    flow: &Flow,
) -> Segment
    requires syn { IsTrue (is_syn syn.now) }
    requires opened { IsTrue (is_open opened.now) }
    ensures { result ≡ to_client_segment setup.now seg forged.0 syn.now opened.now flow.now }
{
    let Record::Open { number, .. } = *opened else {
        unreachable!()
    };
    let by = shifts_of(syn, opened);
    let service = setup.service();
    let ack = if seg.head.has_ack() {
        seg.head.ack
    } else {
        Num(0)
    };
    let options = options_to_client(syn, opened, &seg.head.options.sack);
    Segment {
        source: service.address,
        target: flow.address,
        head: Head {
            source_port: service.port,
            target_port: flow.port,
            seq: shifted(number, forged, seg.head.seq),
            ack,
            flags: without_congestion(seg.head.flags),
            window: restate(seg.head.window, by.server_gives, by.client_reads),
            options,
            ..seg.head
        },
        body: seg.body,
    }
}
