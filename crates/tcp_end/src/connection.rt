ghost use Rattle.std.specs.Prelude.{◌≡◌, ◌≤◌, ◌-◌, ◌^◌, ◌||◌, ◌==◌, ◌↔◌, [], IsTrue, IfOk, OnOk, OnErr, Err, Some};
ghost use Rattle.std.specs.Option.{option_copied};
ghost use Rattle.tcp_end.specs.EndState.{client_end, server_end, expected, next_expected, stream_end, written_more, closed_end, dead_end, is_close_acknowledged};
ghost use Rattle.tcp_end.specs.Taking.{answers_syn, acked_after, new_bytes, taken};
ghost use Rattle.tcp_end.specs.Sending.{send_of, reset_of, syn_of, syn_ack_of, stream_segment, next_bytes, reaches_close};

use crate::near_position::position_of;
use crate::sent::{EndFault, Sent};
use seq_space::{Num, number};
use std::alloc::{AllocError, Global};
use std::marker::Model;
use tcp_segment::{ACK, Bytes, FIN, Head, RST, SYN};

/// One end of a connection. Contracts see its state, `EndState`.
#[derive(Debug, Drop)]
pub struct End {
    first: Num,
    written: Vec<u8>,
    closed: bool,
    acked: u64,
    peer: Option<Num>,
    received: Vec<u8>,
    saw_close: bool,
    dead: bool,
}

impl Model for End {
    ghost use Rattle.std.specs.Prelude.{◌≤◌};
    ghost use Rattle.tcp_end.specs.EndState.{EndState, stream_end};

    ghost Value = { EndState };

    ghost view = { λ e. record { first = e.first; written = e.written.items; closed = e.closed; acked = e.acked; peer = e.peer; received = e.received.items; saw_close = e.saw_close; dead = e.dead } };

    ghost invariant = { λ e. e.acked ≤ stream_end e.written.items e.closed };
}

impl End {
    /// An end that opens a connection: its stream's first number is `isn`. It takes no memory.
    pub fn client(alloc: Global, isn: Num) -> End
        ensures { result ≡ client_end isn }
    {
        End {
            first: isn,
            written: Vec::new(alloc),
            closed: false,
            acked: 0,
            peer: None,
            received: Vec::new(alloc),
            saw_close: false,
            dead: false,
        }
    }

    /// An end that has taken a SYN numbered `peer`: its own stream's first number is `isn`. It takes no memory.
    pub fn server(alloc: Global, isn: Num, peer: Num) -> End
        ensures { result ≡ server_end isn peer }
    {
        End {
            first: isn,
            written: Vec::new(alloc),
            closed: false,
            acked: 0,
            peer: Some(peer),
            received: Vec::new(alloc),
            saw_close: false,
            dead: false,
        }
    }

    /// Appends bytes to the stream that the end sends. The fault is Closed exactly where the stream is closed or the end
    /// is dead. A fault leaves the end as it was.
    pub fn write(&mut self, bytes: &[u8]) -> Result<(), EndFault>
        ensures ok { OnOk result (self.new ≡ written_more self.old bytes.now) }
        ensures closed { (result ≡ Err EndFault.Closed) ↔ IsTrue (self.old.closed || self.old.dead) }
        ensures err { OnErr result (self.new ≡ self.old) }
    {
        if self.closed || self.dead {
            return Err(EndFault::Closed);
        }
        match self.written.extend_from_slice(bytes) {
            Ok(()) => Ok(()),
            Err(_) => Err(EndFault::Memory),
        }
    }

    /// Ends the stream that the end sends.
    pub fn close(&mut self)
        ensures { self.new ≡ closed_end self.old }
    {
        self.closed = true;
    }
    /// Makes the end dead, and answers the reset that tells the peer. None exactly where it was dead already. It takes
    /// no memory.
    pub fn abort(&mut self) -> Option<Sent>
        ensures reset { result ≡ reset_of self.old }
        ensures dead { self.new ≡ dead_end self.old }
    {
        if self.dead {
            return None;
        }
        self.dead = true;
        let (flags, ack) = match self.peer {
            None => (RST, Num(0)),
            Some(peer) => (RST + ACK, number(peer, self.expected())),
        };
        Some(Sent {
            position: self.acked,
            flags,
            seq: number(self.first, self.acked),
            ack,
            body: self.no_bytes(),
        })
    }

    /// The segment that the end sends now, with at most `size` bytes: a SYN or a SYN-ACK until it is acknowledged, and
    /// then what stands from the lowest position on that is not acknowledged, with FIN where that reaches the close.
    /// None exactly where the end is dead. The one error is want of memory.
    pub fn send(&self, size: u16) -> Result<Option<Sent>, AllocError>
        ensures { IfOk result (λ s. s ≡ send_of self.now size) }
    {
        if self.dead {
            return Ok(None);
        }
        let Some(peer) = self.peer else {
            return Ok(Some(self.syn()));
        };
        if self.acked == 0 {
            return Ok(Some(self.syn_ack(peer)));
        }
        let body = Vec::from_slice(*self.written.allocator(), self.next_bytes(size))?;
        Ok(Some(self.stream_segment(peer, Bytes::new(body))))
    }

    /// Takes a segment with these fields and this data. The one error is want of memory, and then the end is as it was.
    pub fn take(&mut self, head: &Head, body: &[u8]) -> Result<(), AllocError>
        ensures ok { OnOk result (self.new ≡ taken self.old head.now body.now) }
        ensures err { OnErr result (self.new ≡ self.old) }
    {
        if self.dead {
            return Ok(());
        }
        if head.has_rst() {
            self.dead = true;
            return Ok(());
        }
        let Some(peer) = self.peer else {
            if self.is_answered_by(head) {
                self.peer = Some(head.seq);
                self.acked = 1;
            }
            return Ok(());
        };
        if head.has_syn() {
            return Ok(());
        }
        let acked = self.acked_after(head);
        if let Some(bytes) = self.new_bytes(peer, head, body) {
            self.received.extend_from_slice(bytes)?;
            self.saw_close = head.has_fin();
        }
        self.acked = acked;
        Ok(())
    }

    /// The bytes of the peer's stream that it has, from the first on. It takes no memory.
    pub fn received(&self) -> &[u8]
        ensures { result.now ≡ self.now.received }
    {
        self.received.as_slice()
    }

    /// The bytes of its own stream, from the first on. It takes no memory.
    pub fn written(&self) -> &[u8]
        ensures { result.now ≡ self.now.written }
    {
        self.written.as_slice()
    }

    /// Whether it saw the peer's close. It takes no memory.
    pub fn saw_close(&self) -> bool
        ensures { result ≡ self.now.saw_close }
    {
        self.saw_close
    }

    /// Whether its own stream is closed and the peer has acknowledged the close. It takes no memory.
    pub fn close_acknowledged(&self) -> bool
        ensures { result ≡ is_close_acknowledged self.now }
    {
        self.closed && self.acked == self.written.len() as u64 + 2
    }

    /// Whether it was aborted, or the peer has reset the connection. It takes no memory.
    pub fn dead(&self) -> bool
        ensures { result ≡ self.now.dead }
    {
        self.dead
    }

    /// Whether its own stream has ended. It takes no memory.
    pub fn closed(&self) -> bool
        ensures { result ≡ self.now.closed }
    {
        self.closed
    }

    /// The position that is expected next of the peer's stream, 0 while the peer is not known. It takes no memory.
    pub fn next_expected(&self) -> u64
        ensures value { result ≡ next_expected self.now }
        ensures bound { result ≤ 2 ^ 64 - 2 ^ 31 }
    {
        match self.peer {
            Some(_) => self.expected(),
            None => 0,
        }
    }

    /// What is known of each end: nothing is acknowledged behind its stream. It does nothing.
    pub fn known(&self)
        ensures { self.now.acked ≤ stream_end self.now.written self.now.closed }
    {
        let _ = &self.acked;
    }

    /// The position that is expected next of the peer whose SYN was taken.
    fn expected(&self) -> u64
        ensures value { result ≡ expected self.now }
        ensures bound { result ≤ 2 ^ 64 - 2 ^ 31 }
    {
        self.received.len() as u64 + if self.saw_close { 2 } else { 1 }
    }

    fn no_bytes(&self) -> Bytes
        ensures { result ≡ [] }
    {
        Bytes::new(Vec::new(*self.received.allocator()))
    }

    fn syn(&self) -> Sent
        ensures { result ≡ syn_of self.now }
    {
        Sent {
            position: 0,
            flags: SYN,
            seq: number(self.first, 0),
            ack: Num(0),
            body: self.no_bytes(),
        }
    }

    fn syn_ack(&self, peer: Num) -> Sent
        ensures { result ≡ syn_ack_of peer self.now }
    {
        Sent {
            position: 0,
            flags: SYN + ACK,
            seq: number(self.first, 0),
            ack: number(peer, self.expected()),
            body: self.no_bytes(),
        }
    }

    /// The bytes from the lowest position on that is not acknowledged, `size` at most.
    fn next_bytes(&self, size: u16) -> &[u8]
        ensures { result.now ≡ next_bytes self.now size }
    {
        let written = self.written.as_slice();
        let from = written.len().min(self.acked.saturating_sub(1) as usize);
        let rest = &written[from..];
        &rest[..rest.len().min(size as usize)]
    }

    fn stream_segment(&self, peer: Num, body: Bytes) -> Sent
        ensures { result ≡ stream_segment peer self.now body }
    {
        let end = self.acked.saturating_sub(1) + body.as_slice().len() as u64;
        let fin = self.closed && end == self.written.len() as u64;
        Sent {
            position: self.acked,
            flags: if fin { ACK + FIN } else { ACK },
            seq: number(self.first, self.acked),
            ack: number(peer, self.expected()),
            body,
        }
    }

    /// Whether the segment is a SYN-ACK that acknowledges the end's SYN.
    fn is_answered_by(&self, head: &Head) -> bool
        ensures { result ≡ answers_syn self.now head.now }
    {
        head.has_syn() && head.has_ack() && head.ack == number(self.first, 1)
    }

    /// The highest acknowledged position with that of the segment.
    fn acked_after(&self, head: &Head) -> u64
        ensures { result ≡ acked_after self.now head.now }
    {
        if !head.has_ack() {
            return self.acked;
        }
        let end = self.written.len() as u64 + if self.closed { 2 } else { 1 };
        match position_of(head.ack, self.first, self.acked) {
            Some(position) if self.acked < position && position <= end => position,
            _ => self.acked,
        }
    }

    /// The bytes of the segment that are new, where its data or its close covers the position that is expected next.
    fn new_bytes<'a>(&self, peer: Num, head: &Head, body: &'a [u8]) -> Option<&'a [u8]>
        ensures { option_copied result ≡ new_bytes self.now peer head.now body.now }
    {
        let expected = self.expected();
        let position = position_of(head.seq, peer, expected)?;
        let known = expected.checked_sub(position)?;
        if self.saw_close || known > body.len() as u64 {
            return None;
        }
        Some(&body[known as usize..])
    }
}
