ghost use Rattle.std.specs.Prelude.{◌≡◌, ◌<◌, ◌+◌, ◌^◌, ◌||◌, ◌++◌, ℕ, Bool, true, false, List, Some, None};
ghost use Rattle.seq_space.specs.declared.Num.{Num};
ghost use Rattle.tcp_segment.specs.declared.segment.Head.{Head};
ghost use Rattle.tcp_segment.specs.Flags.{has_rst, has_syn};
ghost use Rattle.tcp_end.specs.declared.sent.Sent.{Sent};
ghost use Rattle.tcp_end.specs.EndState.{EndState, expected};
ghost use Rattle.tcp_end.specs.Taking.{taken};
ghost use Rattle.tcp_end.specs.Sending.{MaySend, send_of};
ghost use Rattle.tcp_end.specs.Streams.{ShowsStream, HasReceived};

/// A law: what an end sends is one case of what it may send.
pub fn sent_is_allowed()
    ensures { (e : EndState) (size : ℕ) (s : Sent) → size < 2 ^ 16 → send_of e size ≡ Some s → MaySend e s }
{}

/// A law: an end that has received a prefix of its peer's stream, and all of it where it saw the close, still has so
/// when it takes a segment that shows a part of the stream at a position less than 2^31 from the expected one; when it
/// takes any segment with RST or SYN, or does not know its peer; and when the stream grows or is closed.
pub fn received_is_a_prefix()
    ensures takes { (e : EndState) (peer : Num) (head : Head) (body : List ℕ) (stream : List ℕ) (closed : Bool) (position : ℕ)
        → e.peer ≡ Some peer → ShowsStream peer stream closed position head.seq head.flags body
        → position < expected e + 2 ^ 31 → expected e < position + 2 ^ 31
        → HasReceived stream closed e → HasReceived stream closed (taken e head body) }
    ensures others { (e : EndState) (head : Head) (body : List ℕ) (stream : List ℕ) (closed : Bool)
        → (has_rst head.flags || has_syn head.flags) ≡ true → HasReceived stream closed e → HasReceived stream closed (taken e head body) }
    ensures unknown { (e : EndState) (head : Head) (body : List ℕ) (stream : List ℕ) (closed : Bool)
        → e.peer ≡ None → HasReceived stream closed e → HasReceived stream closed (taken e head body) }
    ensures grows { (e : EndState) (stream more : List ℕ) → HasReceived stream false e → HasReceived (stream ++ more) false e }
    ensures closes { (e : EndState) (stream : List ℕ) → HasReceived stream false e → HasReceived stream true e }
{}

/// A law: between two ends that know each other, whatever one may send can be taken by the other, at any time at which
/// it lies less than 2^31 from the expected position, and what is received stays a prefix of what was written.
pub fn ends_agree()
    ensures { (one other : EndState) (s : Sent) (head : Head)
        → MaySend one s → head.seq ≡ s.seq → head.flags ≡ s.flags → other.peer ≡ Some one.first
        → s.position < expected other + 2 ^ 31 → expected other < s.position + 2 ^ 31
        → HasReceived one.written one.closed other → HasReceived one.written one.closed (taken other head s.body) }
{}
