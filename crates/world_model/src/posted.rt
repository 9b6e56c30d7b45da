use crate::at::At;
use flow_id::Flow;
use tcp_segment::Segment;

/// Who sent a segment.
#[derive(Clone, Copy, Debug, PartialEq, Eq)]
pub enum Sender {
    /// An end.
    End(At),
    /// The balancer, handling a segment of this flow, if its flow is known.
    Balancer(Option<Flow>),
    /// Somebody else.
    Stranger,
}

/// A segment that was sent, and which positions it truly stands at and acknowledges, where a stream tells it.
#[derive(Debug, Drop)]
pub struct Posted {
    pub segment: Segment,
    pub by: Sender,
    /// The position of the sender's stream at which it stands.
    pub position: Option<u64>,
    /// The position of the receiver's stream that it acknowledges.
    pub acknowledged: Option<u64>,
}
