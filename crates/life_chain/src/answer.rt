use flow_record::Record;

/// What an ask ended with.
#[derive(Clone, Copy, Debug, PartialEq, Eq)]
pub enum Answer {
    /// This record is decided under the key.
    Decided(Record),
    /// No record was decided under the key.
    Absent,
    /// Each cell had failed.
    Down,
}
