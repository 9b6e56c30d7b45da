ghost use Rattle.std.specs.Prelude.{◌≡◌};
ghost use Rattle.script_text.specs.Faults.{is_ranged as is_ranged_line};

/// The highest number of a record that a line may name.
pub const LAST_ITEM: u32 = 262_143;

/// The most cell steps after which a crash may come.
pub const MOST_STEPS: u16 = 88;

/// A line of a script. Each number of a record is at most 262,143.
#[derive(Clone, Copy, Debug, PartialEq, Eq)]
pub enum Line {
    /// The record `item` goes to the instance.
    Give {
        item: u32,
        instance: u16,
    },
    /// The instance crashes in the record `item` after so many cell steps, at most 88.
    Crash {
        instance: u16,
        item: u32,
        after: u16,
    },
    /// The instance lives again from the record `item` on.
    Back {
        instance: u16,
        item: u32,
    },
    /// The replica fails before the record `item`.
    Fail {
        replica: u8,
        item: u32,
    },
}

impl Line {
    /// Whether each number of the line is in its range, with so many instances and replicas.
    pub fn is_ranged(&self, instances: u16, replicas: u8) -> bool
        ensures { result ≡ is_ranged_line instances replicas self.now }
    {
        match *self {
            Line::Give { item, instance } => item <= LAST_ITEM && instance < instances,
            Line::Crash {
                instance,
                item,
                after,
            } => instance < instances && item <= LAST_ITEM && after <= MOST_STEPS,
            Line::Back { instance, item } => instance < instances && item <= LAST_ITEM,
            Line::Fail { replica, item } => replica < replicas && item <= LAST_ITEM,
        }
    }
}
