//! Reliability and priority of messages.
ghost use Rattle.std.specs.Prelude.{◌≡◌, if◌then◌else◌};
ghost use Rattle.zs_sample.specs.Quality.{number_of, priority_of};

/// Whether a message may be lost on the way.
#[derive(Clone, Copy, Debug, PartialEq, Eq, Hash)]
pub enum Reliability {
    BestEffort,
    Reliable,
}

impl Default for Reliability {
    ghost use Rattle.zs_sample.specs.declared.quality.Reliability.{Reliability};

    ghost is_default = { λ r. r ≡ Reliability.Reliable };

    /// `Reliable`, Zenoh's default.
    fn default() -> Reliability {
        Reliability::Reliable
    }
}

impl Reliability {
    /// `Reliable` where the flag is set.
    pub fn of(reliable: bool) -> Reliability
        ensures { result ≡ (if reliable then Reliability.Reliable else Reliability.BestEffort) }
    {
        if reliable {
            Reliability::Reliable
        } else {
            Reliability::BestEffort
        }
    }
}

/// How urgent a message is, from 1, the most urgent, to 7. `Data` is what a message has by itself.
#[derive(Clone, Copy, Debug, PartialEq, Eq, Hash)]
pub enum Priority {
    RealTime = 1,
    InteractiveHigh = 2,
    InteractiveLow = 3,
    DataHigh = 4,
    Data = 5,
    DataLow = 6,
    Background = 7,
}

/// How a configuration names a priority.
pub type PriorityConf = Priority;

/// A number that stands for no priority of a user's message: none of 1 to 7.
#[derive(Clone, Copy, Debug, PartialEq, Eq)]
pub struct BadPriority;

impl Priority {
    /// What a message has by itself.
    pub const DEFAULT: Priority = Priority::Data;

    /// The most urgent one.
    pub const MAX: Priority = Priority::RealTime;

    /// The least urgent one.
    pub const MIN: Priority = Priority::Background;

    /// How many there are.
    pub const NUM: usize = 7;

    /// The number that stands for it in messages, from 1 to 7.
    pub fn number(self) -> u8
        ensures { result ≡ number_of self }
    {
        self as u8
    }

    /// The priority of a message that says this number. A number outside 1 to 7, as the protocol's
    /// `Control`, is handed out as `Data`.
    pub fn handed_out(number: u8) -> Priority
        ensures { result ≡ priority_of number }
    {
        match Priority::try_from(number) {
            Ok(priority) => priority,
            Err(BadPriority) => Priority::DEFAULT,
        }
    }
}

impl Default for Priority {
    ghost use Rattle.zs_sample.specs.declared.quality.Priority.{Priority};

    ghost is_default = { λ p. p ≡ Priority.Data };

    /// `Data`, Zenoh's default.
    fn default() -> Priority {
        Priority::DEFAULT
    }
}

impl TryFrom<u8> for Priority {
    type Error = BadPriority;

    ghost use Rattle.zs_sample.specs.Quality.{IsPriorityOf};

    ghost try_from_gives = { IsPriorityOf };

    /// The priority of this number in the Zenoh protocol. 0, its own `Control`, and what is above 7 are refused.
    fn try_from(number: u8) -> Result<Priority, BadPriority> {
        match number {
            1 => Ok(Priority::RealTime),
            2 => Ok(Priority::InteractiveHigh),
            3 => Ok(Priority::InteractiveLow),
            4 => Ok(Priority::DataHigh),
            5 => Ok(Priority::Data),
            6 => Ok(Priority::DataLow),
            7 => Ok(Priority::Background),
            _ => Err(BadPriority),
        }
    }
}
