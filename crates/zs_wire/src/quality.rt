//! The quality of service, as messages carry it.
/// What a router does with a message that finds its queue full.
#[derive(Clone, Copy, Debug, Default, PartialEq, Eq, Hash)]
pub enum CongestionControl {
    /// The message is lost.
    #[default]
    Drop,
    /// The sender waits.
    Block,
}

/// The quality of service of a message, as it stands in the message.
#[derive(Clone, Copy, Debug, PartialEq, Eq, Hash)]
pub struct QoSType {
    /// From 0, the protocol's own `Control`, to 7.
    pub priority: u8,
    pub congestion: CongestionControl,
    /// Whether it goes out at once, and isn't batched with others.
    pub express: bool,
}
