//! Laws over the definitions: each is the contract of a function that does nothing.

ghost use Rattle.zs_channels.specs.Laws.{ChannelsAreTold, FifoGivesAll, RingKeepsNewest, HoldsHanded, PrintOpensNothing, OthersOpenNothing};

/// After any calls each channel is what has happened to it since it was opened, whatever happened to others.
pub fn channels_are_told<T>()
    ensures { ChannelsAreTold T }
{}

/// What was read of a fifo, and then what is in it, is what was handed over before its end, in order.
pub fn fifo_gives_all<T>()
    ensures { FifoGivesAll T }
{}

/// A ring holds as many items as its size at most, and they are the last that were handed over.
pub fn ring_keeps_newest<T>()
    ensures { RingKeepsNewest T }
{}

/// Nothing is in a channel but what was handed over: what holds of all of that holds of each item.
pub fn holds_handed<T>()
    ensures { HoldsHanded T }
{}

/// No channel is opened for what is printed alone, nor for a kind that can have none.
pub fn opens_nothing<T>()
    ensures printed { PrintOpensNothing T }
    ensures others { OthersOpenNothing T }
{}
