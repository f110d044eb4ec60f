//! What the calls answer. `include/yeqofin.h` has the same names.

/// The call did what it is for.
pub(crate) const OK: u32 = 0;
/// There is no session in the slot.
pub(crate) const NOT_OPEN: u32 = 1;
/// There is a session in the slot.
pub(crate) const ALREADY_OPEN: u32 = 2;
/// No session can be opened with these settings.
pub(crate) const BAD_SETTINGS: u32 = 3;
/// The line is longer than the settings allow.
pub(crate) const TOO_LONG: u32 = 4;
/// The line is no event of the session.
pub(crate) const NO_EVENT: u32 = 5;
/// Want of memory.
pub(crate) const NO_MEMORY: u32 = 6;
/// There is no effect.
pub(crate) const NOTHING: u32 = 7;
/// There is no such part.
pub(crate) const NO_PART: u32 = 8;
