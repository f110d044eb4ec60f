//! What a declared key carries.

/// How a key was declared: to which session, under which number, and how much of its text the number stands for.
#[derive(Clone, Copy, Debug, PartialEq, Eq, Hash)]
pub struct Declared {
    /// The number that stands for the front of the text on the wire.
    pub number: u16,
    /// How many bytes of the text the number stands for.
    pub prefix_len: u32,
    /// The session that declared it.
    pub tag: u64,
}
