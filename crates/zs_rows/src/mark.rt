//! One entry of an index: a number under a key.
/// That a number stands under a key.
#[derive(Debug, Clone, Copy, PartialEq, Eq, PartialOrd, Ord, Drop)]
pub struct Mark {
    pub key: u64,
    pub number: u32,
}
