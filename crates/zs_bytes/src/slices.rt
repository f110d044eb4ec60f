//! The list of slices inside a payload.

ghost use Rattle.std.specs.Prelude.{◌≡◌, IfOk};
ghost use Rattle.zs_bytes.specs.Slices.{slices_of};

use bytes::Bytes;
use std::alloc::{AllocError, Global};
use std::slice;

/// Slices in order. Up to one costs no list on the heap.
#[derive(Debug, Drop)]
pub(crate) enum Slices {
    Nothing,
    One(Bytes),
    Many(Vec<Bytes>),
}

impl Slices {
    /// These slices. A list of one is given back.
    pub(crate) fn of_list(list: Vec<Bytes>) -> Slices
        ensures { slices_of result ≡ list.items }
    {
        let mut list = list;
        if list.len() != 1 {
            return Slices::Many(list);
        }
        match list.pop() {
            Some(slice) => Slices::One(slice),
            None => Slices::Nothing,
        }
    }

    /// The slices in order, however they are held. It takes no memory.
    pub(crate) fn as_slice(&self) -> &[Bytes]
        ensures { result.now ≡ slices_of self.now }
    {
        match self {
            Slices::Nothing => &[],
            Slices::One(slice) => slice::from_ref(slice),
            Slices::Many(slices) => slices.as_slice(),
        }
    }

    /// The same slices. No byte is copied.
    pub(crate) fn try_clone(&self, alloc: Global) -> Result<Slices, AllocError>
        ensures { IfOk result (λ copy. slices_of copy ≡ slices_of self.now) }
    {
        Ok(match self {
            Slices::Nothing => Slices::Nothing,
            Slices::One(slice) => Slices::One(slice.clone()?),
            Slices::Many(slices) => Slices::Many(shared(alloc, slices)?),
        })
    }
}

/// A list of the same slices.
fn shared(alloc: Global, slices: &[Bytes]) -> Result<Vec<Bytes>, AllocError>
    ensures { IfOk result (λ copies. copies.items ≡ slices.now) }
{
    let mut copies = Vec::with_capacity(alloc, slices.len())?;
    'copies: for slice in slices {
        copies.push(slice.clone()?)?;
    }
    Ok(copies)
}
