//! The slot that C holds.

ghost use Rattle.std.specs.Prelude.{◌≡◌, is_some, MatchOption};
ghost use Rattle.std.specs.declared.option.Option.TheVariants.{None, Some};

use crate::handle::Handle;
use crate::loose::Loose;
use std::alloc::Global;
use std::mem;
use zs_line_session::LineSession;

/// A session, or none. It is a flag and a pointer: all of it zero is a slot with none.
#[repr(C)]
pub struct Slot {
    live: bool,
    pub handle: Handle,
    ghost told: { live ≡ is_some handle.value },
}

impl Slot {
    /// No session.
    fn empty(alloc: Global) -> Slot
        ensures { result.handle.value ≡ None }
    {
        Slot {
            live: false,
            handle: Handle::none(alloc),
        }
    }

    /// This session.
    fn full(session: Box<LineSession>) -> Slot
        ensures { result.handle.value ≡ Some session.value }
    {
        Slot {
            live: true,
            handle: Handle::of(Loose::of(session)),
        }
    }

    /// The session, if there is one.
    fn into_box(self) -> Option<Box<LineSession>>
        ensures { MatchOption result (self.handle.value ≡ None) (λ b. self.handle.value ≡ Some b.value) }
    {
        let Slot { live, handle } = self;
        if live {
            Some(handle.into_loose().into_box())
        } else {
            None
        }
    }

    /// Whether there is a session.
    pub(crate) fn is_open(&self) -> bool
        ensures { result ≡ is_some self.now.handle.value }
    {
        self.live
    }

    /// Takes the session out.
    pub(crate) fn take(&mut self, alloc: Global) -> Option<Box<LineSession>>
        ensures taken { MatchOption result (self.old.handle.value ≡ None) (λ b. self.old.handle.value ≡ Some b.value) }
        ensures left { self.new.handle.value ≡ None }
    {
        mem::replace(self, Slot::empty(alloc)).into_box()
    }

    /// Puts a session in. What the slot had is let go.
    pub(crate) fn put(&mut self, session: Box<LineSession>)
        ensures { self.new.handle.value ≡ Some session.value }
    {
        drop(mem::replace(self, Slot::full(session)).into_box());
    }
}
