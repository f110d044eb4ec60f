//! A session as a bare pointer, or none.

ghost use Rattle.std.specs.Prelude.{◌≡◌, IsSome};
ghost use Rattle.std.specs.declared.option.Option.{Option};
ghost use Rattle.std.specs.declared.option.Option.TheVariants.{None, Some};
ghost use Rattle.zs_line_session.specs.Lined.{Lined};
ghost use Rattle.zs_c.specs.Held.{held};

use crate::loose::Loose;
use std::alloc::Global;
use std::marker::Model;
use std::ptr::null_mut;
use zs_line_session::LineSession;

/// The pointer of a session, or null. Letting go of it lets go of nothing that it points to.
#[repr(C)]
#[derive(Drop)]
pub struct Handle {
    at: *mut u8,
    alloc: Global,
    pub ghost value: { Option Lined },
}

impl Model for Handle {
    ghost also_owns = { λ h. held h.alloc h.at h.value };
}

impl Handle {
    /// No session.
    pub(crate) fn none(alloc: Global) -> Handle
        ensures { result.value ≡ None }
    {
        Handle {
            at: null_mut(),
            alloc,
        }
    }

    /// The session of a box.
    pub(crate) fn of(loose: Loose<LineSession, Global>) -> Handle
        ensures { result.value ≡ Some loose.value }
    {
        let Loose { at, alloc } = loose;
        Handle {
            at: at as *mut u8,
            alloc,
        }
    }

    /// The box again.
    pub(crate) fn into_loose(self) -> Loose<LineSession, Global>
        requires { IsSome self.value }
        ensures { Some result.value ≡ self.value }
    {
        let Handle { at, alloc } = self;
        Loose {
            at: at as *mut LineSession,
            alloc,
        }
    }
}
