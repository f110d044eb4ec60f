//! Publications as messages carry them.
ghost use Rattle.std.specs.Prelude.{◌≡◌, IfOk};

use crate::body::Body;
use crate::quality::QoSType;
use crate::wire_expr::WireExpr;
use std::alloc::{AllocError, Global};

/// A publication on a key.
#[derive(Debug)]
pub struct Push {
    pub wire: WireExpr,
    pub body: Body,
    pub qos: QoSType,
    /// Whether it may not be lost on the way.
    pub reliable: bool,
}

impl Drop for Push {
    /// Gives up the key and the body. Memory that copies share stays.
    fn drop(self) {
        let Push {
            wire,
            body,
            qos: _,
            reliable: _,
        } = self;
        drop(wire);
        drop(body);
    }
}

impl Push {
    /// The same publication. It shares the memory of the payload and the attachment.
    pub fn try_clone(&self, alloc: Global) -> Result<Push, AllocError>
        ensures { IfOk result (λ copy. copy ≡ self.now) }
    {
        let wire = self.wire.try_clone(alloc)?;
        let body = self.body.try_clone(alloc)?;
        Ok(Push {
            wire,
            body,
            qos: self.qos,
            reliable: self.reliable,
        })
    }
}
