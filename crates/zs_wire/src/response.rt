//! Answers to queries as messages carry them.
ghost use Rattle.std.specs.Prelude.{◌≡◌, IfOk};

use crate::body::{Body, Value};
use crate::origin::EntityGlobalId;
use crate::quality::QoSType;
use crate::wire_expr::WireExpr;
use std::alloc::{AllocError, Global};

/// What a response says: a value of its key, or why there is none.
#[derive(Debug)]
pub enum Answered {
    Reply(Body),
    Err(Value),
}

impl Drop for Answered {
    /// Gives up the body or the value. Memory that copies share stays.
    fn drop(self) {
        match self {
            Answered::Reply(body) => drop(body),
            Answered::Err(value) => drop(value),
        }
    }
}

impl Answered {
    /// The same answer. It shares the memory of the payload and the attachment.
    pub fn try_clone(&self, alloc: Global) -> Result<Answered, AllocError>
        ensures { IfOk result (λ copy. copy ≡ self.now) }
    {
        match self {
            Answered::Reply(body) => Ok(Answered::Reply(body.try_clone(alloc)?)),
            Answered::Err(value) => Ok(Answered::Err(value.try_clone(alloc)?)),
        }
    }
}

/// One reply to a query.
#[derive(Debug)]
pub struct Response {
    /// The query's number.
    pub rid: u32,
    pub wire: WireExpr,
    pub answered: Answered,
    pub qos: QoSType,
    /// The queryable that replies, where it is known.
    pub responder: Option<EntityGlobalId>,
}

impl Drop for Response {
    /// Gives up the key and the answer. Memory that copies share stays.
    fn drop(self) {
        let Response {
            rid: _,
            wire,
            answered,
            qos: _,
            responder: _,
        } = self;
        drop(wire);
        drop(answered);
    }
}

impl Response {
    /// The same response. It shares the memory of the payload and the attachment.
    pub fn try_clone(&self, alloc: Global) -> Result<Response, AllocError>
        ensures { IfOk result (λ copy. copy ≡ self.now) }
    {
        let wire = self.wire.try_clone(alloc)?;
        let answered = self.answered.try_clone(alloc)?;
        Ok(Response {
            rid: self.rid,
            wire,
            answered,
            qos: self.qos,
            responder: self.responder,
        })
    }
}
