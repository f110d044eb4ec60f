//! The messages that sessions send each other, as the Zenoh protocol names them.
ghost use Rattle.std.specs.Prelude.{◌≡◌, IfOk};

use crate::interest::{InterestMode, InterestWhat};
use crate::push::Push;
use crate::request::Request;
use crate::response::Response;
use crate::wire_expr::WireExpr;
use std::alloc::{AllocError, Global};

/// What one session tells another.
#[derive(Debug)]
pub enum Message {
    /// The number stands for the key from now on.
    DeclareKeyExpr {
        number: u16,
        wire: WireExpr,
    },
    UndeclareKeyExpr {
        number: u16,
    },
    DeclareSubscriber {
        id: u32,
        wire: WireExpr,
    },
    UndeclareSubscriber {
        id: u32,
    },
    DeclareQueryable {
        id: u32,
        complete: bool,
        wire: WireExpr,
    },
    UndeclareQueryable {
        id: u32,
    },
    /// A liveliness token lives. The interest is the one that asked for it, where one did.
    DeclareToken {
        id: u32,
        wire: WireExpr,
        interest: Option<u32>,
    },
    /// A liveliness token lives no longer. Its key is told where its number may be unknown.
    UndeclareToken {
        id: u32,
        wire: Option<WireExpr>,
        interest: Option<u32>,
    },
    /// All that the interest asked for has been told.
    DeclareFinal {
        interest: Option<u32>,
    },
    Interest {
        id: u32,
        mode: InterestMode,
        what: InterestWhat,
        wire: Option<WireExpr>,
    },
    Push(Push),
    Request(Request),
    Response(Response),
    /// The query of this number gets no more responses.
    ResponseFinal {
        rid: u32,
    },
    Close,
}

impl Drop for Message {
    /// Gives up the key and whatever else the message carries. Memory that copies share stays.
    fn drop(self) {
        match self {
            Message::DeclareKeyExpr { number: _, wire } => drop(wire),
            Message::UndeclareKeyExpr { number: _ } => {}
            Message::DeclareSubscriber { id: _, wire } => drop(wire),
            Message::UndeclareSubscriber { id: _ } => {}
            Message::DeclareQueryable {
                id: _,
                complete: _,
                wire,
            } => drop(wire),
            Message::UndeclareQueryable { id: _ } => {}
            Message::DeclareToken {
                id: _,
                wire,
                interest: _,
            } => drop(wire),
            Message::UndeclareToken {
                id: _,
                wire,
                interest: _,
            } => drop(wire),
            Message::DeclareFinal { interest: _ } => {}
            Message::Interest {
                id: _,
                mode: _,
                what: _,
                wire,
            } => drop(wire),
            Message::Push(push) => drop(push),
            Message::Request(request) => drop(request),
            Message::Response(response) => drop(response),
            Message::ResponseFinal { rid: _ } => {}
            Message::Close => {}
        }
    }
}

impl Message {
    /// The same message. It shares the memory of payloads and attachments.
    pub fn try_clone(&self, alloc: Global) -> Result<Message, AllocError>
        ensures { IfOk result (λ copy. copy ≡ self.now) }
    {
        match self {
            Message::DeclareKeyExpr { number, wire } => {
                let wire = wire.try_clone(alloc)?;
                Ok(Message::DeclareKeyExpr {
                    number: *number,
                    wire,
                })
            }
            Message::UndeclareKeyExpr { number } => {
                Ok(Message::UndeclareKeyExpr { number: *number })
            }
            Message::DeclareSubscriber { id, wire } => {
                let wire = wire.try_clone(alloc)?;
                Ok(Message::DeclareSubscriber { id: *id, wire })
            }
            Message::UndeclareSubscriber { id } => Ok(Message::UndeclareSubscriber { id: *id }),
            Message::DeclareQueryable { id, complete, wire } => {
                let wire = wire.try_clone(alloc)?;
                Ok(Message::DeclareQueryable {
                    id: *id,
                    complete: *complete,
                    wire,
                })
            }
            Message::UndeclareQueryable { id } => Ok(Message::UndeclareQueryable { id: *id }),
            Message::DeclareToken { id, wire, interest } => {
                let wire = wire.try_clone(alloc)?;
                Ok(Message::DeclareToken {
                    id: *id,
                    wire,
                    interest: *interest,
                })
            }
            Message::UndeclareToken { id, wire, interest } => {
                let wire = clone_key(wire, alloc)?;
                Ok(Message::UndeclareToken {
                    id: *id,
                    wire,
                    interest: *interest,
                })
            }
            Message::DeclareFinal { interest } => Ok(Message::DeclareFinal {
                interest: *interest,
            }),
            Message::Interest {
                id,
                mode,
                what,
                wire,
            } => {
                let wire = clone_key(wire, alloc)?;
                Ok(Message::Interest {
                    id: *id,
                    mode: *mode,
                    what: *what,
                    wire,
                })
            }
            Message::Push(push) => Ok(Message::Push(push.try_clone(alloc)?)),
            Message::Request(request) => Ok(Message::Request(request.try_clone(alloc)?)),
            Message::Response(response) => Ok(Message::Response(response.try_clone(alloc)?)),
            Message::ResponseFinal { rid } => Ok(Message::ResponseFinal { rid: *rid }),
            Message::Close => Ok(Message::Close),
        }
    }
}

/// The same wire expression, where there is one.
fn clone_key(wire: &Option<WireExpr>, alloc: Global) -> Result<Option<WireExpr>, AllocError>
    ensures { IfOk result (λ copy. copy ≡ wire.now) }
{
    match wire {
        Some(wire) => Ok(Some(wire.try_clone(alloc)?)),
        None => Ok(None),
    }
}
