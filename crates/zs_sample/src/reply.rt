//! What a query is answered with: a sample or an error, and who sent it.
ghost use Rattle.std.specs.Prelude.{◌≡◌, IfOk, Ok, Err, MatchResult};
ghost use Rattle.std.specs.Result.{result_copied_mut};

use crate::reply_error::ReplyError;
use crate::sample::Sample;
use std::alloc::{AllocError, Global};
use std::marker::Model;
use zs_wire::EntityGlobalId;

/// An answer to a query: a sample or an error, and who sent it. Contracts see its fields.
#[derive(Debug)]
pub struct Reply {
    result: Result<Sample, ReplyError>,
    replier: Option<EntityGlobalId>,
}

impl Drop for Reply {
    /// Gives up what it brings. Bytes that copies share stay.
    fn drop(self) {
        let Reply { result, replier: _ } = self;
        drop(result);
    }
}

impl Model for Reply {
    ghost use Rattle.zs_sample.specs.Reply.{Replied};

    ghost Value = { Replied };

    ghost view = { λ r. record { result = r.result; replier = r.replier } };
}

impl Reply {
    /// A reply that brings this, from that entity, where it is known.
    pub fn of(outcome: Result<Sample, ReplyError>, replier: Option<EntityGlobalId>) -> Reply
        ensures { result ≡ record { result = outcome; replier = replier } }
    {
        Reply {
            result: outcome,
            replier,
        }
    }

    /// What it brings.
    pub fn result(&self) -> Result<&Sample, &ReplyError>
        ensures { MatchResult result (λ sample. self.now.result ≡ Ok sample.now) (λ error. self.now.result ≡ Err error.now) }
    {
        self.result.as_ref()
    }

    /// What it brings, to be changed.
    pub fn result_mut(&mut self) -> Result<&mut Sample, &mut ReplyError>
        ensures { result_copied_mut result ≡ self.old.result }
    {
        match self.result {
            Ok(ref mut sample) => Ok(sample),
            Err(ref mut error) => Err(error),
        }
    }

    /// What it brings.
    pub fn into_result(self) -> Result<Sample, ReplyError>
        ensures { result ≡ self.result }
    {
        let Reply { result, replier: _ } = self;
        result
    }

    /// Who sent it, where that is known.
    pub fn replier_id(&self) -> Option<EntityGlobalId>
        ensures { result ≡ self.now.replier }
    {
        self.replier
    }

    /// The same reply. The bytes are shared, and not copied.
    pub fn try_clone(&self, alloc: Global) -> Result<Reply, AllocError>
        ensures { IfOk result (λ copy. copy ≡ self.now) }
    {
        let outcome = match &self.result {
            Ok(sample) => Ok(sample.try_clone(alloc)?),
            Err(error) => Err(error.try_clone(alloc)?),
        };
        Ok(Reply {
            result: outcome,
            replier: self.replier,
        })
    }
}
