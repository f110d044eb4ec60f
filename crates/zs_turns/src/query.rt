//! Queries, as queryables are handed them.

ghost use Rattle.std.specs.Prelude.{◌≡◌, if◌then◌else◌, IfOk};
ghost use Rattle.std.specs.Option.{option_copied, option_copied_mut};
ghost use Rattle.zs_wire.specs.Parameters.{contains_name, any_key_name};
ghost use Rattle.zs_sample.specs.Quality.{priority_of};

use std::alloc::{AllocError, Global};
use std::marker::Model;
use zs_bytes::ZBytes;
use zs_keys::KeyExpr;
use zs_query::QueryData;
use zs_sample::{
    CongestionControl, Encoding, Parameters, Priority, ReplyKeyExpr, Selector, SourceInfo,
};

/// A query that a queryable was handed. It is answered under its number, and given back under it: one that is dropped
/// leaves its asker waiting. Contracts see its fields, that number and the tag of its session.
pub struct Query {
    fields: QueryData,
    value: u32,
    tag: u64,
}

impl Drop for Query {
    /// Lets go of the memory of its fields. The asker is told nothing, and goes on waiting.
    fn drop(self) {
        let Query {
            fields,
            value: _,
            tag: _,
        } = self;
        drop(fields);
    }
}

impl Model for Query {
    ghost use Rattle.zs_turns.specs.Queries.{QuerySeen};

    ghost Value = { QuerySeen };

    ghost view = { λ q. record { data_of = q.fields; value = q.value; tag = q.tag } };
}

impl Query {
    ghost use Rattle.std.specs.Borrow.{sem};
    ghost use Rattle.zs_turns.specs.Loans.{LendsFields, LendsPayload, LendsAttachment};

    /// A query with these fields, of a session with that tag. It shares the memory of the payload and the attachment.
    pub fn of(alloc: Global, tag: u64, value: u32, fields: &QueryData) -> Result<Query, AllocError>
        ensures { IfOk result (λ query. query ≡ record { data_of = fields.now; value = value; tag = tag }) }
    {
        let fields = fields.try_clone(alloc)?;
        Ok(Query { fields, value, tag })
    }

    /// The same query. It shares the memory of the payload and the attachment.
    ///
    /// # Errors
    ///
    /// Want of memory alone.
    pub fn try_clone(&self, alloc: Global) -> Result<Query, AllocError>
        ensures { IfOk result (λ copy. copy ≡ self.now) }
    {
        let fields = self.fields.try_clone(alloc)?;
        Ok(Query {
            fields,
            value: self.value,
            tag: self.tag,
        })
    }

    /// The same query under another number.
    pub fn with_value(self, value: u32) -> Query
        ensures { result ≡ record self { value = value } }
    {
        let Query {
            fields,
            value: _,
            tag,
        } = self;
        Query { fields, value, tag }
    }

    /// The number under which it is answered and given back.
    pub fn value(&self) -> u32
        ensures { result ≡ self.now.value }
    {
        self.value
    }

    /// The tag of the session that handed it out.
    pub fn tag(&self) -> u64
        ensures { result ≡ self.now.tag }
    {
        self.tag
    }

    /// The key and the parameters.
    pub fn selector(&self) -> Selector<'_>
        ensures { result ≡ record { key = self.now.data_of.key_expr; parameters = self.now.data_of.parameters } }
    {
        self.fields.selector()
    }

    /// The key on which values are asked for.
    pub fn key_expr(&self) -> &KeyExpr<'static>
        ensures { result.now ≡ self.now.data_of.key_expr }
    {
        self.fields.key_expr()
    }

    /// What stands behind the `?` of the selector.
    pub fn parameters(&self) -> &Parameters<'static>
        ensures { result.now ≡ self.now.data_of.parameters }
    {
        self.fields.parameters()
    }

    /// What the asker tells the queryables beside the parameters, if anything.
    pub fn payload(&self) -> Option<&ZBytes>
        ensures { option_copied result ≡ self.now.data_of.payload }
    {
        self.fields.payload()
    }

    // What it was asked with, to be changed.
    fn fields_mut(&mut self) -> &mut QueryData
        ensures value { result.now ≡ self.old.data_of }
        ensures* writes_back { sem 𝓛 (LendsFields self.entry result) }
    {
        &mut self.fields
    }

    /// The payload, to be changed.
    pub fn payload_mut(&mut self) -> Option<&mut ZBytes>
        ensures value { option_copied_mut result ≡ self.old.data_of.payload }
        ensures* writes_back { sem 𝓛 (LendsPayload self.entry result) }
    {
        self.fields_mut().payload_mut()
    }

    /// What was sent along beside the payload, to be changed.
    pub fn attachment_mut(&mut self) -> Option<&mut ZBytes>
        ensures value { option_copied_mut result ≡ self.old.data_of.attachment }
        ensures* writes_back { sem 𝓛 (LendsAttachment self.entry result) }
    {
        self.fields_mut().attachment_mut()
    }

    /// What the payload is, if there is one.
    pub fn encoding(&self) -> Option<&Encoding>
        ensures { option_copied result ≡ self.now.data_of.encoding }
    {
        self.fields.encoding()
    }

    /// What was sent along beside the payload, if anything.
    pub fn attachment(&self) -> Option<&ZBytes>
        ensures { option_copied result ≡ self.now.data_of.attachment }
    {
        self.fields.attachment()
    }

    /// Who asked, where that is known.
    pub fn source_info(&self) -> Option<&SourceInfo>
        ensures { option_copied result ≡ self.now.data_of.source }
    {
        self.fields.source_info()
    }

    /// How urgent the request is.
    pub fn priority(&self) -> Priority
        ensures { result ≡ priority_of self.now.data_of.qos.priority }
    {
        self.fields.priority()
    }

    /// Whether the request was dropped or waited where a queue was full.
    pub fn congestion_control(&self) -> CongestionControl
        ensures { result ≡ self.now.data_of.qos.congestion }
    {
        self.fields.congestion_control()
    }

    /// Whether the request was sent at once, and not batched.
    pub fn express(&self) -> bool
        ensures { result ≡ self.now.data_of.qos.express }
    {
        self.fields.express()
    }

    /// On which keys the asker takes replies: on any, where the parameters say so.
    pub fn accepts_replies(&self) -> ReplyKeyExpr
        ensures { result ≡ (if contains_name any_key_name self.now.data_of.parameters then ReplyKeyExpr.Any else ReplyKeyExpr.MatchingQuery) }
    {
        self.fields.accepts_replies()
    }
}
