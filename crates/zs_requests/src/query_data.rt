//! The query that a queryable is handed: its selector, and what else the asker sent.
ghost use Rattle.std.specs.Prelude.{◌≡◌, IfOk, encode_utf8_all, if◌then◌else◌};
ghost use Rattle.std.specs.Option.{option_copied, option_copied_mut, option_map};
ghost use Rattle.zs_wire.specs.Parameters.{trimmed_text, contains_name, any_key_name};
ghost use Rattle.zs_sample.specs.Quality.{priority_of};
ghost use Rattle.zs_sample.specs.Encoding.{encoding_of};
ghost use Rattle.zs_requests.specs.QueryData.{query_of};

use crate::request_row::{RequestRow, clone_attachment, clone_key};
use std::alloc::{AllocError, Global};
use std::marker::Model;
use zs_bytes::ZBytes;
use zs_keys::KeyExpr;
use zs_sample::{
    CongestionControl, Encoding, Parameters, Priority, QoSType, ReplyKeyExpr, Selector, SourceInfo,
    ZenohParameters,
};
use zs_wire::{Text, Value};

/// What a queryable is handed of a request. Contracts see its fields.
pub struct QueryData {
    key_expr: KeyExpr<'static>,
    parameters: Parameters<'static>,
    qos: QoSType,
    source: Option<SourceInfo>,
    payload: Option<ZBytes>,
    encoding: Option<Encoding>,
    attachment: Option<ZBytes>,
}

impl Drop for QueryData {
    /// Frees what owns memory. The qualities and the source are plain values.
    fn drop(self) {
        let QueryData {
            key_expr,
            parameters,
            qos: _,
            source: _,
            payload,
            encoding,
            attachment,
        } = self;
        drop(key_expr);
        drop(parameters);
        drop(payload);
        drop(encoding);
        drop(attachment);
    }
}

impl Model for QueryData {
    ghost use Rattle.zs_requests.specs.QueryData.{Query};

    ghost Value = { Query };

    ghost view = { λ q. record {
      key_expr = q.key_expr;
      parameters = q.parameters;
      qos = q.qos;
      source = q.source;
      payload = q.payload;
      encoding = q.encoding;
      attachment = q.attachment;
    } };
}

impl QueryData {
    ghost use Rattle.std.specs.Borrow.{sem};
    ghost use Rattle.zs_requests.specs.QueryLoans.{LendsPayload, LendsAttachment};
    ghost use Rattle.zs_sample.specs.declared.query.ReplyKeyExpr.{ReplyKeyExpr};

    /// What queryables are handed of that request. It shares the memory of the payload and the attachment.
    pub fn of(alloc: Global, row: &RequestRow) -> Result<QueryData, AllocError>
        ensures { IfOk result (λ query. query ≡ query_of row.now) }
    {
        let key_expr = clone_key(&row.key, alloc)?;
        let parameters = parameters_of(alloc, &row.parameters)?;
        let payload = payload_of(alloc, &row.value)?;
        let encoding = encoding_of(alloc, &row.value)?;
        let attachment = clone_attachment(&row.attachment, alloc)?;
        Ok(QueryData {
            key_expr,
            parameters,
            qos: row.qos,
            source: row.source,
            payload,
            encoding,
            attachment,
        })
    }

    /// The same query. It shares the memory of the payload and the attachment.
    pub fn try_clone(&self, alloc: Global) -> Result<QueryData, AllocError>
        ensures { IfOk result (λ copy. copy ≡ self.now) }
    {
        let key_expr = clone_key(&self.key_expr, alloc)?;
        let parameters = self.parameters.borrowing_clone().into_owned(alloc)?;
        let payload = clone_attachment(&self.payload, alloc)?;
        let encoding = clone_encoding(&self.encoding, alloc)?;
        let attachment = clone_attachment(&self.attachment, alloc)?;
        Ok(QueryData {
            key_expr,
            parameters,
            qos: self.qos,
            source: self.source,
            payload,
            encoding,
            attachment,
        })
    }

    /// The key and the parameters.
    pub fn selector(&self) -> Selector<'_>
        ensures { result ≡ record { key = self.now.key_expr; parameters = self.now.parameters } }
    {
        Selector::borrowed(&self.key_expr, &self.parameters)
    }

    /// The key on which values are asked for.
    pub fn key_expr(&self) -> &KeyExpr<'static>
        ensures { result.now ≡ self.now.key_expr }
    {
        &self.key_expr
    }

    /// What stands behind the `?` of the selector.
    pub fn parameters(&self) -> &Parameters<'static>
        ensures { result.now ≡ self.now.parameters }
    {
        &self.parameters
    }

    /// What the asker tells the queryables beside the parameters, if anything.
    pub fn payload(&self) -> Option<&ZBytes>
        ensures { option_copied result ≡ self.now.payload }
    {
        self.payload.as_ref()
    }

    /// The payload, to be changed.
    pub fn payload_mut(&mut self) -> Option<&mut ZBytes>
        ensures value { option_copied_mut result ≡ self.old.payload }
        ensures* writes_back { sem 𝓛 (LendsPayload self.entry result) }
    {
        self.payload.as_mut()
    }

    /// What the payload is, if there is one.
    pub fn encoding(&self) -> Option<&Encoding>
        ensures { option_copied result ≡ self.now.encoding }
    {
        self.encoding.as_ref()
    }

    /// What was sent along beside the payload, if anything.
    pub fn attachment(&self) -> Option<&ZBytes>
        ensures { option_copied result ≡ self.now.attachment }
    {
        self.attachment.as_ref()
    }

    /// What was sent along beside the payload, to be changed.
    pub fn attachment_mut(&mut self) -> Option<&mut ZBytes>
        ensures value { option_copied_mut result ≡ self.old.attachment }
        ensures* writes_back { sem 𝓛 (LendsAttachment self.entry result) }
    {
        self.attachment.as_mut()
    }

    /// Who asked, where that is known.
    pub fn source_info(&self) -> Option<&SourceInfo>
        ensures { option_copied result ≡ self.now.source }
    {
        self.source.as_ref()
    }

    /// How urgent the request is.
    pub fn priority(&self) -> Priority
        ensures { result ≡ priority_of self.now.qos.priority }
    {
        Priority::handed_out(self.qos.priority)
    }

    /// Whether the request was dropped or waited where a queue was full.
    pub fn congestion_control(&self) -> CongestionControl
        ensures { result ≡ self.now.qos.congestion }
    {
        self.qos.congestion
    }

    /// Whether the request was sent at once, and not batched.
    pub fn express(&self) -> bool
        ensures { result ≡ self.now.qos.express }
    {
        self.qos.express
    }

    /// On which keys the asker takes replies: on any, where the parameters say so.
    pub fn accepts_replies(&self) -> ReplyKeyExpr
        ensures { result ≡ (if contains_name any_key_name self.now.parameters then ReplyKeyExpr.Any else ReplyKeyExpr.MatchingQuery) }
    {
        if self.parameters.reply_key_expr_any() {
            ReplyKeyExpr::Any
        } else {
            ReplyKeyExpr::MatchingQuery
        }
    }
}

/// The parameters of a request in a text of their own, without the `;`, `=` and `|` at its end.
fn parameters_of(alloc: Global, text: &Text) -> Result<Parameters<'static>, AllocError>
    ensures { IfOk result (λ parameters. parameters ≡ trimmed_text (encode_utf8_all text.now)) }
{
    Parameters::of(text.as_str()).into_owned(alloc)
}

/// The payload that a request carries, if it carries a value. It shares the memory of that one.
fn payload_of(alloc: Global, value: &Option<Value>) -> Result<Option<ZBytes>, AllocError>
    ensures { IfOk result (λ payload. payload ≡ option_map (λ v. v.payload) value.now) }
{
    match value {
        Some(value) => Ok(Some(value.payload.try_clone(alloc)?)),
        None => Ok(None),
    }
}

/// The encoding of the value that a request carries, if it carries one.
fn encoding_of(alloc: Global, value: &Option<Value>) -> Result<Option<Encoding>, AllocError>
    ensures { IfOk result (λ encoding. encoding ≡ option_map (λ v. encoding_of v.encoding) value.now) }
{
    match value {
        Some(value) => Ok(Some(Encoding::of_text(value.encoding.try_clone(alloc)?))),
        None => Ok(None),
    }
}

/// The same encoding where there is one. An error is want of memory alone.
fn clone_encoding(
    encoding: &Option<Encoding>,
    alloc: Global,
) -> Result<Option<Encoding>, AllocError>
    ensures { IfOk result (λ copy. copy ≡ encoding.now) }
{
    match encoding {
        Some(encoding) => Ok(Some(encoding.try_clone(alloc)?)),
        None => Ok(None),
    }
}
