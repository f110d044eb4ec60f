//! What a get asks: its parameters and mode, its row, and the request that is sent.

ghost use Rattle.std.specs.Prelude.{◌≡◌, IfOk};
ghost use Rattle.zs_keys.specs.Key.{undeclared};
ghost use Rattle.zs_model.specs.Questions.{parameters_of, mode_by, mode_of, timeout_of, row_asked, sent_value, request_of};
ghost use Rattle.zs_making.specs.Spoken.{question_by};
ghost use Rattle.std.specs.Option.{option_map};
ghost use Rattle.zs_model.specs.Queriers.{question_of};
ghost use Rattle.zs_model.specs.Values.{get_request};

use crate::content::sent_value;
use std::alloc::{AllocError, Global};
use zs_events::{Inquiry, QuerySettings, clone_bytes};
use zs_keys::KeyExpr;
use zs_model::{QuerierRow, has_network, into_owned};
use zs_query::{GetRow, RequestRow};
use zs_sample::{ConsolidationMode, Parameters, Text, ZenohParameters};
use zs_wire::{Request, Value, WireExpr};

/// What a get asks, but for its key.
#[derive(Clone, Copy)]
pub struct Question<'a> {
    pub settings: QuerySettings,
    pub inquiry: &'a Inquiry,
    /// The querier that asks, if one does.
    pub querier: Option<u32>,
}

/// What a get of a querier asks.
pub fn question_of<'a>(row: &QuerierRow, inquiry: &'a Inquiry) -> Question<'a>
    ensures { question_by result ≡ question_of row.now inquiry.now }
{
    Question {
        settings: row.settings,
        inquiry,
        querier: Some(row.id),
    }
}

/// Its parameters, with the name that says that replies on any key are taken, where it says so.
pub fn parameters_of<'a>(
    alloc: Global,
    question: Question<'a>,
) -> Result<Parameters<'a>, AllocError>
    ensures { IfOk result (λ made. made ≡ parameters_of (question_by question.entry)) }
{
    let mut parameters = Parameters::of(question.inquiry.parameters.as_str());
    if !question.settings.any_key {
        return Ok(parameters);
    }
    parameters.set_reply_key_expr_any(alloc)?;
    Ok(parameters)
}

/// Which of the replies on one key are handed out.
fn mode_of(question: Question<'_>) -> ConsolidationMode
    ensures { result ≡ mode_of (question_by question.entry) }
{
    let given = Parameters::of(question.inquiry.parameters.as_str());
    mode_by(question.settings.consolidation, given.contains_key("_time"))
}

/// As Zenoh's `get` resolves `Auto`: all replies where the parameters name a time range (`_time`), else the latest.
fn mode_by(mode: ConsolidationMode, timed: bool) -> ConsolidationMode
    ensures { result ≡ mode_by mode timed }
{
    match mode {
        ConsolidationMode::Auto if timed => ConsolidationMode::None,
        ConsolidationMode::Auto => ConsolidationMode::Latest,
        mode => mode,
    }
}

/// How long it waits.
fn timeout_of(default: u64, question: Question<'_>) -> u64
    ensures { result ≡ timeout_of default (question_by question.entry) }
{
    match question.settings.timeout {
        Some(timeout) => timeout,
        None => default,
    }
}

/// The row of a get that is asked at a moment, and that waits for the queryables of this session where it met any.
pub fn row_waiting(
    default: u64,
    moment: u64,
    number: u32,
    key: KeyExpr<'static>,
    question: Question<'_>,
    parameters: &Parameters<'_>,
    here: bool,
) -> GetRow
    requires plain { key ≡ undeclared key.text }
    requires parameters { parameters.now ≡ parameters_of (question_by question) }
    ensures { result ≡ record (row_asked default moment number key.entry.text (question_by question.entry)) { local_wanted = here } }
{
    GetRow {
        number,
        key,
        any_key: parameters.reply_key_expr_any(),
        mode: mode_of(question),
        local_wanted: here,
        network_wanted: has_network(question.settings.destination),
        deadline: moment.saturating_add(timeout_of(default, question)),
        querier: question.querier,
        cancellation_token: question.inquiry.cancellation_token,
    }
}

/// What a get asks of queryables of this session.
pub fn get_request(
    alloc: Global,
    number: u32,
    key: &KeyExpr<'_>,
    question: Question<'_>,
    parameters: &Parameters<'_>,
) -> Result<RequestRow, AllocError>
    requires plain { key.now ≡ undeclared key.now.text }
    requires parameters { parameters.now ≡ parameters_of (question_by question) }
    ensures { IfOk result (λ made. made ≡ get_request number key.now.text (question_by question.entry)) }
{
    let key = into_owned(alloc, key.borrowing_clone())?;
    let parameters = Text::of(alloc, parameters.as_str())?;
    let value = sent_if(alloc, &question.inquiry.value)?;
    let attachment = clone_bytes(&question.inquiry.attachment, alloc)?;
    Ok(RequestRow {
        local: true,
        rid: number,
        key,
        parameters,
        qos: question.settings.qos,
        source: question.inquiry.source,
        value,
        attachment,
    })
}

/// The request of a get, with its key in this form.
pub fn request_of(
    alloc: Global,
    default: u64,
    wire: WireExpr,
    number: u32,
    question: Question<'_>,
    parameters: &Parameters<'_>,
) -> Result<Request, AllocError>
    requires { parameters.now ≡ parameters_of (question_by question) }
    ensures { IfOk result (λ made. made ≡ request_of default wire number (question_by question.entry)) }
{
    let parameters = Text::of(alloc, parameters.as_str())?;
    let value = sent_if(alloc, &question.inquiry.value)?;
    let attachment = clone_bytes(&question.inquiry.attachment, alloc)?;
    Ok(Request {
        rid: number,
        wire,
        parameters,
        target: question.settings.target,
        consolidation: mode_of(question),
        timeout: timeout_of(default, question),
        value,
        qos: question.settings.qos,
        source: question.inquiry.source,
        attachment,
    })
}

/// A value as it is sent, where there is one.
fn sent_if(alloc: Global, value: &Option<Value>) -> Result<Option<Value>, AllocError>
    ensures { IfOk result (λ sent. sent ≡ option_map sent_value value.now) }
{
    match value {
        Some(value) => Ok(Some(sent_value(alloc, value)?)),
        None => Ok(None),
    }
}
