//! The events by which an application asks.

ghost use Rattle.std.specs.Prelude.{◌≡◌, IfOk};
ghost use Rattle.zs_forms.specs.Questions.{optional, target_of, consolidation_of, ways_of, value_of};

use crate::origins::SourceForm;
use crate::quality::{QosForm, locality};
use crate::texts::text_in;
use std::alloc::{AllocError, Global};
use zs_bytes::ZBytes;
use zs_events::QuerySettings;
use zs_sample::{ConsolidationMode, QueryTarget};
use zs_wire::Value;

/// How a get asks, or a querier with all its gets. All of it zero is the usual way.
#[repr(C)]
#[derive(Clone, Copy)]
pub struct AskForm {
    /// Whose queryables are asked: 0 all, 1 those of this session, 2 those of the network.
    pub destination: u8,
    /// 0 the best matching ones, 1 all, 2 all that are complete.
    pub target: u8,
    /// Which replies on one key are handed out: 0 as suits the question, 1 all, 2 those that aren't older than the ones
    /// before, 3 the newest alone.
    pub consolidation: u8,
    /// From 1 to 7, where the lowest goes first; 0 is 5.
    pub priority: u8,
    /// Whether the question is lost where a queue is full: else the sender waits.
    pub drops: bool,
    /// Whether it goes out at once, and isn't batched with others.
    pub express: bool,
    /// Whether replies are taken on any key. The parameters can say so too.
    pub any_key: bool,
    /// Whether the next says after how many milliseconds a get ends: else the settings do.
    pub has_timeout: bool,
    pub timeout: u64,
}

/// What a get asks.
#[repr(C)]
#[derive(Clone, Copy)]
pub struct InquiryForm<'a> {
    /// What stands behind the `?` of the selector, a UTF-8 text.
    pub parameters: &'a [u8],
    /// Whether queryables are told a value beside the parameters.
    pub has_value: bool,
    pub payload: &'a [u8],
    /// What the payload is, a UTF-8 text. Without a byte it is the default one.
    pub encoding: &'a [u8],
    pub source: SourceForm,
    pub has_attachment: bool,
    pub attachment: &'a [u8],
    /// Whether the next is the cancellation token by which it can be cancelled.
    pub has_token: bool,
    pub token: u32,
}

/// How a liveliness get asks. All of it zero is the usual way.
#[repr(C)]
#[derive(Clone, Copy)]
pub struct LivelinessForm {
    pub has_timeout: bool,
    pub timeout: u64,
    pub has_token: bool,
    pub token: u32,
}

/// After how many milliseconds a get ends, if it says so itself.
pub(crate) fn timeout(is_there: bool, milliseconds: u64) -> Option<u64>
    ensures { result ≡ optional is_there milliseconds }
{
    if is_there { Some(milliseconds) } else { None }
}

/// The number of the cancellation token, if there is one.
pub(crate) fn token(is_there: bool, number: u32) -> Option<u32>
    ensures { result ≡ optional is_there number }
{
    if is_there { Some(number) } else { None }
}

/// The queryables that the number names.
pub fn target(number: u8) -> Option<QueryTarget>
    ensures { result ≡ target_of number }
{
    match number {
        0 => Some(QueryTarget::BestMatching),
        1 => Some(QueryTarget::All),
        2 => Some(QueryTarget::AllComplete),
        _ => None,
    }
}

/// The replies that the number names.
pub fn consolidation(number: u8) -> Option<ConsolidationMode>
    ensures { result ≡ consolidation_of number }
{
    match number {
        0 => Some(ConsolidationMode::Auto),
        1 => Some(ConsolidationMode::None),
        2 => Some(ConsolidationMode::Monotonic),
        3 => Some(ConsolidationMode::Latest),
        _ => None,
    }
}

impl AskForm {
    /// How it asks, if each number says it.
    pub(crate) fn read(&self) -> Option<QuerySettings>
        ensures { result ≡ ways_of self.now }
    {
        let destination = locality(self.destination)?;
        let target = target(self.target)?;
        let consolidation = consolidation(self.consolidation)?;
        let qos = QosForm {
            priority: self.priority,
            blocks: !self.drops,
            express: self.express,
        };
        let qos = qos.read()?;
        Some(QuerySettings {
            destination,
            target,
            consolidation,
            timeout: timeout(self.has_timeout, self.timeout),
            qos,
            any_key: self.any_key,
        })
    }
}

/// What is told beside the parameters: there is none where the encoding is no UTF-8.
pub fn value(alloc: Global, payload: &[u8], encoding: &[u8]) -> Result<Option<Value>, AllocError>
    ensures { IfOk result (λ found. found ≡ value_of payload.now encoding.now) }
{
    let Some(encoding) = text_in(alloc, encoding)? else {
        return Ok(None);
    };
    let payload = ZBytes::from_slice(alloc, payload)?;
    Ok(Some(Value { payload, encoding }))
}
