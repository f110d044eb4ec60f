//! Lines of queriers and gets.

ghost use Rattle.std.specs.Prelude.{◌≡◌, IfOk};
ghost use Rattle.std.specs.String.{string_bytes};
ghost use Rattle.zs_events.specs.declared.event.Event.TheVariants.{Querier, Get, QuerierGet, LivelinessGet, ReplyErr};
ghost use Rattle.zs_event_lines.specs.Slots.{printed, IsPrinted};
ghost use Rattle.zs_event_lines.specs.Lines.{line_of};

use crate::lines::append_line;
use crate::shown::Shown;
use std::alloc::AllocError;
use zs_events::{Chan, Inquiry, KeyArg, QuerySettings, Shared};
use zs_wire::{CongestionControl, Value};

/// The line that declares a querier.
pub(crate) fn append_querier(
    out: &mut String,
    key: &KeyArg,
    settings: &QuerySettings,
) -> Result<bool, AllocError>
    ensures { IfOk result (λ told.
        IsPrinted (printed (line_of (Querier key.now settings.now))) told (string_bytes out.old) (string_bytes out.new)) }
{
    append_line(
        out,
        "querier",
        &[
            Shown::Locality(settings.destination),
            Shown::Key(key),
            Shown::Target(settings.target),
            Shown::Consolidation(settings.consolidation),
            Shown::Timeout(settings.timeout),
            Shown::QoS(1, CongestionControl::Block, settings.qos),
            Shown::AnyKey(settings.any_key),
        ],
    )
}

/// The line that asks for a key's values.
pub(crate) fn append_get<'a>(
    out: &mut String,
    key: &'a KeyArg,
    settings: &QuerySettings,
    inquiry: &'a Shared<Inquiry>,
    to: Chan,
) -> Result<bool, AllocError>
    ensures { IfOk result (λ told.
        IsPrinted (printed (line_of (Get key.now settings.now inquiry.now to)))
        told (string_bytes out.old) (string_bytes out.new)) }
{
    let inquiry = inquiry.get();
    append_line(
        out,
        "get",
        &[
            Shown::Locality(settings.destination),
            Shown::Selector(key, &inquiry.parameters),
            Shown::Target(settings.target),
            Shown::Consolidation(settings.consolidation),
            Shown::Timeout(settings.timeout),
            Shown::Value(&inquiry.value),
            Shown::QoS(1, CongestionControl::Block, settings.qos),
            Shown::Source(inquiry.source),
            Shown::Attachment(&inquiry.attachment),
            Shown::AnyKey(settings.any_key),
            Shown::CancellationToken(inquiry.cancellation_token),
            Shown::HandedTo(to),
        ],
    )
}

/// The line by which a querier asks.
pub(crate) fn append_querier_get(
    out: &mut String,
    id: u32,
    inquiry: &Shared<Inquiry>,
    to: Chan,
) -> Result<bool, AllocError>
    ensures { IfOk result (λ told.
        IsPrinted (printed (line_of (QuerierGet id inquiry.now to))) told (string_bytes out.old) (string_bytes out.new)) }
{
    let inquiry = inquiry.get();
    append_line(
        out,
        "qget",
        &[
            Shown::Number(id),
            Shown::Parameters(&inquiry.parameters),
            Shown::Value(&inquiry.value),
            Shown::Source(inquiry.source),
            Shown::Attachment(&inquiry.attachment),
            Shown::CancellationToken(inquiry.cancellation_token),
            Shown::HandedTo(to),
        ],
    )
}

/// The line that asks for liveliness tokens.
pub(crate) fn append_liveliness_get(
    out: &mut String,
    key: &KeyArg,
    timeout: Option<u64>,
    cancellation_token: Option<u32>,
    to: Chan,
) -> Result<bool, AllocError>
    ensures { IfOk result (λ told.
        IsPrinted (printed (line_of (LivelinessGet key.now timeout cancellation_token to)))
        told (string_bytes out.old) (string_bytes out.new)) }
{
    append_line(
        out,
        "lget",
        &[
            Shown::Key(key),
            Shown::Timeout(timeout),
            Shown::CancellationToken(cancellation_token),
            Shown::HandedTo(to),
        ],
    )
}

/// The line that answers a query by an error.
pub(crate) fn append_reply_error(
    out: &mut String,
    value: u32,
    error: &Shared<Value>,
) -> Result<bool, AllocError>
    ensures { IfOk result (λ told.
        IsPrinted (printed (line_of (ReplyErr value error.now))) told (string_bytes out.old) (string_bytes out.new)) }
{
    let error = error.get();
    append_line(
        out,
        "replyerr",
        &[
            Shown::Number(value),
            Shown::Payload(&error.payload),
            Shown::Encoding(&error.encoding),
        ],
    )
}
