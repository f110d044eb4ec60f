//! Lines of declarations, and of what is done with what was declared.

ghost use Rattle.std.specs.Prelude.{◌≡◌, Some, IfOk};
ghost use Rattle.std.specs.String.{string_bytes};
ghost use Rattle.zs_events.specs.declared.event.Event.TheVariants.{Sub, Queryable, Lsub, Undeclare};
ghost use Rattle.zs_grammar.specs.Grammar.{parent_parts};
ghost use Rattle.zs_event_lines.specs.Slots.{printed, IsPrinted};
ghost use Rattle.zs_event_lines.specs.Lines.{form_line, line_of};

use crate::lines::append_line;
use crate::shown::Shown;
use crate::words::entity_word;
use std::alloc::AllocError;
use zs_events::{Chan, EntityKind, KeyArg, ParentKind};
use zs_sample::Locality;

/// The line that declares a subscriber.
pub(crate) fn append_sub(
    out: &mut String,
    origin: Locality,
    key: &KeyArg,
    to: Chan,
) -> Result<bool, AllocError>
    ensures { IfOk result (λ told. IsPrinted (printed (line_of (Sub origin key.now to))) told (string_bytes out.old) (string_bytes out.new)) }
{
    append_line(
        out,
        "sub",
        &[Shown::Locality(origin), Shown::Key(key), Shown::Channel(to)],
    )
}

/// The line that declares a queryable.
pub(crate) fn append_queryable(
    out: &mut String,
    origin: Locality,
    complete: bool,
    key: &KeyArg,
) -> Result<bool, AllocError>
    ensures { IfOk result (λ told.
        IsPrinted (printed (line_of (Queryable origin complete key.now))) told (string_bytes out.old) (string_bytes out.new)) }
{
    append_line(
        out,
        "queryable",
        &[
            Shown::Locality(origin),
            Shown::Complete(complete),
            Shown::Key(key),
        ],
    )
}

/// The line that declares a liveliness subscriber.
pub(crate) fn append_lsub(out: &mut String, history: bool, key: &KeyArg) -> Result<bool, AllocError>
    ensures { IfOk result (λ told. IsPrinted (printed (line_of (Lsub history key.now))) told (string_bytes out.old) (string_bytes out.new)) }
{
    append_line(out, "lsub", &[Shown::History(history), Shown::Key(key)])
}

/// A line that names a publisher or a querier behind that word.
pub(crate) fn append_parent(
    out: &mut String,
    word: &str,
    parent: ParentKind,
    id: u32,
) -> Result<bool, AllocError>
    ensures { IfOk result (λ told.
        IsPrinted (printed (Some (form_line word.now parent_parts (parent, (id, tt))))) told (string_bytes out.old) (string_bytes out.new)) }
{
    append_line(out, word, &[Shown::Parent(parent), Shown::Number(id)])
}

/// The line that ends what was declared.
pub(crate) fn append_undeclare(
    out: &mut String,
    kind: EntityKind,
    id: u32,
) -> Result<bool, AllocError>
    ensures { IfOk result (λ told. IsPrinted (printed (line_of (Undeclare kind id))) told (string_bytes out.old) (string_bytes out.new)) }
{
    append_line(
        out,
        "undeclare",
        &[Shown::Said(entity_word(kind)), Shown::Number(id)],
    )
}
