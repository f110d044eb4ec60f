//! The calls that write what is usual.

ghost use Rattle.std.specs.Prelude.{◌≡◌, [], false};
ghost use Rattle.std.specs.declared.option.Option.TheVariants.{None};
ghost use Rattle.zs_forms.specs.Origins.{timestamp_form, source_form};

use zs_forms::{ExtrasForm, InquiryForm, source_form, timestamp_form};
use zs_message_forms::PartsForm;

/// Writes that nothing is said beside a payload.
#[unsafe(no_mangle)]
pub extern "C" fn yq_extras_defaults<'a>(extras: &mut ExtrasForm<'a>)
    ensures encoding { extras.new.encoding.now ≡ [] }
    ensures timestamp { extras.new.timestamp ≡ timestamp_form None }
    ensures source { extras.new.source ≡ source_form None }
    ensures attachment { (extras.new.has_attachment ≡ false) × (extras.new.attachment.now ≡ []) }
{
    *extras = ExtrasForm {
        encoding: &[],
        timestamp: timestamp_form(None),
        source: source_form(None),
        has_attachment: false,
        attachment: &[],
    };
}

/// Writes that a get asks nothing beside its key.
#[unsafe(no_mangle)]
pub extern "C" fn yq_inquiry_defaults<'a>(what: &mut InquiryForm<'a>)
    ensures parameters { what.new.parameters.now ≡ [] }
    ensures value { (what.new.has_value ≡ false) × (what.new.payload.now ≡ []) × (what.new.encoding.now ≡ []) }
    ensures source { what.new.source ≡ source_form None }
    ensures attachment { (what.new.has_attachment ≡ false) × (what.new.attachment.now ≡ []) }
    ensures token { (what.new.has_token ≡ false) × (what.new.token ≡ 0) }
{
    *what = InquiryForm {
        parameters: &[],
        has_value: false,
        payload: &[],
        encoding: &[],
        source: source_form(None),
        has_attachment: false,
        attachment: &[],
        has_token: false,
        token: 0,
    };
}

/// Writes that a message has no text and no bytes.
#[unsafe(no_mangle)]
pub extern "C" fn yq_parts_defaults<'a>(parts: &mut PartsForm<'a>)
    ensures key { parts.new.key.now ≡ [] }
    ensures payload { parts.new.payload.now ≡ [] }
    ensures encoding { parts.new.encoding.now ≡ [] }
    ensures parameters { parts.new.parameters.now ≡ [] }
    ensures attachment { parts.new.attachment.now ≡ [] }
{
    *parts = PartsForm {
        key: &[],
        payload: &[],
        encoding: &[],
        parameters: &[],
        attachment: &[],
    };
}
