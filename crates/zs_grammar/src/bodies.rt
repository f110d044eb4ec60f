//! What messages say of keys.

ghost use Rattle.std.specs.Prelude.{◌≡◌, [], unwrap_or};
ghost use Rattle.zs_sample.specs.Encoding.{encoding_of};
ghost use Rattle.zs_events.specs.Updates.{body_of};

use zs_events::{PushBody, Update, default_encoding};
use zs_sample::{SampleKind, Text, ZBytes};
use zs_wire::Body;

/// What an update says, as it stands in a message.
pub(crate) fn body_of(update: Update) -> Body
    ensures { result ≡ body_of [] update }
{
    let Update {
        body,
        timestamp,
        source,
        attachment,
    } = update;
    match body {
        PushBody::Put { payload, encoding } => Body {
            kind: SampleKind::Put,
            payload,
            encoding: encoding_of(encoding),
            timestamp,
            source,
            attachment,
        },
        PushBody::Delete => Body {
            kind: SampleKind::Delete,
            payload: ZBytes::new(),
            encoding: default_encoding(),
            timestamp,
            source,
            attachment,
        },
    }
}

/// The encoding that is named, or the default one.
#[tactic(auto, using(zs_parts::proofs::Encodings::encodings))]
fn encoding_of(named: Option<Text>) -> Text
    ensures { result ≡ encoding_of (unwrap_or named []) }
{
    let Some(named) = named else {
        return default_encoding();
    };
    if named.is_empty() {
        return default_encoding();
    }
    named
}
