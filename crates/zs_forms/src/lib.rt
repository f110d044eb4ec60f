//! Events from plain numbers and bytes, as code of another language gives them.
#![tactic(auto)]

pub use answers::{ReplyForm, reply, reply_delete, reply_error};
pub use declarations::{
    background, declare_key, declare_liveliness_subscriber, declare_publisher, declare_queryable,
    declare_subscriber, declare_token, listen, status, undeclare, undeclare_key,
};
pub use inquiries::{declare_querier, get, liveliness_get, querier_get, told};
pub use keys::KeyForm;
pub use kinds::kind_number;
pub use origins::{
    EntityForm, SourceForm, TimestampForm, entity_form, source_form, timestamp_form,
};
pub use publications::{delete, delete_by, put, put_by};
pub use quality::{PublicationForm, QosForm, congestion};
pub use questions::{AskForm, InquiryForm, LivelinessForm, consolidation, target, value};
pub use texts::text_in;
pub use updates::{ExtrasForm, attachment_in};

mod answers;
mod declarations;
mod inquiries;
mod keys;
mod kinds;
mod origins;
mod publications;
mod quality;
mod questions;
mod texts;
mod updates;
