//! Messages and effects as plain numbers and bytes, as code of another language takes and gives them.
#![tactic(auto)]

pub use answers::{AnswerForm, answer_form};
pub use contents::{effect_parts, message_parts};
pub use effects::effect_form;
pub use forms::{EffectForm, Lengths, MessageForm, PartsForm};
pub use numbers::message_form;
pub use parts::Parts;
pub use reading::read_message;

mod answers;
mod contents;
mod declared;
mod effects;
mod forms;
mod numbers;
mod parts;
mod reading;
mod spoken;
mod wires;
