//! The session for C, and for any language that can call C: a static library, whose calls `include/yeqofin.h` declares.
//! C holds a slot; a session is behind it from `yq_open` to `yq_free`. Each call answers a status.
#![tactic(auto)]

mod asking;
mod declaring;
mod defaults;
mod effects;
mod handle;
mod lines;
mod loose;
mod opening;
mod publishing;
mod receiving;
mod settings;
mod slot;
mod status;
mod taking;
mod texts;
