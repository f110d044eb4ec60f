//! Tests of gates, locks and groups, of tokens, of handlers and their channels, and of posts, by public calls. They stand
//! apart, so that no crate is proved twice for its tests. What tests share has a `Drop` of its own where it holds several
//! values: so it goes by one call, while a derived one is taken apart wherever it goes, which makes a test dear to prove.
#![tactic(auto)]

#[cfg(test)]
mod channels;
#[cfg(test)]
mod entering;
#[cfg(test)]
mod gates;
#[cfg(test)]
mod groups;
#[cfg(test)]
mod handlers;
#[cfg(test)]
mod jobs;
#[cfg(test)]
mod locks;
#[cfg(test)]
mod notifiers;
#[cfg(test)]
mod polled;
#[cfg(test)]
mod posts;
#[cfg(test)]
mod queues;
#[cfg(test)]
mod running;
#[cfg(test)]
mod states;
#[cfg(test)]
mod threads;
#[cfg(test)]
mod tokens;
#[cfg(test)]
mod words;
