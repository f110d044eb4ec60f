//! A call of a handler, and which gates it was made inside of.
ghost use Rattle.std.specs.Prelude.{◌≡◌, false, option_map};
ghost use Rattle.std.specs.Arc.{arc_value};
ghost use Rattle.zs_hands.specs.Answers.{IsFor, IsKept};

use crate::handed::Handed;
use std::sync::{Arc, Wait};
use zs_gate::Inside;
use zs_handlers::{Handled, Handler};
use zs_posts::Within;

/// The gates that a handler was called inside of, by the numbers of their tags. Only a call makes one, while it holds what is
/// inside of them.
#[derive(Debug, Drop)]
pub struct Under {
    session: Option<u64>,
    parent: Option<u64>,
    token: Option<u64>,
    own: u64,
}

// The number of a gate that something is inside of.
fn number_of(within: Option<&Within>) -> Option<u64>
    ensures { result ≡ option_map (λ w. w.now.number) within.entry }
{
    match within {
        Some(within) => Some(within.number()),
        None => None,
    }
}

// Calls a handler that shows it is inside of its gate.
fn told_by<T, H: Handler<T>, R: Wait>(
    rt: &R,
    handler: &Arc<H>,
    inside: &Inside,
    item: T,
) -> Handed<T, H::Done>
    ensures report { IsFor (H.gives (arc_value handler.now)) item false result }
    ensures kept { H.evicts ≡ false → IsKept result }
{
    match handler.on(rt, inside, item) {
        Handled::Taken(done) => Handed::Called(done),
        Handled::Evicted(item, done) => Handed::Evicted(item, done),
    }
}

/// Calls a handler inside of its own gate and of those above, and tells which they are.
pub(crate) fn call<T, H: Handler<T>, R: Wait>(
    rt: &R,
    handler: &Arc<H>,
    item: T,
    session: Option<&Within>,
    parent: Option<&Within>,
    token: Option<&Within>,
    own: &Within,
) -> (Handed<T, H::Done>, Under)
    ensures report { IsFor (H.gives (arc_value handler.now)) item false result.0 }
    ensures kept { H.evicts ≡ false → IsKept result.0 }
    ensures session { result.1.session ≡ option_map (λ w. w.now.number) session.entry }
    ensures parent { result.1.parent ≡ option_map (λ w. w.now.number) parent.entry }
    ensures token { result.1.token ≡ option_map (λ w. w.now.number) token.entry }
    ensures own { result.1.own ≡ own.now.number }
{
    let under = Under {
        session: number_of(session),
        parent: number_of(parent),
        token: number_of(token),
        own: own.number(),
    };
    let report = told_by(rt, handler, own.inside(), item);
    (report, under)
}
