//! One call inside of its gates: a function a gate, each straight through.
ghost use Rattle.std.specs.Prelude.{◌≡◌, false, ◌||◌, option_map};
ghost use Rattle.std.specs.Arc.{arc_value};
ghost use Rattle.zs_hands.specs.Answers.{unnoted, is_noted, number_lent, AreSame, IsFor, IsInside, IsKept, Answers};

use crate::calling::{Under, call};
use crate::handed::{Handed, RanCall};
use std::sync::{Arc, Wait};
use zs_handlers::Handler;
use zs_posts::{Call, Lent, Passes, Within};

// Enters the handler's own gate, and calls it there.
fn in_own<T, H: Handler<T>, R: Wait>(
    rt: &R,
    handler: &Arc<H>,
    item: T,
    session: Option<&Within>,
    parent: Option<&Within>,
    token: Option<&Within>,
    own: Lent,
) -> (Handed<T, H::Done>, Option<Under>, Lent)
    ensures report { IsFor (H.gives (arc_value handler.now)) item result.2.noted result.0 }
    ensures inside { IsInside (record { session = option_map (λ w. w.now.number) session.entry; parent = option_map (λ w. w.now.number) parent.entry; token = option_map (λ w. w.now.number) token.entry; own = own.number }) result.0 result.1 }
    ensures kept { H.evicts ≡ false → IsKept result.0 }
    ensures own { unnoted own ≡ unnoted result.2 }
{
    match own.enter() {
        Err(own) => (Handed::Skipped(item), None, own),
        Ok(within) => {
            let (report, under) = call(rt, handler, item, session, parent, token, &within);
            (report, Some(under), within.leave())
        }
    }
}

// Enters the token's gate, if there is one, and then the own.
fn in_token<T, H: Handler<T>, R: Wait>(
    rt: &R,
    handler: &Arc<H>,
    item: T,
    session: Option<&Within>,
    parent: Option<&Within>,
    token: Option<Lent>,
    own: Lent,
) -> (Handed<T, H::Done>, Option<Under>, Option<Lent>, Lent)
    ensures report { IsFor (H.gives (arc_value handler.now)) item (is_noted result.2 || result.3.noted) result.0 }
    ensures inside { IsInside (record { session = option_map (λ w. w.now.number) session.entry; parent = option_map (λ w. w.now.number) parent.entry; token = number_lent token; own = own.number }) result.0 result.1 }
    ensures kept { H.evicts ≡ false → IsKept result.0 }
    ensures token { AreSame token result.2 }
    ensures own { unnoted own ≡ unnoted result.3 }
{
    let Some(token) = token else {
        let (report, under, own) = in_own(rt, handler, item, session, parent, None, own);
        return (report, under, None, own);
    };
    match token.enter() {
        Err(token) => (Handed::Skipped(item), None, Some(token), own),
        Ok(within) => {
            let (report, under, own) = in_own(
                rt,
                handler,
                item,
                session,
                parent,
                Some(&within),
                own,
            );
            (report, under, Some(within.leave()), own)
        }
    }
}

// Enters the parent's gate, if there is one, and then the token's and the own.
fn in_parent<T, H: Handler<T>, R: Wait>(
    rt: &R,
    handler: &Arc<H>,
    item: T,
    session: Option<&Within>,
    parent: Option<Lent>,
    token: Option<Lent>,
    own: Lent,
) -> (
    Handed<T, H::Done>,
    Option<Under>,
    Option<Lent>,
    Option<Lent>,
    Lent,
)
    ensures report { IsFor (H.gives (arc_value handler.now)) item (is_noted result.2 || (is_noted result.3 || result.4.noted)) result.0 }
    ensures inside { IsInside (record { session = option_map (λ w. w.now.number) session.entry; parent = number_lent parent; token = number_lent token; own = own.number }) result.0 result.1 }
    ensures kept { H.evicts ≡ false → IsKept result.0 }
    ensures parent { AreSame parent result.2 }
    ensures token { AreSame token result.3 }
    ensures own { unnoted own ≡ unnoted result.4 }
{
    let Some(parent) = parent else {
        let (report, under, token, own) = in_token(rt, handler, item, session, None, token, own);
        return (report, under, None, token, own);
    };
    match parent.enter() {
        Err(parent) => (Handed::Skipped(item), None, Some(parent), token, own),
        Ok(within) => {
            let (report, under, token, own) = in_token(
                rt,
                handler,
                item,
                session,
                Some(&within),
                token,
                own,
            );
            (report, under, Some(within.leave()), token, own)
        }
    }
}

// Enters the session's gate, if there is one, and then the others.
fn in_session<T, H: Handler<T>, R: Wait>(
    rt: &R,
    handler: &Arc<H>,
    item: T,
    passes: Passes,
) -> RanCall<T, H::Done>
    ensures told { Answers (H.gives (arc_value handler.now)) item passes result }
    ensures kept { H.evicts ≡ false → IsKept result.report }
{
    let Passes {
        own,
        session,
        parent,
        token,
    } = passes;
    let Some(session) = session else {
        let (report, under, parent, token, own) = in_parent(
            rt, handler, item, None, parent, token, own,
        );
        let passes = Passes {
            own,
            session: None,
            parent,
            token,
        };
        return RanCall {
            report,
            under,
            passes,
        };
    };
    match session.enter() {
        Err(session) => {
            let passes = Passes {
                own,
                session: Some(session),
                parent,
                token,
            };
            let report = Handed::Skipped(item);
            RanCall {
                report,
                under: None,
                passes,
            }
        }
        Ok(within) => {
            let inside = Some(&within);
            let (report, under, parent, token, own) = in_parent(
                rt, handler, item, inside, parent, token, own,
            );
            let passes = Passes {
                own,
                session: Some(within.leave()),
                parent,
                token,
            };
            RanCall {
                report,
                under,
                passes,
            }
        }
    }
}

// Makes a call: enters the session's gate, the parent's, the token's and the handler's own, as far as there is each, calls
// the handler and leaves them in the opposite order. Where a gate gives its pass back, the handler isn't called.
pub(crate) fn run_call<T, H: Handler<T> + Drop, R: Wait>(
    rt: &R,
    call: Call<H, T>,
) -> RanCall<T, H::Done>
    ensures told { Answers (H.gives (arc_value call.handler)) call.item call.passes result }
    ensures kept { H.evicts ≡ false → IsKept result.report }
{
    let Call {
        item,
        handler,
        passes,
    } = call;
    let ran = in_session(rt, &handler, item, passes);
    drop(handler);
    ran
}
