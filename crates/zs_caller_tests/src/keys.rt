//! Keys that a session declares.
use std::process::Abort;
use std::sync::Wait;
use zs_cell::{Books, Caller, Item, KeyBack, Session, SessionError};
use zs_events::Refusal;
use zs_handlers::FifoSender;
use zs_keys::{Declared, KeyExpr};

// Declares `k`: how it was declared.
fn declaration<B: Books, R: Wait>(
    rt: &R,
    session: &Session<FifoSender<Item>, B>,
    caller: &mut Caller<B>,
) -> Option<Declared> {
    let Ok(key) = KeyExpr::new("k") else {
        return None;
    };
    match session.declare_keyexpr(rt, &key, caller) {
        Ok(key) => {
            let declared = key.declaration();
            drop(key);
            declared
        }
        Err(_) => None,
    }
}

/// What a session makes of a key that is given back.
#[derive(Clone, Copy, PartialEq, Eq)]
enum GivenBack {
    Taken,
    NotFound,
    NotDeclared,
    OtherSession,
    Otherwise,
}

/// What a session's error says of a key that is given back.
fn refused_for(why: SessionError) -> GivenBack {
    match why {
        SessionError::Refused(Refusal::NotFound) => GivenBack::NotFound,
        SessionError::Refused(Refusal::NotDeclared) => GivenBack::NotDeclared,
        SessionError::OtherSession => GivenBack::OtherSession,
        _ => GivenBack::Otherwise,
    }
}

// Gives `k` back, declared so or not: what is made of that.
fn give_back<B: Books, R: Wait>(
    rt: &R,
    session: &Session<FifoSender<Item>, B>,
    number: Option<u16>,
    tag: u64,
    caller: &mut Caller<B>,
) -> GivenBack {
    let Ok(key) = KeyExpr::new("k") else {
        return GivenBack::Otherwise;
    };
    let key = match number {
        Some(number) => key.with_declaration(Declared {
            number,
            prefix_len: 1,
            tag,
        }),
        None => key,
    };
    match session.undeclare(rt, key, caller) {
        Ok(()) => GivenBack::Taken,
        Err(back) => {
            let KeyBack { why, key } = back;
            drop(key);
            refused_for(why)
        }
    }
}

/// A key that is given back, under that number if under one, with the session's tag or with a stranger's.
struct Step {
    number: Option<u16>,
    stranger: bool,
    wanted: GivenBack,
}

/// What is made of keys that are given back, once `k` was declared twice.
static STEPS: [Step; 5] = [
    Step {
        number: Some(1),
        stranger: false,
        wanted: GivenBack::Taken,
    },
    Step {
        number: Some(1),
        stranger: true,
        wanted: GivenBack::OtherSession,
    },
    Step {
        number: None,
        stranger: false,
        wanted: GivenBack::NotDeclared,
    },
    Step {
        number: Some(1),
        stranger: false,
        wanted: GivenBack::Taken,
    },
    Step {
        number: Some(1),
        stranger: false,
        wanted: GivenBack::NotFound,
    },
];

/// A key that is declared twice is given back twice, and no other is.
pub(crate) fn with_keys<B: Books, R: Wait + Abort>(
    rt: &R,
    session: &Session<FifoSender<Item>, B>,
    caller: &mut Caller<B>,
) {
    let tag = session.tag();
    let whole = Some(Declared {
        number: 1,
        prefix_len: 1,
        tag,
    });
    let first = declaration(rt, session, caller);
    let second = declaration(rt, session, caller);
    assert!(rt; first == whole && second == whole);
    for step in &STEPS {
        let tag = if step.stranger { tag ^ 1 } else { tag };
        let made = give_back(rt, session, step.number, tag, caller);
        assert!(rt; made == step.wanted);
    }
    assert!(rt; caller.count() == 6 && caller.sent() == 2);
}
