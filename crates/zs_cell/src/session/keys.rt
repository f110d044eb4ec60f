//! Keys that a session declares.
ghost use Rattle.std.specs.Prelude.{◌≡◌, ◌↔◌, ◌≤◌, Err, None, Some, true, false, length, IfOk, IfErr, OnOk};
ghost use Rattle.zs_events.specs.declared.event.Event.TheVariants.{Key as declare_key, UndeclareKey};
ghost use Rattle.zs_cell.specs.Keys.{DeclaresKey, declaration_of, is_foreign, key_arg};
ghost use Rattle.zs_cell.specs.Steps.{Accepts, Stops, StopsOr};
ghost use Rattle.zs_cell.specs.declared.error.SessionError.{SessionError};

use crate::error::{KeyBack, SessionError};
use crate::key_args::key_arg;
use crate::session::Session;
use std::sync::Wait;
use zs_books::Books;
use zs_events::Event;
use zs_handlers::Handler;
use zs_held::Receipt;
use zs_keys::{Declared, KeyExpr};
use zs_turns::Item;

type Caller<B> = zs_books::Caller<B, Receipt<B>>;

// Numbers of keys have 16 bits.
const LAST_KEY: u32 = 65535;

// The key, as a session of that tag declared it under that number.
fn declared(key: KeyExpr<'static>, tag: u64, number: u32) -> KeyExpr<'static>
    requires { length key.text ≤ 4294967295 }
    ensures { result ≡ record key.entry { declaration = declaration_of tag key.entry.text number } }
{
    let prefix_len = key.as_str().len() as u32;
    if number <= LAST_KEY {
        key.with_declaration(Declared {
            number: number as u16,
            prefix_len,
            tag,
        })
    } else {
        key.without_declaration()
    }
}

// Whether a session of another tag declared the whole key.
fn is_foreign(tag: u64, key: &KeyExpr<'_>) -> bool
    ensures { result ≡ is_foreign tag key.now }
{
    match key.declaration() {
        Some(declared) => {
            declared.prefix_len as usize == key.as_str().len() && declared.tag != tag
        }
        None => false,
    }
}

impl<H: Handler<Item> + Drop, B: Books> Session<H, B> {
    // Steps the session by a declaration of a key: its number.
    fn key_number<R: Wait>(
        &self,
        rt: &R,
        key: &KeyExpr<'_>,
        caller: &mut Caller<B>,
    ) -> Result<u32, SessionError>
        ensures ok { IfOk result (λ number. Accepts B.Entries.settings H.evicts caller.old caller.new (declare_key (key_arg self.now.tag key.now)) false (Some number)) }
        ensures err { IfErr result (λ why. Stops B.Entries.settings H.evicts caller.old caller.new (declare_key (key_arg self.now.tag key.now)) false why) }
    {
        let Ok(key) = key_arg(self.alloc(), self.tag(), key) else {
            return Err(SessionError::NoMemory);
        };
        self.ask_alone(rt, Event::Key { key }, caller)
    }

    /// Declares a key, which is held under a number from then on: the key, declared as a whole by this session under that
    /// number. Each declaration that is accepted is to be given back by one `undeclare`.
    ///
    /// # Errors
    ///
    /// `Refused`: `SessionClosedError` behind the close, `IdsExhausted` where the key isn't held yet and no number of a
    /// key is left. Else `NoMemory`: no event was taken.
    pub fn declare_keyexpr<R: Wait>(
        &self,
        rt: &R,
        key: &KeyExpr<'_>,
        caller: &mut Caller<B>,
    ) -> Result<KeyExpr<'static>, SessionError>
        requires { length key.now.text ≤ 4294967295 }
        ensures ok { IfOk result (λ made. DeclaresKey B.Entries.settings H.evicts caller.old caller.new self.now.tag key.now made) }
        ensures err { IfErr result (λ why. Stops B.Entries.settings H.evicts caller.old caller.new (declare_key (key_arg self.now.tag key.now)) false why) }
    {
        let Ok(own) = key.borrowing_clone().into_owned(self.alloc()) else {
            return Err(SessionError::NoMemory);
        };
        match self.key_number(rt, key, caller) {
            Ok(number) => Ok(declared(own, self.tag(), number)),
            Err(why) => {
                drop(own);
                Err(why)
            }
        }
    }

    // Steps the session by the end of a declaration of a key.
    fn give_back_key<R: Wait>(
        &self,
        rt: &R,
        key: &KeyExpr<'_>,
        caller: &mut Caller<B>,
    ) -> Result<(), SessionError>
        ensures ok { OnOk result (Accepts B.Entries.settings H.evicts caller.old caller.new (UndeclareKey (key_arg self.now.tag key.now)) false None) }
        ensures err { IfErr result (λ why. StopsOr B.Entries.settings H.evicts caller.old caller.new (UndeclareKey (key_arg self.now.tag key.now)) false why) }
        ensures own { result ≡ Err SessionError.OtherSession → ⊥ }
    {
        let Ok(key) = key_arg(self.alloc(), self.tag(), key) else {
            return Err(SessionError::NoMemory);
        };
        match self.tell(rt, Event::UndeclareKey { key }, caller) {
            Ok(()) => Ok(()),
            Err(SessionError::Refused(refusal)) => Err(SessionError::Refused(refusal)),
            Err(SessionError::NoMemory) => Err(SessionError::NoMemory),
            Err(SessionError::OtherSession) => unreachable!(),
        }
    }

    /// Gives a declared key back. Its number ends once it was given back as often as it was declared.
    ///
    /// # Errors
    ///
    /// `OtherSession` where another session declared the whole key: no event was taken. `Refused`: `SessionClosedError`
    /// behind the close, `NotFound` where its number no longer stands for it, `NotDeclared` where it wasn't declared as
    /// a whole. Else `NoMemory`: no event was taken. The key comes back.
    pub fn undeclare<'a, R: Wait>(
        &self,
        rt: &R,
        key: KeyExpr<'a>,
        caller: &mut Caller<B>,
    ) -> Result<(), KeyBack<'a>>
        ensures ok { OnOk result (Accepts B.Entries.settings H.evicts caller.old caller.new (UndeclareKey (key_arg self.now.tag key.entry)) false None) }
        ensures own { OnOk result (is_foreign self.now.tag key.entry ≡ false) }
        ensures err { IfErr result (λ back. StopsOr B.Entries.settings H.evicts caller.old caller.new (UndeclareKey (key_arg self.now.tag key.entry)) false back.why) }
        ensures other { IfErr result (λ back. (back.why ≡ SessionError.OtherSession) ↔ (is_foreign self.now.tag key.entry ≡ true)) }
        ensures back { IfErr result (λ back. back.key ≡ key.entry) }
    {
        if is_foreign(self.tag(), &key) {
            return Err(KeyBack {
                why: SessionError::OtherSession,
                key,
            });
        }
        match self.give_back_key(rt, &key, caller) {
            Ok(()) => {
                drop(key);
                Ok(())
            }
            Err(why) => Err(KeyBack { why, key }),
        }
    }
}
