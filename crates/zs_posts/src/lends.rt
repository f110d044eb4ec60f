//! The passes of one call: of its own gate and of those above it.

// Lending the passes of calls, all or none.
ghost use Rattle.std.specs.Prelude.{◌≡◌, true, ◌∷◌, ◌++◌, [], is_some, IfOk, OnErr};
ghost use Rattle.std.specs.List.{AllByRecursion};
ghost use Rattle.std.specs.Option.{option_to_list};
ghost use Rattle.zs_posts.specs.Posts.{post_at};
ghost use Rattle.zs_posts.specs.Lending.{is_overdrawn, returned_all, IsLent};
ghost use Rattle.zs_posts.specs.Calls.{keys_above, lents_above, passes_lents, call_keys, handler_at, loan_handler, loan_lents};

use crate::call::{Above, Loan, Target};
use crate::key::{Key, Name};
use crate::pass::Lent;
use crate::passes::Passes;
use crate::post_map::PostMap;
use zs_gate::NoPass;

impl<H> PostMap<H> {
    // Lends under two keys, as far as there are keys and posts.
    fn lend_both(
        &mut self,
        first: Option<Key>,
        second: Option<Key>,
    ) -> Result<(Option<Lent>, Option<Lent>), NoPass>
        ensures ok { IfOk result (λ ls. IsLent self.old.room (option_to_list first ++ option_to_list second) self.old.rows (option_to_list ls.0 ++ option_to_list ls.1) self.new.rows) }
        ensures room { self.new.room ≡ self.old.room }
        ensures full { result ≡ Err NoPass.Full → is_overdrawn (option_to_list first ++ option_to_list second) self.old.rows ≡ true }
        ensures err { OnErr result (self.new ≡ self.old) }
    {
        let one = match self.lend(first) {
            Ok(one) => one,
            Err(why) => return Err(why),
        };
        let other = match self.lend(second) {
            Ok(other) => other,
            Err(why) => {
                self.unlend(one);
                return Err(why);
            }
        };
        Ok((one, other))
    }

    // Lends a pass of the session's gate, and of those of the parent and the token of a name.
    fn lend_above(&mut self, name: Name) -> Result<Above, NoPass>
        ensures ok { IfOk result (λ a. IsLent self.old.room (keys_above name) self.old.rows (lents_above a.session a.parent a.token) self.new.rows) }
        ensures room { self.new.room ≡ self.old.room }
        ensures full { result ≡ Err NoPass.Full → is_overdrawn (keys_above name) self.old.rows ≡ true }
        ensures err { OnErr result (self.new ≡ self.old) }
    {
        let session = match self.lend(Some(Key::Session)) {
            Ok(session) => session,
            Err(why) => return Err(why),
        };
        let (parent, token) = match self.lend_both(name.parent, name.token) {
            Ok(both) => both,
            Err(why) => {
                self.unlend(session);
                return Err(why);
            }
        };
        Ok(Above {
            session,
            parent,
            token,
        })
    }

    // Lends the passes of a call of a key's handler, if it has one. At `Err` nothing has changed.
    pub(crate) fn lend_call(&mut self, key: Key) -> Result<Option<Loan<H>>, NoPass>
    where
        H: Drop,
        ensures ok { IfOk result (λ loan. IsLent self.old.room (call_keys key self.old.rows) self.old.rows (loan_lents loan) self.new.rows) }
        ensures handler { IfOk result (λ loan. loan_handler loan ≡ handler_at key self.old.rows) }
        ensures room { self.new.room ≡ self.old.room }
        ensures full { result ≡ Err NoPass.Full → is_overdrawn (call_keys key self.old.rows) self.old.rows ≡ true }
        ensures err { OnErr result (self.new ≡ self.old) }
    {
        let Ok(target) = self.target(key) else {
            return Err(NoPass::NoMemory);
        };
        let Some(target) = target else {
            return Ok(None);
        };
        let Target { handler, name } = target;
        match self.lend_under(key, name) {
            Ok(passes) => Ok(Some(Loan { handler, passes })),
            Err(why) => {
                drop(handler);
                Err(why)
            }
        }
    }

    // Lends the passes of a call, where the key has a post of that name.
    fn lend_under(&mut self, key: Key, name: Name) -> Result<Passes, NoPass>
        requires { is_some (post_at key self.old.rows) ≡ true }
        ensures ok { IfOk result (λ p. IsLent self.old.room (key ∷ keys_above name) self.old.rows (passes_lents p) self.new.rows) }
        ensures room { self.new.room ≡ self.old.room }
        ensures full { result ≡ Err NoPass.Full → is_overdrawn (key ∷ keys_above name) self.old.rows ≡ true }
        ensures err { OnErr result (self.new ≡ self.old) }
    {
        let own = match self.lend(Some(key)) {
            Ok(own) => own,
            Err(why) => return Err(why),
        };
        let Some(own) = own else { unreachable!() };
        let above = match self.lend_above(name) {
            Ok(above) => above,
            Err(why) => {
                self.unlend(Some(own));
                return Err(why);
            }
        };
        let Above {
            session,
            parent,
            token,
        } = above;
        Ok(Passes {
            own,
            session,
            parent,
            token,
        })
    }

    // Takes the passes of a call back.
    pub(crate) fn unlend_call(&mut self, passes: Passes)
        requires { AllByRecursion (λ l. l.room ≡ self.old.room) (passes_lents passes) }
        ensures { self.new ≡ record self.old { rows = returned_all (passes_lents passes) self.old.rows } }
    {
        let Passes {
            own,
            session,
            parent,
            token,
        } = passes;
        self.unlend(token);
        self.unlend(parent);
        self.unlend(session);
        self.unlend(Some(own));
    }
}
