//! The passes of all calls of a turn, lent together or not at all.

// Lending the passes of a turn's calls, all or none.
ghost use Rattle.std.specs.Prelude.{◌≡◌, ◌+◌, ◌<◌, ◌≤◌, true, false, [], List, ◌++◌, map, IfOk, OnOk, OnErr};
ghost use Rattle.std.specs.List.{AllByRecursion};
ghost use Rattle.std.specs.Vec.{vec_len, vec_capacity};
ghost use Rattle.zs_posts.specs.declared.call.Wanted.{Wanted as IsWanted};
ghost use Rattle.zs_posts.specs.Passes.{LentSeen};
ghost use Rattle.zs_posts.specs.Lending.{lend_all, is_overdrawn, returned_all, IsLent};
ghost use Rattle.zs_posts.specs.Calls.{handler_at, call_keys, call_seen, all_lents, turn_keys, call_for, calls_of};
ghost use Rattle.zs_posts.specs.Turns.{Underway};

use crate::call::{Call, Loan, Wanted};
use crate::post_map::PostMap;
use std::alloc::Global;
use zs_gate::NoPass;

impl<H: Drop> PostMap<H> {
    // Lends the passes of the call of one item, if its key has a handler.
    fn lend_item<T: Drop>(
        &mut self,
        wanted: Wanted<T>,
        calls: &mut Vec<Call<H, T>>,
    ) -> Result<(), NoPass>
        requires { vec_len calls.old < vec_capacity calls.old }
        ensures ok { OnOk result ((lents : List LentSeen) × IsLent self.old.room (call_keys wanted.key self.old.rows) self.old.rows lents self.new.rows × (map call_seen calls.new.items ≡ map call_seen calls.old.items ++ call_for wanted.item (handler_at wanted.key self.old.rows) lents)) }
        ensures room { self.new.room ≡ self.old.room }
        ensures capacity { vec_capacity calls.new ≡ vec_capacity calls.old }
        ensures len { vec_len calls.new ≤ vec_len calls.old + 1 }
        ensures full { result ≡ Err NoPass.Full → is_overdrawn (call_keys wanted.key self.old.rows) self.old.rows ≡ true }
        ensures err { OnErr result ((self.new ≡ self.old) × (calls.new ≡ calls.old)) }
    {
        let Wanted { key, item } = wanted;
        let loan = match self.lend_call(key) {
            Ok(loan) => loan,
            Err(why) => {
                drop(item);
                return Err(why);
            }
        };
        let Some(loan) = loan else {
            drop(item);
            return Ok(());
        };
        let Loan { handler, passes } = loan;
        calls.push_reserved(Call {
            item,
            handler,
            passes,
        });
        Ok(())
    }

    // Lends those of items in turn, as far as it goes.
    fn lend_each<T: Drop>(
        &mut self,
        wanted: Vec<Wanted<T>>,
        calls: &mut Vec<Call<H, T>>,
    ) -> Result<(), NoPass>
        requires empty { calls.old.items ≡ [] }
        requires wide { vec_len wanted ≤ vec_capacity calls.old }
        ensures few { OnOk result (vec_len calls.new ≤ vec_len wanted) }
        ensures ok { OnOk result (Underway self.old.room wanted.items self.old.rows [] (map call_seen calls.new.items) self.new.rows) }
        ensures err { OnErr result ((left : List (IsWanted T)) × Underway self.old.room wanted.items self.old.rows left (map call_seen calls.new.items) self.new.rows) }
        ensures room { self.new.room ≡ self.old.room }
        ensures full { result ≡ Err NoPass.Full → is_overdrawn (turn_keys wanted.items self.old.rows) self.old.rows ≡ true }
    {
        let mut left = wanted.into_iter();
        while let Some(next) = left.next() {
            match self.lend_item(next, calls) {
                Ok(()) => {}
                Err(why) => return Err(why),
            }
        }
        Ok(())
    }

    // Takes the passes of calls back, the last first.
    pub(crate) fn unlend_each<T: Drop>(&mut self, calls: Vec<Call<H, T>>)
        requires { AllByRecursion (λ l. l.room ≡ self.old.room) (all_lents (map call_seen calls.items)) }
        ensures { self.new ≡ record self.old { rows = returned_all (all_lents (map call_seen calls.items)) self.old.rows } }
    {
        let mut left = calls;
        while let Some(call) = left.pop() {
            let Call {
                item,
                handler,
                passes,
            } = call;
            drop(item);
            drop(handler);
            self.unlend_call(passes);
        }
    }

    // Lends the passes of the calls of items: one call for each item whose key has a handler. At `Err` nothing has changed.
    pub(crate) fn lend_turn<T: Drop>(
        &mut self,
        alloc: Global,
        wanted: Vec<Wanted<T>>,
    ) -> Result<Vec<Call<H, T>>, NoPass>
        ensures few { IfOk result (λ calls. vec_len calls ≤ vec_len wanted) }
        ensures calls { IfOk result (λ calls. map call_seen calls.items ≡ calls_of wanted.items self.old.rows) }
        ensures rows { IfOk result (λ _. self.new.rows ≡ lend_all (turn_keys wanted.items self.old.rows) self.old.rows) }
        ensures back { IfOk result (λ calls. returned_all (all_lents (map call_seen calls.items)) self.new.rows ≡ self.old.rows) }
        ensures fits { IfOk result (λ _. is_overdrawn (turn_keys wanted.items self.old.rows) self.old.rows ≡ false) }
        ensures of_room { IfOk result (λ calls. AllByRecursion (λ l. l.room ≡ self.old.room) (all_lents (map call_seen calls.items))) }
        ensures room { self.new.room ≡ self.old.room }
        ensures full { result ≡ Err NoPass.Full → is_overdrawn (turn_keys wanted.items self.old.rows) self.old.rows ≡ true }
        ensures err { OnErr result (self.new ≡ self.old) }
    {
        let Ok(mut calls) = Vec::with_capacity(alloc, wanted.len()) else {
            return Err(NoPass::NoMemory);
        };
        match self.lend_each(wanted, &mut calls) {
            Ok(()) => {}
            Err(why) => {
                self.unlend_each(calls);
                return Err(why);
            }
        }
        Ok(calls)
    }
}
