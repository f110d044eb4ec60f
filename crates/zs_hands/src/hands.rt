//! The calls of a turn, from the hold of the lock in which they were lent their passes to the one in which these come back.
ghost use Rattle.std.specs.Prelude.{◌≡◌, ◌≤◌, false, [], map, IfOk};
ghost use Rattle.std.specs.Vec.{vec_len, vec_capacity};
ghost use Rattle.atomic_table.specs.Seated.{TableId};
ghost use Rattle.zs_posts.specs.Calls.{call_seen, all_lents};
ghost use Rattle.zs_posts.specs.Settled.{all_given_back};
ghost use Rattle.zs_hands.specs.Answers.{AnswersAll, AreKept, AreOfRoom, ran_lents, reports_of};

use crate::handed::{Handed, RanCall};
use crate::run::run_call;
use std::alloc::{AllocError, Global};
use std::sync::Wait;
use zs_handlers::Handler;
use zs_posts::{Call, Posts};

/// Room for what a number of calls tell, so that running them takes no memory.
#[derive(Drop)]
pub struct HandsRoom<T, D> {
    ran: Vec<RanCall<T, D>>,
    reports: Vec<Handed<T, D>>,
    ghost none_ran: { ran.items ≡ [] },
    ghost none_told: { reports.items ≡ [] },
}

/// Calls that are to be made, each with its passes. They must be run: a program that lets them go doesn't compile.
pub struct Hands<H, T, D> {
    calls: Vec<Call<H, T>>,
    room: HandsRoom<T, D>,
    ghost wide: { (vec_len calls ≤ vec_capacity room.ran) × (vec_len calls ≤ vec_capacity room.reports) },
}

/// Calls that ran. Their passes must be given back: a program that lets them go doesn't compile.
pub struct Ran<T, D> {
    ran: Vec<RanCall<T, D>>,
    reports: Vec<Handed<T, D>>,
    ghost none_told: { reports.items ≡ [] },
    ghost wide: { vec_len ran ≤ vec_capacity reports },
}

impl<T, D> HandsRoom<T, D> {
    /// Room for that many calls.
    ///
    /// # Errors
    ///
    /// Want of memory alone.
    pub fn new(alloc: Global, count: usize) -> Result<HandsRoom<T, D>, AllocError>
    where
        T: Drop,
        D: Drop,
        ensures { IfOk result (λ room. (count ≤ vec_capacity room.ran) × (count ≤ vec_capacity room.reports)) }
    {
        let ran = Vec::with_capacity(alloc, count)?;
        let reports = Vec::with_capacity(alloc, count)?;
        Ok(HandsRoom { ran, reports })
    }
}

impl<H, T, D> Hands<H, T, D> {
    /// Calls, with the room that they take.
    pub fn of(calls: Vec<Call<H, T>>, room: HandsRoom<T, D>) -> Hands<H, T, D>
        requires { (vec_len calls ≤ vec_capacity room.ran) × (vec_len calls ≤ vec_capacity room.reports) }
        ensures { result.calls ≡ calls }
    {
        Hands { calls, room }
    }
}

impl<H: Drop, T: Drop, D: Drop> Hands<H, T, D> {
    /// Lets go of no calls.
    pub fn let_go(self)
        requires { self.calls.items ≡ [] }
    {
        let Hands { calls, room } = self;
        drop(calls);
        drop(room);
    }

    /// Makes each call inside of its gates, in order. It takes no memory.
    pub fn run<R: Wait>(self, rt: &R) -> Ran<T, D>
    where
        H: Handler<T, Done = D>,
        ensures told { AnswersAll H.gives self.calls.items result.ran.items }
        ensures kept { H.evicts ≡ false → AreKept result.ran.items }
        ensures room { (room : TableId) → AreOfRoom room (all_lents (map call_seen self.calls.items)) → AreOfRoom room (ran_lents result.ran.items) }
    {
        let Hands { calls, room } = self;
        let HandsRoom { mut ran, reports } = room;
        let mut left = calls.into_iter();
        while let Some(call) = left.next() {
            ran.push_reserved(run_call(rt, call));
        }
        Ran { ran, reports }
    }
}

impl<T: Drop, D: Drop> Ran<T, D> {
    /// Gives all passes back, and tells what became of each item, in order. It takes no memory.
    pub fn give_back<H>(self, posts: &mut Posts<H>) -> Vec<Handed<T, D>>
        requires { AreOfRoom posts.old.room (ran_lents self.ran.items) }
        ensures posts { posts.new ≡ all_given_back (ran_lents self.ran.items) posts.old }
        ensures reports { result.items ≡ reports_of self.ran.items }
    {
        let Ran { ran, mut reports } = self;
        let mut left = ran.into_iter();
        while let Some(call) = left.next() {
            let RanCall {
                report,
                under,
                passes,
            } = call;
            drop(under);
            posts.give_all_back(passes);
            reports.push_reserved(report);
        }
        reports
    }
}
