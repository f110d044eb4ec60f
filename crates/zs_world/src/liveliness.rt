//! The part of a session that knows tokens: its own, those of others, and who watches them.

ghost use Rattle.std.specs.Prelude.{◌≡◌, ◌≤◌, ◌==◌, filter, not, OnOk, OnErr};
ghost use Rattle.std.specs.List.{list_any};
ghost use Rattle.zs_model.specs.Liveliness.{no_liveliness, shut_liveliness};
ghost use Rattle.zs_world.specs.LivelinessChanges.{liveliness_after, next_behind, LivelinessFits};
ghost use Rattle.zs_subscriptions.specs.Ascending.{placed_by};
ghost use Rattle.zs_tables.specs.Liveliness.{put_new};
ghost use Rattle.zs_tables.specs.LivelinessGets.{waiting_at, without_cancellation_token};

use crate::change::LivelinessChange;
use std::alloc::{AllocError, Global};
use std::marker::Model;
use zs_entity_tables::IdSet;
use zs_tables::{LivelinessGets, LivelinessSub, LivelinessSubs, RemoteTokens};

/// What a session knows of liveliness. No call that answers want of memory has changed anything.
#[derive(Drop)]
pub struct Liveliness {
    /// This session's tokens.
    tokens: IdSet,
    subs: LivelinessSubs,
    left: IdSet,
    remote_tokens: RemoteTokens,
    gets: LivelinessGets,
}

impl Model for Liveliness {
    ghost use Rattle.zs_model.specs.Liveliness.{Liveliness};

    ghost Value = { Liveliness };

    ghost view = { λ l. record { tokens = l.tokens; subs = l.subs; left = l.left; remote_tokens = l.remote_tokens; gets = l.gets } };
}

impl Liveliness {
    /// No tokens, subscribers or gets. It takes its memory from `alloc`.
    pub fn new(alloc: Global) -> Liveliness
        ensures { result ≡ no_liveliness }
    {
        Liveliness {
            tokens: IdSet::new(alloc),
            subs: LivelinessSubs::new(alloc),
            left: IdSet::new(alloc),
            remote_tokens: RemoteTokens::new(alloc),
            gets: LivelinessGets::new(alloc),
        }
    }

    /// Whether there is a token of this session of that number.
    pub fn has_token(&self, id: u32) -> bool
        ensures { result ≡ list_any (λ other. other == id) self.now.tokens }
    {
        self.tokens.contains(id)
    }

    /// The live subscribers.
    pub fn subs(&self) -> &LivelinessSubs
        ensures { result.now ≡ self.now.subs }
    {
        &self.subs
    }

    /// The numbers of the subscribers that were left to themselves.
    pub fn left(&self) -> &IdSet
        ensures { result.now ≡ self.now.left }
    {
        &self.left
    }

    /// The tokens that the network told.
    pub fn remote_tokens(&self) -> &RemoteTokens
        ensures { result.now ≡ self.now.remote_tokens }
    {
        &self.remote_tokens
    }

    /// The open gets of tokens.
    pub fn gets(&self) -> &LivelinessGets
        ensures { result.now ≡ self.now.gets }
    {
        &self.gets
    }

    /// A token of this session is there.
    pub fn add_token(&mut self, id: u32) -> Result<(), AllocError>
        ensures ok { OnOk result (self.new ≡ record self.old { tokens = placed_by (λ n. n) id self.old.tokens }) }
        ensures err { OnErr result (self.new ≡ self.old) }
    {
        self.tokens.insert(id)
    }

    /// A token of this session ends.
    pub fn remove_token(&mut self, id: u32)
        ensures { self.new ≡ record self.old { tokens = filter (λ n. not (n == id)) self.old.tokens } }
    {
        self.tokens.remove(id);
    }

    /// A subscriber is there.
    pub fn add_sub(&mut self, row: LivelinessSub) -> Result<(), AllocError>
        ensures ok { OnOk result (self.new ≡ record self.old { subs = put_new (λ s. s.id) row self.old.subs }) }
        ensures err { OnErr result (self.new ≡ self.old) }
    {
        self.subs.put(row)
    }

    /// A subscriber ends.
    pub fn remove_sub(&mut self, id: u32)
        ensures { self.new ≡ record self.old { subs = filter (λ row. not (row.id == id)) self.old.subs } }
    {
        self.subs.remove(id);
    }

    /// A subscriber is left to itself.
    pub fn leave_sub(&mut self, id: u32) -> Result<(), AllocError>
        ensures ok { OnOk result (self.new ≡ record self.old { left = placed_by (λ n. n) id self.old.left }) }
        ensures err { OnErr result (self.new ≡ self.old) }
    {
        self.left.insert(id)
    }

    /// Makes a change. At an `Err` all is as it was.
    pub fn change(&mut self, change: LivelinessChange) -> Result<(), AllocError>
        ensures ok { OnOk result (self.new ≡ liveliness_after change self.old) }
        ensures err { OnErr result (self.new ≡ self.old) }
    {
        match change {
            LivelinessChange::AskTokens { row } => self.gets.open(row),
            LivelinessChange::EndAsking { number } => {
                self.gets.end(number);
                Ok(())
            }
            LivelinessChange::RecordToken { token } => self.remote_tokens.record(token),
            LivelinessChange::ForgetToken { number } => {
                self.remote_tokens.forget(number);
                Ok(())
            }
        }
    }

    /// Ends the gets whose deadline is reached.
    pub fn advance(&mut self, moment: u64)
        ensures { self.new ≡ record self.old { gets = waiting_at moment self.old.gets } }
    {
        self.gets.advance(moment);
    }

    /// Ends the gets that have a cancellation token.
    pub fn end_cancelled_by(&mut self, cancellation_token: u32)
        ensures { self.new ≡ record self.old { gets = without_cancellation_token cancellation_token self.old.gets } }
    {
        self.gets.end_cancelled_by(cancellation_token);
    }

    /// Nothing that the application declared or asked lives any more.
    pub fn shut(&mut self)
        ensures { self.new ≡ shut_liveliness self.old }
    {
        self.tokens.clear();
        self.subs.clear();
        self.gets.clear();
    }
}

/// The next entity number behind a change.
pub fn next_behind(change: &LivelinessChange, next: u32) -> u32
    requires { LivelinessFits next change.now }
    ensures number { result ≡ next_behind change.now next }
    ensures up { next ≤ result }
{
    match change {
        LivelinessChange::AskTokens { .. } => next + 1,
        LivelinessChange::EndAsking { .. }
        | LivelinessChange::RecordToken { .. }
        | LivelinessChange::ForgetToken { .. } => next,
    }
}
