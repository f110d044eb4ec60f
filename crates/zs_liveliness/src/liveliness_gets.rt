//! The open liveliness gets, which end by their number, at their deadline or by a cancellation token.
ghost use Rattle.std.specs.Prelude.{◌≡◌, [], map, IfOk, OnOk, OnErr};
ghost use Rattle.zs_liveliness.specs.LivelinessGets.{is_asking, with_liveliness_get, without_liveliness_get, over_at, waiting_at, numbers_with, without_cancellation_token};

use crate::asking_gets::AskingGets;
use crate::liveliness_get::LivelinessGet;
use std::alloc::{AllocError, Global};
use std::marker::Model;

/// The open liveliness gets, in ascending number. No call that answers want of memory has changed anything.
#[derive(Drop)]
pub struct LivelinessGets {
    gets: AskingGets,
}

impl Model for LivelinessGets {
    ghost use Rattle.std.specs.Prelude.{List};
    ghost use Rattle.zs_liveliness.specs.declared.liveliness_get.LivelinessGet.{LivelinessGet};

    ghost Value = { List LivelinessGet };

    ghost view = { λ s. s.gets };
}

impl LivelinessGets {
    /// None is open.
    pub fn new(alloc: Global) -> LivelinessGets
        ensures { result ≡ [] }
    {
        LivelinessGets {
            gets: AskingGets::new(alloc),
        }
    }

    /// Whether one of that number is open.
    pub fn is_open(&self, number: u32) -> bool
        ensures { result ≡ is_asking number self.now }
    {
        self.gets.has(number)
    }

    /// Opens one, in place of one with its number.
    ///
    /// # Errors
    ///
    /// Want of memory alone.
    pub fn open(&mut self, get: LivelinessGet) -> Result<(), AllocError>
        ensures ok { OnOk result (self.new ≡ with_liveliness_get get self.old) }
        ensures err { OnErr result (self.new ≡ self.old) }
    {
        if self.gets.has(get.number) {
            return self.gets.write_over(get);
        }
        self.gets.insert(get)
    }

    /// Ends the one of that number, if it is open.
    pub fn end(&mut self, number: u32)
        ensures { self.new ≡ without_liveliness_get number self.old }
    {
        self.gets.end(number);
    }

    /// The numbers of those whose deadline is reached, ascending.
    ///
    /// # Errors
    ///
    /// Want of memory alone.
    pub fn over_at(&self, alloc: Global, now: u64) -> Result<Vec<u32>, AllocError>
        ensures { IfOk result (λ numbers. numbers.items ≡ over_at now self.now) }
    {
        self.gets.over_at(alloc, now)
    }

    /// Ends those whose deadline is reached.
    pub fn advance(&mut self, now: u64)
        ensures { self.new ≡ waiting_at now self.old }
    {
        'gets: while let Some(number) = self.gets.first_over(now) {
            self.gets.end(number);
        }
    }

    /// The numbers of those that have this cancellation token, ascending.
    ///
    /// # Errors
    ///
    /// Want of memory alone.
    pub fn numbers_with(
        &self,
        alloc: Global,
        cancellation_token: u32,
    ) -> Result<Vec<u32>, AllocError>
        ensures { IfOk result (λ numbers. numbers.items ≡ numbers_with cancellation_token self.now) }
    {
        self.gets.numbers_with(alloc, cancellation_token)
    }

    /// Ends those that have this cancellation token.
    pub fn end_cancelled_by(&mut self, cancellation_token: u32)
        ensures { self.new ≡ without_cancellation_token cancellation_token self.old }
    {
        'gets: while let Some(number) = self.gets.first_of_cancellation_token(cancellation_token) {
            self.gets.end(number);
        }
    }

    /// The numbers of all, ascending.
    ///
    /// # Errors
    ///
    /// Want of memory alone.
    pub fn numbers(&self, alloc: Global) -> Result<Vec<u32>, AllocError>
        ensures { IfOk result (λ numbers. numbers.items ≡ map (λ g. g.number) self.now) }
    {
        self.gets.numbers(alloc)
    }

    /// Ends all.
    pub fn clear(&mut self)
        ensures { self.new ≡ [] }
    {
        self.gets.clear();
    }
}
