//! The groups of a session, kind by kind.
ghost use Rattle.std.specs.Prelude.{◌≡◌, [], not, length, IfOk, OnOk, OnErr};
ghost use Rattle.std.specs.List.{list_any};
ghost use Rattle.zs_grouped.specs.Groups.{groups_of, with_groups, has_text, number_of_group, members_of, joined, left, number_left};

use crate::group_kind::GroupKind;
use crate::grouping::{GroupRows, join_in, leave_in, members_in, number_in};
use std::alloc::{AllocError, Global};
use std::collections::BTreeMap;
use std::marker::Model;

/// The entities of each kind that share a declaration, by the text that they share. A group has the number of the
/// entity that made it, for as long as it has members.
#[derive(Drop)]
pub struct Groups {
    alloc: Global,
    subscribers: GroupRows,
    publishers: GroupRows,
    queriers: GroupRows,
}

impl Model for Groups {
    ghost use Rattle.zs_grouped.specs.Groups.{AllGroups};
    ghost use Rattle.zs_grouped.specs.Grouped.{groups_in, AreGroups};

    ghost Value = { AllGroups };

    ghost view = { λ g. record { subscribers = groups_in g.subscribers; publishers = groups_in g.publishers; queriers = groups_in g.queriers } };

    ghost invariant = { λ g. AreGroups g.subscribers.entries × AreGroups g.publishers.entries × AreGroups g.queriers.entries };
}

impl Groups {
    /// No groups.
    pub fn new(alloc: Global) -> Groups
        ensures { result ≡ record { subscribers = []; publishers = []; queriers = [] } }
    {
        Groups {
            alloc,
            subscribers: BTreeMap::new(alloc),
            publishers: BTreeMap::new(alloc),
            queriers: BTreeMap::new(alloc),
        }
    }

    /// Puts an entity into the group of a text, and says whether the group had no members. Where the entity is a member
    /// nothing changes.
    ///
    /// # Errors
    ///
    /// Want of memory alone.
    pub fn join(&mut self, kind: GroupKind, text: &str, id: u32) -> Result<bool, AllocError>
        ensures first { IfOk result (λ first. first ≡ not (list_any (has_text text.now) (groups_of kind self.old))) }
        ensures ok { OnOk result (self.new ≡ with_groups kind (joined text.now id (groups_of kind self.old)) self.old) }
        ensures err { OnErr result (self.new ≡ self.old) }
    {
        match kind {
            GroupKind::Subscribers => join_in(self.alloc, &mut self.subscribers, text, id),
            GroupKind::Publishers => join_in(self.alloc, &mut self.publishers, text, id),
            GroupKind::Queriers => join_in(self.alloc, &mut self.queriers, text, id),
        }
    }

    /// Takes an entity out of the group of a text, and gives the group's number where no members are left. Where the
    /// entity is no member nothing changes.
    pub fn leave(&mut self, kind: GroupKind, text: &str, id: u32) -> Option<u32>
        ensures last { result ≡ number_left text.now id (groups_of kind self.old) }
        ensures groups { self.new ≡ with_groups kind (left text.now id (groups_of kind self.old)) self.old }
    {
        match kind {
            GroupKind::Subscribers => leave_in(&mut self.subscribers, text, id),
            GroupKind::Publishers => leave_in(&mut self.publishers, text, id),
            GroupKind::Queriers => leave_in(&mut self.queriers, text, id),
        }
    }

    /// The number of the group of a text, if it has members.
    pub fn number(&self, kind: GroupKind, text: &str) -> Option<u32>
        ensures { result ≡ number_of_group text.now (groups_of kind self.now) }
    {
        match kind {
            GroupKind::Subscribers => number_in(&self.subscribers, text),
            GroupKind::Publishers => number_in(&self.publishers, text),
            GroupKind::Queriers => number_in(&self.queriers, text),
        }
    }

    /// How many members the group of a text has.
    pub fn members(&self, kind: GroupKind, text: &str) -> usize
        ensures { result ≡ length (members_of text.now (groups_of kind self.now)) }
    {
        match kind {
            GroupKind::Subscribers => members_in(&self.subscribers, text),
            GroupKind::Publishers => members_in(&self.publishers, text),
            GroupKind::Queriers => members_in(&self.queriers, text),
        }
    }
}
