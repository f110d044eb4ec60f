//! Who receives a publication, read from the tables.

ghost use Rattle.std.specs.Prelude.{◌≡◌, IsSome};
ghost use Rattle.std.specs.Option.{option_map, option_copied, ForSome, IfSome};
ghost use Rattle.zs_subscriptions.specs.Ascending.{Ascend};
ghost use Rattle.zs_subscriptions.specs.Numbers.{key_at};
ghost use Rattle.zs_subscriptions.specs.Contents.{text_meant, IsByNumber};
ghost use Rattle.zs_subscriptions.specs.Recipients.{matches, next_recipient};
ghost use Rattle.zs_world.specs.World.{tables_of};
ghost use Rattle.zs_world.specs.Keys.{numbers_for};

use super::SessionState;
use std::sync::ledger::Ledger;
use zs_keys::Steps;
use zs_tables::KeyRef;
use zs_wire::Mapping;

impl SessionState {
    /// The ascending numbers of the live subscribers whose key has a key in common with that of a declared number, if
    /// it stands for one. `Mapping::Receiver` names this session's numbers, `Mapping::Sender` the network's. It reads
    /// the list that the number keeps.
    pub fn matches_of(&self, mapping: Mapping, number: u16) -> Option<&[u32]>
        ensures list { option_copied result ≡ option_map (λ key. matches key.text self.now.entities.subs) (key_at number (numbers_for mapping self.now)) }
        ensures ascending { IfSome (option_copied result) (λ ids. Ascend (λ id. id) ids) }
    {
        self.world.matches_of(mapping, number)
    }

    /// The next live subscriber behind the last one, if there was one, that receives a publication on that key.
    /// `local` says that it was made in this session. By number it reads the list that the number keeps, and counts
    /// no step.
    pub fn next_recipient<L: Ledger>(
        &self,
        key: KeyRef<'_>,
        local: bool,
        after: Option<u32>,
        steps: &mut Steps<L>,
    ) -> Option<u32>
        requires { IsSome (text_meant key (tables_of self.now)) }
        ensures next { ForSome (text_meant key.entry (tables_of self.now)) (λ text. result ≡ next_recipient local text after self.now.entities.subs) }
        ensures uncounted { IsByNumber key.entry → steps.new ≡ steps.old }
    {
        self.world.next_recipient(key, local, after, steps)
    }
}
