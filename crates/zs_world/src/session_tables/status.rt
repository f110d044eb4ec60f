//! Who the session is in the network.

ghost use Rattle.std.specs.Prelude.{◌≡◌};

use super::SessionTables;
use zs_wire::EntityGlobalId;

impl SessionTables {
    /// The session's own identifier in the network, its ZenohId.
    pub fn zid(&self) -> u128
        ensures { result ≡ self.now.settings.zid }
    {
        self.settings.zid
    }

    /// The session as an entity of the network: its identifier, and the number that its settings give it.
    pub fn id(&self) -> EntityGlobalId
        ensures { result ≡ record { zid = self.now.settings.zid; eid = self.now.settings.entity_start } }
    {
        EntityGlobalId {
            zid: self.settings.zid,
            eid: self.settings.entity_start,
        }
    }
}
