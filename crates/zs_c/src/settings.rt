//! Settings as C gives them.

ghost use Rattle.std.specs.Prelude.{◌≡◌, ℕ, ◌+◌, ◌*◌};
ghost use Rattle.zs_c.specs.Opening.{settings_of, default_form};

use zs_core::{KeyList, Settings};

/// What a session is opened with, as `yq_settings` of the header.
#[repr(C)]
#[derive(Clone, Copy)]
pub struct SettingsForm {
    /// The upper half of the session's own identifier in the network.
    pub zid_high: u64,
    /// The lower half.
    pub zid_low: u64,
    /// What the keys that this session declares are marked with.
    pub tag: u64,
    /// After how many milliseconds a get ends that doesn't say it itself.
    pub default_timeout: u64,
    /// The number of the session itself among the entities.
    pub entity_start: u32,
    /// The number of its first get.
    pub query_start: u32,
    /// How many bytes a line may have.
    pub line_max: u32,
    /// The number of the first key that it declares.
    pub key_start: u16,
}

impl SettingsForm {
    /// The settings that it says. No declarations are aggregated.
    pub(crate) fn read(&self) -> Settings
        ensures { result ≡ settings_of self.now }
    {
        let zid = joined(self.zid_high, self.zid_low);
        Settings {
            zid,
            tag: self.tag,
            entity_start: self.entity_start,
            key_start: self.key_start,
            query_start: self.query_start,
            aggregated_subscribers: KeyList::new(),
            aggregated_publishers: KeyList::new(),
            default_timeout: self.default_timeout,
            line_max: self.line_max,
            turns: 1 << 32,
        }
    }
}

/// The number of these two halves.
fn joined(high: u64, low: u64) -> u128
    ensures { result ≡ high * 18446744073709551616 + low }
{
    u128::from(high) * (1 << 64) + u128::from(low)
}

/// Writes the settings that a session has if nothing is said.
#[unsafe(no_mangle)]
pub extern "C" fn yq_defaults(form: &mut SettingsForm)
    ensures { form.new ≡ default_form }
{
    *form = SettingsForm {
        zid_high: 0,
        zid_low: 1,
        tag: 1,
        default_timeout: 10000,
        entity_start: 1,
        query_start: 0,
        line_max: 65536,
        key_start: 1,
    };
}
