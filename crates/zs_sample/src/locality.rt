//! Where publications may come from and go to.
/// Whose publications a subscriber takes, and whom a publication may reach: this session, the network, or both.
/// It is Zenoh's `Locality`: `allowed_origin` of a subscriber and `allowed_destination` of a publication.
#[derive(Clone, Copy, Debug, PartialEq, Eq, Hash)]
pub enum Locality {
    SessionLocal,
    Remote,
    Any,
}

impl Default for Locality {
    ghost use Rattle.std.specs.Prelude.{◌≡◌};
    ghost use Rattle.zs_sample.specs.declared.locality.Locality.{Locality};

    ghost is_default = { λ l. l ≡ Locality.Any };

    /// Both this session and the network, Zenoh's default.
    fn default() -> Locality {
        Locality::Any
    }
}

/// How a configuration names whom a publisher may reach.
pub type PublisherLocalityConf = Locality;
