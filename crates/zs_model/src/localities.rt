//! Whom a locality reaches: this session, the network, or both.

ghost use Rattle.std.specs.Prelude.{◌≡◌};
ghost use Rattle.zs_subscriptions.specs.Recipients.{has_session, has_network, matches};

use zs_sample::Locality;

/// Whether a locality has this session in it.
pub fn has_session(locality: Locality) -> bool
    ensures { result ≡ has_session locality }
{
    matches!(locality, Locality::SessionLocal | Locality::Any)
}

/// Whether a locality has the network in it.
pub fn has_network(locality: Locality) -> bool
    ensures { result ≡ has_network locality }
{
    matches!(locality, Locality::Remote | Locality::Any)
}
