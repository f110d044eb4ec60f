//! The two sides whose finals a get waits for.
ghost use Rattle.std.specs.Prelude.{◌≡◌};
ghost use Rattle.zs_query.specs.Gets.{other_side};

/// Whose final: that of the queryables of this session, or that of the network.
#[derive(Clone, Copy, Debug, PartialEq, Eq, Hash)]
pub enum Side {
    Local,
    Network,
}

impl Side {
    /// The other one.
    pub(crate) fn other(self) -> Side
        ensures { result ≡ other_side self }
    {
        match self {
            Side::Local => Side::Network,
            Side::Network => Side::Local,
        }
    }
}
