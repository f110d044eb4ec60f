//! The quality of service of a message, and its builder.
ghost use Rattle.std.specs.Prelude.{◌≡◌};
ghost use Rattle.zs_sample.specs.Quality.{number_of, priority_of};

use crate::quality::Priority;
use std::marker::Model;
use zs_wire::{CongestionControl, QoSType};

/// The quality of service of a message. Contracts see what stands in the message.
#[derive(Clone, Copy, Debug, PartialEq, Eq)]
pub struct QoS {
    inner: QoSType,
}

impl Model for QoS {
    ghost use Rattle.zs_wire.specs.declared.quality.QoSType.{QoSType};

    ghost Value = { QoSType };

    ghost view = { λ q. q.inner };

    ghost inverse = { λ q. record { inner = q } };
}

impl QoS {
    /// How urgent the message is. A number outside 1 to 7 passes for `Data`.
    pub fn priority(&self) -> Priority
        ensures { result ≡ priority_of self.now.priority }
    {
        Priority::handed_out(self.inner.priority)
    }

    /// What a full queue does with it.
    pub fn congestion_control(&self) -> CongestionControl
        ensures { result ≡ self.now.congestion }
    {
        self.inner.congestion
    }

    /// Whether it goes out at once, and isn't batched with others.
    pub fn express(&self) -> bool
        ensures { result ≡ self.now.express }
    {
        self.inner.express
    }
}

impl From<QoSType> for QoS {
    ghost from_gives = { λ inner made. made ≡ inner };

    /// The quality that stands in a message, as it is: a priority outside 1 to 7 is kept.
    fn from(inner: QoSType) -> QoS {
        QoS { inner }
    }
}

impl From<QoS> for QoSType {
    ghost from_gives = { λ qos inner. inner ≡ qos };

    /// The quality as a message carries it, with all that was put in.
    fn from(qos: QoS) -> QoSType {
        qos.inner
    }
}

/// A quality of service in the making. Contracts see it as far as it is made.
#[derive(Clone, Copy, Debug, PartialEq, Eq)]
pub struct QoSBuilder {
    inner: QoSType,
}

impl Model for QoSBuilder {
    ghost use Rattle.zs_wire.specs.declared.quality.QoSType.{QoSType};

    ghost Value = { QoSType };

    ghost view = { λ q. q.inner };

    ghost inverse = { λ q. record { inner = q } };
}

impl QoSBuilder {
    /// With this priority.
    pub fn priority(self, priority: Priority) -> QoSBuilder
        ensures { result ≡ record self { priority = number_of priority } }
    {
        QoSBuilder {
            inner: QoSType {
                priority: priority.number(),
                congestion: self.inner.congestion,
                express: self.inner.express,
            },
        }
    }

    /// With this for a full queue to do.
    pub fn congestion_control(self, congestion_control: CongestionControl) -> QoSBuilder
        ensures { result ≡ record self { congestion = congestion_control } }
    {
        QoSBuilder {
            inner: QoSType {
                priority: self.inner.priority,
                congestion: congestion_control,
                express: self.inner.express,
            },
        }
    }

    /// Express or not.
    pub fn express(self, express: bool) -> QoSBuilder
        ensures { result ≡ record self { express = express } }
    {
        QoSBuilder {
            inner: QoSType {
                priority: self.inner.priority,
                congestion: self.inner.congestion,
                express,
            },
        }
    }
}

impl From<QoS> for QoSBuilder {
    ghost from_gives = { λ qos made. made ≡ qos };

    /// A builder that begins with this quality.
    fn from(qos: QoS) -> QoSBuilder {
        QoSBuilder { inner: qos.inner }
    }
}

impl From<QoSBuilder> for QoS {
    ghost from_gives = { λ builder made. made ≡ builder };

    /// The quality as far as it is made.
    fn from(builder: QoSBuilder) -> QoS {
        QoS {
            inner: builder.inner,
        }
    }
}
