//! How publications are made, in plain numbers.

ghost use Rattle.std.specs.Prelude.{◌≡◌};
ghost use Rattle.zs_forms.specs.Quality.{destination_of, priority_of, congestion_of, qos_of, quality_of};

use zs_events::PublicationQuality;
use zs_sample::{CongestionControl, Locality, QoSType};

/// The quality of service of what an application sends.
#[repr(C)]
#[derive(Clone, Copy)]
pub struct QosForm {
    /// From 1 to 7, where the lowest goes first; 0 is 5.
    pub priority: u8,
    /// Whether the sender waits where a queue is full: else it is lost.
    pub blocks: bool,
    /// Whether it goes out at once, and isn't batched with others.
    pub express: bool,
}

/// How a publication is made. All of it zero is the usual way.
#[repr(C)]
#[derive(Clone, Copy)]
pub struct PublicationForm {
    /// Whose subscribers are handed it: 0 all, 1 those of this session, 2 those of the network.
    pub destination: u8,
    pub qos: QosForm,
    /// Whether it isn't sent again where it was lost on the way.
    pub best_effort: bool,
}

impl QosForm {
    /// The quality of service, if there is such a priority.
    pub(crate) fn read(&self) -> Option<QoSType>
        ensures { result ≡ qos_of self.now }
    {
        let priority = priority_in(self.priority)?;
        Some(QoSType {
            priority,
            congestion: congestion(self.blocks),
            express: self.express,
        })
    }
}

impl PublicationForm {
    /// Whose subscribers are handed it, if the number says it.
    pub(crate) fn destination(&self) -> Option<Locality>
        ensures { result ≡ destination_of self.now.destination }
    {
        locality(self.destination)
    }

    /// The quality of service, if there is such a priority.
    pub(crate) fn quality(&self) -> Option<PublicationQuality>
        ensures { result ≡ quality_of self.now }
    {
        let qos = self.qos.read()?;
        Some(PublicationQuality {
            qos,
            reliable: !self.best_effort,
        })
    }
}

/// The place of that number.
pub(crate) fn locality(number: u8) -> Option<Locality>
    ensures { result ≡ destination_of number }
{
    match number {
        0 => Some(Locality::Any),
        1 => Some(Locality::SessionLocal),
        2 => Some(Locality::Remote),
        _ => None,
    }
}

/// The priority of that number: 0 is 5, which is Zenoh's default, and above 7 there is none.
fn priority_in(number: u8) -> Option<u8>
    ensures { result ≡ priority_of number }
{
    match number {
        0 => Some(5),
        1..=7 => Some(number),
        _ => None,
    }
}

/// What happens where a queue is full.
pub fn congestion(blocks: bool) -> CongestionControl
    ensures { result ≡ congestion_of blocks }
{
    if blocks {
        CongestionControl::Block
    } else {
        CongestionControl::Drop
    }
}
