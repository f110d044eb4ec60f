//! The settings of publishers, and what is said with publications and replies beside their keys.
use zs_sample::{CongestionControl, Locality, QoSType, Text};
use zs_wire::Body;

/// The quality of service of a publication.
#[derive(Clone, Copy, Debug, PartialEq, Eq)]
pub struct PublicationQuality {
    pub qos: QoSType,
    /// Whether it is sent again where it was lost on the way.
    pub reliable: bool,
}

/// What a publisher says of all that it publishes.
#[derive(Debug)]
pub struct PublisherSettings {
    /// Whose subscribers are handed it.
    pub destination: Locality,
    /// Of its puts that name none. The empty text is the default encoding.
    pub encoding: Text,
    pub quality: PublicationQuality,
}

impl Drop for PublisherSettings {
    /// Lets go of the encoding's text.
    fn drop(self) {
        let PublisherSettings {
            destination: _,
            encoding,
            quality: _,
        } = self;
        drop(encoding);
    }
}

/// The quality of service of a reply: what it doesn't say is as its query has it.
#[derive(Clone, Copy, Debug, PartialEq, Eq)]
pub struct ReplyQuality {
    pub priority: Option<u8>,
    pub congestion: Option<CongestionControl>,
    pub express: Option<bool>,
}

/// A publication but for its key: made here for a destination, or come in.
#[derive(Debug, Drop)]
pub struct Content {
    /// Whether it is made here.
    pub local: bool,
    pub destination: Locality,
    pub body: Body,
    pub qos: QoSType,
    pub reliable: bool,
}
