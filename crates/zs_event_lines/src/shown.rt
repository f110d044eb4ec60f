//! The parts of a line, each with the value that is printed.

use zs_events::{
    BackgroundKind, Chan, KeyArg, ParentKind, PublicationQuality, PushBody, ReplyQuality,
};
use zs_sample::{
    CongestionControl, ConsolidationMode, EntityGlobalId, Locality, QoSType, QueryTarget,
    SourceInfo, Text, Timestamp, ZBytes,
};
use zs_wire::{Body, Value, WireExpr};

/// A part with its value, or a word.
#[derive(Clone, Copy)]
pub(crate) enum Shown<'a> {
    Said(&'a str),
    /// An entity's number.
    Number(u32),
    /// A declared key's.
    KeyNumber(u16),
    /// In milliseconds.
    Moment(u64),
    Locality(Locality),
    Background(BackgroundKind),
    Parent(ParentKind),
    Complete(bool),
    History(bool),
    Key(&'a KeyArg),
    /// A key and parameters.
    Selector(&'a KeyArg, &'a Text),
    Wire(&'a WireExpr),
    WireIf(&'a Option<WireExpr>),
    Payload(&'a ZBytes),
    /// What an application puts or deletes.
    Update(&'a PushBody),
    /// The same where nobody else names an encoding.
    OwnUpdate(&'a PushBody),
    /// What a message says to be put or deleted.
    Body(&'a Body),
    Parameters(&'a Text),
    Target(QueryTarget),
    Consolidation(ConsolidationMode),
    Timeout(Option<u64>),
    Value(&'a Option<Value>),
    Encoding(&'a Text),
    Timestamp(Option<Timestamp>),
    /// The least priority that lines say, the congestion control where none is named, and the value.
    QoS(u8, CongestionControl, QoSType),
    Reliable(bool),
    Quality(PublicationQuality),
    ReplyQuality(ReplyQuality),
    Source(Option<SourceInfo>),
    Attachment(&'a Option<ZBytes>),
    Responder(Option<EntityGlobalId>),
    AnyKey(bool),
    CancellationToken(Option<u32>),
    Interest(Option<u32>),
    Channel(Chan),
    HandedTo(Chan),
}
