//! A message in plain numbers, and its texts and bytes.

use zs_forms::{EntityForm, SourceForm, TimestampForm};

/// The numbers of a message, or of what is handed to an application. What a kind of message doesn't have is 0.
#[repr(C)]
#[derive(Clone, Copy, Debug, PartialEq, Eq)]
pub struct MessageForm {
    /// Which message it is: 1 a key is declared, 2 undeclared; 3 a subscriber is declared, 4 undeclared; 5 a queryable is
    /// declared, 6 undeclared; 7 a liveliness token is declared, 8 undeclared; 9 all that was asked for is declared; 10 an
    /// interest; 11 a publication; 12 a query; 13 a response to a query, 14 the end of its responses; 15 the session's end.
    /// 0 what is handed over.
    pub kind: u8,
    /// The number that stands for a declared key.
    pub key_number: u16,
    /// The number of what is declared, of an interest, or of a query.
    pub id: u32,
    /// Whether it names a key, where it needn't.
    pub has_key: bool,
    /// The declared number that the key begins with, or 0.
    pub scope: u16,
    /// Whether the receiver declared that number: else the sender did.
    pub by_receiver: bool,
    /// Whether a queryable is complete.
    pub complete: bool,
    /// Whether the next is the number of an interest.
    pub has_interest: bool,
    pub interest: u32,
    /// Which declarations an interest asks for: 0 those that stand, 1 those to come, 2 both, 3 none any more.
    pub mode: u8,
    /// What they are of: 0 subscribers, 1 queryables, 2 tokens, 3 nothing is named.
    pub what: u8,
    /// Whether a publication or reply deletes: else it puts.
    pub deletes: bool,
    /// Whether a response is an error.
    pub is_error: bool,
    /// Whether a query has a payload.
    pub has_value: bool,
    pub has_attachment: bool,
    /// From 0 to 7, where the lowest goes first.
    pub priority: u8,
    /// Whether the sender waits where a queue is full: else it is lost.
    pub blocks: bool,
    pub express: bool,
    /// Whether it may not be lost on the way.
    pub reliable: bool,
    /// Which queryables a query is for: 0 the best matching ones, 1 all, 2 all that are complete.
    pub target: u8,
    /// Which replies its asker takes: 0 as suits the query, 1 all, 2 none that is older, 3 the newest alone.
    pub consolidation: u8,
    /// After how many milliseconds its asker stops to wait.
    pub timeout: u64,
    pub timestamp: TimestampForm,
    pub source: SourceForm,
    /// The queryable that replies.
    pub responder: EntityForm,
}

/// The texts and bytes of a message. What a kind of message doesn't have is not read.
#[repr(C)]
#[derive(Clone, Copy)]
pub struct PartsForm<'a> {
    /// The key, or what stands behind its declared number, a UTF-8 text.
    pub key: &'a [u8],
    pub payload: &'a [u8],
    /// What the payload is, a UTF-8 text.
    pub encoding: &'a [u8],
    /// The parameters of a query, a UTF-8 text.
    pub parameters: &'a [u8],
    pub attachment: &'a [u8],
}

/// How many bytes the texts and bytes of something have.
#[repr(C)]
#[derive(Clone, Copy, Debug, PartialEq, Eq)]
pub struct Lengths {
    pub key: usize,
    pub payload: usize,
    pub encoding: usize,
    pub parameters: usize,
    pub attachment: usize,
}

/// What an event brought about, in plain numbers.
#[repr(C)]
#[derive(Clone, Copy, Debug, PartialEq, Eq)]
pub struct EffectForm {
    /// 1 a message goes to the network; 2 a sample, 3 a reply, 4 a query is handed over; 5 a handler is called no more; 6 a
    /// listener is told.
    pub kind: u8,
    /// Of what sort it is, whose number is told: 1 a subscriber, 2 a liveliness subscriber, 3 a publisher, 4 a queryable, 5 a
    /// querier, 6 a token, 7 a listener, 8 a get, 9 a liveliness get; 0 where a message goes to the network.
    pub entity: u8,
    /// Its number.
    pub id: u32,
    /// The number under which a query is answered and given back.
    pub query: u32,
    /// Whether anyone matches now, where a listener is told.
    pub matching: bool,
    /// The message, or what is handed over.
    pub message: MessageForm,
    /// How many bytes its texts and bytes have.
    pub lengths: Lengths,
}
