//! The events by which an application answers.

ghost use Rattle.std.specs.Prelude.{◌≡◌, IfOk};
ghost use Rattle.std.specs.declared.option.Option.TheVariants.{Some};
ghost use Rattle.zs_forms.specs.Answers.{own_priority_of, own_congestion_of, own_flag_of, reply_quality_of, replied_of, reply_of, deletion_reply_of, error_reply_of};

use crate::keys::KeyForm;
use crate::questions::value;
use crate::updates::ExtrasForm;
use std::alloc::{AllocError, Global};
use zs_events::{Event, ReplyQuality, Shared, Update};
use zs_sample::CongestionControl;

/// The quality of service of a reply. What is 0 is as its query has it.
#[repr(C)]
#[derive(Clone, Copy)]
pub struct ReplyForm {
    /// From 1 to 7, where the lowest goes first.
    pub priority: u8,
    /// Where a queue is full: 1 it is lost, 2 the sender waits.
    pub congestion: u8,
    /// 1 it can be batched with others, 2 it goes out at once.
    pub express: u8,
}

impl ReplyForm {
    /// The quality of service, if each number says one.
    pub(crate) fn read(&self) -> Option<ReplyQuality>
        ensures { result ≡ reply_quality_of self.now }
    {
        let priority = own_priority(self.priority)?;
        let congestion = own_congestion(self.congestion)?;
        let express = own_flag(self.express)?;
        Some(ReplyQuality {
            priority,
            congestion,
            express,
        })
    }
}

/// The priority of a reply, if it has its own: 0 is its query's. A number above 7 says nothing.
fn own_priority(number: u8) -> Option<Option<u8>>
    ensures { result ≡ own_priority_of number }
{
    match number {
        0 => Some(None),
        1..=7 => Some(Some(number)),
        _ => None,
    }
}

/// What happens to a reply where a queue is full, if that is its own: 0 is as with its query, 1 it is lost, 2 the
/// sender waits. A number above 2 says nothing.
fn own_congestion(number: u8) -> Option<Option<CongestionControl>>
    ensures { result ≡ own_congestion_of number }
{
    match number {
        0 => Some(None),
        1 => Some(Some(CongestionControl::Drop)),
        2 => Some(Some(CongestionControl::Block)),
        _ => None,
    }
}

/// A flag of a reply, if it has its own: 0 is its query's, 1 is false, 2 is true. A number above 2 says nothing.
fn own_flag(number: u8) -> Option<Option<bool>>
    ensures { result ≡ own_flag_of number }
{
    match number {
        0 => Some(None),
        1 => Some(Some(false)),
        2 => Some(Some(true)),
        _ => None,
    }
}

/// An answer of these bytes on a key to the query of that number. There is none where a number of `how` says nothing, or a text is
/// no UTF-8.
pub fn reply(
    alloc: Global,
    query: u32,
    key: &KeyForm<'_>,
    payload: &[u8],
    how: &ReplyForm,
    extras: &ExtrasForm<'_>,
) -> Result<Option<Event>, AllocError>
    ensures { IfOk result (λ found. found ≡ reply_of query key.now payload.now how.now extras.now) }
{
    let Some(update) = extras.put(alloc, payload)? else {
        return Ok(None);
    };
    replied(alloc, query, key, how, update)
}

/// An answer that a key has no value any more.
pub fn reply_delete(
    alloc: Global,
    query: u32,
    key: &KeyForm<'_>,
    how: &ReplyForm,
    extras: &ExtrasForm<'_>,
) -> Result<Option<Event>, AllocError>
    ensures { IfOk result (λ found. found ≡ deletion_reply_of query key.now how.now extras.now) }
{
    let update = extras.delete(alloc)?;
    replied(alloc, query, key, how, update)
}

/// The answer that says an update of a key. There is none where a number of `how` says nothing, or the key is no UTF-8.
fn replied(
    alloc: Global,
    query: u32,
    key: &KeyForm<'_>,
    how: &ReplyForm,
    update: Update,
) -> Result<Option<Event>, AllocError>
    ensures { IfOk result (λ found. found ≡ replied_of query key.now how.now (Some update)) }
{
    let Some(quality) = how.read() else {
        drop(update);
        return Ok(None);
    };
    let Some(key) = key.read(alloc)? else {
        drop(update);
        return Ok(None);
    };
    let update = Shared::new(alloc, update)?;
    Ok(Some(Event::Reply {
        value: query,
        key,
        update,
        quality,
    }))
}

/// An error in answer to the query of that number. Without a byte its encoding is the default one.
pub fn reply_error(
    alloc: Global,
    query: u32,
    payload: &[u8],
    encoding: &[u8],
) -> Result<Option<Event>, AllocError>
    ensures { IfOk result (λ found. found ≡ error_reply_of query payload.now encoding.now) }
{
    let Some(error) = value(alloc, payload, encoding)? else {
        return Ok(None);
    };
    let error = Shared::new(alloc, error)?;
    Ok(Some(Event::ReplyErr {
        value: query,
        error,
    }))
}
