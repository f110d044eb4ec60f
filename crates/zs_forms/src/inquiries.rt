//! What a get asks, and the gets.

ghost use Rattle.std.specs.Prelude.{◌≡◌, IfOk};
ghost use Rattle.zs_forms.specs.Questions.{told_of, inquiry_of, get_of, querier_of, querier_get_of, liveliness_get_of};

use crate::keys::KeyForm;
use crate::questions::{AskForm, InquiryForm, LivelinessForm, timeout, token, value};
use crate::texts::text_in;
use crate::updates::attachment_in;
use std::alloc::{AllocError, Global};
use zs_events::{Chan, Event, Inquiry, Shared};
use zs_wire::Value;

/// What is told beside the parameters, nothing where there is no value. There is no answer where the encoding is no UTF-8.
pub fn told(
    alloc: Global,
    has_value: bool,
    payload: &[u8],
    encoding: &[u8],
) -> Result<Option<Option<Value>>, AllocError>
    ensures { IfOk result (λ found. found ≡ told_of has_value payload.now encoding.now) }
{
    if !has_value {
        return Ok(Some(None));
    }
    let Some(value) = value(alloc, payload, encoding)? else {
        return Ok(None);
    };
    Ok(Some(Some(value)))
}

impl<'a> InquiryForm<'a> {
    /// What it asks, if its texts are UTF-8.
    fn read(&self, alloc: Global) -> Result<Option<Inquiry>, AllocError>
        ensures { IfOk result (λ found. found ≡ inquiry_of self.now) }
    {
        let Some(parameters) = text_in(alloc, self.parameters)? else {
            return Ok(None);
        };
        let Some(value) = told(alloc, self.has_value, self.payload, self.encoding)? else {
            return Ok(None);
        };
        let attachment = attachment_in(alloc, self.has_attachment, self.attachment)?;
        Ok(Some(Inquiry {
            parameters,
            value,
            source: self.source.read(),
            attachment,
            cancellation_token: token(self.has_token, self.token),
        }))
    }
}

/// A get on a key. There is none where a number of `how` says nothing, or a text is no UTF-8.
pub fn get(
    alloc: Global,
    key: &KeyForm<'_>,
    how: &AskForm,
    what: &InquiryForm<'_>,
) -> Result<Option<Event>, AllocError>
    ensures { IfOk result (λ found. found ≡ get_of key.now how.now what.now) }
{
    let Some(settings) = how.read() else {
        return Ok(None);
    };
    let Some(key) = key.read(alloc)? else {
        return Ok(None);
    };
    let Some(inquiry) = what.read(alloc)? else {
        return Ok(None);
    };
    let inquiry = Shared::new(alloc, inquiry)?;
    Ok(Some(Event::Get {
        key,
        settings,
        inquiry,
        to: Chan::Print,
    }))
}

/// A querier.
pub fn declare_querier(
    alloc: Global,
    key: &KeyForm<'_>,
    how: &AskForm,
) -> Result<Option<Event>, AllocError>
    ensures { IfOk result (λ found. found ≡ querier_of key.now how.now) }
{
    let Some(settings) = how.read() else {
        return Ok(None);
    };
    let Some(key) = key.read(alloc)? else {
        return Ok(None);
    };
    Ok(Some(Event::Querier { key, settings }))
}

/// A get of a querier.
pub fn querier_get(
    alloc: Global,
    id: u32,
    what: &InquiryForm<'_>,
) -> Result<Option<Event>, AllocError>
    ensures { IfOk result (λ found. found ≡ querier_get_of id what.now) }
{
    let Some(inquiry) = what.read(alloc)? else {
        return Ok(None);
    };
    let inquiry = Shared::new(alloc, inquiry)?;
    Ok(Some(Event::QuerierGet {
        id,
        inquiry,
        to: Chan::Print,
    }))
}

/// A get of the liveliness tokens that are alive.
pub fn liveliness_get(
    alloc: Global,
    key: &KeyForm<'_>,
    how: &LivelinessForm,
) -> Result<Option<Event>, AllocError>
    ensures { IfOk result (λ found. found ≡ liveliness_get_of key.now how.now) }
{
    let Some(key) = key.read(alloc)? else {
        return Ok(None);
    };
    Ok(Some(Event::LivelinessGet {
        key,
        timeout: timeout(how.has_timeout, how.timeout),
        cancellation_token: token(how.has_token, how.token),
        to: Chan::Print,
    }))
}
