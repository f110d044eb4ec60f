//! The parts that the forms of lines are made of, each read off the front of a line's fields.

ghost use Rattle.std.specs.Prelude.{◌≡◌, [], IfOk, option_map};
ghost use Rattle.zs_parts.specs.Symbols.{u16_max, u32_max, u64_max};
ghost use Rattle.zs_parts.specs.Parts.{first_of, behind, named_in, body_in, unnamed, number, locality, background_kind, parent, complete, history, key, selector, wire, payload, push_body, own_body, channel_kind, read, form};

use crate::channels::parse_channel_kind;
use crate::numbers::parse_number;
use crate::options::other_encoding;
use crate::symbols::{
    after_prefix, parse_background_kind, parse_complete, parse_history, parse_id, parse_key,
    parse_key_number, parse_locality, parse_parent, parse_payload, parse_selector, parse_wire,
};
use std::alloc::{AllocError, Global};
use std::marker::Model;
use zs_events::{BackgroundKind, KeyArg, Kind, ParentKind, PushBody};
use zs_sample::{Locality, SampleKind, Text, ZBytes};
use zs_wire::WireExpr;

/// The fields of a line that are left: each call takes what it reads off their front. Contracts see their texts.
#[derive(Drop)]
pub struct Fields<'a> {
    rest: &'a [&'a str],
}

impl<'a> Model for Fields<'a> {
    ghost use Rattle.std.specs.Prelude.{ℕ, List};
    ghost use Rattle.zs_parts.specs.Fields.{texts};

    ghost Value = { List (List ℕ) };

    ghost view = { λ f. texts f.rest.now };
}

impl<'a> Fields<'a> {
    ghost use Rattle.zs_parts.specs.Fields.{texts};

    /// The fields of a line, or those of them that are to be read.
    pub fn of(rest: &'a [&'a str]) -> Fields<'a>
        ensures { result ≡ texts rest.now }
    {
        Fields { rest }
    }

    /// The first field, which is there no more.
    pub fn next(&mut self) -> Option<&'a str>
        ensures first { option_map (λ field. field.now) result ≡ first_of self.old }
        ensures rest { self.new ≡ behind self.old }
    {
        let [first, rest @ ..] = self.rest else {
            return None;
        };
        self.rest = rest;
        Some(*first)
    }

    /// The first field, which stays.
    pub(crate) fn first(&self) -> Option<&'a str>
        ensures { option_map (λ field. field.now) result ≡ first_of self.now }
    {
        let [first, ..] = self.rest else {
            return None;
        };
        Some(*first)
    }

    /// What stands behind this name in the first field, if it begins with it.
    pub(crate) fn named(&self, name: &str) -> Option<&'a str>
        ensures { option_map (λ value. value.now) result ≡ named_in name.now self.now }
    {
        let [first, ..] = self.rest else {
            return None;
        };
        after_prefix(first, name)
    }

    /// The first field is there no more.
    pub(crate) fn skip(&mut self)
        ensures { self.new ≡ behind self.old }
    {
        let _skipped = self.next();
    }

    /// What was made, if no field is left over.
    #[tactic(auto, unfolding(crate::specs::Parts::form))]
    pub fn finish<T: Drop>(&self, made: T) -> Option<T>
        ensures { result ≡ form [] made self.now }
    {
        if let [] = self.rest {
            return Some(made);
        }
        drop(made);
        None
    }
}

/// Fields that have to be there. `None` says that the first field is missing or out of form, and so that the line says
/// nothing; which fields are left then is of no use.
impl<'a> Fields<'a> {
    /// An entity's number, below 2 ^ 32.
    #[tactic(auto, unfolding(crate::specs::Parts::read))]
    pub fn id(&mut self) -> Option<u32>
        ensures { read (number u32_max) self.old ≡ option_map (λ value. (value, self.new)) result }
    {
        let field = self.next()?;
        parse_id(field)
    }

    /// The number of a declared key, below 2 ^ 16.
    #[tactic(auto, unfolding(crate::specs::Parts::read))]
    pub fn key_number(&mut self) -> Option<u16>
        ensures { read (number u16_max) self.old ≡ option_map (λ value. (value, self.new)) result }
    {
        let field = self.next()?;
        parse_key_number(field)
    }

    /// A time, in milliseconds, below 2 ^ 64.
    #[tactic(auto, unfolding(crate::specs::Parts::read))]
    pub fn moment(&mut self) -> Option<u64>
        ensures { read (number u64_max) self.old ≡ option_map (λ value. (value, self.new)) result }
    {
        let field = self.next()?;
        parse_number(u64::MAX, field.as_bytes())
    }

    /// Where a subscriber hears from, or a publication goes: `any`, `local` or `remote`.
    #[tactic(auto, unfolding(crate::specs::Parts::read))]
    pub fn locality(&mut self) -> Option<Locality>
        ensures { read locality self.old ≡ option_map (λ value. (value, self.new)) result }
    {
        let field = self.next()?;
        parse_locality(field)
    }

    /// What is to be left to itself: `sub`, `queryable`, `listener` or `lsub`.
    #[tactic(auto, unfolding(crate::specs::Parts::read))]
    pub fn background_kind(&mut self) -> Option<BackgroundKind>
        ensures { read background_kind self.old ≡ option_map (λ value. (value, self.new)) result }
    {
        let field = self.next()?;
        parse_background_kind(field)
    }

    /// Whose matching is asked for.
    #[tactic(auto, unfolding(crate::specs::Parts::read))]
    pub fn parent(&mut self) -> Option<ParentKind>
        ensures { read parent self.old ≡ option_map (λ value. (value, self.new)) result }
    {
        let field = self.next()?;
        parse_parent(field)
    }

    /// Whether a liveliness subscriber is told of what lives already.
    #[tactic(auto, unfolding(crate::specs::Parts::read))]
    pub fn history(&mut self) -> Option<bool>
        ensures { read history self.old ≡ option_map (λ value. (value, self.new)) result }
    {
        let field = self.next()?;
        parse_history(field)
    }

    /// What has a channel.
    #[tactic(auto, unfolding(crate::specs::Parts::read))]
    pub fn channel_kind(&mut self) -> Option<Kind>
        ensures { read channel_kind self.old ≡ option_map (λ value. (value, self.new)) result }
    {
        let field = self.next()?;
        parse_channel_kind(field)
    }

    /// Whether a queryable has all that is there.
    #[tactic(auto, unfolding(crate::specs::Parts::read))]
    pub fn complete(&mut self) -> Option<bool>
        ensures { read complete self.old ≡ option_map (λ value. (value, self.new)) result }
    {
        let field = self.next()?;
        parse_complete(field)
    }

    /// A key: `#` and a declared number, with a suffix behind a colon, or else a text. The text need not be canonical.
    #[tactic(auto, unfolding(crate::specs::Parts::read))]
    pub fn key(&mut self, alloc: Global) -> Result<Option<KeyArg>, AllocError>
        ensures { IfOk result (λ found. read key self.old ≡ option_map (λ value. (value, self.new)) found) }
    {
        let Some(field) = self.next() else {
            return Ok(None);
        };
        Ok(Some(parse_key(alloc, field)?))
    }

    /// A key and the parameters behind it.
    #[tactic(auto, unfolding(crate::specs::Parts::read))]
    pub fn selector(&mut self, alloc: Global) -> Result<Option<(KeyArg, Text)>, AllocError>
        ensures { IfOk result (λ found. read selector self.old ≡ option_map (λ value. (value, self.new)) found) }
    {
        let Some(field) = self.next() else {
            return Ok(None);
        };
        Ok(Some(parse_selector(alloc, field)?))
    }

    /// A wire expression: `s` or `r`, the number of a declared key, a colon, and a suffix.
    #[tactic(auto, unfolding(crate::specs::Parts::read))]
    pub fn wire(&mut self, alloc: Global) -> Result<Option<WireExpr>, AllocError>
        ensures { IfOk result (λ found. read wire self.old ≡ option_map (λ value. (value, self.new)) found) }
    {
        let Some(field) = self.next() else {
            return Ok(None);
        };
        parse_wire(alloc, field)
    }

    /// Bytes: `x` and two hexadecimal digits for each.
    #[tactic(auto, unfolding(crate::specs::Parts::read))]
    pub fn payload(&mut self, alloc: Global) -> Result<Option<ZBytes>, AllocError>
        ensures { IfOk result (λ found. read payload self.old ≡ option_map (λ value. (value, self.new)) found) }
    {
        let Some(field) = self.next() else {
            return Ok(None);
        };
        parse_payload(alloc, field)
    }

    /// What is put, or nothing to read where a value is deleted.
    #[tactic(auto, unfolding(crate::specs::Parts::read))]
    pub fn push_body(
        &mut self,
        alloc: Global,
        kind: SampleKind,
    ) -> Result<Option<PushBody>, AllocError>
        ensures { IfOk result (λ found. read (push_body kind) self.old ≡ option_map (λ value. (value, self.new)) found) }
    {
        match kind {
            SampleKind::Put => self.put_body(alloc),
            SampleKind::Delete => Ok(Some(PushBody::Delete)),
        }
    }

    /// A payload, and the encoding that it names.
    #[tactic(auto, unfolding(crate::specs::Parts::read))]
    fn put_body(&mut self, alloc: Global) -> Result<Option<PushBody>, AllocError>
        ensures { IfOk result (λ found. body_in SampleKind.Put self.old ≡ option_map (λ value. (value, self.new)) found) }
    {
        let Some(payload) = self.payload(alloc)? else {
            return Ok(None);
        };
        let encoding = self.encoding_if(alloc)?;
        Ok(Some(PushBody::Put { payload, encoding }))
    }

    /// What is put, or nothing to read where a value is deleted. To name the default encoding is to name none.
    #[tactic(auto, unfolding(crate::specs::Parts::read))]
    pub fn own_body(
        &mut self,
        alloc: Global,
        kind: SampleKind,
    ) -> Result<Option<PushBody>, AllocError>
        ensures { IfOk result (λ found. read (own_body kind) self.old ≡ option_map (λ value. (value, self.new)) found) }
    {
        let Some(body) = self.push_body(alloc, kind)? else {
            return Ok(None);
        };
        Ok(Some(unnamed(body)))
    }
}

// What is put, where the default encoding is as good as none.
fn unnamed(body: PushBody) -> PushBody
    ensures { result ≡ unnamed body }
{
    match body {
        PushBody::Put { payload, encoding } => PushBody::Put {
            payload,
            encoding: other_encoding(encoding),
        },
        PushBody::Delete => PushBody::Delete,
    }
}
