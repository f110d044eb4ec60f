//! The options of queries and of what they are answered, each read off the front of a line's fields.

ghost use Rattle.std.specs.Prelude.{◌≡◌, Some, IfOk, codes};
ghost use Rattle.zs_parts.specs.Options.{priority_of, congestion_of, flag_of};
ghost use Rattle.zs_parts.specs.Parts.{wire_if, parameters, target, consolidation, timeout, value as given, reply_quality, responder, any_key, cancellation_token, interest, channel, handed_to, maybe_in, read};

use crate::channels::parse_channel;
use crate::numbers::parse_number;
use crate::options::{
    empty_text, parse_any_key, parse_congestion, parse_consolidation, parse_entity, parse_flag,
    parse_priority, parse_target, value_of,
};
use crate::parts::Fields;
use crate::symbols::{naming, parse_id, parse_wire};
use std::alloc::{AllocError, Global};
use zs_events::{Chan, ReplyQuality};
use zs_sample::{ConsolidationMode, QueryTarget, Text};
use zs_wire::{CongestionControl, EntityGlobalId, Value, WireExpr};

/// One that is absent, or whose value is out of form, is not taken.
impl<'a> Fields<'a> {
    /// The option `params`. Its absence is the empty text.
    #[tactic(auto, unfolding(crate::specs::Parts::read))]
    pub fn parameters(&mut self, alloc: Global) -> Result<Text, AllocError>
        ensures { IfOk result (λ value. read parameters self.old ≡ Some (value, self.new)) }
    {
        let Some(text) = self.named("params=") else {
            return Ok(empty_text());
        };
        let found = Text::of(alloc, text)?;
        self.skip();
        Ok(found)
    }

    /// The option `target`: whom a query reaches. Its absence is the best match.
    #[tactic(auto, unfolding(crate::specs::Parts::read))]
    pub fn target(&mut self) -> QueryTarget
        ensures { read target self.old ≡ Some (result, self.new) }
    {
        let Some(text) = self.named("target=") else {
            return QueryTarget::BestMatching;
        };
        let Some(found) = parse_target(text) else {
            return QueryTarget::BestMatching;
        };
        self.skip();
        found
    }

    /// The option `cons`: which replies of a query are kept. Its absence leaves that to the session.
    #[tactic(auto, unfolding(crate::specs::Parts::read))]
    pub fn consolidation(&mut self) -> ConsolidationMode
        ensures { read consolidation self.old ≡ Some (result, self.new) }
    {
        let Some(text) = self.named("cons=") else {
            return ConsolidationMode::Auto;
        };
        let Some(found) = parse_consolidation(text) else {
            return ConsolidationMode::Auto;
        };
        self.skip();
        found
    }

    /// The option `timeout`: how long a query waits, in milliseconds.
    #[tactic(auto, unfolding(crate::specs::Parts::read))]
    pub fn timeout(&mut self) -> Option<u64>
        ensures { read timeout self.old ≡ Some (result, self.new) }
    {
        let found = parse_number(u64::MAX, self.named("timeout=")?.as_bytes())?;
        self.skip();
        Some(found)
    }

    /// A value: its payload and its encoding, of which one alone is enough.
    #[tactic(auto, unfolding(crate::specs::Parts::read))]
    pub fn value(&mut self, alloc: Global) -> Result<Option<Value>, AllocError>
        ensures { IfOk result (λ value. read given self.old ≡ Some (value, self.new)) }
    {
        let payload = self.bytes(alloc, "payload=")?;
        let encoding = self.encoding_if(alloc)?;
        Ok(value_of(payload, encoding))
    }

    /// Quality of service of a reply: three options. What is absent is as in the query.
    #[tactic(auto, unfolding(crate::specs::Parts::read))]
    pub fn reply_quality(&mut self) -> ReplyQuality
        ensures { read reply_quality self.old ≡ Some (result, self.new) }
    {
        let priority = self.own_priority();
        let congestion = self.own_congestion();
        let express = self.own_express();
        ReplyQuality {
            priority,
            congestion,
            express,
        }
    }

    /// The option `prio` of a reply, from 1 to 7.
    fn own_priority(&mut self) -> Option<u8>
        ensures { maybe_in (codes "prio=") (priority_of 1) self.old ≡ (result, self.new) }
    {
        let found = parse_priority(1, self.named("prio=")?)?;
        self.skip();
        Some(found)
    }

    /// The option `cc` of a reply: what happens to it where a queue is full.
    fn own_congestion(&mut self) -> Option<CongestionControl>
        ensures { maybe_in (codes "cc=") congestion_of self.old ≡ (result, self.new) }
    {
        let found = parse_congestion(self.named("cc=")?)?;
        self.skip();
        Some(found)
    }

    /// The option `express` of a reply: whether it goes out at once, and isn't batched with others.
    fn own_express(&mut self) -> Option<bool>
        ensures { maybe_in (codes "express=") flag_of self.old ≡ (result, self.new) }
    {
        let found = parse_flag(self.named("express=")?)?;
        self.skip();
        Some(found)
    }

    /// Who replied.
    #[tactic(auto, unfolding(crate::specs::Parts::read))]
    pub fn responder(&mut self) -> Option<EntityGlobalId>
        ensures { read responder self.old ≡ Some (result, self.new) }
    {
        let found = parse_entity(self.named("by=")?)?;
        self.skip();
        Some(found)
    }

    /// A key that may be left out: a wire expression that names nothing is like none.
    #[tactic(auto, unfolding(crate::specs::Parts::read))]
    pub fn wire_if(&mut self, alloc: Global) -> Result<Option<WireExpr>, AllocError>
        ensures { IfOk result (λ value. read wire_if self.old ≡ Some (value, self.new)) }
    {
        let Some(field) = self.first() else {
            return Ok(None);
        };
        let Some(found) = parse_wire(alloc, field)? else {
            return Ok(None);
        };
        self.skip();
        Ok(naming(found))
    }

    /// The cancellation token by which a get can be cancelled.
    #[tactic(auto, unfolding(crate::specs::Parts::read))]
    pub fn cancellation_token(&mut self) -> Option<u32>
        ensures { read cancellation_token self.old ≡ Some (result, self.new) }
    {
        let found = parse_id(self.named("token=")?)?;
        self.skip();
        Some(found)
    }

    /// The interest that a message answers.
    #[tactic(auto, unfolding(crate::specs::Parts::read))]
    pub fn interest(&mut self) -> Option<u32>
        ensures { read interest self.old ≡ Some (result, self.new) }
    {
        let found = parse_id(self.named("interest=")?)?;
        self.skip();
        Some(found)
    }

    /// Where items go, in a field that may be left out.
    #[tactic(auto, unfolding(crate::specs::Parts::read))]
    pub fn channel(&mut self) -> Chan
        ensures { read channel self.old ≡ Some (result, self.new) }
    {
        let Some(field) = self.first() else {
            return Chan::Print;
        };
        let Some(found) = parse_channel(field) else {
            return Chan::Print;
        };
        self.skip();
        found
    }

    /// Where items go, as an option.
    #[tactic(auto, unfolding(crate::specs::Parts::read))]
    pub fn handed_to(&mut self) -> Chan
        ensures { read handed_to self.old ≡ Some (result, self.new) }
    {
        let Some(text) = self.named("to=") else {
            return Chan::Print;
        };
        let Some(found) = parse_channel(text) else {
            return Chan::Print;
        };
        self.skip();
        found
    }

    /// Whether replies are taken on any key.
    #[tactic(auto, unfolding(crate::specs::Parts::read))]
    pub fn any_key(&mut self) -> bool
        ensures { read any_key self.old ≡ Some (result, self.new) }
    {
        let Some(text) = self.named("accept=") else {
            return false;
        };
        let Some(found) = parse_any_key(text) else {
            return false;
        };
        self.skip();
        found
    }
}
