//! What the channels of a session hear of its turns.
ghost use Rattle.std.specs.Prelude.{◌≡◌, OnOk};
ghost use Rattle.zs_channels.specs.Channel.{with_item};
ghost use Rattle.zs_channels.specs.Table.{with_change, behind_all};
ghost use Rattle.zs_channels.specs.Heard.{opening, opening_of, news_of_item, news_of_effect, news_of_effects, news_of_turn};
ghost use Rattle.zs_events.specs.Kinds.{row_of};

use crate::channels::Channels;
use std::alloc::AllocError;
use zs_events::{Answer, Chan, Effect, Event, HandOver, Kind, Turn};

impl Channels<HandOver> {
    /// Hears what came of an event: the channel that it names is opened under the number that it was answered, what is
    /// handed over goes into channels, and they end where those end whose they are. What goes into a channel shares its
    /// memory with what was handed over.
    ///
    /// # Errors
    ///
    /// Want of memory alone. Then a part of the turn was heard.
    pub fn hear_turn(&mut self, event: &Event, turn: &Turn) -> Result<(), AllocError>
        ensures { OnOk result (self.new ≡ behind_all (news_of_turn event.now turn.now) self.old) }
    {
        self.hear_declared(event, turn.answer)?;
        self.hear_effects(turn.effects.as_slice())
    }

    /// Hears the event itself: what draws a number with a handler may open a channel, any other opens none.
    fn hear_declared(&mut self, event: &Event, answer: Answer) -> Result<(), AllocError>
        ensures { OnOk result (self.new ≡ behind_all (opening (row_of event.now).handled (row_of event.now).channel answer) self.old) }
    {
        match event.handled() {
            Some(kind) => self.hear_opening(kind, event.channel(), answer),
            None => Ok(()),
        }
    }

    /// Opens the channel under the number that was answered. A refused event opens none.
    fn hear_opening(&mut self, kind: Kind, to: Chan, answer: Answer) -> Result<(), AllocError>
        ensures { OnOk result (self.new ≡ behind_all (opening_of kind to answer) self.old) }
    {
        match answer {
            Answer::Ok(Some(number)) => self.open(kind, number, to),
            Answer::Ok(None) => Ok(()),
            Answer::Refused(_) => Ok(()),
        }
    }

    /// Hears effects in their order. At an `Err` those in front were heard.
    fn hear_effects(&mut self, effects: &[Effect]) -> Result<(), AllocError>
        ensures { OnOk result (self.new ≡ behind_all (news_of_effects effects.now) self.old) }
    {
        for effect in effects {
            self.hear_effect(effect)?;
        }
        Ok(())
    }

    /// Hears an effect: what is handed over and what ends reaches channels, messages and matching don't.
    fn hear_effect(&mut self, effect: &Effect) -> Result<(), AllocError>
        ensures { OnOk result (self.new ≡ behind_all (news_of_effect effect.now) self.old) }
    {
        match effect {
            Effect::Send(_) => Ok(()),
            Effect::Hand(item) => self.hear_item(item),
            Effect::End { kind, id } => {
                self.end(*kind, *id);
                Ok(())
            }
            Effect::Matching { .. } => Ok(()),
        }
    }

    /// Keeps a sample or a reply for the channel of whom it is handed to. Queries go into no channel.
    fn hear_item(&mut self, item: &HandOver) -> Result<(), AllocError>
        ensures { OnOk result (self.new ≡ behind_all (news_of_item item.now) self.old) }
    {
        match item {
            HandOver::Sample { kind, id, .. } => self.keep(*kind, *id, item),
            HandOver::Reply { kind, id, .. } => self.keep(*kind, *id, item),
            HandOver::Query { .. } => Ok(()),
        }
    }

    /// Puts a copy of an item into a channel, if there is one.
    fn keep(&mut self, kind: Kind, id: u32, item: &HandOver) -> Result<(), AllocError>
        ensures { OnOk result (self.new ≡ with_change kind id (with_item item.now) self.old) }
    {
        if !self.has(kind, id) {
            return Ok(());
        }
        let copy = item.try_clone()?;
        self.hand(kind, id, copy)
    }
}
