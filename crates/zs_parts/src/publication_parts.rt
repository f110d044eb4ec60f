//! The options of publications and of what is sent along, each read off the front of a line's fields.

ghost use Rattle.std.specs.Prelude.{◌≡◌, Some, IfOk, codes};
ghost use Rattle.zs_parts.specs.Options.{encoding_text_of, priority_of, congestion_of, flag_of};
ghost use Rattle.zs_parts.specs.Symbols.{payload_of};
ghost use Rattle.zs_parts.specs.Parts.{option_in, maybe_in, named_encoding_in, encoding, timestamp, qos, reliable, quality, source, attachment, read};

use crate::options::{
    parse_congestion, parse_encoding, parse_flag, parse_priority, parse_source, parse_timestamp,
};
use crate::parts::Fields;
use crate::symbols::parse_payload;
use std::alloc::{AllocError, Global};
use zs_events::{PublicationQuality, default_encoding};
use zs_sample::{Text, ZBytes};
use zs_wire::{CongestionControl, QoSType, SourceInfo, Timestamp};

/// Options: one that is absent, or whose value is out of form, is not taken.
impl<'a> Fields<'a> {
    /// The option `enc`: an encoding. Its absence and the empty text are the default one.
    #[tactic(auto, unfolding(crate::specs::Parts::read))]
    pub fn encoding(&mut self, alloc: Global) -> Result<Text, AllocError>
        ensures { IfOk result (λ value. read encoding self.old ≡ Some (value, self.new)) }
    {
        let Some(text) = self.named("enc=") else {
            return Ok(default_encoding());
        };
        let found = parse_encoding(alloc, text)?;
        self.skip();
        Ok(found)
    }

    /// An encoding, if one is named.
    pub(crate) fn encoding_if(&mut self, alloc: Global) -> Result<Option<Text>, AllocError>
        ensures { IfOk result (λ value. named_encoding_in self.old ≡ (value, self.new)) }
    {
        let Some(text) = self.named("enc=") else {
            return Ok(None);
        };
        let found = parse_encoding(alloc, text)?;
        self.skip();
        Ok(Some(found))
    }

    /// The option `ts`: a time, and who took it.
    #[tactic(auto, unfolding(crate::specs::Parts::read))]
    pub fn timestamp(&mut self) -> Option<Timestamp>
        ensures { read timestamp self.old ≡ Some (result, self.new) }
    {
        let found = parse_timestamp(self.named("ts=")?)?;
        self.skip();
        Some(found)
    }

    /// Quality of service: three options. The priority is `least` at least.
    #[tactic(auto, unfolding(crate::specs::Parts::read))]
    pub fn qos(&mut self, least: u8, absent: CongestionControl) -> QoSType
        ensures { read (qos least absent) self.old ≡ Some (result, self.new) }
    {
        QoSType {
            priority: self.priority(least),
            congestion: self.congestion(absent),
            express: self.flag("express=", false),
        }
    }

    /// The option `prio`, a priority that is `least` at least. Its absence is 5, data.
    fn priority(&mut self, least: u8) -> u8
        ensures { option_in (codes "prio=") (priority_of least) 5 self.old ≡ (result, self.new) }
    {
        let Some(text) = self.named("prio=") else {
            return 5;
        };
        let Some(found) = parse_priority(least, text) else {
            return 5;
        };
        self.skip();
        found
    }

    /// The option `cc`: what to do where a link is congested.
    fn congestion(&mut self, absent: CongestionControl) -> CongestionControl
        ensures { option_in (codes "cc=") congestion_of absent self.old ≡ (result, self.new) }
    {
        let Some(text) = self.named("cc=") else {
            return absent;
        };
        let Some(found) = parse_congestion(text) else {
            return absent;
        };
        self.skip();
        found
    }

    /// An option of this name that is `0` or `1`.
    fn flag(&mut self, name: &str, absent: bool) -> bool
        ensures { option_in name.now flag_of absent self.old ≡ (result, self.new) }
    {
        let Some(text) = self.named(name) else {
            return absent;
        };
        let Some(found) = parse_flag(text) else {
            return absent;
        };
        self.skip();
        found
    }

    /// The option `rel`. Without it a message may not be lost.
    #[tactic(auto, unfolding(crate::specs::Parts::read))]
    pub fn reliable(&mut self) -> bool
        ensures { read reliable self.old ≡ Some (result, self.new) }
    {
        self.flag("rel=", true)
    }

    /// Quality of service of a publication: four options.
    #[tactic(auto, unfolding(crate::specs::Parts::read))]
    pub fn quality(&mut self) -> PublicationQuality
        ensures { read quality self.old ≡ Some (result, self.new) }
    {
        let qos = self.qos(1, CongestionControl::Drop);
        let reliable = self.reliable();
        PublicationQuality { qos, reliable }
    }

    /// The option `src`: where data comes from.
    #[tactic(auto, unfolding(crate::specs::Parts::read))]
    pub fn source(&mut self) -> Option<SourceInfo>
        ensures { read source self.old ≡ Some (result, self.new) }
    {
        let found = parse_source(self.named("src=")?)?;
        self.skip();
        Some(found)
    }

    /// The option `att`: bytes that are sent along.
    #[tactic(auto, unfolding(crate::specs::Parts::read))]
    pub fn attachment(&mut self, alloc: Global) -> Result<Option<ZBytes>, AllocError>
        ensures { IfOk result (λ value. read attachment self.old ≡ Some (value, self.new)) }
    {
        self.bytes(alloc, "att=")
    }

    /// An option of this name that is bytes.
    pub(crate) fn bytes(&mut self, alloc: Global, name: &str) -> Result<Option<ZBytes>, AllocError>
        ensures { IfOk result (λ value. maybe_in name.now payload_of self.old ≡ (value, self.new)) }
    {
        let Some(text) = self.named(name) else {
            return Ok(None);
        };
        let Some(found) = parse_payload(alloc, text)? else {
            return Ok(None);
        };
        self.skip();
        Ok(Some(found))
    }
}
