//! The numbers of messages.

ghost use Rattle.std.specs.Prelude.{◌≡◌};
ghost use Rattle.zs_message_forms.specs.Numbers.{no_form, is_receiver, is_block, is_delete, mode_number, what_number, target_number, consolidation_number, numbered, keyed, named, of_interest, of_quality, of_body, push_form, request_form, answered_form, response_form, message_form};

use crate::forms::MessageForm;
use zs_forms::{entity_form, source_form, timestamp_form};
use zs_wire::{
    Answered, Body, CongestionControl, ConsolidationMode, InterestMode, InterestWhat, Mapping,
    Message, Push, QoSType, QueryTarget, Request, Response, SampleKind, WireExpr,
};

impl MessageForm {
    /// All of it 0.
    pub(crate) fn nothing() -> MessageForm
        ensures { result ≡ no_form }
    {
        MessageForm {
            kind: 0,
            key_number: 0,
            id: 0,
            has_key: false,
            scope: 0,
            by_receiver: false,
            complete: false,
            has_interest: false,
            interest: 0,
            mode: 0,
            what: 0,
            deletes: false,
            is_error: false,
            has_value: false,
            has_attachment: false,
            priority: 0,
            blocks: false,
            express: false,
            reliable: false,
            target: 0,
            consolidation: 0,
            timeout: 0,
            timestamp: timestamp_form(None),
            source: source_form(None),
            responder: entity_form(None),
        }
    }

    /// A kind with a number.
    fn numbered(kind: u8, id: u32) -> MessageForm
        ensures { result ≡ numbered kind id }
    {
        MessageForm {
            kind,
            id,
            ..MessageForm::nothing()
        }
    }

    /// The same with this key: the declared number that it begins with, and who declared that.
    fn keyed(self, wire: &WireExpr) -> MessageForm
        ensures { result ≡ keyed self wire.now }
    {
        MessageForm {
            scope: wire.scope,
            by_receiver: is_receiver(wire.mapping),
            ..self
        }
    }

    /// The same with a key that may be left out, and whether it is there.
    fn named(self, wire: &Option<WireExpr>) -> MessageForm
        ensures { result ≡ named self wire.now }
    {
        match wire {
            Some(wire) => MessageForm {
                has_key: true,
                ..self.keyed(wire)
            },
            None => self,
        }
    }

    /// The same with the interest that it answers, if it answers one.
    fn of_interest(self, interest: Option<u32>) -> MessageForm
        ensures { result ≡ of_interest self interest }
    {
        match interest {
            Some(number) => MessageForm {
                has_interest: true,
                interest: number,
                ..self
            },
            None => self,
        }
    }

    /// The same with this quality of service.
    fn of_quality(self, qos: QoSType) -> MessageForm
        ensures { result ≡ of_quality self qos }
    {
        MessageForm {
            priority: qos.priority,
            blocks: is_block(qos.congestion),
            express: qos.express,
            ..self
        }
    }

    /// The same with what is put or deleted, but for payload and encoding.
    fn of_body(self, body: &Body) -> MessageForm
        ensures { result ≡ of_body self body.now }
    {
        MessageForm {
            deletes: is_delete(body.kind),
            has_attachment: body.attachment.is_some(),
            timestamp: timestamp_form(body.timestamp),
            source: source_form(body.source),
            ..self
        }
    }
}

/// Whether the receiver declared the number that a key begins with.
fn is_receiver(mapping: Mapping) -> bool
    ensures { result ≡ is_receiver mapping }
{
    match mapping {
        Mapping::Sender => false,
        Mapping::Receiver => true,
    }
}

/// Whether the sender waits where a queue is full.
pub(crate) fn is_block(congestion: CongestionControl) -> bool
    ensures { result ≡ is_block congestion }
{
    match congestion {
        CongestionControl::Drop => false,
        CongestionControl::Block => true,
    }
}

/// Whether it deletes: else it puts.
pub(crate) fn is_delete(kind: SampleKind) -> bool
    ensures { result ≡ is_delete kind }
{
    match kind {
        SampleKind::Put => false,
        SampleKind::Delete => true,
    }
}

/// The number of which declarations an interest asks for.
fn mode_number(mode: InterestMode) -> u8
    ensures { result ≡ mode_number mode }
{
    match mode {
        InterestMode::Current => 0,
        InterestMode::Future => 1,
        InterestMode::CurrentFuture => 2,
        InterestMode::Final => 3,
    }
}

/// The number of what an interest asks for.
fn what_number(what: InterestWhat) -> u8
    ensures { result ≡ what_number what }
{
    match what {
        InterestWhat::Subscribers => 0,
        InterestWhat::Queryables => 1,
        InterestWhat::Tokens => 2,
        InterestWhat::Nothing => 3,
    }
}

/// The number of which queryables a query is for.
fn target_number(target: QueryTarget) -> u8
    ensures { result ≡ target_number target }
{
    match target {
        QueryTarget::BestMatching => 0,
        QueryTarget::All => 1,
        QueryTarget::AllComplete => 2,
    }
}

/// The number of which replies an asker takes.
fn consolidation_number(mode: ConsolidationMode) -> u8
    ensures { result ≡ consolidation_number mode }
{
    match mode {
        ConsolidationMode::Auto => 0,
        ConsolidationMode::None => 1,
        ConsolidationMode::Monotonic => 2,
        ConsolidationMode::Latest => 3,
    }
}

/// The numbers of a publication.
fn push_form(push: &Push) -> MessageForm
    ensures { result ≡ push_form push.now }
{
    let form = MessageForm::numbered(11, 0).keyed(&push.wire);
    MessageForm {
        reliable: push.reliable,
        ..form.of_quality(push.qos).of_body(&push.body)
    }
}

/// The numbers of a query.
fn request_form(request: &Request) -> MessageForm
    ensures { result ≡ request_form request.now }
{
    let form = MessageForm::numbered(12, request.rid).keyed(&request.wire);
    MessageForm {
        has_value: request.value.is_some(),
        has_attachment: request.attachment.is_some(),
        target: target_number(request.target),
        consolidation: consolidation_number(request.consolidation),
        timeout: request.timeout,
        source: source_form(request.source),
        ..form.of_quality(request.qos)
    }
}

/// The same with what a response brings: its data, or that it is an error.
fn answered_form(form: MessageForm, answered: &Answered) -> MessageForm
    ensures { result ≡ answered_form form answered.now }
{
    match answered {
        Answered::Reply(body) => form.of_body(body),
        Answered::Err(_) => MessageForm {
            is_error: true,
            ..form
        },
    }
}

/// The numbers of a response, and who replied.
fn response_form(response: &Response) -> MessageForm
    ensures { result ≡ response_form response.now }
{
    let form = MessageForm::numbered(13, response.rid).keyed(&response.wire);
    let form = answered_form(form.of_quality(response.qos), &response.answered);
    MessageForm {
        responder: entity_form(response.responder),
        ..form
    }
}

/// The numbers of a message.
#[tactic(auto, unfolding(crate::specs::Numbers::message_form))]
pub fn message_form(message: &Message) -> MessageForm
    ensures { result ≡ message_form message.now }
{
    match message {
        Message::DeclareKeyExpr { number, wire } => MessageForm {
            key_number: *number,
            ..MessageForm::numbered(1, 0).keyed(wire)
        },
        Message::UndeclareKeyExpr { number } => MessageForm {
            key_number: *number,
            ..MessageForm::numbered(2, 0)
        },
        Message::DeclareSubscriber { id, wire } => MessageForm::numbered(3, *id).keyed(wire),
        Message::UndeclareSubscriber { id } => MessageForm::numbered(4, *id),
        Message::DeclareQueryable { id, complete, wire } => MessageForm {
            complete: *complete,
            ..MessageForm::numbered(5, *id).keyed(wire)
        },
        Message::UndeclareQueryable { id } => MessageForm::numbered(6, *id),
        Message::DeclareToken { id, wire, interest } => MessageForm::numbered(7, *id)
            .keyed(wire)
            .of_interest(*interest),
        Message::UndeclareToken { id, wire, interest } => MessageForm::numbered(8, *id)
            .named(wire)
            .of_interest(*interest),
        Message::DeclareFinal { interest } => MessageForm::numbered(9, 0).of_interest(*interest),
        Message::Interest {
            id,
            mode,
            what,
            wire,
        } => MessageForm {
            mode: mode_number(*mode),
            what: what_number(*what),
            ..MessageForm::numbered(10, *id).named(wire)
        },
        Message::Push(push) => push_form(push),
        Message::Request(request) => request_form(request),
        Message::Response(response) => response_form(response),
        Message::ResponseFinal { rid } => MessageForm::numbered(14, *rid),
        Message::Close => MessageForm::numbered(15, 0),
    }
}
