//! What an event is answered, in plain numbers.

ghost use Rattle.std.specs.Prelude.{◌≡◌};
ghost use Rattle.zs_message_forms.specs.Answers.{refusal_number, answer_form};

use zs_events::{Answer, Refusal};

/// What an event is answered.
#[repr(C)]
#[derive(Clone, Copy, Debug, PartialEq, Eq)]
pub struct AnswerForm {
    /// 0 where it was accepted. Else why not: 1 the session is closed; 2 something that is named isn't there; 3 a message has a
    /// number that the other side never declared; 4 a key is no canonical key expression; 5 the cancellation token is spent; 6
    /// the key of a reply doesn't meet its query's; 7 the key was never declared; 8 the numbers of that sort are all drawn; 9 a
    /// message means nothing here.
    pub refusal: u8,
    /// Whether the event drew a number, which is the next.
    pub has_number: bool,
    pub number: u32,
}

/// The number of a refusal, from 1, as `AnswerForm` lists them: 0 stands for none.
fn refusal_number(refusal: Refusal) -> u8
    ensures { result ≡ refusal_number refusal }
{
    match refusal {
        Refusal::SessionClosedError => 1,
        Refusal::NotFound => 2,
        Refusal::UnknownScope => 3,
        Refusal::BadKeyExpr => 4,
        Refusal::QueryCancelled => 5,
        Refusal::ReplyDisjoint => 6,
        Refusal::NotDeclared => 7,
        Refusal::IdsExhausted => 8,
        Refusal::Ignored => 9,
    }
}

/// The form of an answer.
pub fn answer_form(answer: Answer) -> AnswerForm
    ensures { result ≡ answer_form answer }
{
    match answer {
        Answer::Ok(Some(number)) => AnswerForm {
            refusal: 0,
            has_number: true,
            number,
        },
        Answer::Ok(None) => AnswerForm {
            refusal: 0,
            has_number: false,
            number: 0,
        },
        Answer::Refused(refusal) => AnswerForm {
            refusal: refusal_number(refusal),
            has_number: false,
            number: 0,
        },
    }
}
