//! The laws of callers and of their calls: their contracts are the laws.

ghost use Rattle.zs_caller_laws.specs.Lines.{CallsAreLines};
ghost use Rattle.zs_caller_laws.specs.Numbers.{KeyNumbersAreSmall, KeysComeBackDeclared};
ghost use Rattle.zs_caller_laws.specs.Sending.{StepsSendOne};

use zs_laws::one_message_at_most;

/// A put, a delete, a get, a reply or an entity of which nothing is said but what its maker takes is the event of the script's
/// line without options: what an absent option says is what a builder says by itself.
pub fn calls_are_lines<H>()
    ensures { CallsAreLines H }
{}

/// The event that a stepping call names sends one message at most, and so does each query that the call gives back beside it: so
/// what its caller counts as sent rises by no more than what it counts as events.
pub fn steps_send_one()
    ensures { StepsSendOne }
{
    one_message_at_most();
}

/// The number that the declaration of a key is answered has 16 bits, and isn't the last of those.
pub fn key_numbers_are_small()
    ensures { KeyNumbersAreSmall }
{}

/// So a key that a session declares comes back as one that the session declared: no key is held without saying so.
pub fn keys_come_back_declared()
    ensures { KeysComeBackDeclared }
{
    key_numbers_are_small();
}
