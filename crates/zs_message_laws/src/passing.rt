//! The law that messages pass from one session to another.
ghost use Rattle.zs_message_laws.specs.Passing.{MessagesPass};

/// What one session tells of a message, another reads as that message.
pub fn messages_pass()
    ensures { MessagesPass }
{}
