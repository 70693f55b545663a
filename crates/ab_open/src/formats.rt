//! What ties bytes and messages.

ghost use Rattle.ab_form.specs.Formats.{IsWhole};
ghost use Rattle.ab_msg.specs.Messages.{IsMessage, spell_message};
ghost use Rattle.ab_open.specs.Messages.{message_of};

/// Bytes spell at most one message, and a message has one spelling, which is read as that message.
/// A message that is cut off is `Short`, and one with bytes behind it `Trailing`. A defect other than
/// `Short` stays whatever follows.
pub fn messages_are_formats()
    ensures { IsWhole message_of spell_message IsMessage }
{}
