//! Names of messages.

ghost use Rattle.std.specs.Prelude.{◌≡◌};
ghost use Rattle.ab_picture.specs.Names.{message_name};

/// The name of the message with this code.
pub(crate) fn message_name(code: u8) -> &'static str
    ensures { result.now ≡ message_name code }
{
    match code {
        1 => "REQ",
        2 => "ORDER",
        3 => "RESP",
        4 => "CHAIN",
        5 => "PANIC",
        6 => "ABORT",
        7 => "INIT",
        8 => "PRE-PREPARE",
        9 => "PREPARE",
        10 => "COMMIT",
        11 => "VIEW-CHANGE",
        12 => "NEW-VIEW",
        13 => "CHECKPOINT",
        14 => "LOCAL-COMMIT",
        15 => "SPEC",
        16 => "CERT",
        _ => "?",
    }
}
