//! The commands of a store, as their bytes spell them.

ghost use Rattle.std.specs.Prelude.{◌≡◌, IfSome};
ghost use Rattle.std.specs.List.{list_all};
ghost use Rattle.std.specs.Option.{option_map};
ghost use Rattle.ab_kv.specs.Commands.{IsCommand, is_symbol as test_symbol};
ghost use Rattle.ab_kv.specs.Readings.{parts, command_in, named, put_in, get_in, del_in, cas_in, is_word as test_word};
ghost use Rattle.ab_kv.specs.Views.{view};

/// How many bytes a key may have.
pub(crate) const KEY_BYTES: usize = 32;

/// How many bytes a value may have.
pub(crate) const VALUE_BYTES: usize = 64;

/// What a client asks of a store.
#[derive(Clone, Copy)]
pub(crate) enum Command<'a> {
    Put {
        key: &'a [u8],
        value: &'a [u8],
    },
    Get {
        key: &'a [u8],
    },
    Del {
        key: &'a [u8],
    },
    Cas {
        key: &'a [u8],
        old: &'a [u8],
        new: &'a [u8],
    },
}

/// Whether keys and values may have this byte.
fn is_symbol(b: u8) -> bool
    ensures { result ≡ test_symbol b }
{
    matches!(b, b'a'..=b'z' | b'0'..=b'9' | b'_' | b'.' | b'-')
}

/// Whether each byte is a symbol.
fn are_symbols(bytes: &[u8]) -> bool
    ensures { result ≡ list_all test_symbol bytes.now }
{
    bytes.iter().all(|b| is_symbol(*b))
}

/// Whether these are symbols, 1 to `most` of them.
fn is_word(bytes: &[u8], most: usize) -> bool
    ensures { result ≡ test_word most bytes.now }
{
    !bytes.is_empty() && bytes.len() <= most && are_symbols(bytes)
}

/// What stands before the first space, and what stands after it.
fn split_word(bytes: &[u8]) -> Option<(&[u8], &[u8])>
    ensures { option_map (λ p. (p.0.now, p.1.now)) result ≡ parts bytes.now }
{
    for (i, b) in bytes.iter().enumerate() {
        if *b == b' ' {
            return Some((&bytes[..i], &bytes[i + 1..]));
        }
    }
    None
}

impl<'a> Command<'a> {
    /// The command that the bytes spell.
    #[tactic(auto, unfolding(crate::specs::Readings::command_in))]
    pub(crate) fn read(bytes: &'a [u8]) -> Option<Command<'a>>
        ensures read { option_map view result ≡ command_in bytes.now }
        ensures command { IfSome result (λ c. IsCommand (view c)) }
    {
        let (name, rest) = split_word(bytes)?;
        Command::named(name, rest)
    }

    /// The command of this name, with the rest for its words.
    #[tactic(auto, unfolding(crate::specs::Readings::named))]
    fn named(name: &[u8], rest: &'a [u8]) -> Option<Command<'a>>
        ensures read { option_map view result ≡ named name.now rest.now }
        ensures command { IfSome result (λ c. IsCommand (view c)) }
    {
        match name {
            b"put" => Command::put(rest),
            b"get" => Command::get(rest),
            b"del" => Command::del(rest),
            b"cas" => Command::cas(rest),
            _ => None,
        }
    }

    fn put(rest: &'a [u8]) -> Option<Command<'a>>
        ensures read { option_map view result ≡ put_in rest.now }
        ensures command { IfSome result (λ c. IsCommand (view c)) }
    {
        let (key, value) = split_word(rest)?;
        if is_word(key, KEY_BYTES) && is_word(value, VALUE_BYTES) {
            Some(Command::Put { key, value })
        } else {
            None
        }
    }

    fn get(rest: &'a [u8]) -> Option<Command<'a>>
        ensures read { option_map view result ≡ get_in rest.now }
        ensures command { IfSome result (λ c. IsCommand (view c)) }
    {
        if is_word(rest, KEY_BYTES) {
            Some(Command::Get { key: rest })
        } else {
            None
        }
    }

    fn del(rest: &'a [u8]) -> Option<Command<'a>>
        ensures read { option_map view result ≡ del_in rest.now }
        ensures command { IfSome result (λ c. IsCommand (view c)) }
    {
        if is_word(rest, KEY_BYTES) {
            Some(Command::Del { key: rest })
        } else {
            None
        }
    }

    fn cas(rest: &'a [u8]) -> Option<Command<'a>>
        ensures read { option_map view result ≡ cas_in rest.now }
        ensures command { IfSome result (λ c. IsCommand (view c)) }
    {
        let (key, values) = split_word(rest)?;
        let (old, new) = split_word(values)?;
        if is_word(key, KEY_BYTES) && is_word(old, VALUE_BYTES) && is_word(new, VALUE_BYTES) {
            Some(Command::Cas { key, old, new })
        } else {
            None
        }
    }
}
