//! Tags that may be missing.

ghost use Rattle.std.specs.Prelude.{◌≡◌};
ghost use Rattle.std.specs.Option.{option_map};
ghost use Rattle.ab_keys.specs.Tags.{is_tag_from};

use crate::ring::KeyRing;
use ab_num::Party;

impl KeyRing {
    /// Whether a tag is there and is that of the maker over the text. False where there is no key from
    /// the maker.
    pub fn accepts(&self, maker: Party, text: &[u8], tag: Option<&[u8; 32]>) -> bool
        ensures { result ≡ is_tag_from self.now maker text.now (option_map (λ t. t.now) tag.entry) }
    {
        match tag {
            Some(tag) => self.checks(maker, text, tag),
            None => false,
        }
    }
}
