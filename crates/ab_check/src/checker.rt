//! Who tells whether a tag or a signature is right.

ghost use Rattle.std.specs.Prelude.{◌≡◌};
ghost use Rattle.std.specs.Option.{option_map};
ghost use Rattle.ab_check.specs.Checks.{Judge, by_sig, by_tag};

use ab_msg::Tag;
use ab_num::Party;
use std::alloc::Global;

/// The keys of a party, with the signatures that are known to verify. It may remember what it found, but
/// its answers stay the same.
pub trait Checker {
    ghost judge: { Self → Judge };

    /// Whether the tag is there and is the maker's over the text.
    fn tag(&self, maker: Party, text: &[u8], tag: Option<&Tag>) -> bool
        ensures { result ≡ judge self.now maker text.now (by_tag (option_map (λ t. t.now) tag.entry)) };

    /// Whether it is the maker's signature over the text. Where memory for what was found is refused, it
    /// isn't remembered.
    fn sig(&mut self, alloc: Global, maker: Party, text: &[u8], sig: &[u8]) -> bool
        ensures right { result ≡ judge self.old maker text.now (by_sig sig.now) }
        ensures same { judge self.new ≡ judge self.old };
}
