//! The bytes of what was stated.

ghost use Rattle.std.specs.Prelude.{◌≡◌};
ghost use Rattle.ab_check.specs.Listing.{bytes_of};

use crate::text::Text;

/// The bytes of a content: as they were received, or made where they stand nowhere in the message.
#[derive(Drop)]
pub enum StatedBytes<'a> {
    Received(&'a [u8]),
    Made(Text),
}

impl<'a> StatedBytes<'a> {
    pub fn as_slice(&self) -> &[u8]
        ensures { result.now ≡ bytes_of self.now }
    {
        match self {
            StatedBytes::Received(bytes) => bytes,
            StatedBytes::Made(text) => text.as_slice(),
        }
    }
}
