//! The bytes of contents.

ghost use Rattle.std.specs.Prelude.{◌≡◌, [], ◌∷◌, map, IfOk};
ghost use Rattle.ab_msg.specs.Contents.{spell_content};

use ab_msg::Content;
use ab_num::OutOfMemory;
use ab_write::content_bytes;
use std::alloc::Global;
use std::marker::Model;

/// Texts, each the bytes of a content.
#[derive(Drop)]
pub struct Texts {
    texts: Vec<Vec<u8>>,
}

/// They are seen as the list of their bytes.
impl Model for Texts {
    ghost use Rattle.std.specs.Prelude.{List, ℕ, map};

    ghost Value = { List (List ℕ) };

    ghost view = { λ t. map (λ text. text.items) t.texts.items };
}

impl Texts {
    /// None.
    pub(crate) fn none(alloc: Global) -> Texts
        ensures { result ≡ [] }
    {
        Texts {
            texts: Vec::new(alloc),
        }
    }

    /// That of one content.
    pub(crate) fn one(alloc: Global, content: &Content) -> Result<Texts, OutOfMemory>
        ensures { IfOk result (λ t. t ≡ spell_content content.now ∷ []) }
    {
        let mut texts = Vec::new(alloc);
        texts.push(content_bytes(alloc, content)?)?;
        Ok(Texts { texts })
    }

    /// Those of two contents.
    pub(crate) fn two(
        alloc: Global,
        first: &Content,
        second: &Content,
    ) -> Result<Texts, OutOfMemory>
        ensures { IfOk result (λ t. t ≡ spell_content first.now ∷ spell_content second.now ∷ []) }
    {
        let mut texts = Vec::new(alloc);
        texts.push(content_bytes(alloc, first)?)?;
        texts.push(content_bytes(alloc, second)?)?;
        Ok(Texts { texts })
    }

    /// The texts, one after the other.
    pub fn into_vec(self) -> Vec<Vec<u8>>
        ensures { map (λ text. text.items) result.items ≡ self }
    {
        self.texts
    }
}
