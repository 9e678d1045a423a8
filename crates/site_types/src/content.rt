//! Contents of pages.
ghost use Rattle.std.specs.Prelude.{◌≡◌, length, IfOk};
ghost use Rattle.std.specs.Option.{SomeIff};
ghost use Rattle.site_types.specs.Content.{content_form, content_of, FitsLimits};

use crate::measure::{lists_fit, room_after_blocks};
use crate::{Blocks, MAX_BLOCKS, MAX_CONTENT_BYTES, MAX_TITLE_BYTES};
use site_ids::{NoMemory, Text};
use std::alloc::Global;
use std::marker::Model;

/// A title and blocks within the limits: a title of 1 to 255 bytes, at most 1,000 blocks, list
/// blocks of 1 to 1,000 texts, and a byte form of at most 65,536 bytes.
#[derive(Debug, Drop)]
pub struct Content {
    title: Text,
    blocks: Blocks,
    form_bytes: u32,
}

impl Model for Content {
    ghost use Rattle.std.specs.Prelude.{◌≡◌, length};
    ghost use Rattle.site_types.specs.Content.{ContentValue, FitsLimits, content_form, content_of};

    ghost Value = { ContentValue };

    ghost view = { λ content. content_of content.title content.blocks };

    ghost invariant = { λ content.
        FitsLimits (content_of content.title content.blocks)
        × (content.form_bytes ≡ length (content_form (content_of content.title content.blocks))) };
}

impl PartialEq for Content {
    ghost use Rattle.std.specs.Cmp.{partial_equiv_from_equiv, decided};
    ghost use Rattle.std.specs.Prelude.{◌≡◌, ◌↔◌, IsTrue};
    ghost use Rattle.site_types.specs.Equal.{content_eq, content_eq_decides};

    ghost eq = { content_eq };

    ghost laws = { partial_equiv_from_equiv (decided content_eq content_eq_decides) };

    #[tactic(auto, using(crate::specs::Equal::content_eq_decides))]
    fn eq(&self, other: &Self) -> bool
        ensures value { result ≡ content_eq self.now other.now }
        ensures same { IsTrue result ↔ (self.now ≡ other.now) }
    {
        self.title == other.title && self.blocks == other.blocks
    }
}

impl Eq for Content {
    ghost use Rattle.std.specs.Cmp.{decided};
    ghost use Rattle.site_types.specs.Equal.{content_eq, content_eq_decides};

    ghost laws = { decided content_eq content_eq_decides };
}

impl Content {
    /// The content of this title and these blocks, or `None` exactly where they break a limit;
    /// they are then dropped.
    pub fn new(title: Text, blocks: Blocks) -> Option<Self>
        ensures { SomeIff result (FitsLimits (content_of title blocks)) (content_of title blocks) }
    {
        let form_bytes = measured(&title, &blocks)?;
        Some(Content {
            title,
            blocks,
            form_bytes,
        })
    }

    /// The title.
    pub fn title(&self) -> &Text
        ensures value { result.now ≡ self.now.title }
        ensures fits { FitsLimits self.now }
    {
        &self.title
    }

    /// The blocks.
    pub fn blocks(&self) -> &Blocks
        ensures value { result.now ≡ self.now.blocks }
        ensures fits { FitsLimits self.now }
    {
        &self.blocks
    }

    /// The length of the byte form, at most 65,536.
    pub fn form_length(&self) -> u64
        ensures value { result ≡ length (content_form self.now) }
        ensures fits { FitsLimits self.now }
    {
        self.form_bytes as u64
    }

    /// An equal content on memory of its own.
    pub fn copy(&self, alloc: Global) -> Result<Self, NoMemory>
        ensures { IfOk result (λ copy. copy ≡ self.now) }
    {
        let title = self.title.copy(alloc)?;
        let blocks = self.blocks.copy(alloc)?;
        Ok(Content {
            title,
            blocks,
            form_bytes: self.form_bytes,
        })
    }
}

/// The length of the byte form, or `None` exactly where a limit is broken.
fn measured(title: &Text, blocks: &Blocks) -> Option<u32>
    ensures { let content = content_of title.now blocks.now in
        SomeIff result (FitsLimits content) (length (content_form content)) }
{
    if title.is_empty() || title.len() > MAX_TITLE_BYTES || blocks.len() > MAX_BLOCKS {
        return None;
    }
    if !lists_fit(blocks.as_slice()) {
        return None;
    }
    let room = MAX_CONTENT_BYTES - 3 - title.len() as u32;
    let left = room_after_blocks(room, blocks.as_slice())?;
    Some(MAX_CONTENT_BYTES - left)
}
