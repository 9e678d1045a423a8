//! Contents read from bytes.

ghost use Rattle.std.specs.Prelude.{◌≡◌};
ghost use Rattle.content_codec.specs.Reading.{Reads, ReadsAs, each_at};
ghost use Rattle.content_codec.specs.Fields.{text_at};
ghost use Rattle.content_codec.specs.Contents.{texts_at, block_at, blocks_at, content_at};

use crate::{ReadFault, Reader};
use site_types::{Block, Blocks, Content, Text, Texts};
use std::alloc::Global;

impl<'a> Reader<'a> {
    /// The next content, on memory of its own.
    #[tactic(auto, unfolding(crate::specs::Contents::content_at))]
    pub fn content(&mut self, alloc: Global) -> Result<Content, ReadFault>
        ensures { Reads result (content_at self.old) self.new }
    {
        let title = self.short_text(alloc)?;
        let blocks = self.blocks(alloc)?;
        match Content::new(title, blocks) {
            Some(content) => Ok(content),
            None => Err(ReadFault::NoForm),
        }
    }

    /// The next blocks, after their number.
    #[tactic(auto, unfolding(crate::specs::Contents::blocks_at))]
    fn blocks(&mut self, alloc: Global) -> Result<Blocks, ReadFault>
        ensures { Reads result (blocks_at self.old) self.new }
    {
        let count = self.u16()?;
        Ok(Blocks::from_vec(self.each_block(alloc, count)?))
    }

    /// The next `count` blocks.
    fn each_block(&mut self, alloc: Global, count: u16) -> Result<Vec<Block>, ReadFault>
        ensures { ReadsAs (λ blocks. blocks.items) result
            (each_at block_at count self.old) self.new }
    {
        let mut blocks = Vec::new(alloc);
        for _ in 0..count {
            blocks.push(self.block(alloc)?)?;
        }
        Ok(blocks)
    }

    /// The next block: its tag, and what it holds.
    #[tactic(auto, unfolding(crate::specs::Contents::block_at))]
    fn block(&mut self, alloc: Global) -> Result<Block, ReadFault>
        ensures { Reads result (block_at self.old) self.new }
    {
        match self.byte()? {
            1 => Ok(Block::Heading(self.text(alloc)?)),
            2 => Ok(Block::Paragraph(self.text(alloc)?)),
            3 => Ok(Block::Items(self.texts(alloc)?)),
            4 => Ok(Block::Page(self.page()?)),
            _ => Err(ReadFault::NoForm),
        }
    }

    /// The next texts, after their number.
    #[tactic(auto, unfolding(crate::specs::Contents::texts_at))]
    fn texts(&mut self, alloc: Global) -> Result<Texts, ReadFault>
        ensures { Reads result (texts_at self.old) self.new }
    {
        let count = self.u16()?;
        Ok(Texts::from_vec(self.each_text(alloc, count)?))
    }

    /// The next `count` texts.
    fn each_text(&mut self, alloc: Global, count: u16) -> Result<Vec<Text>, ReadFault>
        ensures { ReadsAs (λ texts. texts.items) result (each_at text_at count self.old) self.new }
    {
        let mut texts = Vec::new(alloc);
        for _ in 0..count {
            texts.push(self.text(alloc)?)?;
        }
        Ok(texts)
    }
}
