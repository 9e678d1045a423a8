//! Contents written as bytes.

ghost use Rattle.std.specs.Prelude.{◌≡◌, ◌≤◌, ◌++◌, length, All, OnOk, IsUtf8};
ghost use Rattle.std.specs.Int.{w16, to_be_bytes};
ghost use Rattle.site_types.specs.Content.{texts_form, block_form, blocks_form, content_form};
ghost use Rattle.byte_forms.specs.Contents.{IsBlock, IsContent};

use crate::Writer;
use site_types::{Block, Content, MAX_CONTENT_BYTES, NoMemory, Text, Texts};

impl Writer {
    /// Writes a content.
    pub fn content(&mut self, content: &Content) -> Result<(), NoMemory>
        ensures form { OnOk result (self.new ≡ self.old ++ content_form content.now) }
        ensures has_form { OnOk result (IsContent content.now) }
    {
        let blocks = content.blocks().as_slice();
        self.short(content.title().as_bytes())?;
        self.u16(blocks.len() as u16)?;
        self.each_block(blocks)
    }

    /// Writes these blocks.
    fn each_block(&mut self, blocks: &[Block]) -> Result<(), NoMemory>
        requires { length (blocks_form blocks.now) ≤ MAX_CONTENT_BYTES }
        ensures form { OnOk result (self.new ≡ self.old ++ blocks_form blocks.now) }
        ensures are_blocks { OnOk result (All IsBlock blocks.now) }
    {
        for block in blocks {
            self.block(block)?;
        }
        Ok(())
    }

    /// Writes a block: its tag, and what it holds.
    #[tactic(auto, unfolding(byte_forms::specs::Fields::u32_form))]
    fn block(&mut self, block: &Block) -> Result<(), NoMemory>
        requires { length (block_form block.now) ≤ MAX_CONTENT_BYTES }
        ensures form { OnOk result (self.new ≡ self.old ++ block_form block.now) }
        ensures is_block { OnOk result (IsBlock block.now) }
    {
        match block {
            Block::Heading(text) => {
                self.byte(1)?;
                self.text(text)
            }
            Block::Paragraph(text) => {
                self.byte(2)?;
                self.text(text)
            }
            Block::Items(texts) => {
                self.byte(3)?;
                self.texts(texts)
            }
            Block::Page(page) => {
                self.byte(4)?;
                self.page(*page)
            }
        }
    }

    /// Writes texts after their number.
    fn texts(&mut self, texts: &Texts) -> Result<(), NoMemory>
        requires { length (texts_form texts.now) ≤ MAX_CONTENT_BYTES }
        ensures form { OnOk result
            (self.new ≡ self.old ++ (to_be_bytes w16 (length texts.now) ++ texts_form texts.now)) }
        ensures are_texts { OnOk result (All IsUtf8 texts.now) }
    {
        self.u16(texts.len() as u16)?;
        self.each_text(texts.as_slice())
    }

    /// Writes these texts.
    fn each_text(&mut self, texts: &[Text]) -> Result<(), NoMemory>
        requires { length (texts_form texts.now) ≤ MAX_CONTENT_BYTES }
        ensures form { OnOk result (self.new ≡ self.old ++ texts_form texts.now) }
        ensures are_texts { OnOk result (All IsUtf8 texts.now) }
    {
        for text in texts {
            self.text(text)?;
        }
        Ok(())
    }
}
