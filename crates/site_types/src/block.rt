//! Blocks of contents.
ghost use Rattle.std.specs.Prelude.{◌≡◌, ◌==◌, length, IfOk};

use site_ids::{NoMemory, PageId, Text, Texts};
use std::alloc::Global;
use std::marker::Model;

/// One block of a content.
#[derive(Debug, Drop)]
pub enum Block {
    /// A heading.
    Heading(Text),
    /// A paragraph.
    Paragraph(Text),
    /// A list of texts; a content holds lists of 1 to 1,000.
    Items(Texts),
    /// A link to the page of this number, which need not exist.
    Page(PageId),
}

/// The blocks of a content, in their order. A contract sees the list of them.
#[derive(Debug, Drop)]
pub struct Blocks {
    blocks: Vec<Block>,
}

impl Model for Blocks {
    ghost use Rattle.std.specs.Prelude.{List};
    ghost use Rattle.site_types.specs.declared.block.Block.{Block};

    ghost Value = { List Block };

    ghost view = { λ list. list.blocks.items };
}

impl PartialEq for Block {
    ghost use Rattle.std.specs.Cmp.{partial_equiv_from_equiv, decided};
    ghost use Rattle.std.specs.Prelude.{◌≡◌, ◌↔◌, IsTrue};
    ghost use Rattle.site_types.specs.Equal.{block_eq, block_eq_decides};

    ghost eq = { block_eq };

    ghost laws = { partial_equiv_from_equiv (decided block_eq block_eq_decides) };

    #[tactic(auto, using(crate::specs::Equal::block_eq_decides))]
    fn eq(&self, other: &Self) -> bool
        ensures value { result ≡ block_eq self.now other.now }
        ensures same { IsTrue result ↔ (self.now ≡ other.now) }
    {
        match (self, other) {
            (Block::Heading(text), Block::Heading(other)) => text == other,
            (Block::Paragraph(text), Block::Paragraph(other)) => text == other,
            (Block::Items(texts), Block::Items(others)) => texts == others,
            (Block::Page(page), Block::Page(other)) => page == other,
            _ => false,
        }
    }
}

impl Eq for Block {
    ghost use Rattle.std.specs.Cmp.{decided};
    ghost use Rattle.site_types.specs.Equal.{block_eq, block_eq_decides};

    ghost laws = { decided block_eq block_eq_decides };
}

impl Block {
    /// An equal block on memory of its own.
    pub fn copy(&self, alloc: Global) -> Result<Self, NoMemory>
        ensures { IfOk result (λ copy. copy ≡ self.now) }
    {
        match self {
            Block::Heading(text) => Ok(Block::Heading(text.copy(alloc)?)),
            Block::Paragraph(text) => Ok(Block::Paragraph(text.copy(alloc)?)),
            Block::Items(texts) => Ok(Block::Items(texts.copy(alloc)?)),
            Block::Page(page) => Ok(Block::Page(*page)),
        }
    }
}

impl PartialEq for Blocks {
    ghost use Rattle.std.specs.Cmp.{partial_equiv_from_equiv, decided};
    ghost use Rattle.std.specs.Prelude.{◌≡◌, ◌↔◌, IsTrue};
    ghost use Rattle.site_types.specs.Equal.{blocks_eq, blocks_eq_decides};

    ghost eq = { blocks_eq };

    ghost laws = { partial_equiv_from_equiv (decided blocks_eq blocks_eq_decides) };

    #[tactic(auto, using(crate::specs::Equal::blocks_eq_decides))]
    fn eq(&self, other: &Self) -> bool
        ensures value { result ≡ blocks_eq self.now other.now }
        ensures same { IsTrue result ↔ (self.now ≡ other.now) }
    {
        self.as_slice() == other.as_slice()
    }
}

impl Eq for Blocks {
    ghost use Rattle.std.specs.Cmp.{decided};
    ghost use Rattle.site_types.specs.Equal.{blocks_eq, blocks_eq_decides};

    ghost laws = { decided blocks_eq blocks_eq_decides };
}

impl Blocks {
    /// The list of these blocks, in their order.
    pub fn from_vec(blocks: Vec<Block>) -> Self
        ensures { result ≡ blocks.items }
    {
        Blocks { blocks }
    }

    /// The blocks, given back with their memory.
    pub fn into_vec(self) -> Vec<Block>
        ensures { result.items ≡ self }
    {
        let Blocks { blocks } = self;
        blocks
    }

    /// The blocks, in their order.
    pub fn as_slice(&self) -> &[Block]
        ensures { result.now ≡ self.now }
    {
        self.blocks.as_slice()
    }

    /// The number of blocks.
    pub fn len(&self) -> usize
        ensures { result ≡ length self.now }
    {
        self.blocks.len()
    }

    /// Whether there are no blocks.
    pub fn is_empty(&self) -> bool
        ensures { result ≡ (length self.now == 0) }
    {
        self.blocks.is_empty()
    }

    /// An equal list on memory of its own.
    pub fn copy(&self, alloc: Global) -> Result<Self, NoMemory>
        ensures { IfOk result (λ copy. copy ≡ self.now) }
    {
        let mut blocks = Vec::with_capacity(alloc, self.blocks.len())?;
        for block in &self.blocks {
            blocks.push(block.copy(alloc)?)?;
        }
        Ok(Blocks { blocks })
    }
}
