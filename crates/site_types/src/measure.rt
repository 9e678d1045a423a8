//! How much room the byte form of a content takes.
//!
//! Each function is given the room in bytes that is left, and gives what remains of it after the
//! form of its argument, or `None` exactly where the form does not fit.
ghost use Rattle.std.specs.Prelude.{◌↔◌, All, IsTrue};
ghost use Rattle.site_types.specs.Content.{text_form, texts_form, block_form, blocks_form};
ghost use Rattle.site_types.specs.Content.{FitsBlock, LeavesRoom};

use crate::{Block, MAX_LIST_TEXTS};
use site_ids::Text;

/// Whether each list block has 1 to 1,000 texts.
pub(crate) fn lists_fit(blocks: &[Block]) -> bool
    ensures { IsTrue result ↔ All FitsBlock blocks.now }
{
    blocks.iter().all(|block| list_fits(block))
}

/// Whether the block, if it is a list, has 1 to 1,000 texts.
fn list_fits(block: &Block) -> bool
    ensures { IsTrue result ↔ FitsBlock block.now }
{
    match block {
        Block::Items(texts) => !texts.is_empty() && texts.len() <= MAX_LIST_TEXTS,
        _ => true,
    }
}

/// The room after the forms of these blocks.
pub(crate) fn room_after_blocks(room: u32, blocks: &[Block]) -> Option<u32>
    ensures { LeavesRoom result room (blocks_form blocks.now) }
{
    let mut left = room;
    for block in blocks {
        left = room_after_block(left, block)?;
    }
    Some(left)
}

/// The room after the form of this block.
fn room_after_block(room: u32, block: &Block) -> Option<u32>
    ensures { LeavesRoom result room (block_form block.now) }
{
    match block {
        Block::Heading(text) => room_after_text(room.checked_sub(1)?, text),
        Block::Paragraph(text) => room_after_text(room.checked_sub(1)?, text),
        Block::Items(texts) => room_after_texts(room.checked_sub(3)?, texts.as_slice()),
        Block::Page(_) => room.checked_sub(5),
    }
}

/// The room after the forms of these texts.
fn room_after_texts(room: u32, texts: &[Text]) -> Option<u32>
    ensures { LeavesRoom result room (texts_form texts.now) }
{
    let mut left = room;
    for text in texts {
        left = room_after_text(left, text)?;
    }
    Some(left)
}

/// The room after the form of this text.
fn room_after_text(room: u32, text: &Text) -> Option<u32>
    ensures { LeavesRoom result room (text_form text.now) }
{
    let left = room.checked_sub(4)?;
    if text.len() > left as usize {
        return None;
    }
    Some(left - text.len() as u32)
}
