//! Contents written as JSON values.
ghost use Rattle.std.specs.Prelude.{◌≡◌, map, All, IfOk, OnOk};
ghost use Rattle.serde_json.specs.Data.{string, array};
ghost use Rattle.serde_json.specs.View.{view, items_of};
ghost use Rattle.json_model.specs.Content.{block_data, content_data, content_of, only};
ghost use Rattle.json_model.specs.Limits.{LinksToId};

use json_model::{
    MEMBER_BLOCKS, MEMBER_HEADING, MEMBER_LIST, MEMBER_PAGE, MEMBER_PARAGRAPH, MEMBER_TITLE,
};
use serde_json::{Map, Value, put};
use site_types::{Block, Content, NoMemory, Text};
use std::alloc::Global;

/// The JSON value of a content, with its members in byte order.
pub fn write_content(alloc: Global, content: &Content) -> Result<Value, NoMemory>
    ensures form { IfOk result (λ value. view value ≡ content_data content.now) }
    ensures reads_back { IfOk result (λ value. content_of (view value) ≡ Some content.now) }
{
    let blocks = write_blocks(alloc, content.blocks().as_slice())?;
    let title = Value::try_from_str(alloc, content.title().as_str())?;
    let mut members = Map::new(alloc);
    put(&mut members, alloc, MEMBER_BLOCKS, blocks)?;
    put(&mut members, alloc, MEMBER_TITLE, title)?;
    Ok(Value::Object(members))
}

/// The array of these blocks, each as an object of one member.
pub fn write_blocks(alloc: Global, blocks: &[Block]) -> Result<Value, NoMemory>
    ensures form { IfOk result (λ value. view value
        ≡ array (items_of (map block_data blocks.now))) }
    ensures links { OnOk result (All LinksToId blocks.now) }
{
    let mut values = Vec::with_capacity(alloc, blocks.len())?;
    for block in blocks {
        values.push(write_block(alloc, block)?)?;
    }
    Ok(Value::Array(values))
}

/// The object of one member that a block is.
fn write_block(alloc: Global, block: &Block) -> Result<Value, NoMemory>
    ensures form { IfOk result (λ value. view value ≡ block_data block.now) }
    ensures links { OnOk result (LinksToId block.now) }
{
    match block {
        Block::Heading(text) => {
            write_member(
                alloc,
                MEMBER_HEADING,
                Value::try_from_str(alloc, text.as_str())?,
            )
        }
        Block::Paragraph(text) => {
            write_member(
                alloc,
                MEMBER_PARAGRAPH,
                Value::try_from_str(alloc, text.as_str())?,
            )
        }
        Block::Items(texts) => {
            write_member(alloc, MEMBER_LIST, write_texts(alloc, texts.as_slice())?)
        }
        Block::Page(page) => write_member(alloc, MEMBER_PAGE, Value::from(page.get())),
    }
}

/// The array of these texts.
fn write_texts(alloc: Global, texts: &[Text]) -> Result<Value, NoMemory>
    ensures { IfOk result (λ value. view value ≡ array (items_of (map string texts.now))) }
{
    let mut values = Vec::with_capacity(alloc, texts.len())?;
    for text in texts {
        values.push(Value::try_from_str(alloc, text.as_str())?)?;
    }
    Ok(Value::Array(values))
}

/// The object whose only member has this name and this value.
fn write_member(alloc: Global, name: &str, value: Value) -> Result<Value, NoMemory>
    ensures { IfOk result (λ written. view written ≡ only name.now (view value)) }
{
    let mut members = Map::new(alloc);
    put(&mut members, alloc, name, value)?;
    Ok(Value::Object(members))
}
