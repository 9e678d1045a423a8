//! Contents read from JSON values.
ghost use Rattle.std.specs.Prelude.{◌≡◌, Some, None, IfOk, IsErrOf, option_and_then};
ghost use Rattle.serde_json.specs.Find.{as_str, get};
ghost use Rattle.serde_json.specs.View.{view, items_view};
ghost use Rattle.json_model.specs.Content.{content_of, block_of};
ghost use Rattle.json_model.specs.Members.{each_of, list_of, text_at, id_of};
ghost use Rattle.block_content.specs.Reads.{Reads};

use crate::ContentFault;
use crate::members::{has_exactly, items, member, page_id, text_at};
use json_model::{
    MEMBER_BLOCKS, MEMBER_HEADING, MEMBER_LIST, MEMBER_PAGE, MEMBER_PARAGRAPH, MEMBER_TITLE,
};
use serde_json::Value;
use site_types::{Block, Blocks, Content, PageId, Text, Texts};
use std::alloc::Global;

/// The content that a value is, on memory of its own. `Bad` says that the value is none: it is not
/// an object of the members blocks and title alone, one of its parts has another form, or it breaks
/// a limit.
pub fn read_content(alloc: Global, value: &Value) -> Result<Content, ContentFault>
    ensures ok { IfOk result (λ content. content_of (view value.now) ≡ Some content) }
    ensures bad { IsErrOf result ContentFault.Bad → content_of (view value.now) ≡ None }
{
    if !has_exactly(value, &[MEMBER_BLOCKS, MEMBER_TITLE]) {
        return Err(ContentFault::Bad);
    }
    let title = read_text_at(alloc, value, MEMBER_TITLE)?;
    let blocks = read_blocks_at(alloc, value)?;
    match Content::new(title, blocks) {
        Some(content) => Ok(content),
        None => Err(ContentFault::Bad),
    }
}

/// The text at a member.
fn read_text_at(alloc: Global, value: &Value, name: &str) -> Result<Text, ContentFault>
    ensures { Reads result (text_at name.now (view value.now)) }
{
    let Some(text) = text_at(value, name) else {
        return Err(ContentFault::Bad);
    };
    Ok(Text::from_string(String::from_str(alloc, text)?))
}

/// The blocks at the member blocks.
fn read_blocks_at(alloc: Global, value: &Value) -> Result<Blocks, ContentFault>
    ensures { Reads result
        (option_and_then (list_of block_of) (get MEMBER_BLOCKS.now (view value.now))) }
{
    let Some(list) = member(value, MEMBER_BLOCKS) else {
        return Err(ContentFault::Bad);
    };
    let Some(list) = items(list) else {
        return Err(ContentFault::Bad);
    };
    read_blocks(alloc, list)
}

/// The blocks that values are.
fn read_blocks(alloc: Global, values: &[Value]) -> Result<Blocks, ContentFault>
    ensures { Reads result (each_of block_of (items_view values.now)) }
{
    let mut blocks = Vec::new(alloc);
    for value in values {
        blocks.push(read_block(alloc, value)?)?;
    }
    Ok(Blocks::from_vec(blocks))
}

/// The block that a value is.
fn read_block(alloc: Global, value: &Value) -> Result<Block, ContentFault>
    ensures { Reads result (block_of (view value.now)) }
{
    if has_exactly(value, &[MEMBER_HEADING]) {
        let text = read_text_at(alloc, value, MEMBER_HEADING)?;
        return Ok(Block::Heading(text));
    }
    if has_exactly(value, &[MEMBER_PARAGRAPH]) {
        let text = read_text_at(alloc, value, MEMBER_PARAGRAPH)?;
        return Ok(Block::Paragraph(text));
    }
    if has_exactly(value, &[MEMBER_LIST]) {
        let texts = read_texts_at(alloc, value)?;
        return Ok(Block::Items(texts));
    }
    if has_exactly(value, &[MEMBER_PAGE]) {
        let page = read_page_at(value)?;
        return Ok(Block::Page(page));
    }
    Err(ContentFault::Bad)
}

/// The texts at the member list.
fn read_texts_at(alloc: Global, value: &Value) -> Result<Texts, ContentFault>
    ensures { Reads result
        (option_and_then (list_of as_str) (get MEMBER_LIST.now (view value.now))) }
{
    let Some(list) = member(value, MEMBER_LIST) else {
        return Err(ContentFault::Bad);
    };
    let Some(list) = items(list) else {
        return Err(ContentFault::Bad);
    };
    read_texts(alloc, list)
}

/// The texts that values are.
fn read_texts(alloc: Global, values: &[Value]) -> Result<Texts, ContentFault>
    ensures { Reads result (each_of as_str (items_view values.now)) }
{
    let mut texts = Vec::new(alloc);
    for value in values {
        texts.push(read_text(alloc, value)?)?;
    }
    Ok(Texts::from_vec(texts))
}

/// The text that a value is.
fn read_text(alloc: Global, value: &Value) -> Result<Text, ContentFault>
    ensures { Reads result (as_str (view value.now)) }
{
    let Some(text) = value.as_str() else {
        return Err(ContentFault::Bad);
    };
    Ok(Text::from_string(String::from_str(alloc, text)?))
}

/// The id of a page at the member page.
fn read_page_at(value: &Value) -> Result<PageId, ContentFault>
    ensures { Reads result (option_and_then id_of (get MEMBER_PAGE.now (view value.now))) }
{
    let Some(number) = member(value, MEMBER_PAGE) else {
        return Err(ContentFault::Bad);
    };
    match page_id(number) {
        Some(page) => Ok(page),
        None => Err(ContentFault::Bad),
    }
}
