//! The body of a public page.
ghost use Rattle.std.specs.Prelude.{◌≡◌, IfOk, map};
ghost use Rattle.serde_json.specs.Data.{array};
ghost use Rattle.serde_json.specs.View.{view, items_of};
ghost use Rattle.wire_model.specs.Answers.{kid_data, public_data};

use crate::parts::text_value;
use block_content::write_blocks;
use public_view::{Card, LiveKid};
use serde_json::{Map, Value, put};
use site_types::NoMemory;
use std::alloc::Global;

/// The body of a public page: what it shows, where it stands, and its live kids.
pub(crate) fn public_value(alloc: Global, card: &Card) -> Result<Value, NoMemory>
    ensures { IfOk result (λ value. view value ≡ public_data card.now) }
{
    let blocks = write_blocks(alloc, card.blocks.as_slice())?;
    let kids = kids_value(alloc, card.kids.as_slice())?;
    let title = Value::try_from_str(alloc, card.title.as_str())?;
    let url = text_value(alloc, card.url.as_slice())?;
    let mut members = Map::new(alloc);
    put(&mut members, alloc, "blocks", blocks)?;
    put(&mut members, alloc, "children", kids)?;
    put(&mut members, alloc, "id", Value::from(card.id.get()))?;
    put(&mut members, alloc, "title", title)?;
    put(&mut members, alloc, "url", url)?;
    Ok(Value::Object(members))
}

/// The array of these kids, in their order.
fn kids_value(alloc: Global, kids: &[LiveKid]) -> Result<Value, NoMemory>
    ensures { IfOk result (λ value. view value ≡ array (items_of (map kid_data kids.now))) }
{
    let mut values = Vec::with_capacity(alloc, kids.len())?;
    for kid in kids {
        values.push(kid_value(alloc, kid)?)?;
    }
    Ok(Value::Array(values))
}

/// The object that tells a kid.
fn kid_value(alloc: Global, kid: &LiveKid) -> Result<Value, NoMemory>
    ensures { IfOk result (λ value. view value ≡ kid_data kid.now) }
{
    let title = Value::try_from_str(alloc, kid.title.as_str())?;
    let url = text_value(alloc, kid.url.as_slice())?;
    let mut members = Map::new(alloc);
    put(&mut members, alloc, "id", Value::from(kid.id.get()))?;
    put(&mut members, alloc, "title", title)?;
    put(&mut members, alloc, "url", url)?;
    Ok(Value::Object(members))
}
