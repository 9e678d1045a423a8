//! The body that tells which pages link to a page.
ghost use Rattle.std.specs.Prelude.{◌≡◌, IfOk};
ghost use Rattle.serde_json.specs.View.{view};
ghost use Rattle.wire_model.specs.Answers.{refs_data};

use crate::parts::ids_value;
use serde_json::{Map, Value, put};
use site_types::{Ids, NoMemory};
use std::alloc::Global;

/// The body that tells the ids of the pages that link to a page.
pub(crate) fn refs_value(alloc: Global, refs: &Ids) -> Result<Value, NoMemory>
    ensures { IfOk result (λ value. view value ≡ refs_data refs.now) }
{
    let ids = ids_value(alloc, refs)?;
    let mut members = Map::new(alloc);
    put(&mut members, alloc, "refs", ids)?;
    Ok(Value::Object(members))
}
