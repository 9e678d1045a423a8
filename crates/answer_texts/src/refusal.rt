//! The status and the body of a refusal.
ghost use Rattle.std.specs.Prelude.{◌≡◌, IfOk};
ghost use Rattle.serde_json.specs.View.{view};
ghost use Rattle.wire_model.specs.Answers.{refusal_data, refusal_status};

use http_wire::StatusCode;
use serde_json::{Map, Value, put};
use site_types::{NoMemory, Refusal};
use std::alloc::Global;

/// The status of a refusal: 404 if a page does not exist, 403 if a need is not met, else 409.
pub(crate) fn refusal_status(refusal: &Refusal) -> StatusCode
    ensures { result ≡ refusal_status refusal.now }
{
    match refusal {
        Refusal::NoPage(_) => StatusCode::NotFound,
        Refusal::Denied(_) => StatusCode::Forbidden,
        _ => StatusCode::Conflict,
    }
}

/// The body of a refusal: its name and number, and the value that it carries, if it carries one.
pub(crate) fn refusal_value(alloc: Global, refusal: &Refusal) -> Result<Value, NoMemory>
    ensures { IfOk result (λ value. view value ≡ refusal_data refusal.now) }
{
    let name = Value::try_from_str(alloc, refusal.name())?;
    let mut members = Map::new(alloc);
    put(&mut members, alloc, "name", name)?;
    put(
        &mut members,
        alloc,
        "refused",
        Value::from(refusal.number()),
    )?;
    if let Some(carried) = refusal.carried() {
        put(&mut members, alloc, "with", Value::from(carried))?;
    }
    Ok(Value::Object(members))
}
