//! The parts of bodies: single values.
ghost use Rattle.std.specs.Prelude.{◌≡◌, IfOk, map};
ghost use Rattle.serde_json.specs.Data.{string};
ghost use Rattle.serde_json.specs.View.{view};
ghost use Rattle.wire_model.specs.Answers.{whole, wholes, or_zero, time_or_null, status_text, moderation_status, moderation_task};

use serde_json::Value;
use site_types::{Ids, Moderation, ModerationStatus, Moment, NoMemory};
use std::alloc::Global;
use time_table::print_time;

/// A text of these bytes. Bytes that are not UTF-8, which no path and no URL of a page has, have no
/// value, as if memory were refused.
pub(crate) fn text_value(alloc: Global, bytes: &[u8]) -> Result<Value, NoMemory>
    ensures { IfOk result (λ value. view value ≡ string bytes.now) }
{
    let Ok(text) = str::from_utf8(bytes) else {
        return Err(NoMemory);
    };
    Ok(Value::try_from_str(alloc, text)?)
}

/// An array of these numbers, in their order.
pub(crate) fn ids_value(alloc: Global, ids: &Ids) -> Result<Value, NoMemory>
    ensures { IfOk result (λ value. view value ≡ wholes ids.now) }
{
    Ok(Value::Array(numbers(alloc, ids.as_slice())?))
}

/// The values of these numbers, in their order.
fn numbers(alloc: Global, ids: &[u32]) -> Result<Vec<Value>, NoMemory>
    ensures { IfOk result (λ values. map view values.items ≡ map whole ids.now) }
{
    let mut values = Vec::with_capacity(alloc, ids.len())?;
    for id in ids {
        values.push(Value::from(*id))?;
    }
    Ok(values)
}

/// The text of a moderation's status.
pub(crate) fn status_text(status: ModerationStatus) -> &'static str
    ensures { result.now ≡ status_text status }
{
    match status {
        ModerationStatus::InProgress => "in_progress",
        ModerationStatus::Approved => "approved",
        ModerationStatus::NeedsChanges => "needs_changes",
        ModerationStatus::Cancelled => "cancelled",
    }
}

/// The number that there is, or 0.
pub(crate) fn number_or_zero(number: Option<u32>) -> Value
    ensures { view result ≡ or_zero number }
{
    Value::from(number.unwrap_or(0))
}

/// The text of a moment, or null if there is none.
pub(crate) fn time_value(alloc: Global, at: Option<Moment>) -> Result<Value, NoMemory>
    ensures { IfOk result (λ value. view value ≡ time_or_null at) }
{
    match at {
        Some(moment) => text_value(alloc, &print_time(moment)),
        None => Ok(Value::Null),
    }
}

/// The status of a page's moderation, `none` if there is none.
pub(crate) fn moderation_status(moderation: &Option<Moderation>) -> &'static str
    ensures { moderation_status moderation.now ≡ string result.now }
{
    match moderation {
        Some(moderation) => status_text(moderation.status),
        None => "none",
    }
}

/// The place of the task of a page's moderation, from 1 on, 0 if there is none.
pub(crate) fn moderation_task(moderation: &Option<Moderation>) -> u8
    ensures { moderation_task moderation.now ≡ whole result }
{
    match moderation {
        Some(moderation) => moderation.task,
        None => 0,
    }
}
