//! The bodies of replies to accepted commands. Each has the number of the command's entry.
ghost use Rattle.std.specs.Prelude.{◌≡◌, IfOk};
ghost use Rattle.serde_json.specs.View.{view};
ghost use Rattle.wire_model.specs.Answers.{reply_data};

use crate::parts::{ids_value, status_text, text_value};
use serde_json::{Map, Value, json, put};
use site_types::{Ids, ModerationStatus, NoMemory, PageId, PathText, Reply, Url};
use std::alloc::Global;

/// The body of an accepted command: the number of its entry, and what the reply tells.
pub(crate) fn reply_value(alloc: Global, entry: u64, reply: &Reply) -> Result<Value, NoMemory>
    ensures { IfOk result (λ value. view value ≡ reply_data entry reply.now) }
{
    match reply {
        Reply::Page { id, path, url } => page_value(alloc, entry, *id, path, url),
        Reply::Done => done_value(alloc, entry),
        Reply::Id(id) => id_value(alloc, entry, *id),
        Reply::Ticked {
            unpublished,
            published,
            dropped,
        } => ticked_value(alloc, entry, unpublished, published, dropped),
        Reply::Moderated { status, task } => moderated_value(alloc, entry, *status, *task),
        Reply::Published { scheduled } => published_value(alloc, entry, *scheduled),
        Reply::Removed(count) => removed_value(alloc, entry, *count),
    }
}

/// The body after a page was made, or got another place or slug.
fn page_value(
    alloc: Global,
    entry: u64,
    id: PageId,
    path: &PathText,
    url: &Url,
) -> Result<Value, NoMemory>
    ensures { IfOk result (λ value. view value
        ≡ reply_data entry (Reply.Page id path.now url.now)) }
{
    let mut members = Map::new(alloc);
    put(&mut members, alloc, "entry", Value::from(entry))?;
    put(&mut members, alloc, "id", Value::from(id.get()))?;
    put(
        &mut members,
        alloc,
        "path",
        text_value(alloc, path.as_slice())?,
    )?;
    put(
        &mut members,
        alloc,
        "url",
        text_value(alloc, url.as_slice())?,
    )?;
    Ok(Value::Object(members))
}

/// The body if there is nothing more to say.
fn done_value(alloc: Global, entry: u64) -> Result<Value, NoMemory>
    ensures { IfOk result (λ value. view value ≡ reply_data entry Reply.Done) }
{
    Ok(json!(in alloc; {"entry": entry})?)
}

/// The body that tells the number of what was made.
fn id_value(alloc: Global, entry: u64, id: u32) -> Result<Value, NoMemory>
    ensures { IfOk result (λ value. view value ≡ reply_data entry (Reply.Id id)) }
{
    Ok(json!(in alloc; {"entry": entry, "id": id})?)
}

/// The body of a tick, with the pages of its three cases.
fn ticked_value(
    alloc: Global,
    entry: u64,
    unpublished: &Ids,
    published: &Ids,
    dropped: &Ids,
) -> Result<Value, NoMemory>
    ensures { IfOk result (λ value. view value
        ≡ reply_data entry (Reply.Ticked unpublished.now published.now dropped.now)) }
{
    let mut members = Map::new(alloc);
    put(&mut members, alloc, "dropped", ids_value(alloc, dropped)?)?;
    put(&mut members, alloc, "entry", Value::from(entry))?;
    put(
        &mut members,
        alloc,
        "published",
        ids_value(alloc, published)?,
    )?;
    put(
        &mut members,
        alloc,
        "unpublished",
        ids_value(alloc, unpublished)?,
    )?;
    Ok(Value::Object(members))
}

/// The body after an event of a moderation: its status, and the place of its task from 1 on.
fn moderated_value(
    alloc: Global,
    entry: u64,
    status: ModerationStatus,
    task: u8,
) -> Result<Value, NoMemory>
    ensures { IfOk result (λ value. view value ≡ reply_data entry (Reply.Moderated status task)) }
{
    let status = status_text(status);
    Ok(json!(in alloc; {"entry": entry, "status": status, "task": task})?)
}

/// The body after a page was published, or only scheduled.
fn published_value(alloc: Global, entry: u64, scheduled: bool) -> Result<Value, NoMemory>
    ensures { IfOk result (λ value. view value ≡ reply_data entry (Reply.Published scheduled)) }
{
    Ok(json!(in alloc; {"entry": entry, "scheduled": scheduled})?)
}

/// The body that tells how many pages or revisions were removed.
fn removed_value(alloc: Global, entry: u64, count: u32) -> Result<Value, NoMemory>
    ensures { IfOk result (λ value. view value ≡ reply_data entry (Reply.Removed count)) }
{
    Ok(json!(in alloc; {"count": count, "entry": entry})?)
}
