//! The members of bodies.
ghost use Rattle.std.specs.Prelude.{◌≡◌};
ghost use Rattle.serde_json.specs.View.{view};
ghost use Rattle.block_content.specs.Reads.{Reads};
ghost use Rattle.wire_model.specs.Times.{time_of, time_or_none, time_at};
ghost use Rattle.wire_model.specs.Forms.{id_at, slug_at, content_at, position_at, truth_at, user_at, group_at, permission_at, digest_at, workflow_at};

use crate::digest::written_digest;
use crate::table::named;
use block_content::members::{member, page_id, slug, text_at, truth, whole_within};
use block_content::{ContentFault, read_content};
use serde_json::Value;
use site_types::{
    Content, Digest, GroupId, LAST_GROUP_ID, LAST_USER_ID, LAST_WORKFLOW_ID, Moment, PageId,
    Permission, Position, Slug, UserId, WorkflowId,
};
use std::alloc::Global;
use time_table::read_time;
use wire_model::{PERMISSIONS, POSITIONS};

/// The id of a page at the member of this name.
pub(crate) fn id_at(value: &Value, name: &str) -> Option<PageId>
    ensures { result ≡ id_at name.now (view value.now) }
{
    page_id(member(value, name)?)
}

/// The slug at the member slug.
pub(crate) fn slug_at(value: &Value) -> Option<Slug>
    ensures { result ≡ slug_at (view value.now) }
{
    slug(member(value, "slug")?)
}

/// The content at the member content.
pub(crate) fn content_at(alloc: Global, value: &Value) -> Result<Content, ContentFault>
    ensures { Reads result (content_at (view value.now)) }
{
    let Some(content) = member(value, "content") else {
        return Err(ContentFault::Bad);
    };
    read_content(alloc, content)
}

/// The position at the member position.
pub(crate) fn position_at(value: &Value) -> Option<Position>
    ensures { result ≡ position_at (view value.now) }
{
    let text = text_at(value, "position")?;
    named(&POSITIONS, text)
}

/// The truth value at the member of this name.
pub(crate) fn truth_at(value: &Value, name: &str) -> Option<bool>
    ensures { result ≡ truth_at name.now (view value.now) }
{
    truth(member(value, name)?)
}

/// The id of the user at the member user, from 1 to 65,535.
pub(crate) fn user_at(value: &Value) -> Option<UserId>
    ensures { result ≡ user_at (view value.now) }
{
    let number = whole_within(member(value, "user")?, 1, LAST_USER_ID as u64)?;
    UserId::new(number as u32)
}

/// The id of the group at the member group, from 1 to 65,535.
pub(crate) fn group_at(value: &Value) -> Option<GroupId>
    ensures { result ≡ group_at (view value.now) }
{
    let number = whole_within(member(value, "group")?, 1, LAST_GROUP_ID as u64)?;
    GroupId::new(number as u32)
}

/// The workflow at the member workflow, which is none at 0.
pub(crate) fn workflow_at(value: &Value) -> Option<Option<WorkflowId>>
    ensures { result ≡ workflow_at (view value.now) }
{
    let number = whole_within(member(value, "workflow")?, 0, LAST_WORKFLOW_ID as u64)?;
    Some(WorkflowId::new(number as u32))
}

/// The digest at the member digest.
pub(crate) fn digest_at(value: &Value) -> Option<Digest>
    ensures { result ≡ digest_at (view value.now) }
{
    let text = text_at(value, "digest")?;
    written_digest(text.as_bytes())
}

/// The permission at the member permission.
pub(crate) fn permission_at(value: &Value) -> Option<Permission>
    ensures { result ≡ permission_at (view value.now) }
{
    let text = text_at(value, "permission")?;
    named(&PERMISSIONS, text)
}

/// The moment, which may be absent, at the member of this name.
pub(crate) fn time_at(value: &Value, name: &str) -> Option<Option<Moment>>
    ensures { result ≡ time_at name.now (view value.now) }
{
    time_or_none(member(value, name)?)
}

/// A moment that may be absent: null, or the text of a moment.
fn time_or_none(value: &Value) -> Option<Option<Moment>>
    ensures { result ≡ time_or_none (view value.now) }
{
    if let Value::Null = value {
        return Some(None);
    }
    let text = value.as_str()?;
    let moment = written_time(text.as_bytes())?;
    Some(Some(moment))
}

/// The moment with this text.
fn written_time(text: &[u8]) -> Option<Moment>
    ensures { result ≡ time_of text.now }
{
    read_time(text)
}
