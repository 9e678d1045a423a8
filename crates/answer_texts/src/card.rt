//! The body of a card.
ghost use Rattle.std.specs.Prelude.{◌≡◌, Some, IfOk, OnOk};
ghost use Rattle.serde_json.specs.View.{view, members_view};
ghost use Rattle.wire_model.specs.Answers.{card_data, same_id, has_unpublished_changes};
ghost use Rattle.answer_texts.specs.CardParts.{with_place, with_owner, with_revisions, with_moments};

use crate::parts::{moderation_status, moderation_task, number_or_zero, text_value, time_value};
use public_view::Card;
use serde_json::{Map, Value, put};
use site_types::{Body, NoMemory, PageId, RevisionId, UserId};
use std::alloc::Global;

/// The body of a card, an object of 21 members.
pub(crate) fn card_value(alloc: Global, card: &Card) -> Result<Value, NoMemory>
    ensures { IfOk result (λ value. view value ≡ card_data card.now) }
{
    let mut members = Map::new(alloc);
    put_place(alloc, &mut members, card)?;
    put_owner(alloc, &mut members, card)?;
    put_revisions(alloc, &mut members, card)?;
    put_moments(alloc, &mut members, card)?;
    Ok(Value::Object(members))
}

/// Puts the members that tell the page's place in the tree.
fn put_place(alloc: Global, members: &mut Map<String, Value>, card: &Card) -> Result<(), NoMemory>
    ensures { OnOk result (members_view members.new.entries
        ≡ with_place card.now (members_view members.old.entries)) }
{
    put(members, alloc, "depth", Value::from(card.depth))?;
    put(members, alloc, "id", Value::from(card.id.get()))?;
    put(members, alloc, "numchild", Value::from(card.numchild))?;
    put(
        members,
        alloc,
        "path",
        text_value(alloc, card.path.as_slice())?,
    )?;
    put(
        members,
        alloc,
        "slug",
        text_value(alloc, card.slug.as_slice())?,
    )?;
    put(
        members,
        alloc,
        "url",
        text_value(alloc, card.url.as_slice())?,
    )?;
    Ok(())
}

/// Puts the members that tell whose page it is, what it is an alias of, and its moderation.
fn put_owner(alloc: Global, members: &mut Map<String, Value>, card: &Card) -> Result<(), NoMemory>
    ensures { OnOk result (members_view members.new.entries
        ≡ with_owner card.now (members_view members.old.entries)) }
{
    let body = &card.body;
    let status = Value::try_from_str(alloc, moderation_status(&body.moderation))?;
    put(
        members,
        alloc,
        "alias_of",
        number_or_zero(body.source.map(PageId::get)),
    )?;
    put(
        members,
        alloc,
        "locked_by",
        number_or_zero(body.locked_by.map(UserId::get)),
    )?;
    put(members, alloc, "moderation", status)?;
    put(members, alloc, "owner", Value::from(body.owner.get()))?;
    put(
        members,
        alloc,
        "task",
        Value::from(moderation_task(&body.moderation)),
    )?;
    Ok(())
}

/// Puts the members that tell its revisions, and whether it is live.
fn put_revisions(
    alloc: Global,
    members: &mut Map<String, Value>,
    card: &Card,
) -> Result<(), NoMemory>
    ensures { OnOk result (members_view members.new.entries
        ≡ with_revisions card.now (members_view members.old.entries)) }
{
    let body = &card.body;
    let changes = has_unpublished_changes(body);
    put(members, alloc, "expired", Value::from(body.expired))?;
    put(
        members,
        alloc,
        "latest",
        number_or_zero(body.latest.map(RevisionId::get)),
    )?;
    put(members, alloc, "live", Value::from(body.live))?;
    put(
        members,
        alloc,
        "scheduled",
        number_or_zero(body.scheduled.map(RevisionId::get)),
    )?;
    put(
        members,
        alloc,
        "shown",
        number_or_zero(body.shown.map(RevisionId::get)),
    )?;
    put(members, alloc, "unpublished_changes", Value::from(changes))?;
    Ok(())
}

/// Puts its title and its moments.
fn put_moments(alloc: Global, members: &mut Map<String, Value>, card: &Card) -> Result<(), NoMemory>
    ensures { OnOk result (members_view members.new.entries
        ≡ with_moments card.now (members_view members.old.entries)) }
{
    let body = &card.body;
    put(
        members,
        alloc,
        "expire_at",
        time_value(alloc, card.expire_at)?,
    )?;
    put(
        members,
        alloc,
        "first_published_at",
        time_value(alloc, body.first_published)?,
    )?;
    put(
        members,
        alloc,
        "last_published_at",
        time_value(alloc, body.last_published)?,
    )?;
    put(
        members,
        alloc,
        "title",
        Value::try_from_str(alloc, card.title.as_str())?,
    )?;
    Ok(())
}

/// Whether the page has changes that are not public: it has a revision, and is not live or shows
/// another than the latest.
fn has_unpublished_changes(body: &Body) -> bool
    ensures { result ≡ has_unpublished_changes body.now body.now.latest }
{
    match body.latest {
        Some(latest) => !body.live || !is_shown(body.shown, latest),
        None => false,
    }
}

/// Whether this revision is the one that is shown.
fn is_shown(shown: Option<RevisionId>, latest: RevisionId) -> bool
    ensures { result ≡ same_id shown (Some latest) }
{
    match shown {
        Some(shown) => shown == latest,
        None => false,
    }
}
