//! What is kept of a page after it is published, unpublished, locked or unlocked, or its moment comes.
ghost use Rattle.std.specs.Prelude.{◌≡◌};
ghost use Rattle.site_model.specs.Bodies.{is_after};
ghost use Rattle.site_model.specs.Publishing as model;
ghost use Rattle.publishing.specs.Bodies as bodies;

use site_types::{Body, Moment, Revision, UserId};

/// Whether the go-live of a revision is after this moment.
pub fn waits(revision: &Revision, t: Moment) -> bool
    ensures { result ≡ is_after t revision.now.go_live }
{
    match revision.go_live {
        Some(go_live) => t < go_live,
        None => false,
    }
}

/// Whether a revision has an expiry of at most this moment.
pub fn has_expired(revision: &Revision, t: Moment) -> bool
    ensures { result ≡ model.has_expired t revision.now }
{
    match revision.expire {
        Some(expire) => expire <= t,
        None => false,
    }
}

/// A page with these fields after a revision of it was published at `t`: it is scheduled if its
/// go-live is after `t`, and else live.
pub fn published_body(revision: &Revision, body: &Body, t: Moment) -> Body
    ensures { result ≡ model.published_body t revision.now body.now }
{
    if waits(revision, t) {
        return Body {
            scheduled: Some(revision.id),
            ..*body
        };
    }
    Body {
        live: true,
        expired: false,
        shown: Some(revision.id),
        scheduled: None,
        first_published: body.first_published.or(Some(t)),
        last_published: Some(t),
        ..*body
    }
}

/// A page with these fields after it was taken out of the public, with an empty schedule.
pub fn unpublished_body(body: &Body) -> Body
    ensures { result ≡ bodies.unpublished_body body.now }
{
    Body {
        live: false,
        scheduled: None,
        ..*body
    }
}

/// A page with these fields after its expiry; its schedule stays.
pub fn expired_body(body: &Body) -> Body
    ensures { result ≡ bodies.expired_body body.now }
{
    Body {
        live: false,
        expired: true,
        ..*body
    }
}

/// A page with these fields after its schedule was emptied.
pub fn unscheduled_body(body: &Body) -> Body
    ensures { result ≡ bodies.unscheduled_body body.now }
{
    Body {
        scheduled: None,
        ..*body
    }
}

/// A page with these fields that a user has locked.
pub fn locked_body(body: &Body, user: UserId) -> Body
    ensures { result ≡ bodies.locked_body user body.now }
{
    Body {
        locked_by: Some(user),
        ..*body
    }
}

/// A page with these fields that nobody has locked.
pub fn unlocked_body(body: &Body) -> Body
    ensures { result ≡ bodies.unlocked_body body.now }
{
    Body {
        locked_by: None,
        ..*body
    }
}
