//! What becomes of users, groups, memberships and grants.
ghost use Rattle.std.specs.Prelude.{◌≡◌, ◌≤◌};
ghost use Rattle.flat_model.specs.Fits.{PeopleFit};
ghost use Rattle.flat_model.specs.Made.{people_made};
ghost use Rattle.site_part.specs.Plans.{people_needed};
ghost use Rattle.site_part.specs.Standing.{seen_people};

use grants::Grants;
use site_part::PeopleChange;

/// Changes users, groups, memberships and grants. It cannot fail.
///
/// It costs two look-ups for a user, and for a membership or a grant a search, and moves those
/// behind.
pub(crate) fn put_people(grants: &mut Grants, change: PeopleChange)
    requires fits { PeopleFit change (seen_people grants.old) }
    requires room { people_needed change ≤ grants.old.spare }
    ensures { seen_people grants.new ≡ people_made change (seen_people grants.old) }
{
    match change {
        PeopleChange::Nothing => {}
        PeopleChange::User { superuser, digest } => {
            grants.define_user(superuser, &digest);
        }
        PeopleChange::Group => {
            grants.define_group();
        }
        PeopleChange::Member { user, group, on } => grants.set_member(user, group, on),
        PeopleChange::Grant {
            group,
            page,
            permission,
            on,
        } => grants.set_grant(group, page, permission, on),
    }
}
