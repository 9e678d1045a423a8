//! What contents take.
ghost use Rattle.std.specs.Prelude.{◌≡◌, nat_lt};
ghost use Rattle.site_model.specs.Limits.{contents_length};

use site_types::Revision;

/// Whether the contents of these revisions take more than so many bytes. A look at each.
pub fn weighs_more(room: u64, revisions: &[Revision]) -> bool
    ensures { result ≡ nat_lt room (contents_length revisions.now) }
{
    let mut left = room;
    for revision in revisions {
        let form = revision.content.form_length();
        if left < form {
            return true;
        }
        left -= form;
    }
    false
}
