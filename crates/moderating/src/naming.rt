//! Whether a command names what is not there.
ghost use Rattle.std.specs.Prelude.{◌≡◌, ◌+◌, not};
ghost use Rattle.site_model.specs.Rules.{is_given};
ghost use Rattle.site_model.specs.Tasks.{one_missing};

use site_types::Ids;

/// Whether one of the ids is not from 1 to the number of those that there are.
pub(crate) fn one_missing(ids: &Ids, count: u32) -> bool
    ensures { result ≡ one_missing (count + 1) ids.now }
{
    ids.as_slice().iter().any(|id| is_missing(*id, count))
}

/// Whether an id is not from 1 to the number of those that there are.
pub(crate) fn is_missing(id: u32, count: u32) -> bool
    ensures { result ≡ not (is_given (count + 1) id) }
{
    id == 0 || count < id
}
