//! Reading and printing the text of a moment.
ghost use Rattle.std.specs.Prelude.{◌≡◌, ℕ, IfSome, IsNone};
ghost use Rattle.civil_time.specs.TimeText.{time_text, IsTimeText};

use crate::civil::{civil_at, moment_at};
use crate::parts::{print_parts, read_parts};
use site_types::Moment;

/// The moment with this text, or `None` exactly where the text is not of the form
/// `YYYY-MM-DDTHH:MM:SSZ`, or writes no civil second that exists in the years 1970 to 9998.
///
/// There are no leap seconds: a second is 00 to 59. `T` and `Z` are upper case.
pub fn read_time(text: &[u8]) -> Option<Moment>
    ensures some { IfSome result (λ moment. IsTimeText text.now moment) }
    ensures none { IsNone result → (moment : ℕ) → ¬ (IsTimeText text.now moment) }
{
    let Some(parts) = read_parts(text) else {
        return None;
    };
    moment_at(&parts)
}

/// The text of the moment, such as `2023-11-14T22:13:20Z`.
pub fn print_time(at: Moment) -> [u8; 20]
    ensures { result ≡ time_text at }
{
    print_parts(&civil_at(at))
}
