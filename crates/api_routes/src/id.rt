//! Ids in paths.
ghost use Rattle.std.specs.Prelude.{◌≡◌, ◌+◌, ◌<◌, length, min, true, IfSome, IfNone, false};
ghost use Rattle.std.specs.Char.{is_ascii_digit};
ghost use Rattle.std.specs.List.{list_all};
ghost use Rattle.std.specs.Str.Parse.{digits_value};
ghost use Rattle.wire_model.specs.Routes.{id_written};
ghost use Rattle.api_routes.specs.Calling.{capped_number};

use site_types::{LAST_PAGE_ID, PageId};
use wire_model::MAX_ID_DIGITS;

/// The page's id that a text writes with 1 to 7 digits, leading zeros among them: 1 to 1,000,000.
pub fn written_id(text: &[u8]) -> Option<PageId>
    ensures { result ≡ id_written text.now }
{
    if text.is_empty() {
        return None;
    }
    if text.len() > MAX_ID_DIGITS {
        return None;
    }
    PageId::new(written_number(text)?)
}

/// The number that digits write, and one above the last id if it is greater: a number that is too
/// large stays so.
fn written_number(text: &[u8]) -> Option<u32>
    ensures { result ≡ capped_number text.now }
{
    let mut number: u32 = 0;
    for b in text {
        if !b.is_ascii_digit() {
            return None;
        }
        number = (number * 10 + u32::from(*b - b'0')).min(LAST_PAGE_ID + 1);
    }
    Some(number)
}
