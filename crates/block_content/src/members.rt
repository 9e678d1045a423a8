//! Readers of JSON values and of the members of JSON objects. None of them takes memory.
ghost use Rattle.std.specs.Prelude.{◌≡◌, map, option_map, option_and_then};
ghost use Rattle.serde_json.specs.Find.{get, as_str, as_array};
ghost use Rattle.serde_json.specs.View.{view, items_view, members_view};
ghost use Rattle.json_model.specs.Members.{are_named, has_exactly, text_at, whole_of, whole_within, id_of, slug_of, truth_of};

use serde_json::{Map, Value};
use site_types::{LAST_PAGE_ID, PageId, Slug};

/// Whether the value is an object with exactly the members of these names, given in byte order.
pub fn has_exactly(value: &Value, names: &[&str]) -> bool
    ensures { result ≡ has_exactly (map (λ name. name.now) names.now) (view value.now) }
{
    match value {
        Value::Object(members) => are_named(members, names),
        _ => false,
    }
}

/// Whether the members have exactly these names, given in byte order.
fn are_named(members: &Map<String, Value>, names: &[&str]) -> bool
    ensures { result ≡ are_named (map (λ name. name.now) names.now)
        (members_view members.now.entries) }
{
    let mut wanted = names;
    for (name, _value) in members {
        let [first, others @ ..] = wanted else {
            return false;
        };
        if name.as_str() != *first {
            return false;
        }
        wanted = others;
    }
    wanted.is_empty()
}

/// The member of this name, or `None` exactly where the value is no object or has no such member.
pub fn member<'v>(value: &'v Value, name: &str) -> Option<&'v Value>
    ensures { option_map (λ found. view found.now) result ≡ get name.now (view value.now) }
{
    value.get(name)
}

/// The text at this member, or `None` exactly where there is none.
pub fn text_at<'v>(value: &'v Value, name: &str) -> Option<&'v str>
    ensures { option_map (λ text. text.now) result ≡ text_at name.now (view value.now) }
{
    member(value, name)?.as_str()
}

/// The items of an array, or `None` exactly where the value is none.
pub fn items(value: &Value) -> Option<&[Value]>
    ensures { option_map (λ list. items_view list.now) result ≡ as_array (view value.now) }
{
    Some(value.as_array()?.as_slice())
}

/// A whole number from `low` to `high`, or `None` exactly where the value is none. It is written
/// with digits alone: `1.0`, `1e0`, `-0` and `-1` are none.
pub fn whole_within(value: &Value, low: u64, high: u64) -> Option<u64>
    ensures { result ≡ whole_within low high (view value.now) }
{
    let number = value.as_u64()?;
    (low <= number && number <= high).then_some(number)
}

/// An id of a page, a whole number from 1 to 1,000,000, or `None` exactly where the value is none.
pub fn page_id(value: &Value) -> Option<PageId>
    ensures { result ≡ id_of (view value.now) }
{
    let number = whole_within(value, 1, LAST_PAGE_ID as u64)?;
    PageId::new(number as u32)
}

/// A slug, a text of 1 to 255 bytes out of ASCII letters, digits, `-` and `_`, or `None` exactly
/// where the value is none.
pub fn slug(value: &Value) -> Option<Slug>
    ensures { result ≡ slug_of (view value.now) }
{
    Slug::read(value.as_str()?.as_bytes())
}

/// A truth value, or `None` exactly where the value is none.
pub fn truth(value: &Value) -> Option<bool>
    ensures { result ≡ truth_of (view value.now) }
{
    value.as_bool()
}
