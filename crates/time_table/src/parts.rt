//! The parts of a civil second as a text writes them.
ghost use Rattle.std.specs.Prelude.{◌≡◌, ℕ, ◌↔◌, ◌<◌, IsTrue, IfSome, IsNone};
ghost use Rattle.civil_time.specs.Civil.{Civil, civil_text};
ghost use Rattle.time_table.specs.Parts.{civil_of, AreWritten, HasMarks};

use crate::digits::{four_digits, read_four, read_two, two_digits};

/// A date and a time of day, which need not exist.
#[derive(Clone, Copy)]
pub(crate) struct Parts {
    pub year: u16,
    pub month: u8,
    pub day: u8,
    pub hour: u8,
    pub minute: u8,
    pub second: u8,
}

/// Whether the text has the length and the marks of a time's text.
fn has_marks(text: &[u8]) -> bool
    ensures { IsTrue result ↔ HasMarks text.now }
{
    text.len() == 20
        && text[4] == b'-'
        && text[7] == b'-'
        && text[10] == b'T'
        && text[13] == b':'
        && text[16] == b':'
        && text[19] == b'Z'
}

/// The parts that a text writes, or `None` exactly where no parts have it.
pub(crate) fn read_parts(text: &[u8]) -> Option<Parts>
    ensures some { IfSome result
        (λ parts. AreWritten (civil_of parts) × (text.now ≡ civil_text (civil_of parts))) }
    ensures none { IsNone result
        → (civil : Civil) → AreWritten civil → ¬ (text.now ≡ civil_text civil) }
{
    if !has_marks(text) {
        return None;
    }
    Some(Parts {
        year: read_four(&text[..4])?,
        month: read_two(&text[5..7])?,
        day: read_two(&text[8..10])?,
        hour: read_two(&text[11..13])?,
        minute: read_two(&text[14..16])?,
        second: read_two(&text[17..19])?,
    })
}

/// The text that writes the parts.
pub(crate) fn print_parts(parts: &Parts) -> [u8; 20]
    requires { AreWritten (civil_of parts.now) }
    ensures { result ≡ civil_text (civil_of parts.now) }
{
    let [thousands, hundreds, decade, year] = four_digits(parts.year);
    let [months, month] = two_digits(parts.month);
    let [days, day] = two_digits(parts.day);
    let [hours, hour] = two_digits(parts.hour);
    let [minutes, minute] = two_digits(parts.minute);
    let [seconds, second] = two_digits(parts.second);
    [
        thousands, hundreds, decade, year, b'-', months, month, b'-', days, day, b'T', hours, hour,
        b':', minutes, minute, b':', seconds, second, b'Z',
    ]
}
