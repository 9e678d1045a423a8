//! Civil seconds and moments, by the calendar of `jiff`.
ghost use Rattle.std.specs.Prelude.{◌≡◌, SomeIff};
ghost use Rattle.civil_time.specs.Civil.{IsCivil, moment_of};
ghost use Rattle.civil_time.specs.TimeText as TimeText;
ghost use Rattle.time_table.specs.Parts.{civil_of, AreWritten};

use crate::parts::Parts;
use civil_time::{FIRST_YEAR, LAST_YEAR};
use jiff::Timestamp;
use jiff::civil::DateTime;
use jiff::tz::Offset;
use site_types::Moment;

/// The moment of a civil second of the years 1970 to 9998, or `None` exactly where there is none.
pub(crate) fn moment_at(parts: &Parts) -> Option<Moment>
    requires { AreWritten (civil_of parts.now) }
    ensures { SomeIff result (IsCivil (civil_of parts.now)) (moment_of (civil_of parts.now)) }
{
    if parts.year < FIRST_YEAR || parts.year > LAST_YEAR {
        return None;
    }
    let Ok(civil) = DateTime::new(
        parts.year as i16,
        parts.month as i8,
        parts.day as i8,
        parts.hour as i8,
        parts.minute as i8,
        parts.second as i8,
        0,
    ) else {
        return None;
    };
    let Ok(timestamp) = Offset::UTC.to_timestamp(civil) else {
        unreachable!()
    };
    Moment::new(timestamp.as_second() as u64)
}

/// The civil second at a moment.
pub(crate) fn civil_at(at: Moment) -> Parts
    ensures value { civil_of result ≡ TimeText.civil_at at }
    ensures exists { IsCivil (civil_of result) }
{
    let Ok(timestamp) = Timestamp::from_second(at.get() as i64) else {
        unreachable!()
    };
    let civil = Offset::UTC.to_datetime(timestamp);
    Parts {
        year: civil.year() as u16,
        month: civil.month() as u8,
        day: civil.day() as u8,
        hour: civil.hour() as u8,
        minute: civil.minute() as u8,
        second: civil.second() as u8,
    }
}
