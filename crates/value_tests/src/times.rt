//! Moments and their texts, checked against ISO 8601 and RFC 3339.
use site_types::Moment;
use std::test::Fail;
use time_table::{print_time, read_time};

/// A moment and its text.
struct TimeRow {
    seconds: u64,
    text: &'static [u8],
}

/// Moments: the first, leap days, an ordinary one, a century without a leap day, and the last.
const TIMES: [TimeRow; 6] = [
    TimeRow {
        seconds: 0,
        text: b"1970-01-01T00:00:00Z",
    },
    TimeRow {
        seconds: 951_782_400,
        text: b"2000-02-29T00:00:00Z",
    },
    TimeRow {
        seconds: 1_700_000_000,
        text: b"2023-11-14T22:13:20Z",
    },
    TimeRow {
        seconds: 4_107_542_399,
        text: b"2100-02-28T23:59:59Z",
    },
    TimeRow {
        seconds: 4_107_542_400,
        text: b"2100-03-01T00:00:00Z",
    },
    TimeRow {
        seconds: 253_370_764_799,
        text: b"9998-12-31T23:59:59Z",
    },
];

/// What is no text of a moment.
const REFUSED: [&[u8]; 10] = [
    b"2023-11-14t22:13:20Z",
    b"2023-11-14T22:13:20z",
    b"2100-02-29T22:13:20Z",
    b"2023-04-31T22:13:20Z",
    b"2023-11-14T24:00:00Z",
    b"2016-12-31T23:59:60Z",
    b"9999-01-01T00:00:00Z",
    b"1969-12-31T23:59:59Z",
    b"+023-11-14T22:13:20Z",
    b"2023-11-14T22:13:200Z",
];

#[test]
fn moments_have_their_texts(rt: HostRuntime) -> Result<(), Fail> {
    for row in &TIMES {
        let moment = Moment::new(row.seconds).ok_or("a moment")?;
        assert!(rt; print_time(moment).as_slice() == row.text);
        assert_eq!(rt; read_time(row.text), Some(moment));
    }
    Ok(())
}

#[test]
fn other_texts_are_refused(rt: HostRuntime) {
    for text in REFUSED {
        assert_eq!(rt; read_time(text), None);
    }
}
