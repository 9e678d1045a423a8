//! Laws of requests at the front of bytes. Each is a function that does nothing: its contract is
//! the law.
ghost use Rattle.http_model.specs.Laws.{OneFront, WholeStays, RefusedStays, PartIsShort, AWholeTakesBytes, ARefusalHasItsStatus};

/// Bytes have one front.
pub fn one_front()
    ensures { OneFront }
{}

/// A whole request stays so with more bytes after it.
pub fn whole_stays()
    ensures { WholeStays }
{}

/// What is refused stays so with more bytes after it.
pub fn refused_stays()
    ensures { RefusedStays }
{}

/// What is only a part of a request is shorter than `MAX_HEAD + MAX_BODY`.
pub fn part_is_short()
    ensures { PartIsShort }
{}

/// A whole request takes at least one byte.
pub fn a_whole_takes_bytes()
    ensures { AWholeTakesBytes }
{}

/// What is refused is refused with 400, 413 or 431.
pub fn a_refusal_has_its_status()
    ensures { ARefusalHasItsStatus }
{}
