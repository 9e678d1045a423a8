//! The law of a connection's ends: a function that does nothing, whose contract is the law.
ghost use Rattle.request_loop.specs.Laws.{OneEnd};

/// The bytes that are left after a transcript give one end.
pub fn one_end()
    ensures { OneEnd }
{}
