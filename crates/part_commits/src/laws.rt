//! What leaves the tables in step, and tells of pages. Each is a function that does nothing: its contract is
//! the law.
ghost use Rattle.part_commits.specs.Laws.{SoundStepsStay, NothingStays, SoundStepsTell};

/// A change from a sound world to another leaves each page that it does not touch its moments.
pub fn sound_steps_stay()
    ensures { SoundStepsStay }
{}

/// A change of nothing but the time and the next ids leaves each page its moments.
pub fn nothing_stays()
    ensures { NothingStays }
{}

/// A change from a sound world to another tells all of the pages after it.
pub fn sound_steps_tell()
    ensures { SoundStepsTell }
{}
