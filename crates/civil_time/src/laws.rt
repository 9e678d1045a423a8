//! Laws of texts and moments. Each is a function that does nothing: its contract is the law.
ghost use Rattle.civil_time.specs.Laws.{EveryMomentHasItsText, OnlyMomentsHaveTexts, OneText, OneMoment, TwentyBytes, PlainBytes};

/// Each moment up to the last has its text.
pub fn every_moment_has_its_text()
    ensures { EveryMomentHasItsText }
{}

/// What has a text is a moment up to the last.
pub fn only_moments_have_texts()
    ensures { OnlyMomentsHaveTexts }
{}

/// A moment has one text.
pub fn one_text()
    ensures { OneText }
{}

/// A text is that of one moment.
pub fn one_moment()
    ensures { OneMoment }
{}

/// Each text has twenty bytes.
pub fn twenty_bytes()
    ensures { TwentyBytes }
{}

/// Each byte of a text is from `-` to `Z`, so that the text stands in JSON as it is.
pub fn plain_bytes()
    ensures { PlainBytes }
{}
