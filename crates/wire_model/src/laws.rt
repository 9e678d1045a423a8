//! Laws of transcripts and of what requests ask for. Each is a function that does nothing: its
//! contract is the law.
ghost use Rattle.wire_model.specs.Laws.{TranscriptStays, TranscriptKeepsLegal, LongerBeginsWithShorter, OneTranscript, NothingAskedIsLast, ClosingIsLast, EachFormHasARoute, RoutesFit, RoutesKeepForm, TimesAreTexts};

/// A transcript stays one when more bytes follow.
pub fn transcript_stays()
    ensures { TranscriptStays }
{}

/// A transcript from a legal history on leaves a legal history.
pub fn transcript_keeps_legal()
    ensures { TranscriptKeepsLegal }
{}

/// Of two transcripts of the same bytes the longer begins with the shorter.
pub fn longer_begins_with_shorter()
    ensures { LongerBeginsWithShorter }
{}

/// There is one transcript of so many requests.
pub fn one_transcript()
    ensures { OneTranscript }
{}

/// If no request is left at the end of a transcript, no other is longer.
pub fn nothing_asked_is_last()
    ensures { NothingAskedIsLast }
{}

/// If the last request asks for closing, no other transcript is longer.
pub fn closing_is_last()
    ensures { ClosingIsLast }
{}

/// Commands of each form are posted to a route.
pub fn each_form_has_a_route()
    ensures { EachFormHasARoute }
{}

/// Each command that a request can ask for fits.
pub fn routes_fit()
    ensures { RoutesFit }
{}

/// Each command that a request can ask for keeps its form.
pub fn routes_keep_form()
    ensures { RoutesKeepForm }
{}

/// A text is read as a moment exactly if it is that moment's text.
pub fn times_are_texts()
    ensures { TimesAreTexts }
{}
