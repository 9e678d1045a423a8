//! Laws of forms. Each is a function that does nothing: its contract is the law.

ghost use Rattle.content_codec.specs.Laws.{ContentsHaveOneReading, ContentsReadBack};

/// A content's form is of no other content and begins no other content's form.
pub fn contents_have_one_reading()
    ensures { ContentsHaveOneReading }
{}

/// What is written of a content is read as it, whatever stands after it.
pub fn contents_read_back()
    ensures { ContentsReadBack }
{}
