//! Laws of the JSON form of contents. Each is a function that does nothing: its contract is the
//! law.
ghost use Rattle.json_model.specs.Laws.{ContentReadsBack, ContentHasOneForm, ContentKeepsLimits, ContentIsShallow, ContentHasNoFloat};

/// What is written of a content is read as that content.
pub fn content_reads_back()
    ensures { ContentReadsBack }
{}

/// A content has one form: what is read as it is what is written of it.
pub fn content_has_one_form()
    ensures { ContentHasOneForm }
{}

/// What is read as a content keeps the limits of contents and links to ids of pages alone.
pub fn content_keeps_limits()
    ensures { ContentKeepsLimits }
{}

/// Arrays and objects nest at most four deep in a content.
pub fn content_is_shallow()
    ensures { ContentIsShallow }
{}

/// No number of a content is a float.
pub fn content_has_no_float()
    ensures { ContentHasNoFloat }
{}
