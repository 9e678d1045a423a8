//! The paths of the API, and how ids stand in them.

/// The path of the API, at which no page is for everybody.
pub const API: &[u8] = b"/api";

/// The front of the paths below it.
pub const API_FRONT: &[u8] = b"/api/";

/// The most digits that an id has in a path.
pub const MAX_ID_DIGITS: usize = 7;

/// The most groups of a task, and the most tasks of a workflow, in a body.
pub const MAX_NAMED_IDS: usize = 16;
