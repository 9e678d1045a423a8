//! Laws of the tree and its rows. Each is a function that does nothing: its contract is the law.
ghost use Rattle.page_tree.specs.Laws.{PagesHaveRows, AppendAddsRow, AppendedPath, AppendedUrl, RowsTellWalks};

/// A page is in the tree exactly where it has a row.
pub fn pages_have_rows()
    ensures { PagesHaveRows }
{}

/// A page appended below the root gives the rows with the new one in its place.
pub fn append_adds_row()
    ensures { AppendAddsRow }
{}

/// The path of a page appended below the root ends with the last sibling's step plus one.
pub fn appended_path()
    ensures { AppendedPath }
{}

/// The URL of a page appended below the root is `/`, its slug and `/`.
pub fn appended_url()
    ensures { AppendedUrl }
{}

/// Where no two pages have one id, each row's path and URL are those of the walk to its id.
pub fn rows_tell_walks()
    ensures { RowsTellWalks }
{}
