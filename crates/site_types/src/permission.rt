//! Permissions.

/// What a grant allows at a page and below it (Wagtail, page permissions).
#[derive(Clone, Copy, Debug, PartialEq, Eq)]
pub enum Permission {
    /// To add pages below the page, and to edit pages that one owns.
    Add,
    /// To edit the page.
    Change,
    /// To publish and unpublish the page.
    Publish,
    /// To delete a page with kids.
    BulkDelete,
    /// To lock the page.
    Lock,
    /// To unlock a page that another user has locked.
    Unlock,
}
