//! The numbers, moments and texts of a page tree.
#![tactic(auto)]

mod bytes;
mod digest;
mod id_list;
mod ids;
mod items;
mod moment;
mod no_memory;
mod path_text;
mod slug;
mod text;
mod texts;
mod url;

pub use bytes::Bytes;
pub use digest::{DIGEST_BYTES, Digest};
pub use id_list::Ids;
pub use ids::{
    GroupId, LAST_GROUP_ID, LAST_PAGE_ID, LAST_REVISION_ID, LAST_TASK_ID, LAST_USER_ID,
    LAST_WORKFLOW_ID, PageId, RevisionId, TaskId, UserId, WorkflowId,
};
pub use items::Items;
pub use moment::{LAST_MOMENT, Moment};
pub use no_memory::NoMemory;
pub use path_text::{MAX_PATH_BYTES, PathText};
pub use slug::{MAX_SLUG_BYTES, Slug};
pub use text::Text;
pub use texts::Texts;
pub use url::Url;
