//! The pages, commands, replies and refusals of a page tree.
#![tactic(auto)]

mod block;
mod body;
mod command;
mod content;
mod entry;
mod limits;
mod measure;
mod moderation;
mod page_row;
mod permission;
mod position;
mod refusal;
mod reply;
mod revision;
mod world_rows;

pub use block::{Block, Blocks};
pub use body::Body;
pub use command::Command;
pub use content::Content;
pub use entry::Entry;
pub use limits::{MAX_BLOCKS, MAX_CONTENT_BYTES, MAX_LIST_TEXTS, MAX_TITLE_BYTES};
pub use moderation::{Moderation, ModerationStatus};
pub use page_row::PageRow;
pub use permission::Permission;
pub use position::Position;
pub use refusal::{NameKind, Refusal};
pub use reply::Reply;
pub use revision::Revision;
pub use site_ids::{
    Bytes, DIGEST_BYTES, Digest, GroupId, Ids, Items, LAST_GROUP_ID, LAST_MOMENT, LAST_PAGE_ID,
    LAST_REVISION_ID, LAST_TASK_ID, LAST_USER_ID, LAST_WORKFLOW_ID, MAX_PATH_BYTES, MAX_SLUG_BYTES,
    Moment, NoMemory, PageId, PathText, RevisionId, Slug, TaskId, Text, Texts, Url, UserId,
    WorkflowId,
};
pub use world_rows::{DeskRow, Grant, Member, UserRow, WorldRows};
