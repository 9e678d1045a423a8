//! Refusals of commands.
ghost use Rattle.std.specs.Prelude.{◌≡◌};
ghost use Rattle.site_types.specs.Refusal.{kind_number, refusal_number, refusal_name, refusal_carried};

use site_ids::{PageId, TaskId, UserId};
use std::error::Error;
use std::fmt;

/// The kinds of things that a command names by number, in the order in which they are tried.
#[derive(Clone, Copy, Debug, PartialEq, Eq)]
pub enum NameKind {
    /// A user, kind 1.
    User,
    /// A group, kind 2.
    Group,
    /// A task of moderation, kind 3.
    Task,
    /// A workflow, kind 4.
    Workflow,
}

/// Why a command is refused, in the order in which the rules are tried.
#[derive(Clone, Copy, Debug, PartialEq, Eq)]
pub enum Refusal {
    /// The number names no page.
    NoPage(PageId),
    /// The root can't be the command's page.
    IsRoot,
    /// The caller lacks a need: 1 add, 2 change, 3 publish, 4 bulk_delete, 5 lock, 6 unlock,
    /// 7 superuser, 8 approve.
    Denied(u8),
    /// This other user has locked the page.
    Locked(UserId),
    /// The page is an alias.
    IsAlias,
    /// The page's moderation is in progress at this task, and the caller is no moderator of it.
    InModeration(TaskId),
    /// The page would come below itself.
    IntoItself,
    /// This other page below the new parent has the slug.
    SlugTaken(PageId),
    /// A step above 1,679,615 would be needed.
    StepsFull,
    /// A page would have more than 63 steps.
    TooDeep,
    /// A page's URL would have more than 8,192 bytes.
    UrlTooLong,
    /// More new numbers of some kind are needed than are left.
    IdsFull,
    /// The caller has no desk on that page.
    NoDesk,
    /// The page has a desk already, of this user.
    DeskTaken(UserId),
    /// The command would change nothing.
    NothingNew,
    /// The page is not live.
    NotLive,
    /// Neither the page nor a page above it has a workflow.
    NoWorkflow,
    /// The page's moderation does not allow the event.
    NotModerated,
    /// A named user, group, task or workflow does not exist; the least kind.
    NoName(NameKind),
    /// The revision to be published has expired, or expires before it goes live.
    AlreadyExpired,
    /// The contents would be above 1,073,741,824 bytes, or 4,096 desks are open.
    ContentFull,
    /// The log or the journal file has no room for the entry.
    LogFull,
}

impl NameKind {
    /// The kind's number, from 1 to 4.
    pub fn number(self) -> u8
        ensures { result ≡ kind_number self }
    {
        match self {
            NameKind::User => 1,
            NameKind::Group => 2,
            NameKind::Task => 3,
            NameKind::Workflow => 4,
        }
    }
}

impl Refusal {
    /// The refusal's number on the wire, from 1 to 22.
    pub fn number(&self) -> u8
        ensures { result ≡ refusal_number self.now }
    {
        match self {
            Refusal::NoPage(_) => 1,
            Refusal::IsRoot => 2,
            Refusal::Denied(_) => 3,
            Refusal::Locked(_) => 4,
            Refusal::IsAlias => 5,
            Refusal::InModeration(_) => 6,
            Refusal::IntoItself => 7,
            Refusal::SlugTaken(_) => 8,
            Refusal::StepsFull => 9,
            Refusal::TooDeep => 10,
            Refusal::UrlTooLong => 11,
            Refusal::IdsFull => 12,
            Refusal::NoDesk => 13,
            Refusal::DeskTaken(_) => 14,
            Refusal::NothingNew => 15,
            Refusal::NotLive => 16,
            Refusal::NoWorkflow => 17,
            Refusal::NotModerated => 18,
            Refusal::NoName(_) => 19,
            Refusal::AlreadyExpired => 20,
            Refusal::ContentFull => 21,
            Refusal::LogFull => 22,
        }
    }

    /// The refusal's name on the wire: that of its variant.
    pub fn name(&self) -> &'static str
        ensures { result.now ≡ refusal_name self.now }
    {
        match self {
            Refusal::NoPage(_) => "NoPage",
            Refusal::IsRoot => "IsRoot",
            Refusal::Denied(_) => "Denied",
            Refusal::Locked(_) => "Locked",
            Refusal::IsAlias => "IsAlias",
            Refusal::InModeration(_) => "InModeration",
            Refusal::IntoItself => "IntoItself",
            Refusal::SlugTaken(_) => "SlugTaken",
            Refusal::StepsFull => "StepsFull",
            Refusal::TooDeep => "TooDeep",
            Refusal::UrlTooLong => "UrlTooLong",
            Refusal::IdsFull => "IdsFull",
            Refusal::NoDesk => "NoDesk",
            Refusal::DeskTaken(_) => "DeskTaken",
            Refusal::NothingNew => "NothingNew",
            Refusal::NotLive => "NotLive",
            Refusal::NoWorkflow => "NoWorkflow",
            Refusal::NotModerated => "NotModerated",
            Refusal::NoName(_) => "NoName",
            Refusal::AlreadyExpired => "AlreadyExpired",
            Refusal::ContentFull => "ContentFull",
            Refusal::LogFull => "LogFull",
        }
    }

    /// The value that the refusal carries, if it carries one: the number of a page, user or task,
    /// of a need, or of a kind of name.
    pub fn carried(&self) -> Option<u32>
        ensures { result ≡ refusal_carried self.now }
    {
        match self {
            Refusal::NoPage(page) | Refusal::SlugTaken(page) => Some(page.get()),
            Refusal::Denied(need) => Some(u32::from(*need)),
            Refusal::Locked(user) | Refusal::DeskTaken(user) => Some(user.get()),
            Refusal::InModeration(task) => Some(task.get()),
            Refusal::NoName(kind) => Some(u32::from(kind.number())),
            _ => None,
        }
    }
}

impl fmt::Display for Refusal {
    fn fmt<W: fmt::Write>(&self, f: &mut fmt::Formatter<W>) -> fmt::Result {
        write!(f, "refused by rule {}: {}", self.number(), self.name())
    }
}

impl Error for Refusal {}
