//! The table of routes. The router, the definition of routes and what is built share it: a route is
//! built where its row has a form.
use crate::form::{CommandForm, PageVerb, ReadForm};

/// A path to which commands are posted, and the form of their bodies, if the route is built.
pub type CommandRoute = (&'static str, Option<CommandForm>);

/// The front of paths whose last part names a page, and what is read of it, if the route is built.
pub type ReadRoute = (&'static str, Option<ReadForm>);

/// The routes of commands.
pub const COMMAND_ROUTES: [CommandRoute; 30] = [
    ("/api/pages", Some(CommandForm::Create)),
    ("/api/move", Some(CommandForm::Move)),
    ("/api/delete", Some(CommandForm::OnPage(PageVerb::Delete))),
    ("/api/slug", Some(CommandForm::SetSlug)),
    ("/api/alias", Some(CommandForm::Alias)),
    ("/api/detach", Some(CommandForm::OnPage(PageVerb::Detach))),
    ("/api/copy", Some(CommandForm::Copy)),
    ("/api/open", Some(CommandForm::OnPage(PageVerb::OpenDesk))),
    ("/api/save", Some(CommandForm::Save)),
    ("/api/shut", Some(CommandForm::OnPage(PageVerb::ShutDesk))),
    ("/api/file", Some(CommandForm::File)),
    ("/api/publish", Some(CommandForm::OnPage(PageVerb::Publish))),
    (
        "/api/unpublish",
        Some(CommandForm::OnPage(PageVerb::Unpublish)),
    ),
    (
        "/api/unschedule",
        Some(CommandForm::OnPage(PageVerb::Unschedule)),
    ),
    ("/api/lock", Some(CommandForm::OnPage(PageVerb::Lock))),
    ("/api/unlock", Some(CommandForm::OnPage(PageVerb::Unlock))),
    ("/api/purge", Some(CommandForm::OnPage(PageVerb::Purge))),
    ("/api/users", Some(CommandForm::DefineUser)),
    ("/api/groups", Some(CommandForm::DefineGroup)),
    ("/api/members", Some(CommandForm::Member)),
    ("/api/grants", Some(CommandForm::Grant)),
    ("/api/tick", Some(CommandForm::Tick)),
    ("/api/tasks", Some(CommandForm::DefineTask)),
    ("/api/workflows", Some(CommandForm::DefineWorkflow)),
    ("/api/assign", Some(CommandForm::Assign)),
    ("/api/submit", Some(CommandForm::OnPage(PageVerb::Submit))),
    ("/api/approve", Some(CommandForm::OnPage(PageVerb::Approve))),
    ("/api/reject", Some(CommandForm::OnPage(PageVerb::Reject))),
    ("/api/cancel", Some(CommandForm::OnPage(PageVerb::Cancel))),
    ("/api/checkpoint", None),
];

/// The routes of reads.
pub const READ_ROUTES: [ReadRoute; 3] = [
    ("/api/pages/", Some(ReadForm::Card)),
    ("/api/desks/", Some(ReadForm::Desk)),
    ("/api/refs/", Some(ReadForm::Refs)),
];
