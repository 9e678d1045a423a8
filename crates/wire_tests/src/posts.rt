//! What bodies on desks ask for, the moments of a filing, and lists of groups and tasks.
use api_routes::{Call, Method, Request, RouteFault, Routes};
use site_types::{Command, Ids, Moment, WorkflowId};
use std::test::Fail;

/// A path, a body that is posted there, and what it asks for.
struct PostRow {
    path: &'static [u8],
    body: &'static [u8],
    asked: Asked,
}

/// What a request asks for, in short.
#[derive(Clone, Copy, Debug, PartialEq, Eq)]
enum Asked {
    /// To open a desk on this page.
    Open(u32),
    /// To save a text on this page, with a title of so many bytes.
    Save(u32, usize),
    /// To file the text on this page, with its go-live and its expiry.
    File(u32, Option<u64>, Option<u64>),
    /// To define a task with these three groups.
    Task([u32; 3]),
    /// To define a workflow with these three tasks.
    Workflow([u32; 3]),
    /// To give this page this workflow, or none.
    Assign(u32, Option<u32>),
    /// Nothing, since the body is not of the form.
    Form,
    /// Something else.
    Other,
}

/// Desks that are opened and saved, and filings with moments, without them and out of form; groups,
/// which come out rising, tasks, which keep their order, and a workflow that is none.
const POSTS: [PostRow; 13] = [
    PostRow {
        path: b"/api/tasks",
        body: b"{\"groups\":[65535,1,3]}",
        asked: Asked::Task([1, 3, 65_535]),
    },
    PostRow {
        path: b"/api/tasks",
        body: b"{\"groups\":[1,3,1]}",
        asked: Asked::Form,
    },
    PostRow {
        path: b"/api/workflows",
        body: b"{\"tasks\":[2,1,2]}",
        asked: Asked::Workflow([2, 1, 2]),
    },
    PostRow {
        path: b"/api/assign",
        body: b"{\"page\":2,\"workflow\":7}",
        asked: Asked::Assign(2, Some(7)),
    },
    PostRow {
        path: b"/api/assign",
        body: b"{\"page\":2,\"workflow\":0}",
        asked: Asked::Assign(2, None),
    },
    PostRow {
        path: b"/api/open",
        body: b"{\"page\":2}",
        asked: Asked::Open(2),
    },
    PostRow {
        path: b"/api/save",
        body: b"{\"content\":{\"blocks\":[],\"title\":\"New\"},\"page\":2}",
        asked: Asked::Save(2, 3),
    },
    PostRow {
        path: b"/api/file",
        body: b"{\"expire_at\":null,\"go_live_at\":null,\"page\":2}",
        asked: Asked::File(2, None, None),
    },
    PostRow {
        path: b"/api/file",
        body: b"{\"expire_at\":\"2023-11-14T22:13:20Z\",\"go_live_at\":\"1970-01-01T00:00:00Z\",\
            \"page\":2}",
        asked: Asked::File(2, Some(0), Some(1_700_000_000)),
    },
    PostRow {
        path: b"/api/file",
        body: b"{\"expire_at\":null,\"go_live_at\":\"2023-11-14t22:13:20Z\",\"page\":2}",
        asked: Asked::Form,
    },
    PostRow {
        path: b"/api/file",
        body: b"{\"expire_at\":\"2023-02-29T00:00:00Z\",\"go_live_at\":null,\"page\":2}",
        asked: Asked::Form,
    },
    PostRow {
        path: b"/api/file",
        body: b"{\"expire_at\":0,\"go_live_at\":null,\"page\":2}",
        asked: Asked::Form,
    },
    PostRow {
        path: b"/api/file",
        body: b"{\"go_live_at\":null,\"page\":2}",
        asked: Asked::Form,
    },
];

/// What a call asks for, in short.
fn asked_of(call: &Result<Call, RouteFault>) -> Asked {
    match call {
        Ok(Call::Run(command)) => command_of(command),
        Err(RouteFault::Form) => Asked::Form,
        _ => Asked::Other,
    }
}

/// What a command asks for, in short.
fn command_of(command: &Command) -> Asked {
    match command {
        Command::OpenDesk { page } => Asked::Open(page.get()),
        Command::SaveDesk { page, content } => Asked::Save(page.get(), content.title().len()),
        Command::File {
            page,
            go_live,
            expire,
        } => Asked::File(page.get(), seconds(*go_live), seconds(*expire)),
        Command::DefineTask { groups } => Asked::Task(three_of(groups)),
        Command::DefineWorkflow { tasks } => Asked::Workflow(three_of(tasks)),
        Command::Assign { page, workflow } => Asked::Assign(page.get(), number_of(*workflow)),
        _ => Asked::Other,
    }
}

/// The ids of a list of three, and zeros for any other.
fn three_of(ids: &Ids) -> [u32; 3] {
    match ids.as_slice() {
        [first, second, third] => [*first, *second, *third],
        _ => [0, 0, 0],
    }
}

/// The number of a workflow, if there is one.
fn number_of(workflow: Option<WorkflowId>) -> Option<u32> {
    match workflow {
        Some(id) => Some(id.get()),
        None => None,
    }
}

/// The seconds of a moment, if there is one.
fn seconds(at: Option<Moment>) -> Option<u64> {
    match at {
        Some(moment) => Some(moment.get()),
        None => None,
    }
}

#[test]
fn bodies_are_read(rt: HostRuntime) -> Result<(), Fail> {
    let alloc = rt.alloc();
    let routes = Routes::new(alloc)?;
    for row in &POSTS {
        let request = Request {
            method: Method::Post,
            path: row.path,
            token: None,
            body: row.body,
            close: false,
        };
        let call = routes.to_call(alloc, &request);
        assert_eq!(rt; asked_of(&call), row.asked);
    }
    Ok(())
}
