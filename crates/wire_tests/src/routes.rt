//! Calls that no session shows: a router for one request, and paths that are not UTF-8.
use api_routes::{Call, Method, Request, RouteFault, Routes, to_call};
use site_types::Command;
use std::test::Fail;

/// A request of this method, path and body, without a token.
fn request<'b>(method: Method, path: &'b [u8], body: &'b [u8]) -> Request<'b> {
    Request {
        method,
        path,
        token: None,
        body,
        close: false,
    }
}

/// The page that a call deletes, if it deletes one.
fn deleted(asked: &Result<Call, RouteFault>) -> Option<u32> {
    match asked {
        Ok(Call::Run(Command::Delete { page })) => Some(page.get()),
        _ => None,
    }
}

#[test]
fn a_request_is_read_by_a_router_of_its_own(rt: HostRuntime) -> Result<(), Fail> {
    let asked = to_call(
        rt.alloc(),
        &request(Method::Post, b"/api/delete", b"{\"page\":3}"),
    );
    assert_eq!(rt; deleted(&asked), Some(3));
    Ok(())
}

/// A path that is not UTF-8, and why a request to it asks nothing.
struct BytePath {
    path: &'static [u8],
    fault: &'static str,
}

/// Paths that are not UTF-8, with a part at each front.
const BYTE_PATHS: [BytePath; 5] = [
    BytePath {
        path: b"/api/pages/\xff",
        fault: "not the form of the route",
    },
    BytePath {
        path: b"/api/refs/\xff",
        fault: "not the form of the route",
    },
    BytePath {
        path: b"/api/desks/\xc3",
        fault: "not the form of the route",
    },
    BytePath {
        path: b"/api/pages/\xff/",
        fault: "no route",
    },
    BytePath {
        path: b"/api/\xff",
        fault: "no route",
    },
];

#[test]
fn paths_that_are_not_utf8_have_their_route(rt: HostRuntime) -> Result<(), Fail> {
    let alloc = rt.alloc();
    let routes = Routes::new(alloc)?;
    for row in &BYTE_PATHS {
        let Err(fault) = routes.to_call(alloc, &request(Method::Get, row.path, b"")) else {
            return Err("a call".into());
        };
        let told = format!(in alloc; "{fault}")?;
        assert_eq!(rt; told.as_str(), row.fault);
    }
    Ok(())
}
