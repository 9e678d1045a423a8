//! The paths of requests.
ghost use Rattle.std.specs.Prelude.{◌≡◌, ◌==◌, not, map, option_map, IfOk};
ghost use Rattle.std.specs.List.{list_all};
ghost use Rattle.std.specs.Str.{IsUtf8};
ghost use Rattle.wire_model.specs.Routes.{route_of, beside, read_route, read_at, is_part, has_part_after, is_api, closed_path};
ghost use Rattle.api_routes.specs.Routing.{route_meant};
ghost use Rattle.api_routes.specs.Calling.{ends_with_slash};

use site_types::{NoMemory, Url};
use std::alloc::Global;
use wire_model::{API, API_FRONT, CommandForm, READ_ROUTES, ReadForm, ReadRoute};

/// What a path leads to.
#[derive(Drop)]
pub enum Route<'p> {
    /// Commands of this form.
    Command(CommandForm),
    /// What is read of the page that this text names, if it is an id.
    Read(ReadForm, &'p [u8]),
    /// What is not built yet.
    Unbuilt,
    /// No route.
    Nowhere,
    /// The page with this path, for everybody.
    Public,
}

/// Whether this is a part of a path: one or more bytes, none of them `/`.
fn is_part(text: &[u8]) -> bool
    ensures { result ≡ is_part text.now }
{
    if text.is_empty() {
        return false;
    }
    has_no_slash(text)
}

/// Whether no byte is `/`.
fn has_no_slash(text: &[u8]) -> bool
    ensures { result ≡ list_all (λ b. not (b == 47)) text.now }
{
    text.iter().all(|b| is_no_slash(*b))
}

/// Whether the byte is not `/`.
fn is_no_slash(byte: u8) -> bool
    ensures { result ≡ not (byte == 47) }
{
    byte != b'/'
}

/// Whether the path is this front and one part after it.
fn has_part_after(path: &[u8], front: &[u8]) -> bool
    ensures { result ≡ has_part_after front.now path.now }
{
    match path.strip_prefix(front) {
        Some(rest) => is_part(rest),
        None => false,
    }
}

/// Whether the path belongs to the API: it is `/api`, or begins with `/api/`.
fn is_api(path: &[u8]) -> bool
    ensures { result ≡ is_api path.now }
{
    path == API || path.starts_with(API_FRONT)
}

/// Where a path leads that is no route.
pub fn beside_routes<'p>(path: &'p [u8]) -> Route<'p>
    ensures { route_meant result ≡ beside path.now }
{
    if is_api(path) {
        Route::Nowhere
    } else {
        Route::Public
    }
}

/// The route that reads a form of the page that this text names, if it is built.
pub fn read_route<'p>(text: &'p [u8], form: Option<ReadForm>) -> Route<'p>
    ensures { route_meant result ≡ read_route text.now form }
{
    match form {
        Some(form) => Route::Read(form, text),
        None => Route::Unbuilt,
    }
}

/// The route of reads of a path, by the first of these fronts that has one part after it.
fn read_at<'p>(mut table: &[ReadRoute], path: &'p [u8]) -> Option<Route<'p>>
    ensures { option_map route_meant result
        ≡ read_at (map (λ row. (row.0.now, row.1)) table.entry.now) path.now }
{
    while let [row, rest @ ..] = table {
        let front = row.0.as_bytes();
        if has_part_after(path, front) {
            return Some(read_route(&path[front.len()..], row.1));
        }
        table = rest;
    }
    None
}

/// Where a path leads that is not UTF-8, and so may only be a route of reads. The router takes
/// texts alone; the grammar of requests has none of them.
pub fn route_of_bytes<'p>(path: &'p [u8]) -> Route<'p>
    requires { IsUtf8 path.now → ⊥ }
    ensures { route_meant result ≡ route_of path.now }
{
    match read_at(&READ_ROUTES, path) {
        Some(route) => route,
        None => beside_routes(path),
    }
}

/// The path with a `/` at its end.
pub fn closed_path(alloc: Global, path: &[u8]) -> Result<Url, NoMemory>
    ensures { IfOk result (λ url. url ≡ closed_path path.now) }
{
    let mut bytes = Vec::with_capacity(alloc, path.len() + 1)?;
    bytes.extend_from_slice(path)?;
    if ends_with_slash(path) {
        return Ok(Url::from_vec(bytes));
    }
    bytes.push(b'/')?;
    Ok(Url::from_vec(bytes))
}

/// Whether the last byte is `/`.
fn ends_with_slash(path: &[u8]) -> bool
    ensures { result ≡ ends_with_slash path.now }
{
    if path.is_empty() {
        return false;
    }
    path[path.len() - 1] == b'/'
}
