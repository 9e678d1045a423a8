//! The call that a request asks for.
ghost use Rattle.std.specs.Prelude.{◌≡◌, ◌≢◌, Ok, Err, IfOk, IfErr, IsErrOf};
ghost use Rattle.http_wire.specs.Reading.{request_of};
ghost use Rattle.wire_model.specs.Routes.{call_of, call_on, command, read_named, read_call, public_page};
ghost use Rattle.api_routes.specs.Calling.{Answers, MayWant};

use crate::body::read_command;
use crate::id::written_id;
use crate::path::{Route, closed_path};
use crate::router::Routes;
use block_content::ContentFault;
use http_wire::{Allow, Method, Request};
use site_types::PageId;
use std::alloc::Global;
use wire_model::{Call, CommandForm, ReadForm, RouteFault};

/// What a request asks for, by `Routes::to_call` on a fresh router. To ask for many, make the
/// router once.
pub fn to_call(alloc: Global, request: &Request<'_>) -> Result<Call, RouteFault>
    ensures ok { IfOk result (λ call. call_of (request_of request.now) ≡ Ok call) }
    ensures err { IfErr result (λ fault. (fault ≢ RouteFault.Memory)
        → call_of (request_of request.now) ≡ Err fault) }
{
    let routes = Routes::new(alloc)?;
    routes.to_call(alloc, request)
}

impl Routes {
    /// What a request asks for, or why it asks nothing: its route is tried first (404, and 501 for
    /// what is not built yet), then its method (405), and then its form (400).
    ///
    /// One look-up of the path, and one pass over the body of a command. Only the body of a
    /// command and the path of a public page take memory, and so only they can run out of it.
    pub fn to_call(&self, alloc: Global, request: &Request<'_>) -> Result<Call, RouteFault>
        ensures ok { IfOk result (λ call. call_of (request_of request.now) ≡ Ok call) }
        ensures err { IfErr result (λ fault. (fault ≢ RouteFault.Memory)
            → call_of (request_of request.now) ≡ Err fault) }
        ensures memory { IsErrOf result RouteFault.Memory
            → MayWant (call_of (request_of request.now)) }
    {
        self.answer(alloc, request)
    }

    /// The same in one clause.
    fn answer(&self, alloc: Global, request: &Request<'_>) -> Result<Call, RouteFault>
        ensures { Answers result (call_of (request_of request.now)) }
    {
        match self.route(request.path) {
            Route::Command(form) => command_call(alloc, request, form),
            Route::Read(form, text) => read_call(request, form, text),
            Route::Unbuilt => Err(RouteFault::NotBuilt),
            Route::Nowhere => Err(RouteFault::NotFound),
            Route::Public => public_call(alloc, request),
        }
    }
}

/// What a request to the route of commands of this form asks for.
fn command_call(alloc: Global, request: &Request<'_>, form: CommandForm) -> Result<Call, RouteFault>
    ensures { Answers result (call_on (command form) (request_of request.now)) }
{
    let Method::Post = request.method else {
        return Err(RouteFault::Method(Allow::Post));
    };
    match read_command(alloc, form, request.body) {
        Ok(command) => Ok(Call::Run(command)),
        Err(ContentFault::Bad) => Err(RouteFault::Form),
        Err(ContentFault::Memory) => Err(RouteFault::Memory),
    }
}

/// What a request to read a form of the page that this text names asks for.
fn read_call(request: &Request<'_>, form: ReadForm, text: &[u8]) -> Result<Call, RouteFault>
    ensures { Answers result (call_on (read_named form text.now) (request_of request.now)) }
{
    let Method::Get = request.method else {
        return Err(RouteFault::Method(Allow::Get));
    };
    match written_id(text) {
        Some(page) => Ok(read_of(form, page)),
        None => Err(RouteFault::Form),
    }
}

/// The call that reads a form of a page.
fn read_of(form: ReadForm, page: PageId) -> Call
    ensures { result ≡ read_call form page }
{
    match form {
        ReadForm::Card => Call::Page(page),
        ReadForm::Refs => Call::Refs(page),
        ReadForm::Desk => Call::Desk(page),
    }
}

/// What a request to a path for everybody asks for.
fn public_call(alloc: Global, request: &Request<'_>) -> Result<Call, RouteFault>
    ensures { Answers result (call_on public_page (request_of request.now)) }
{
    let Method::Get = request.method else {
        return Err(RouteFault::Method(Allow::Get));
    };
    let url = closed_path(alloc, request.path)?;
    Ok(Call::Public(url))
}
