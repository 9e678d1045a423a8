//! Calls: what a request asks of the site.
use http_model::Allow;
use site_types::{Command, NoMemory, PageId, Url};
use std::error::Error;
use std::fmt;

/// What a request asks of the site.
#[derive(Debug, Drop)]
pub enum Call {
    /// `POST` to a command's route: the command.
    Run(Command),
    /// `GET /api/pages/{id}`: the card of the page.
    Page(PageId),
    /// `GET /api/refs/{id}`: the pages that link to the page.
    Refs(PageId),
    /// `GET /api/desks/{id}`: what is written at the caller's desk on the page.
    Desk(PageId),
    /// `GET` of any other path: the page with this URL, for everybody.
    Public(Url),
}

/// Why a request asks nothing of the site. The causes are tried in this order; running out of
/// memory may come in the place of the last.
#[derive(Debug, Drop)]
pub enum RouteFault {
    /// The path has no route.
    NotFound,
    /// The path has a route that is not built yet.
    NotBuilt,
    /// The route takes another method, this one.
    Method(Allow),
    /// The id in the path or the body is not of the route's form.
    Form,
    /// The memory ran out.
    Memory,
}

impl fmt::Display for RouteFault {
    fn fmt<W: fmt::Write>(&self, f: &mut fmt::Formatter<W>) -> fmt::Result {
        match self {
            RouteFault::NotFound => write!(f, "no route"),
            RouteFault::NotBuilt => write!(f, "a route that is not built yet"),
            RouteFault::Method(Allow::Get) => write!(f, "not the method GET"),
            RouteFault::Method(Allow::Post) => write!(f, "not the method POST"),
            RouteFault::Form => write!(f, "not the form of the route"),
            RouteFault::Memory => write!(f, "out of memory"),
        }
    }
}

impl Error for RouteFault {}

impl From<NoMemory> for RouteFault {
    ghost use Rattle.std.specs.Prelude.{◌≡◌};
    ghost use Rattle.wire_model.specs.declared.call.RouteFault.TheVariants.{Memory};

    ghost from_gives = { λ _ e. e ≡ Memory };

    fn from(_refused: NoMemory) -> RouteFault {
        RouteFault::Memory
    }
}
