//! What the faults of paths and of URLs are to a command.
ghost use Rattle.std.specs.Prelude.{◌≡◌};
ghost use Rattle.new_pages.specs.Faults.{of_path, of_url};

use path_moves::PathFault;
use site_part::Fault;
use site_types::Refusal;
use slug_urls::UrlFault;

/// The fault of a command whose page gets no path.
pub(crate) fn path_fault(fault: PathFault) -> Fault
    ensures { result ≡ of_path fault }
{
    match fault {
        PathFault::IntoItself => Fault::Refused(Refusal::IntoItself),
        PathFault::StepsFull => Fault::Refused(Refusal::StepsFull),
        PathFault::TooDeep => Fault::Refused(Refusal::TooDeep),
        PathFault::Memory => Fault::Memory,
    }
}

/// The fault of a command whose page gets no URL.
pub fn url_fault(fault: UrlFault) -> Fault
    ensures { result ≡ of_url fault }
{
    match fault {
        UrlFault::Taken(other) => Fault::Refused(Refusal::SlugTaken(other)),
        UrlFault::TooLong => Fault::Refused(Refusal::UrlTooLong),
        UrlFault::Memory => Fault::Memory,
    }
}
