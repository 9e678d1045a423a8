//! Why a command was not carried out.
use site_types::Refusal;

/// Why a command was not carried out. The site is then as it was.
#[derive(Clone, Copy, Debug, PartialEq, Eq)]
pub enum Fault {
    /// A rule refuses it.
    Refused(Refusal),
    /// Memory ran out.
    Memory,
}
