//! What readers see of the world: the cards of pages, and the page that everybody is answered at a
//! URL. Definitions for proofs, and laws about them. Nothing here runs.
#![tactic(auto)]

pub mod laws;
