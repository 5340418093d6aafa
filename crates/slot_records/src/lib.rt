//! Which record names a slot, and where a new record for a slot goes.
#![tactic(auto)]

mod naming;
mod placing;

pub use naming::{active_naming, active_pending, naming_record};
use otadata::Sequence;
pub use placing::place_new;
use sectors::SectorNumber;

/// Where a new record goes, and its sequence.
#[derive(Clone, Copy, Debug, PartialEq, Eq)]
pub struct Placement {
    pub sector: SectorNumber,
    pub sequence: Sequence,
}
