//! Which app boot chooses.
#![tactic(auto)]

mod laws;
mod parts;

ghost use Rattle.std.specs.Prelude.{◌≡◌};
ghost use Rattle.boot_choice.specs.Choice.{through_reading, through_either, through_active, factory, is_barred_by, is_barred, candidate, last_search};

use app_image::Facts;
pub use laws::{example_node, same_tests};
use node::Node;
use otadata::{Reading, Slot};
use partitions::App;
pub use parts::{accept, accept_node, choose, chosen, passes, too_old};
use sectors::{SectorNumber, active, usable_sequence};

/// What boot chooses, with the facts of the app's image.
#[derive(Clone, Copy, Debug, PartialEq, Eq)]
pub enum Choice {
    /// The slot that the record in a sector names.
    Recorded(SectorNumber, Slot, Facts),
    /// Factory.
    Factory(Facts),
    /// The slot that the last search found.
    Found(Slot, Facts),
}

impl Choice {
    ghost use Rattle.boot_choice.specs.Choice.{choice};

    /// The choice of a node whose sectors read so: the active record's slot, the slot of the other usable record, factory, or the slot
    /// that the last search finds, whichever passes first.
    #[tactic(auto, unfolding(crate::specs::Choice::choice))]
    pub fn of(node: &Node<'_>, readings: [Reading; 2]) -> Option<Choice>
        ensures { result ≡ choice node.now readings }
    {
        if let Some(recorded) = through_active(node, readings) {
            return Some(recorded);
        }
        if let Some(factory) = factory(node) {
            return Some(factory);
        }
        last_search(node, readings)
    }
}

/// The active record's slot, then that of the other usable record.
#[tactic(auto, unfolding(crate::specs::Choice::through_active))]
fn through_active(node: &Node<'_>, readings: [Reading; 2]) -> Option<Choice>
    ensures { result ≡ through_active node.now readings }
{
    let [first, second] = readings;
    match active(readings)? {
        SectorNumber::Zero => through_either(
            node,
            (SectorNumber::Zero, first),
            (SectorNumber::One, second),
        ),
        SectorNumber::One => through_either(
            node,
            (SectorNumber::One, second),
            (SectorNumber::Zero, first),
        ),
    }
}

/// The slot that the one names, then the slot that the other names.
fn through_either(
    node: &Node<'_>,
    one: (SectorNumber, Reading),
    other: (SectorNumber, Reading),
) -> Option<Choice>
    ensures { result ≡ through_either node.now one other }
{
    if let Some(choice) = through_reading(node, one) {
        return Some(choice);
    }
    through_reading(node, other)
}

/// The slot that a usable record names, if it passes.
#[tactic(auto, unfolding(crate::specs::Choice::through_reading))]
fn through_reading(node: &Node<'_>, in_sector: (SectorNumber, Reading)) -> Option<Choice>
    ensures { result ≡ through_reading node.now in_sector }
{
    let (sector, reading) = in_sector;
    let slot = usable_sequence(reading)?.slot(node.list.slots());
    let facts = node.passes(App::OtaSlot(slot))?;
    Some(Choice::Recorded(sector, slot, facts))
}

/// Factory, if it is listed and passes.
#[tactic(auto, unfolding(crate::specs::Choice::factory))]
fn factory(node: &Node<'_>) -> Option<Choice>
    ensures { result ≡ factory node.now }
{
    node.passes(App::Factory).map(Choice::Factory)
}

/// The first slot, counted upward from 0, that no invalid or aborted record names and that passes.
#[tactic(auto, using(crate::proofs::Search::first_from_none, crate::proofs::Search::first_from_some, crate::proofs::Search::first_from_end), unfolding(crate::specs::Choice::last_search))]
fn last_search(node: &Node<'_>, readings: [Reading; 2]) -> Option<Choice>
    ensures { result ≡ last_search node.now readings }
{
    let slots = node.list.slots();
    let mut slot = 0;
    // kept: the rules ask for a loop that yields the found slot by break, or none at the end; and a closure that captures a node has no
    // contract for its caller
    let found = loop {
        if slot == slots {
            break None;
        }
        if let Some(found) = candidate(node, readings, Slot(slot)) {
            break Some(found);
        }
        slot += 1;
    };
    found
}

/// The slot, if no invalid or aborted record names it and it passes.
#[tactic(auto, unfolding(crate::specs::Choice::candidate))]
fn candidate(node: &Node<'_>, readings: [Reading; 2], slot: Slot) -> Option<Choice>
    ensures { result ≡ candidate node.now readings slot }
{
    if is_barred(node.list.slots(), readings, slot) {
        return None;
    }
    let facts = node.passes(App::OtaSlot(slot))?;
    Some(Choice::Found(slot, facts))
}

/// Whether an invalid or aborted record names the slot.
#[tactic(auto, unfolding(crate::specs::Choice::is_barred))]
fn is_barred(slots: u32, readings: [Reading; 2], slot: Slot) -> bool
    ensures { result ≡ is_barred slots readings slot }
{
    readings
        .iter()
        .any(|&reading| is_barred_by(slots, reading, slot))
}

/// Whether the record is invalid or aborted, and names the slot.
fn is_barred_by(slots: u32, reading: Reading, slot: Slot) -> bool
    ensures { result ≡ is_barred_by slots slot reading }
{
    match reading {
        Ok(record) => !record.state.is_usable() && record.sequence.slot(slots) == slot,
        Err(_) => false,
    }
}
