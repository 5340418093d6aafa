//! Boot: which app a node starts, and how the states of its records change when it starts.
#![tactic(auto)]

mod laws;

ghost use Rattle.std.specs.Prelude.{◌≡◌};
ghost use Rattle.otadata.specs.declared.states.State.TheVariants.{New, Pending};
ghost use Rattle.sectors.specs.Sector.{read_sector, readings};
ghost use Rattle.node.specs.Refused.{keeping_register};
ghost use Rattle.boot.specs.Boot.{marked, settled, sector_of, first_left, second_left, hold_no_good, register_after, start_of, reply_to, boot_reply, boot_bytes};

use app_image::Facts;
use boot_choice::Choice;
pub use laws::{answer_law, boot_examples};
use node::{Node, Refusal, Refused, Settings};
use otadata::{Reading, State, in_state};
use partitions::App;
use sectors::{SECTOR_SIZE, SectorNumber, readings, restate};

/// A start: the app, the sector whose record it came through, the register to burn, and the facts of the app's image, so that a
/// loader need not read them again.
#[derive(Clone, Copy, Debug, PartialEq, Eq)]
pub struct Start {
    pub app: App,
    pub through: Option<SectorNumber>,
    pub register: u32,
    pub facts: Facts,
}

/// Decides which app the node starts, and changes the states of its records. The refusals are 1, 2, 3 and 10; each returns the register
/// as it was given, and only 10 leaves otadata changed, by the marks of pending records as aborted.
pub fn boot(
    words: &[u32],
    flash: &[u8],
    otadata: &mut [u8],
    settings: Settings,
) -> Result<Start, Refused>
    ensures reply { result ≡ keeping_register settings (boot_reply words.now flash.now otadata.old settings) }
    ensures bytes { otadata.new ≡ boot_bytes words.now flash.now otadata.old settings }
{
    settings.keeping_register(decide(words, flash, otadata, settings))
}

/// What boot decides: the start, or why there is none.
#[tactic(auto, unfolding(crate::specs::Boot::boot_reply, crate::specs::Boot::boot_bytes))]
fn decide(
    words: &[u32],
    flash: &[u8],
    otadata: &mut [u8],
    settings: Settings,
) -> Result<Start, Refusal>
    ensures reply { result ≡ boot_reply words.now flash.now otadata.old settings }
    ensures bytes { otadata.new ≡ boot_bytes words.now flash.now otadata.old settings }
{
    let node = Node::new(words, flash, otadata.len(), settings)?;
    let (first, second) = otadata.split_at_mut(SECTOR_SIZE);
    take_steps(&node, first, second)
}

/// The four steps: pending records become aborted, an app is chosen, the record that it came through becomes pending where it was new,
/// and the register is raised where the app was found without a good record.
#[tactic(auto, unfolding(crate::specs::Boot::settled, crate::specs::Boot::reply_to, crate::specs::Boot::first_left, crate::specs::Boot::second_left))]
fn take_steps(node: &Node<'_>, first: &mut [u8], second: &mut [u8]) -> Result<Start, Refusal>
    ensures reply { result ≡ reply_to node.now (settled node.now.settings first.old) (settled node.now.settings second.old) }
    ensures first { first.new ≡ first_left node.now (settled node.now.settings first.old) (settled node.now.settings second.old) }
    ensures second { second.new ≡ second_left node.now (settled node.now.settings first.old) (settled node.now.settings second.old) }
{
    let settings = node.settings;
    let readings = abort_pending(first, second, settings);
    let Some(choice) = Choice::of(node, readings) else {
        return Err(Refusal::NothingBootable);
    };
    match sector_of(choice) {
        None => {}
        Some(SectorNumber::Zero) => await_confirmation(first, readings[0], settings),
        Some(SectorNumber::One) => await_confirmation(second, readings[1], settings),
    }
    Ok(start_of(settings, readings, choice))
}

/// With rollback on, rewrites each good pending record as aborted, sector 0 first. Gives what both sectors then read as.
#[tactic(auto, unfolding(crate::specs::Boot::settled, crate::specs::Boot::marked))]
fn abort_pending(first: &mut [u8], second: &mut [u8], settings: Settings) -> [Reading; 2]
    ensures first { first.new ≡ settled settings first.old }
    ensures second { second.new ≡ settled settings second.old }
    ensures readings { result ≡ readings first.new second.new }
{
    let mut left = readings(first, second);
    if settings.rollback && in_state(left[0], State::Pending) {
        left[0] = restate(first, State::Aborted);
    }
    if settings.rollback && in_state(left[1], State::Pending) {
        left[1] = restate(second, State::Aborted);
    }
    left
}

/// With rollback on, rewrites a good record in state new as pending.
#[tactic(auto, unfolding(crate::specs::Boot::marked))]
fn await_confirmation(sector: &mut [u8], reading: Reading, settings: Settings)
    requires { reading ≡ read_sector sector.old }
    ensures { sector.new ≡ marked settings New Pending sector.old }
{
    if settings.rollback && in_state(reading, State::New) {
        let _ = restate(sector, State::Pending);
    }
}

/// The sector whose record the choice came through.
fn sector_of(choice: Choice) -> Option<SectorNumber>
    ensures { result ≡ sector_of choice }
{
    match choice {
        Choice::Recorded(sector, _, _) => Some(sector),
        Choice::Factory(_) | Choice::Found(_, _) => None,
    }
}

/// The start of a choice.
fn start_of(settings: Settings, readings: [Reading; 2], choice: Choice) -> Start
    ensures { result ≡ start_of settings readings choice }
{
    let register = register_after(settings, readings, choice);
    let through = sector_of(choice);
    let (app, facts) = match choice {
        Choice::Factory(facts) => (App::Factory, facts),
        Choice::Recorded(_, slot, facts) | Choice::Found(slot, facts) => (
            App::OtaSlot(slot),
            facts,
        ),
    };
    Start {
        app,
        through,
        register,
        facts,
    }
}

/// The register: with anti-rollback on, the last search raises it to its app's version while neither sector holds a good record.
fn register_after(settings: Settings, readings: [Reading; 2], choice: Choice) -> u32
    ensures { result ≡ register_after settings readings choice }
{
    match choice {
        Choice::Found(_, facts) if settings.anti_rollback && hold_no_good(readings) => {
            settings.raised_to(facts.version)
        }
        _ => settings.efuse,
    }
}

/// Whether neither sector holds a good record.
fn hold_no_good(readings: [Reading; 2]) -> bool
    ensures { result ≡ hold_no_good readings }
{
    readings.iter().all(|reading| reading.is_err())
}
