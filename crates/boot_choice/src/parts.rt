//! Public parts that README.md names; nothing else here calls them. Each takes the list and the flash as they were lent.
ghost use Rattle.std.specs.Prelude.{◌≡◌, is_some};
ghost use Rattle.node.specs.Settings.{is_below_efuse};
ghost use Rattle.boot_choice.specs.Parts.{accepted_node, accepted, passes, choose};

use crate::Choice;
use app_image::Facts;
use efuse::SecureVersion;
use node::{Node, Refusal, Settings, test_size};
use otadata::Reading;
use partitions::{App, Listing, PartitionList, check};

/// The first two tests, for a flash and otadata of those lengths: what is listed, or refusal 1 or 2.
#[tactic(auto, unfolding(crate::specs::Parts::accepted_node))]
pub fn accept_node(list: &[u32], capacity: usize, size: usize) -> Result<Listing, Refusal>
    ensures { result ≡ accepted_node list.now capacity size }
{
    let listing = check(list, capacity)?;
    test_size(size)?;
    Ok(listing)
}

/// The first three tests: what is listed, or refusal 1, 2 or 3.
#[tactic(auto, unfolding(crate::specs::Parts::accepted))]
pub fn accept(
    list: &[u32],
    capacity: usize,
    size: usize,
    settings: Settings,
) -> Result<Listing, Refusal>
    ensures { result ≡ accepted list.now capacity size settings }
{
    let listing = accept_node(list, capacity, size)?;
    settings.test(listing.factory)?;
    Ok(listing)
}

/// The facts of an app's image, where the app passes with those settings, which are not tested. Of a list that is refused nothing
/// passes.
#[tactic(auto, unfolding(crate::specs::Parts::passes))]
pub fn passes(list: &[u32], flash: &[u8], settings: Settings, app: App) -> Option<Facts>
    ensures { result ≡ passes list.now flash.now settings app }
{
    let list = PartitionList::new(list, flash).ok()?;
    Node { list, settings }.passes(app)
}

/// Whether anti-rollback is on, and the version is below that of the register.
pub fn too_old(settings: Settings, of: SecureVersion) -> bool
    ensures { result ≡ is_below_efuse settings of }
{
    settings.is_below_efuse(of)
}

/// The choice with those settings, which are not tested, where the sectors read so. Of a list that is refused nothing is chosen.
#[tactic(auto, unfolding(crate::specs::Parts::choose))]
pub fn choose(
    list: &[u32],
    flash: &[u8],
    settings: Settings,
    readings: [Reading; 2],
) -> Option<Choice>
    ensures { result ≡ choose list.now flash.now settings readings }
{
    let list = PartitionList::new(list, flash).ok()?;
    Choice::of(&Node { list, settings }, readings)
}

/// Whether something is chosen, be it a `Choice` or of any other type.
pub fn chosen<T: Drop>(choice: Option<T>) -> bool
    ensures { result ≡ is_some choice }
{
    choice.is_some()
}
