//! A node: its accepted partition list, its settings, and when an app passes.
#![tactic(auto)]

mod refusal;

ghost use Rattle.std.specs.Prelude.{◌≡◌, OnOk};
ghost use Rattle.node.specs.Node.{size_test};

use app_image::{Board, Facts, check};
use efuse::{SecureVersion, raise, version};
use partitions::{App, PartitionList};
pub use refusal::{Refusal, Refused};

/// The size of otadata in bytes: two sectors.
pub const OTADATA_SIZE: usize = 8192;

/// What is set on a node: its board, its eFuse register, and which of the two protections are on.
#[derive(Clone, Copy, Debug, PartialEq, Eq)]
pub struct Settings {
    pub board: Board,
    pub efuse: u32,
    pub rollback: bool,
    pub anti_rollback: bool,
}

impl Settings {
    ghost use Rattle.node.specs.Settings.{is_below_efuse, raised_to};
    ghost use Rattle.node.specs.Node.{settings_test};
    ghost use Rattle.node.specs.Refused.{keeping_register};

    /// Whether anti-rollback is on, and the version is below that of the register.
    pub fn is_below_efuse(self, of: SecureVersion) -> bool
        ensures { result ≡ is_below_efuse self of }
    {
        self.anti_rollback && of < version(self.board.chip, self.efuse)
    }

    /// The register raised to a version.
    pub fn raised_to(self, to: SecureVersion) -> u32
        ensures { result ≡ raised_to self to }
    {
        raise(self.board.chip, self.efuse, to)
    }

    /// Refuses anti-rollback without rollback, or with a factory entry.
    #[tactic(auto, unfolding(crate::specs::Node::settings_test))]
    pub fn test(self, has_factory: bool) -> Result<(), Refusal>
        ensures { result ≡ settings_test self has_factory }
    {
        if self.anti_rollback && (!self.rollback || has_factory) {
            return Err(Refusal::BadSettings);
        }
        Ok(())
    }

    /// The reply of a call: a refusal returns the register as it was given.
    pub fn keeping_register<T>(self, reply: Result<T, Refusal>) -> Result<T, Refused>
        ensures { result ≡ keeping_register self reply }
    {
        match reply {
            Ok(done) => Ok(done),
            Err(refusal) => Err(Refused {
                refusal,
                register: self.efuse,
            }),
        }
    }
}

/// Refuses otadata of another length than two sectors.
#[tactic(auto, unfolding(crate::specs::Node::size_test))]
pub fn test_size(otadata_len: usize) -> Result<(), Refusal>
    ensures exact { result ≡ size_test otadata_len }
    ensures sized { OnOk result (otadata_len ≡ OTADATA_SIZE) }
{
    if otadata_len != OTADATA_SIZE {
        return Err(Refusal::WrongSize);
    }
    Ok(())
}

/// A node: its list with the flash, and its settings.
#[derive(Drop)]
pub struct Node<'a> {
    pub list: PartitionList<'a>,
    pub settings: Settings,
}

impl<'a> Node<'a> {
    ghost use Rattle.node.specs.Node.{node_of, passing, admitted};

    /// The node of a list with its flash, otadata of that length, and settings, or the first refusal of the three.
    #[tactic(auto, unfolding(crate::specs::Node::node_of))]
    pub fn new(
        words: &'a [u32],
        flash: &'a [u8],
        otadata_len: usize,
        settings: Settings,
    ) -> Result<Node<'a>, Refusal>
        ensures exact { result ≡ node_of words.now flash.now otadata_len settings }
        ensures sized { OnOk result (otadata_len ≡ OTADATA_SIZE) }
    {
        let list = PartitionList::new(words, flash)?;
        test_size(otadata_len)?;
        settings.test(list.has_factory())?;
        Ok(Node { list, settings })
    }

    /// The facts of an app's image, where the app passes.
    #[tactic(auto, unfolding(crate::specs::Node::passing))]
    pub fn passes(&self, app: App) -> Option<Facts>
        ensures { result ≡ passing self.now app }
    {
        self.admit(app).ok()
    }

    /// The facts of an app's image, or why the app does not pass.
    #[tactic(auto, unfolding(crate::specs::Node::admitted))]
    pub fn admit(&self, app: App) -> Result<Facts, Refusal>
        ensures { result ≡ admitted self.now app }
    {
        let image = self.list.image(app).unwrap_or(&[]);
        // kept: `let .. else` takes the facts of an accepted image out of the answer, else returns refusal 5 with the image's own refusal
        let checked = check(image, self.settings.board).map_err(Refusal::BadImage);
        let Ok(facts) = checked else {
            return checked;
        };
        if self.settings.is_below_efuse(facts.version) {
            return Err(Refusal::BelowEfuse);
        }
        Ok(facts)
    }
}
