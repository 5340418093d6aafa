//! Laws for a reader with FIPS 180-4 beside the definitions, and published digests. Each is what the function ensures, which takes nothing
//! and does nothing.
ghost use Rattle.sha256.specs.Laws.{ScheduleLaw, PaddingLaw, DigestLaw};
ghost use Rattle.sha256.specs.Examples.{Published};

/// The schedule has the standard's recurrence, a padded message is whole blocks with the fewest zeros, and a digest is 32 bytes.
#[tactic(auto, using(crate::proofs::Reading::schedule_law, crate::proofs::Reading::padding_law, crate::proofs::Reading::digest_law))]
pub fn standard_laws()
    ensures schedule { ScheduleLaw }
    ensures padding { PaddingLaw }
    ensures digest { DigestLaw }
{}

/// The digests of published messages are the published ones.
#[tactic(auto, using(crate::proofs::Examples::published))]
pub fn published_digests()
    ensures { Published }
{}
