//! Rewriting a sector, one store at a time or whole.
ghost use Rattle.std.specs.Prelude.{◌≡◌};
ghost use Rattle.std.specs.Result.{result_unwrap_or};
ghost use Rattle.otadata.specs.Number.{reply_number};
ghost use Rattle.sectors.specs.Answer.{number_of};
ghost use Rattle.sectors.specs.Rewrite.{single_store, rewrite};

use otadata::number_of;
use sectors::{rewrite, store};

/// Store `m` of a rewrite: 0, or 2 for a wrong size, or 12 for no such store.
pub fn ota_store(sector: &mut [u8], bytes: &[u8], m: usize) -> u32
    ensures number { result ≡ reply_number number_of (single_store sector.old bytes.now m) }
    ensures bytes { sector.new ≡ result_unwrap_or (single_store sector.old bytes.now m) sector.old }
{
    number_of(store(sector, bytes, m))
}

/// A whole rewrite: 0, or 2 for a wrong size.
pub fn ota_rewrite(sector: &mut [u8], bytes: &[u8]) -> u32
    ensures number { result ≡ reply_number number_of (rewrite sector.old bytes.now) }
    ensures bytes { sector.new ≡ result_unwrap_or (rewrite sector.old bytes.now) sector.old }
{
    number_of(rewrite(sector, bytes))
}
