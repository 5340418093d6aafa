//! The digest of some bytes.
ghost use Rattle.std.specs.Prelude.{◌≡◌};
ghost use Rattle.sha256.specs.Sha256.{digest as sha256_digest};

/// Fills the digest with the SHA-256 of the bytes, and returns 0.
#[unsafe(no_mangle)]
pub extern "C" fn ota_sha256(bytes: &[u8], digest: &mut [u8; 32]) -> u32
    ensures { (result ≡ 0) × (digest.new ≡ sha256_digest bytes.now) }
{
    c_api::ota_sha256(bytes, digest)
}
