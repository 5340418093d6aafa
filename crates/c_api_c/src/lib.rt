//! The exports of the C interface: each calls the function of its name in `c_api`, and promises the same. `include/ota.h` declares them.
#![tactic(auto)]

mod checks;
mod digests;
mod node_calls;
mod records;
mod registers;
mod rewriting;

pub use checks::{ota_check_image, ota_check_list};
pub use digests::ota_sha256;
pub use node_calls::{
    ota_boot, ota_mark_invalid, ota_mark_valid, ota_next_slot, ota_set_boot, ota_state_query,
};
pub use records::{ota_active, ota_check_word, ota_check_words, ota_make_record, ota_read_sector};
pub use registers::{ota_efuse_raise, ota_efuse_version};
pub use rewriting::{ota_rewrite, ota_store};
