//! HMAC with SHA-256 (FIPS 198-1), the keys that a device key gives, and the tags of messages: by HMAC, and by xor for
//! teaching.
#![tactic(auto)]

mod derivation;
mod mac;
mod tagger;
mod xor_tagger;

pub use derivation::{Keys, derive};
pub use mac::hmac;
pub use tagger::HmacTagger;
pub use xor_tagger::XorTagger;
