// SHA-256 and HMAC-SHA-256, of a whole message or of one that comes in parts.
#![tactic(auto)]

mod closing;
mod hasher;
mod hmac;
mod incremental;

pub use closing::sha256;
pub use hasher::Hasher;
pub use hmac::{Hmac, hmac_sha256};
pub use incremental::{Incremental, TooLong, in_parts};
