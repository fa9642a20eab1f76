// Text: bytes and decimal numbers written to a slice that the caller lends.
#![tactic(auto)]

mod wide;
mod write;

pub use wide::put_wide;
pub use write::{put_byte, put_bytes, put_signed, put_unsigned};
