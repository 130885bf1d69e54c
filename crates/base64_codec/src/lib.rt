// Base64 of RFC 4648, section 4: padding required, no other character, unused bits 0.
#![tactic(auto)]

mod alphabet;
mod decoding;
mod encoding;
mod fronts;
mod texts;

pub use decoding::decode;
pub use encoding::encode;
pub use texts::is_text;
