#![tactic(auto)]

//! What a number or a few bytes mean to people, as text: times and addresses.
//!
//! ```
//! assert_eq!(rt;
//!     time_text(Scale::Seconds, 1_700_000_000).as_slice(),
//!     b"2023-11-14T22:13:20Z".as_slice()
//! );
//! assert_eq!(rt;
//!     ipv4_text(&[127, 0, 0, 1]).as_slice(),
//!     b"127.0.0.1".as_slice()
//! );
//! ```

mod addresses;
mod digits;
mod ipv6;
mod text;
mod time;

pub use addresses::{guid_text, ipv4_text, mac_text, uuid_text};
pub use ipv6::ipv6_text;
pub use text::Text;
pub use time::{Scale, time_text};
