//! Addresses and identifiers as text.

ghost use Rattle.std.specs.Prelude.{◌≡◌, length};
ghost use Rattle.named_text.specs.Addresses.{ipv4_text, mac_text, uuid_text, mixed};

use crate::digits::{push_byte_number, push_hex, push_hex_byte};
use crate::text::{Text, push_byte};

/// The text of four bytes as an IPv4 address, such as `127.0.0.1`.
pub fn ipv4_text(bytes: &[u8; 4]) -> Text
    ensures { result.items ≡ ipv4_text bytes.now }
{
    let mut text = Text::new();
    push_byte_number(&mut text, bytes[0]);
    push_byte(&mut text, b'.');
    push_byte_number(&mut text, bytes[1]);
    push_byte(&mut text, b'.');
    push_byte_number(&mut text, bytes[2]);
    push_byte(&mut text, b'.');
    push_byte_number(&mut text, bytes[3]);
    text
}

/// The text of six bytes as a hardware address, such as `00:1b:21:3c:9d:f8`.
pub fn mac_text(bytes: &[u8; 6]) -> Text
    ensures { result.items ≡ mac_text bytes.now }
{
    let mut text = Text::new();
    push_hex_byte(&mut text, bytes[0]);
    push_byte(&mut text, b':');
    push_hex_byte(&mut text, bytes[1]);
    push_byte(&mut text, b':');
    push_hex_byte(&mut text, bytes[2]);
    push_byte(&mut text, b':');
    push_hex_byte(&mut text, bytes[3]);
    push_byte(&mut text, b':');
    push_hex_byte(&mut text, bytes[4]);
    push_byte(&mut text, b':');
    push_hex_byte(&mut text, bytes[5]);
    text
}

/// The text of sixteen bytes as a UUID, whose parts are big-endian: `00112233-4455-6677-8899-aabbccddeeff`.
#[tactic(auto, unfolding(crate::specs::Addresses::uuid_text))]
pub fn uuid_text(bytes: &[u8; 16]) -> Text
    ensures { result.items ≡ uuid_text bytes.now }
{
    let mut text = Text::new();
    push_hex(&mut text, &bytes[0..4]);
    push_byte(&mut text, b'-');
    push_hex(&mut text, &bytes[4..6]);
    push_byte(&mut text, b'-');
    push_hex(&mut text, &bytes[6..8]);
    push_byte(&mut text, b'-');
    push_hex(&mut text, &bytes[8..10]);
    push_byte(&mut text, b'-');
    push_hex(&mut text, &bytes[10..16]);
    text
}

/// The text of sixteen bytes as a GUID, whose first three parts are little-endian.
pub fn guid_text(bytes: &[u8; 16]) -> Text
    ensures { result.items ≡ uuid_text (mixed bytes.now) }
{
    let bytes = mixed(bytes);
    uuid_text(&bytes)
}

// The bytes of the first three parts in the opposite order.
fn mixed(bytes: &[u8; 16]) -> [u8; 16]
    ensures { result ≡ mixed bytes.now }
{
    [
        bytes[3], bytes[2], bytes[1], bytes[0], bytes[5], bytes[4], bytes[7], bytes[6], bytes[8],
        bytes[9], bytes[10], bytes[11], bytes[12], bytes[13], bytes[14], bytes[15],
    ]
}
