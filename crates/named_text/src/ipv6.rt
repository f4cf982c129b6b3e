//! IPv6 addresses as text.

ghost use Rattle.std.specs.Prelude.{◌≡◌, ◌≤◌, ◌<◌, ◌+◌, ◌*◌, ◌++◌, length};
ghost use Rattle.std.specs.List.{prefix_len, flat_map};
ghost use Rattle.arrayvec.specs.ArrayVec.{array_vec_len};
ghost use Rattle.named_text.specs.Addresses.{groups, group_at, group_text, colon_group, groups_text, is_zero, longer, longest, short_text, ipv6_text};

use crate::digits::{push_hex_byte, push_hex_digit};
use crate::text::{Text, push, push_byte};

/// A run of groups.
#[derive(Clone, Copy)]
pub struct Run {
    start: usize,
    len: usize,
}

/// The text of sixteen bytes as an IPv6 address, of the form of RFC 5952, such as `2001:db8::1`.
pub fn ipv6_text(bytes: &[u8; 16]) -> Text
    ensures { result.items ≡ ipv6_text bytes.now }
{
    let groups = groups(bytes);
    let mut text = Text::new();
    push_short(&mut text, longest(&groups), &groups);
    text
}

fn groups(bytes: &[u8; 16]) -> [u16; 8]
    ensures { result ≡ groups bytes.now }
{
    [
        group_at(bytes, 0),
        group_at(bytes, 2),
        group_at(bytes, 4),
        group_at(bytes, 6),
        group_at(bytes, 8),
        group_at(bytes, 10),
        group_at(bytes, 12),
        group_at(bytes, 14),
    ]
}

// The group of two bytes at a place.
fn group_at(bytes: &[u8], at: usize) -> u16
    requires { at + 1 < length bytes.now }
    ensures { result ≡ group_at bytes.now at }
{
    u16::from(bytes[at]) * 256 + u16::from(bytes[at + 1])
}

// The number of zeros at the front.
fn zeros(groups: &[u16]) -> usize
    ensures value { result ≡ prefix_len is_zero groups.now }
    ensures within { result ≤ length groups.now }
{
    groups.iter().take_while(|group| **group == 0).count()
}

// The longest run of zeros, and the first of those that are as long.
fn longest(groups: &[u16]) -> Run
    ensures value { result ≡ longest groups.now }
    ensures within { result.start + result.len ≤ length groups.now }
{
    match groups {
        [] => Run { start: 0, len: 0 },
        [_, rest @ ..] => {
            let here = zeros(groups);
            let later = longest(rest);
            if here < later.len {
                Run {
                    start: later.start + 1,
                    len: later.len,
                }
            } else {
                Run {
                    start: 0,
                    len: here,
                }
            }
        }
    }
}

// Puts groups, with `::` for a run of two or more.
fn push_short(text: &mut Text, run: Run, groups: &[u16])
    requires room { array_vec_len text.old + 5 * length groups.now + 2 ≤ 64 }
    requires run { run.start + run.len ≤ length groups.now }
    ensures { text.new.items ≡ text.old.items ++ short_text run groups.now }
{
    if run.len < 2 {
        push_groups(text, groups);
    } else {
        push_groups(text, &groups[..run.start]);
        push(text, b"::");
        push_groups(text, &groups[run.start + run.len..]);
    }
}

// Puts groups with colons between.
fn push_groups(text: &mut Text, groups: &[u16])
    requires { array_vec_len text.old + 5 * length groups.now ≤ 64 }
    ensures text { text.new.items ≡ text.old.items ++ groups_text groups.now }
    ensures len { array_vec_len text.new ≤ array_vec_len text.old + 5 * length groups.now }
{
    match groups {
        [] => {}
        [first, rest @ ..] => {
            push_group(text, *first);
            push_more(text, rest);
        }
    }
}

// Puts groups with a colon before each.
#[tactic(auto, using(crate::proofs::Pushes::items))]
fn push_more(text: &mut Text, groups: &[u16])
    requires { array_vec_len text.old + 5 * length groups.now ≤ 64 }
    ensures text { text.new.items ≡ text.old.items ++ flat_map colon_group groups.now }
    ensures len { array_vec_len text.new ≤ array_vec_len text.old + 5 * length groups.now }
{
    for group in groups {
        push_byte(text, b':');
        push_group(text, *group);
    }
}

// Puts a group in hexadecimal digits, without zeros before them.
fn push_group(text: &mut Text, group: u16)
    requires { array_vec_len text.old + 4 ≤ 64 }
    ensures text { text.new.items ≡ text.old.items ++ group_text group }
    ensures len { array_vec_len text.new ≤ array_vec_len text.old + 4 }
{
    let (high, low) = ((group / 256) as u8, (group % 256) as u8);
    if group < 16 {
        push_hex_digit(text, low);
    } else if group < 256 {
        push_hex_byte(text, low);
    } else if group < 4096 {
        push_hex_digit(text, high);
        push_hex_byte(text, low);
    } else {
        push_hex_byte(text, high);
        push_hex_byte(text, low);
    }
}
