//! Prints strings.
ghost use Rattle.std.specs.Prelude.{◌≡◌, ◌+◌, ◌<◌, ◌≤◌, ◌++◌, false, take, drop, length, slice_index};
ghost use Rattle.std.specs.List.{list_all, prefix_len};
ghost use Rattle.value_text.specs.Puts.{Puts};
ghost use Rattle.value_text.specs.ValueText.{spelled_byte, is_plain};
ghost use Rattle.value_text.specs.Escaped.{escape_of, spelled_by, quoted_by};

use super::escape::Escapes;
use super::printer::Printer;
use std::io::Write;

impl<W: Write> Printer<'_, W> {
    /// Writes a string in double quotes.
    #[inline(never)]
    pub fn put_quoted(&mut self, escapes: Escapes, bytes: &[u8])
        ensures { Puts W.contents self.old self.new (quoted_by escapes bytes.now) }
    {
        self.put(b"\"");
        self.put_bytes(escapes, bytes);
        self.put(b"\"");
    }

    /// Writes a byte of a string.
    #[inline(always)]
    pub fn put_spelled(&mut self, escapes: Escapes, byte: u8)
        ensures { Puts W.contents self.old self.new (spelled_byte (escape_of escapes) byte) }
    {
        if is_plain(byte) {
            self.put(&[byte]);
        } else {
            self.put_escape(escapes, byte);
        }
    }

    fn put_bytes(&mut self, escapes: Escapes, bytes: &[u8])
        ensures { Puts W.contents self.old self.new (spelled_by escapes bytes.now) }
    {
        let mut done = 0;
        while done < bytes.len() {
            if self.failed {
                return;
            }
            done += self.put_next(escapes, &bytes[done..]);
        }
    }

    // Writes all the plain bytes that come first or, if there are none, the escape of the first byte. Returns how many
    // bytes of the string that was.
    fn put_next(&mut self, escapes: Escapes, bytes: &[u8]) -> usize
        requires { 0 < length bytes.now }
        ensures some { 0 < result }
        ensures within { result ≤ length bytes.now }
        ensures puts { Puts W.contents self.old self.new (spelled_by escapes (take result bytes.now)) }
    {
        let run = plain_len(bytes);
        if run == 0 {
            self.put_escape(escapes, bytes[0]);
            1
        } else {
            self.put(&bytes[..run]);
            run
        }
    }
}

/// How many bytes are tested together.
const BLOCK: usize = 16;

/// How many plain bytes come first. They are tested in blocks as long as the blocks are plain, then one by one.
#[inline(always)]
pub fn plain_len(bytes: &[u8]) -> usize
    ensures { result ≡ prefix_len is_plain bytes.now }
{
    if bytes.len() < BLOCK {
        return plain_run(bytes);
    }
    let blocks = plain_blocks(bytes);
    blocks + plain_run(&bytes[blocks..])
}

// How many bytes the plain blocks at the front have.
#[inline(never)]
fn plain_blocks(bytes: &[u8]) -> usize
    ensures within { result ≤ length bytes.now }
    ensures plain { prefix_len is_plain bytes.now ≡ result + prefix_len is_plain (drop result bytes.now) }
{
    let mut done = 0;
    while bytes.len() - done >= BLOCK {
        if !is_plain_block(&bytes[done..done + BLOCK]) {
            return done;
        }
        done += BLOCK;
    }
    done
}

// Whether all bytes of a block are plain. Each byte is tested, whatever the others are, so that there is no branch
// between two.
#[inline(always)]
fn is_plain_block(block: &[u8]) -> bool
    ensures { result ≡ list_all is_plain block.now }
{
    let mut plain = true;
    for byte in block {
        plain &= is_plain(*byte);
    }
    plain
}

fn plain_run(bytes: &[u8]) -> usize
    ensures { result ≡ prefix_len is_plain bytes.now }
{
    bytes.iter().take_while(|byte| is_plain(**byte)).count()
}

/// Whether a byte is printed as itself.
pub fn is_plain(byte: u8) -> bool
    ensures { result ≡ is_plain byte }
{
    32 <= byte && byte <= 126 && byte != b'"' && byte != b'\\'
}
