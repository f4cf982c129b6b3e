//! Limits of steps that grow with the file.
ghost use Rattle.std.specs.Prelude.{◌≡◌, ◌<◌, true};
ghost use Rattle.jobs.specs.Growth.{bytes_from, grow_limit, grown, limit_over, places_in};

use command_line::limit::Limit;
use poke_batch::ask::Ask;

/// The steps for each byte of a list, and for each place of a search.
const STEPS_FOR_EACH: u64 = 256;

/// The steps of a mapping before its limit grows.
const LEAST_STEPS: u64 = 1_000_000_000;

/// The most steps over a file of so many bytes.
pub fn limit_over(limit: Limit, bytes: u64) -> u64
    ensures { result ≡ limit_over limit bytes }
{
    match limit {
        Limit::Steps(most) => most,
        Limit::Auto => grown(LEAST_STEPS, bytes),
    }
}

// A limit that has grown with so many bytes or places.
fn grown(limit: u64, count: u64) -> u64
    ensures { result ≡ grown true count limit }
{
    limit.max(STEPS_FOR_EACH.saturating_mul(count))
}

/// The same request, with the limit of so many bytes or places if it grows: 256 steps for each, if that is more.
pub fn grow_limit<'a>(ask: Ask<'a>, grows: bool, count: u64) -> Ask<'a>
    ensures { result ≡ grow_limit grows count ask.entry }
{
    let limit = if grows {
        grown(ask.limit, count)
    } else {
        ask.limit
    };
    Ask { limit, ..ask }
}

/// How many bytes a file of so many has from the byte on that a bit is in.
pub fn bytes_from(bytes: u64, start: u64) -> u64
    ensures { result ≡ bytes_from bytes start }
{
    bytes.saturating_sub(start / 8)
}

/// How many places there are from one on in so many bits, with `step` bits between two.
pub fn places_in(bits: u64, step: u64) -> u64
    requires { 0 < step }
    ensures { result ≡ places_in bits step }
{
    match bits % step {
        0 => bits / step,
        _ => bits / step + 1,
    }
}
