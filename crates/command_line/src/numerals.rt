//! Numbers as arguments.
ghost use Rattle.std.specs.Prelude.{◌≡◌, ◌≢◌, ℕ, ◌<◌, ◌≤◌, ◌^◌, List, ◌∷◌, SomeIff, IfSome, IfNone};
ghost use Rattle.std.specs.Str.Parse.{IsNumeral, digits_value};
ghost use Rattle.command_line.specs.Numerals.{without_plus, IsCount, IsByteCount};

/// The least number of bytes that have too many bits to be counted.
const TOO_MANY_BYTES: u64 = 1 << 61;

/// The value of decimal digits, if it is below 2^64. There is no sign before them.
pub fn decimal(digits: &[u8]) -> Option<u64>
    ensures { SomeIff result
        (IsNumeral 10 digits.now × (digits_value 10 digits.now < 2 ^ 64)) (digits_value 10 digits.now) }
{
    number(digits, 10)
}

/// The value of decimal digits, if it is below 2^64. They may have a plus before them, as in Rust.
pub fn whole_number(word: &[u8]) -> Option<u64>
    ensures { SomeIff result
        (IsNumeral 10 (without_plus word.now) × (digits_value 10 (without_plus word.now) < 2 ^ 64))
        (digits_value 10 (without_plus word.now)) }
{
    match after(word, b'+') {
        Some(digits) => decimal(digits),
        None => decimal(word),
    }
}

/// The number of bytes that an argument names: decimal digits, or `0x` and hexadecimal digits. It is below 2^61.
pub fn byte_count(word: &[u8]) -> Option<u64>
    ensures some { IfSome result (IsByteCount word.now) }
    ensures none { IfNone result ((bytes : ℕ) → ¬ (IsByteCount word.now bytes)) }
{
    let bytes = count(word)?;
    if bytes < TOO_MANY_BYTES {
        Some(bytes)
    } else {
        None
    }
}

/// The bytes after the first one, if that is `first`.
pub fn after(word: &[u8], first: u8) -> Option<&[u8]>
    ensures some { IfSome result (λ rest. word.now ≡ first ∷ rest.now) }
    ensures none { IfNone result ((rest : List ℕ) → word.now ≢ first ∷ rest) }
{
    match word.split_first() {
        Some((byte, rest)) if *byte == first => Some(rest),
        _ => None,
    }
}

// The number that decimal digits, or `0x` and hexadecimal digits, are.
fn count(word: &[u8]) -> Option<u64>
    ensures some { IfSome result (IsCount word.now) }
    ensures none { IfNone result ((number : ℕ) → IsCount word.now number → 2 ^ 64 ≤ number) }
{
    match decimal(word) {
        Some(number) => Some(number),
        None => number(after(after(word, b'0')?, b'x')?, 16),
    }
}

// The value of digits of base 10 or 16, if it is below 2^64.
fn number(digits: &[u8], base: u32) -> Option<u64>
    requires least { 2 ≤ base }
    requires most { base ≤ 36 }
    ensures { SomeIff result
        (IsNumeral base digits.now × (digits_value base digits.now < 2 ^ 64)) (digits_value base digits.now) }
{
    if digits.first() == Some(&b'+') {
        return None;
    }
    u64::from_str_radix(std::str::from_utf8(digits).ok()?, base).ok()
}
