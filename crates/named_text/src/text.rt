//! A text of few bytes, which needs no memory of its own.

ghost use Rattle.std.specs.Prelude.{◌≡◌, ◌≤◌, ◌+◌, ◌++◌, ◌∷◌, [], length};
ghost use Rattle.arrayvec.specs.ArrayVec.{array_vec_len};

use arrayvec::ArrayVec;

/// A text of at most 64 bytes.
pub type Text = ArrayVec<u8, 64>;

/// Puts bytes at the end.
#[tactic(auto, using(crate::proofs::Pushes::bytes))]
pub fn push(text: &mut Text, bytes: &[u8])
    requires room { array_vec_len text.old + length bytes.now ≤ 64 }
    ensures text { text.new.items ≡ text.old.items ++ bytes.now }
    ensures len { array_vec_len text.new ≡ array_vec_len text.old + length bytes.now }
{
    for byte in bytes {
        text.push(*byte);
    }
}

/// Puts a byte at the end.
pub fn push_byte(text: &mut Text, byte: u8)
    requires room { array_vec_len text.old + 1 ≤ 64 }
    ensures text { text.new.items ≡ text.old.items ++ byte ∷ [] }
    ensures len { array_vec_len text.new ≡ array_vec_len text.old + 1 }
{
    text.push(byte);
}
