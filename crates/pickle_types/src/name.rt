//! The names that a value is printed with.

ghost use Rattle.std.specs.Prelude.{◌≡◌, IfOk, IfErr};
ghost use Rattle.pickle_types.specs.Table.{letters_of};

use crate::fault::FaultKind;
use arrayvec::ArrayVec;
use std::alloc::Global;

/// The letters of a name. A short name is stored in place, with no memory of its own.
#[derive(Drop)]
pub enum Name {
    Short(ArrayVec<u8, 16>),
    Long(Vec<u8>),
}

impl Name {
    /// Copies these letters. Fails with `Memory` alone.
    pub fn from_slice(alloc: Global, letters: &[u8]) -> Result<Name, FaultKind>
        ensures ok { IfOk result (λ name. letters_of name ≡ letters.now) }
        ensures err { IfErr result (λ e. e ≡ FaultKind.Memory) }
    {
        match ArrayVec::try_from(letters) {
            Ok(short) => Ok(Name::Short(short)),
            Err(_) => Ok(Name::Long(Vec::from_slice(alloc, letters)?)),
        }
    }

    /// The letters.
    pub fn as_slice(&self) -> &[u8]
        ensures { result.now ≡ letters_of self.now }
    {
        match self {
            Name::Short(letters) => letters.as_slice(),
            Name::Long(letters) => letters.as_slice(),
        }
    }
}
