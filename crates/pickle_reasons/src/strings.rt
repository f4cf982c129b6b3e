//! Strings that are used as arrays.

use crate::clause::IllTypedExpression;
use pickle_source::script::TokenRange;
use pickle_source::text::Text;
use pickle_types::refused::OperandType;
use std::alloc::AllocError;

impl<'a, 't> IllTypedExpression<'a, 't> {
    /// The help for the length of a string: its bytes without the final 0.
    pub fn length_help(&self, operand: TokenRange) -> Result<Option<Text>, AllocError> {
        if self.operand_type() != Some(OperandType::String) {
            return Ok(None);
        }
        Ok(Some(self.sentence(
            b"write `($0'size / 1#B - 1)` for its bytes before the 0",
            &[self.whole(operand)],
        )?))
    }

    /// The help for an element of a string.
    pub fn element_help(&self) -> Result<Option<Text>, AllocError> {
        if self.operand_type() != Some(OperandType::String) {
            return Ok(None);
        }
        Ok(Some(
            self.text().say(
                b"compare it whole, as `s == \"abc\"`, or write an array for it, as `char[3]`",
            )?,
        ))
    }
}
