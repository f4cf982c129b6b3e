//! The laws of the bounds of printed values. These functions do nothing: the contract of each is a law.

ghost use Rattle.text_bounds.specs.TextLaws.{TextsAreBounded, PartTextsAreBounded, StyledTextsAreBounded, MeantTextsAreBounded, AnyModeIsBounded, OutputsAreBounded, OutputsUnderTermsAreBounded};

/// A printed value that fits a type over so many bits has, in each mode, at most as many bytes as the type's bound.
pub fn texts_are_bounded()
    ensures law { TextsAreBounded }
{}

/// The same holds for each printed part of such a value.
pub fn part_texts_are_bounded()
    ensures law { PartTextsAreBounded }
{}

/// A printed value that a type means on a file's bits has, in each mode, at most as many bytes as the type's bound.
pub fn meant_texts_are_bounded()
    ensures law { MeantTextsAreBounded }
{}

/// The same holds for each printed part of such a value in every style, whatever its arrays of chars are.
pub fn styled_texts_are_bounded()
    ensures law { StyledTextsAreBounded }
{}

/// The bound for any mode is at least that of each.
pub fn any_mode_is_bounded()
    ensures law { AnyModeIsBounded }
{}

/// A run of a mapping writes at most as many bytes to standard output as the type's bound.
pub fn outputs_are_bounded()
    ensures law { OutputsAreBounded }
{}

/// The same holds for a run of a mapping under terms without a look and a selection, in every style, whether it prints
/// the value or a requested part.
pub fn outputs_under_terms_are_bounded()
    ensures law { OutputsUnderTermsAreBounded }
{}
