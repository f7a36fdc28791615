//! The laws of relocated debug data. They have no code: the bytes are proved to be those of the definitions.
ghost use Rattle.debug_image.specs.FieldLaws.{FieldsHaveValues, FieldsWithoutData, OthersAreOfInput};

/// The field of an entry of debug data holds the value of the psABI's formula, where its symbol has a value and that fits; it is
/// of all ones where its symbol is a place in data that aren't in the image; and a byte in no field is that of the input.
pub fn fields_have_their_values()
    ensures values { FieldsHaveValues }
    ensures nowhere { FieldsWithoutData }
    ensures others { OthersAreOfInput }
{}
