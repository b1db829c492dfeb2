//! What may be wrong with a line of a text.

/// What is wrong with a line, in the order in which it is told.
#[derive(Clone, Copy, Debug, PartialEq, Eq)]
pub enum AsmKind {
    /// It is no line of the grammar.
    Text,
    /// A number is outside of its operand's field.
    Value,
    /// An earlier line has the label.
    Twice,
    /// An `.org` or a word beyond the end of the flash.
    Place,
    /// A word was given before.
    Overlap,
    /// A name that no line has as its label.
    Name,
    /// A label that is too far for the field, or at the end of the flash.
    Far,
}
