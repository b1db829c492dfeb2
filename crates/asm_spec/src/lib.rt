//! The book of the assembler: the listing of a program, and the words of a text, as definitions in `specs/`, with their laws as the
//! contracts of functions that do nothing.
#![tactic(auto)]

mod kind;
mod laws;
mod text_values;
mod values;

pub use kind::AsmKind;
pub use laws::{a_listing_gives_its_program, forms_are_texts};
pub use text_values::{
    ends_of_lines, texts_that_are_wrong, words_of_a_port, words_of_aliases, words_with_labels,
};
pub use values::{
    listing_of_a_jump_out, listing_of_a_long_end, listing_of_a_port, listing_of_nothing,
    words_that_are_listed,
};
