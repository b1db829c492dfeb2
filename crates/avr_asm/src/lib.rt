//! The assembler of the target, and the listing of a program, by the instruction table and the texts of `avr_spec`.
#![tactic(auto)]

mod assembler;
mod cuts;
mod encodings;
mod error;
mod fields;
mod forms;
mod line;
mod meanings;
mod numbers;
mod orders;
mod program;
mod readings;
mod sheet;
mod statements;
mod stream;
#[cfg(test)]
mod tests;
mod tokens;

pub use asm_spec::AsmKind;
pub use assembler::{Assembled, assemble};
pub use error::AsmError;
pub use line::list_line;
pub use program::list_program;
pub use stream::{AssemblyEnd, assemble_source};
