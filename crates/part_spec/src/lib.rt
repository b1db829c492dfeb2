//! The parts of the family, and their numbers, as definitions that all others take: see `specs/Chip.antt`, and `specs/Pages.antt`
//! for the pages of a flash.
#![tactic(auto)]

mod part;

pub use part::{MOST_SRAM, PAGE_BYTES, PAGE_WORDS, Part};
