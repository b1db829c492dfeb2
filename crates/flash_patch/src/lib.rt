//! The flash plan: the program, its software breakpoints, and the page writes that make a flash hold them.
#![tactic(auto)]

mod addresses;
mod pages;
mod plan;
#[cfg(test)]
mod tests;

pub use pages::sync_page;
pub use plan::{FlashFault, NotSet, Plan, Refused};
