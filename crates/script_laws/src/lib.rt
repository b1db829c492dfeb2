//! What a script comes to over a link whose partner answers as the debugger of the book does: each law is the contract of a function that
//! does nothing. Those over any link are lemmas of `proofs/`, which the crate of the link cites.
#![tactic(auto)]

pub mod laws;
