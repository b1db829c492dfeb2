//! Whole sessions of the debugger, as calls of the program over objects in memory: what is sent, what is noted, which pages are written,
//! and what the flash holds at the end.
//!
//! There is no code here but tests. What a call does is proved where it stands; these sessions are worked by hand, and say whether what
//! is proved is what was meant.
#![tactic(auto)]

#[cfg(test)]
mod tests;
