//! The parameters of the tool: read by their id, and written where the table lets them (AVR067, 'Parameters').
#![tactic(auto)]

mod id;
mod kept;
mod params;
#[cfg(test)]
mod tests;

pub use line_spec::Refusal;
pub use params::{ParamValue, Params};
