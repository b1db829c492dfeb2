//! Bodies as AVR067 has them, each with one byte less and one more.
mod commands;
mod events;
mod responses;
