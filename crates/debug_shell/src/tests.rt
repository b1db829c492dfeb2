//! Lines, and scripts over objects in memory.

mod lines;
mod scripts;
