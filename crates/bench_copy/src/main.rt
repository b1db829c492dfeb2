//! A yardstick for the speed of the line: standard input is read to its end and written to standard output.
#![tactic(auto)]

use std::io;
use std::io::Write;

fn main(rt: HostRuntime) -> io::Result<()> {
    let mut output = rt.stdout();
    io::copy(&mut rt.stdin(), &mut output)?;
    output.flush()
}
