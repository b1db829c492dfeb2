//! Prints how the decoder reads words of code. Each line of standard input is a first word in hexadecimal; the line for it has
//! the word, the length of its instruction in words, and its text, with 0 as the word behind it.
#![tactic(auto)]

use arrayvec::ArrayString;
use avr_decode::{decode, print, words};
use std::io;

fn main(rt: HostRuntime) -> io::Result<()> {
    for line in rt.lines(rt.alloc()) {
        let line = line?;
        match u16::from_str_radix(line.as_str(), 16) {
            Ok(first) => {
                let instr = decode(first, 0);
                let mut text = ArrayString::new();
                print(&instr, &mut text);
                println!(rt; "{first:04x} {} {}", words(&instr), text.as_str())?;
            }
            Err(_) => println!(rt; "{line}: not a word")?,
        }
    }
    Ok(())
}
