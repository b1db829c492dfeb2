//! The listing of a program.
ghost use Rattle.std.specs.Prelude.{◌≡◌, ℕ, ◌+◌, ◌^◌, ◌<◌, ◌≤◌, ◌++◌, [], ◌∷◌, length, drop, nat_le};
ghost use Rattle.part_spec.specs.Chip.{chip_of, words_of};
ghost use Rattle.avr_spec.specs.Decode.{words};
ghost use Rattle.arrayvec.specs.ArrayVec.{array_vec_len};
ghost use Rattle.ice_line.specs.Lines.{Writes};
ghost use Rattle.asm_spec.specs.Listing.{are_erased, line_of, lines_from, listing, shown_at};

use crate::line::list_line;
use arrayvec::{ArrayString, ArrayVec};
use ice_base::Sink;
use ice_frame::append;
use ice_line::write_some;
use part_spec::Part;

/// A word of erased flash.
const ERASED: u16 = 0xFFFF;

/// How many bytes of lines are gathered before they are put.
const GATHERED: usize = 4096;

/// The most bytes of a line, with its end.
const LINE: usize = 33;

/// Lines that are put at once.
type Lines = ArrayVec<u8, GATHERED>;

/// Puts the listing of a program, and tells whether all of it was written. It takes no memory.
pub fn list_program<K: Sink>(part: Part, program: &[u16], sink: &mut K) -> bool
    requires { length program.now ≡ words_of (chip_of part) }
    ensures writes { Writes result (K.written sink.old) (K.written sink.new) (K.faults sink.old) (K.faults sink.new)
        (listing (chip_of part) program.now) }
    ensures faults { K.faults sink.old ≤ K.faults sink.new }
{
    let used = used_words(program);
    let mut place = 0;
    'pieces: while place < used {
        let mut lines = Lines::new();
        place = gather(part, program, place, used, &mut lines);
        if !write_some(lines.as_slice(), sink) {
            return false;
        }
    }
    true
}

/// How many words there are up to the last one that is not erased.
fn used_words(program: &[u16]) -> u16
    requires { length program.now < 2 ^ 16 }
    ensures erased { (k : ℕ) → are_erased (drop k program.now) ≡ nat_le result k }
    ensures within { result ≤ length program.now }
{
    let mut used = program.len() as u16;
    'words: while used > 0 {
        if program[usize::from(used) - 1] != ERASED {
            return used;
        }
        used -= 1;
    }
    used
}

/// Gathers at least one line, from a place on, and as many more as surely have room, and answers the place behind them.
fn gather(part: Part, program: &[u16], start: u16, used: u16, lines: &mut Lines) -> u16
    requires words { length program.now ≡ words_of (chip_of part) }
    requires start { start < used }
    requires used { (k : ℕ) → are_erased (drop k program.now) ≡ nat_le used k }
    requires within { used ≤ length program.now }
    requires empty { lines.old.items ≡ [] }
    ensures further { start < result }
    ensures within { result ≤ length program.now }
    ensures lines { lines_from (chip_of part) 0 (drop start program.now)
        ≡ lines.new.items ++ lines_from (chip_of part) 0 (drop result program.now) }
{
    let mut place = start + add_line(part, program, start, lines);
    'lines: while place < used && lines.len() + LINE <= GATHERED {
        place += add_line(part, program, place, lines);
    }
    place
}

/// Adds the line of a place, and answers how many words it stands for.
fn add_line(part: Part, program: &[u16], place: u16, lines: &mut Lines) -> u16
    requires words { length program.now ≡ words_of (chip_of part) }
    requires place { place < words_of (chip_of part) }
    requires room { length lines.old.items + LINE ≤ GATHERED }
    ensures line { lines.new.items ≡ lines.old.items ++ line_of (chip_of part) (shown_at (chip_of part) program.now place) }
    ensures words { result ≡ words (shown_at (chip_of part) program.now place) }
    ensures some { 1 ≤ result }
    ensures within { place + result ≤ length program.now }
{
    let mut line = ArrayString::new();
    let words = list_line(part, program, place, &mut line);
    append(lines, line.as_str().as_bytes());
    lines.push(b'\n');
    words
}
