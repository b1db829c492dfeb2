//! A line of a listing.
ghost use Rattle.std.specs.Prelude.{◌≡◌, ◌+◌, ◌<◌, ◌≤◌, [], length, drop, slice_index};
ghost use Rattle.part_spec.specs.Chip.{chip_of, words_of};
ghost use Rattle.avr_spec.specs.Decode.{words};
ghost use Rattle.avr_spec.specs.Fields.{FieldsFit};
ghost use Rattle.avr_spec.specs.Text.{text};
ghost use Rattle.asm_spec.specs.Listing.{leads_out, shown_at, shown_of};

use arrayvec::ArrayString;
use avr_decode::{decode, print_for, words};
use avr_spec::Instr;
use part_spec::Part;

/// Writes the line of a listing for a place of a program, without its end, and answers how many words the line stands for.
pub fn list_line(part: Part, program: &[u16], place: u16, out: &mut ArrayString<32>) -> u16
    requires empty { out.old.bytes ≡ [] }
    requires words { length program.now ≡ words_of (chip_of part) }
    requires place { place < words_of (chip_of part) }
    ensures text { out.new.bytes ≡ text (chip_of part) (shown_at (chip_of part) program.now place) }
    ensures words { result ≡ words (shown_at (chip_of part) program.now place) }
    ensures some { 1 ≤ result }
    ensures within { place + result ≤ length program.now }
{
    let shown = shown_at(part, program, place);
    print_for(part, &shown, out);
    u16::from(words(&shown))
}

/// What a listing shows of a place.
#[tactic(auto, unfolding(asm_spec::specs::Listing::shown))]
fn shown_at(part: Part, program: &[u16], place: u16) -> Instr
    requires words { length program.now ≡ words_of (chip_of part) }
    requires place { place < words_of (chip_of part) }
    ensures shown { result ≡ shown_at (chip_of part) program.now place }
    ensures fields { FieldsFit result }
    ensures some { 1 ≤ words result }
    ensures within { place + words result ≤ length program.now }
{
    let first = program[usize::from(place)];
    let instr = decode(first, second_of(program, place));
    shown_of(part, part.words() - place, first, instr)
}

/// What is shown of an instruction, where so many words are left: where it has more, or leads out of the part, its first word alone.
fn shown_of(part: Part, left: u16, first: u16, instr: Instr) -> Instr
    requires left { 1 ≤ left }
    requires fields { FieldsFit instr }
    ensures shown { result ≡ shown_of (chip_of part) left first instr }
    ensures fields { FieldsFit result }
    ensures some { 1 ≤ words result }
    ensures within { words result ≤ left }
{
    let count = words(&instr);
    if left < u16::from(count) {
        return Instr::Undefined(first);
    }
    if leads_out(part, &instr) {
        return Instr::Undefined(first);
    }
    instr
}

/// The word behind a place, and 0 behind the last one.
fn second_of(program: &[u16], place: u16) -> u16
    requires { place < length program.now }
    ensures { result ≡ slice_index (drop (place + 1) program.now) 0 }
{
    match program.get(usize::from(place) + 1) {
        Some(second) => *second,
        None => 0,
    }
}

/// Whether a jump or a call goes to an address that the part does not have.
fn leads_out(part: Part, instr: &Instr) -> bool
    ensures { result ≡ leads_out (chip_of part) instr.now }
{
    match *instr {
        Instr::Jmp(address) => u32::from(part.words()) <= address,
        Instr::Call(address) => u32::from(part.words()) <= address,
        _ => false,
    }
}
