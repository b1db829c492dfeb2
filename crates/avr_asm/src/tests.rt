//! Listings and texts worked by hand, from the bit patterns of the AVR Instruction Set Manual.
ghost use Rattle.std.specs.Prelude.{◌+◌, ◌≤◌, length};

use super::{AsmError, AsmKind, assemble, list_line, list_program};
use arrayvec::ArrayString;
use ice_base::MemSink;
use part_spec::Part;
use std::alloc::Global;
use std::test::Fail;

/// A program for one port, with a jump out of the small part behind it.
fn port_program(rt: &HostRuntime, words: usize) -> Result<Vec<u16>, Fail> {
    let mut program = [0xE001, 0xBB07, 0xBB08, 0xCFFF, 0x940C, 0x2000].to_vec(rt.alloc())?;
    for _ in 6..words {
        program.push(0xFFFF)?;
    }
    Ok(program)
}

#[test]
fn a_port_is_listed(rt: HostRuntime) -> Result<(), Fail> {
    let program = port_program(&rt, 8192)?;
    let mut sink = MemSink::of(rt.alloc(), Vec::new(rt.alloc()), 200)?;
    assert!(rt; program.len() == 8192);
    assert!(rt; list_program(Part::M16, &program, &mut sink));
    let wanted =
        b"ldi r16, 0x01\nout 0x17, r16\nout 0x18, r16\nrjmp .-1\n.word 0x940c\nand r0, r0\n";
    assert!(rt; sink.written() == wanted.as_slice());
    Ok(())
}

#[test]
fn a_line_is_listed(rt: HostRuntime) -> Result<(), Fail> {
    let program = port_program(&rt, 16384)?;
    let mut line = ArrayString::new();
    assert!(rt; program.len() == 16384);
    let words = list_line(Part::M32, &program, 4, &mut line);
    assert!(rt; words == 2);
    assert!(rt; line.as_str() == "jmp 0x2000");
    Ok(())
}

/// A wrong text, its first wrong line, and what is wrong with it.
type Wrong = (&'static [u8], u32, AsmKind);

/// Texts that are wrong for either part.
const WRONG: [Wrong; 17] = [
    (b"ldi r15, 1", 1, AsmKind::Value),
    (b"bset 8", 1, AsmKind::Value),
    (b"rjmp .+2048", 1, AsmKind::Value),
    (b"brbs 1, .-65", 1, AsmKind::Value),
    (b"jmp 0x4000", 1, AsmKind::Value),
    (b"ldi r16, 256\nfoo", 1, AsmKind::Value),
    (b"add r1 r2", 1, AsmKind::Text),
    (b"clr r1, r1", 1, AsmKind::Text),
    (b"nop\r", 1, AsmKind::Text),
    (b"a: nop\na:", 2, AsmKind::Twice),
    (b"nop\n.org 16384", 2, AsmKind::Place),
    (b"nop\n.org 0\nnop", 3, AsmKind::Overlap),
    (b"rjmp far", 1, AsmKind::Name),
    (b"rjmp far\nldi r15, 1", 2, AsmKind::Value),
    (b"breq a\n.org 65\na:", 1, AsmKind::Far),
    (b"nop\na: nop\n.org 2048\nrjmp a\nrjmp a", 5, AsmKind::Far),
    (b"breq b\n.org 65\nb: rjmp a", 1, AsmKind::Far),
];

/// Texts that are wrong for the small part.
const WRONG_FOR_M16: [Wrong; 4] = [
    (b"nop\njmp 0x2000", 2, AsmKind::Value),
    (b".org 8192", 1, AsmKind::Place),
    (b".org 8191\njmp 0", 2, AsmKind::Place),
    (b"jmp a\n.org 8191\nnop\na:", 1, AsmKind::Far),
];

/// Texts that are wrong for the large part.
const WRONG_FOR_M32: [Wrong; 3] = [
    (b".org 16383\nnop\nnop", 3, AsmKind::Place),
    (b".org 16383\njmp 0", 2, AsmKind::Place),
    (b"jmp a\n.org 16383\nnop\na:", 1, AsmKind::Far),
];

/// Whether a text is refused for what is wrong with it.
fn is_refused(alloc: Global, part: Part, wrong: &Wrong) -> bool {
    let (text, line, kind) = *wrong;
    match assemble(alloc, part, text) {
        Ok(_) => false,
        Err(error) => error == AsmError::At { line, kind },
    }
}

/// Whether a text gives these words from a place on, and no word behind them.
fn gives(alloc: Global, part: Part, text: &[u8], place: usize, words: &[u16]) -> bool
    requires { place + length words.now ≤ 16384 }
{
    let end = place + words.len();
    let Ok(made) = assemble(alloc, part, text) else {
        return false;
    };
    if made.words.len() != usize::from(part.words()) || made.used as usize != end {
        return false;
    }
    if made.words.len() < end {
        return false;
    }
    &made.words[place..end] == words && are_erased(&made.words[end..])
}

/// Whether all words are those of erased flash.
fn are_erased(words: &[u16]) -> bool {
    for word in words {
        if *word != 0xFFFF {
            return false;
        }
    }
    true
}

#[test]
fn a_port_is_assembled(rt: HostRuntime) {
    let text =
        b"start: ldi r16, 0x01\nout 0x17, r16\n  out   0x18,r16 ; on\r\nhere: rjmp here".as_slice();
    let words = [0xE001, 0xBB07, 0xBB08, 0xCFFF];
    for part in [Part::M16, Part::M32] {
        assert!(rt; gives(rt.alloc(), part, text, 0, &words));
    }
}

#[test]
fn labels_are_assembled(rt: HostRuntime) {
    let text =
        b"rjmp end\nloop: jmp end\nlds r16, loop\nend:\nbrcc loop\nclr r5\n.word 0xABcd\n".as_slice();
    let words = [
        0xC004, 0x940C, 0x0005, 0x9100, 0x0001, 0xF7D8, 0x2455, 0xABCD,
    ];
    for part in [Part::M16, Part::M32] {
        assert!(rt; gives(rt.alloc(), part, text, 0, &words));
    }
}

#[test]
fn the_end_of_the_flash_is_assembled(rt: HostRuntime) {
    let alloc = rt.alloc();
    assert!(rt; gives(alloc, Part::M16, b".org 8191\nnop", 8191, &[0x0000]));
    assert!(rt;
        gives(
            alloc,
            Part::M32,
            b".org 16382\njmp 0x2000",
            16382,
            &[0x940C, 0x2000]
        )
    );
    assert!(rt; gives(alloc, Part::M32, b"", 0, &[]));
}

#[test]
fn wrong_texts_are_refused(rt: HostRuntime) {
    let alloc = rt.alloc();
    for wrong in &WRONG {
        assert!(rt; is_refused(alloc, Part::M16, wrong));
        assert!(rt; is_refused(alloc, Part::M32, wrong));
    }
    for wrong in &WRONG_FOR_M16 {
        assert!(rt; is_refused(alloc, Part::M16, wrong));
    }
    for wrong in &WRONG_FOR_M32 {
        assert!(rt; is_refused(alloc, Part::M32, wrong));
    }
}

#[test]
fn a_large_text_is_refused(rt: HostRuntime) -> Result<(), Fail> {
    let mut text = vec![in rt.alloc(); b' '; 1_048_576]?;
    assert!(rt; gives(rt.alloc(), Part::M16, &text, 0, &[]));
    text.push(b' ')?;
    match assemble(rt.alloc(), Part::M16, &text) {
        Ok(_) => assert!(rt; false),
        Err(error) => assert!(rt; error == AsmError::Large),
    }
    Ok(())
}

/// An ordinary start: it copies its data, and calls a function.
const START: [u16; 26] = [
    0x2411, 0xBE1F, 0xE5CF, 0xE0D4, 0xBFDE, 0xBFCD, 0xE3E0, 0xE0F0, 0xE6A0, 0xE0B0, 0x9105, 0x930D,
    0x36A4, 0xF7E1, 0xD001, 0xCFFF, 0xE001, 0xBB08, 0x9508, 0xFFFF, 0xFFFF, 0xFFFF, 0xFFFF, 0xFFFF,
    0x2211, 0x4433,
];

#[test]
fn a_listing_gives_its_program(rt: HostRuntime) -> Result<(), Fail> {
    for part in [Part::M16, Part::M32] {
        let size = usize::from(part.words());
        let mut program = START.to_vec(rt.alloc())?;
        for _ in START.len()..size {
            program.push(0xFFFF)?;
        }
        let mut sink = MemSink::of(rt.alloc(), Vec::new(rt.alloc()), 1000)?;
        assert!(rt; program.len() == size);
        assert!(rt; list_program(part, &program, &mut sink));
        assert!(rt; gives(rt.alloc(), part, sink.written(), 0, &START));
    }
    Ok(())
}

mod streams;
