//! The program of a made session.
ghost use Rattle.std.specs.Prelude.{◌≡◌, ◌+◌, ◌≤◌, IfOk, length, vec_len};
ghost use Rattle.part_spec.specs.Chip.{chip_of, words_of};
ghost use Rattle.part_spec.specs.Pages.{erased, overlaid};
ghost use Rattle.shell_spec.specs.Generator.{made_program};

use part_spec::Part;
use std::alloc::{AllocError, Global};

/// LDI r16, 1; OUT DDRB, r16; OUT PORTB, r16; INC r16; OUT PORTB, r16; RJMP back to INC.
const WORDS: [u16; 6] = [0xE001, 0xBB07, 0xBB08, 0x9503, 0xBB08, 0xCFFD];

/// The words of the flash that has the program of a made session, and is erased behind it.
pub fn made_program(alloc: Global, part: Part) -> Result<Vec<u16>, AllocError>
    ensures words { IfOk result (λ program. program.items ≡ made_program (chip_of part)) }
    ensures size { IfOk result (λ program. length program.items ≡ words_of (chip_of part)) }
{
    let mut program = erased_words(alloc, part)?;
    set_words(&mut program, 0, &WORDS);
    Ok(program)
}

/// The words of an erased flash.
fn erased_words(alloc: Global, part: Part) -> Result<Vec<u16>, AllocError>
    ensures words { IfOk result (λ words. words.items ≡ erased (chip_of part)) }
    ensures size { IfOk result (λ words. vec_len words ≡ words_of (chip_of part)) }
    ensures many { IfOk result (λ words. 6 ≤ vec_len words) }
{
    vec![in alloc; 0xFFFF; usize::from(part.words())]
}

/// Gives the words from an address on these values.
fn set_words(words: &mut Vec<u16>, address: usize, content: &[u16])
    requires { address + length content.now ≤ vec_len words.old }
    ensures words { words.new.items ≡ overlaid words.old.items address content.now }
    ensures size { vec_len words.new ≡ vec_len words.old }
{
    words[address..address + content.len()].copy_from_slice(content);
}
