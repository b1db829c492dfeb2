//! Texts worked by hand from the bit patterns of the AVR Instruction Set Manual, as laws: each function is empty, and its contract
//! says what the definitions compute. The part of these has 128 words.
ghost use Rattle.std.specs.Prelude.{◌≡◌, [], ◌∷◌, ◌++◌, codes, map};
ghost use Rattle.asm_spec.specs.declared.kind.AsmKind.TheVariants.{Text, Value, Twice, Place, Overlap, Name, Far};
ghost use Rattle.asm_spec.specs.Words.{assembly};
ghost use Rattle.asm_spec.specs.Examples.{first_words, small, small_text, wrong};

/// A program for one port, with labels and blanks.
pub fn words_of_a_port()
    ensures { small_text (codes "start: ldi r16, 0x01" ∷ codes "out 0x17, r16" ∷
        codes "  out   0x18,r16 ; on" ∷ codes "here: rjmp here" ∷ [])
        ≡ first_words (0xe001 ∷ 0xbb07 ∷ 0xbb08 ∷ 0xcfff ∷ []) 124 4 }
{}

/// Each alias with its operand.
pub fn words_of_aliases()
    ensures { small_text (codes "sei" ∷ codes "cli" ∷ codes "brcs .+0" ∷ codes "brne .-1" ∷ codes "clr r5" ∷ codes "tst r31" ∷
        codes "lsl r16" ∷ codes "rol r0" ∷ [])
        ≡ first_words (0x9478 ∷ 0x94f8 ∷ 0xf000 ∷ 0xf7f9 ∷ 0x2455 ∷ 0x23ff ∷ 0x0f00 ∷ 0x1c00 ∷ []) 120 8 }
{}

/// A label ahead, behind, at the end, and as an address of data; a place that is set, and a word by its number.
pub fn words_with_labels()
    ensures ahead { small_text (codes "rjmp end" ∷ codes "loop: jmp end" ∷ codes "lds r16, loop" ∷ codes "end:" ∷ codes "brcc loop" ∷ [])
        ≡ first_words (0xc004 ∷ 0x940c ∷ 0x0005 ∷ 0x9100 ∷ 0x0001 ∷ 0xf7d8 ∷ []) 122 6 }
    ensures set { small_text (codes ".org 2" ∷ codes ".word 0xABcd" ∷ codes ".org 0" ∷ codes "sts 96, r1" ∷ [])
        ≡ first_words (0x9210 ∷ 0x0060 ∷ 0xabcd ∷ []) 125 3 }
{}

/// The first wrong line by what it shows by itself and what stands before it; then the first whose label is missing or too far.
pub fn texts_that_are_wrong()
    ensures lines { map small_text ((codes "ldi r15, 1" ∷ []) ∷ (codes "nop" ∷ codes ".org 0" ∷ codes "nop" ∷ []) ∷
        (codes "a: nop" ∷ codes "a:" ∷ []) ∷ (codes ".org 128" ∷ []) ∷ (codes "add r1 r2" ∷ []) ∷ (codes "bset 8" ∷ []) ∷ [])
        ≡ wrong 1 Value ∷ wrong 3 Overlap ∷ wrong 2 Twice ∷ wrong 1 Place ∷ wrong 1 Text ∷ wrong 1 Value ∷ [] }
    ensures labels { map small_text ((codes "rjmp far" ∷ []) ∷ (codes "rjmp far" ∷ codes "ldi r15, 1" ∷ []) ∷
        (codes "breq a" ∷ codes ".org 65" ∷ codes "a:" ∷ []) ∷ (codes "jmp a" ∷ codes ".org 127" ∷ codes "nop" ∷ codes "a:" ∷ []) ∷ [])
        ≡ wrong 1 Name ∷ wrong 2 Value ∷ wrong 1 Far ∷ wrong 1 Far ∷ [] }
{}

/// A carriage return belongs to the end of a line only in front of a line feed; the last line needs no end.
pub fn ends_of_lines()
    ensures { map (assembly small) ((codes "nop" ++ 13 ∷ 10 ∷ codes "nop") ∷ (codes "nop" ++ 13 ∷ []) ∷ [] ∷ [])
        ≡ first_words (0x0000 ∷ 0x0000 ∷ []) 126 2 ∷ wrong 1 Text ∷ first_words [] 128 0 ∷ [] }
{}
