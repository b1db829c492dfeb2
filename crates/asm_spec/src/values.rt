//! Listings worked by hand from the bit patterns of the AVR Instruction Set Manual, as laws: each function is empty, and its contract
//! says what the definitions compute.
ghost use Rattle.std.specs.Prelude.{◌≡◌, [], ◌∷◌, ◌++◌, codes};
ghost use Rattle.part_spec.specs.Chip.{m16, m32};
ghost use Rattle.asm_spec.specs.Listing.{listing};
ghost use Rattle.asm_spec.specs.ListingLaws.{listed};

/// A program for one port, with erased words behind it. An erased word in front of another word is listed.
pub fn listing_of_a_port()
    ensures port { listing m16 (0xe001 ∷ 0xbb07 ∷ 0xbb08 ∷ 0xcfff ∷ 0xffff ∷ 0xffff ∷ [])
        ≡ codes "ldi r16, 0x01" ++ 10 ∷ codes "out 0x17, r16" ++ 10 ∷ codes "out 0x18, r16" ++ 10 ∷ codes "rjmp .-1" ++ 10 ∷ [] }
    ensures gap { listing m16 (0xffff ∷ 0x0000 ∷ []) ≡ codes ".word 0xffff" ++ 10 ∷ codes "nop" ++ 10 ∷ [] }
{}

/// Erased words alone have no lines.
pub fn listing_of_nothing()
    ensures none { listing m16 [] ≡ [] }
    ensures erased { listing m32 (0xffff ∷ 0xffff ∷ []) ≡ [] }
{}

/// A jump to an address that one part has and the other has not; there, its second word is listed by itself.
pub fn listing_of_a_jump_out()
    ensures small { listing m16 (0x940c ∷ 0x2000 ∷ 0xffff ∷ []) ≡ codes ".word 0x940c" ++ 10 ∷ codes "and r0, r0" ++ 10 ∷ [] }
    ensures large { listing m32 (0x940c ∷ 0x2000 ∷ 0xffff ∷ []) ≡ codes "jmp 0x2000" ++ 10 ∷ [] }
{}

/// An instruction of two words whose second one is erased is listed whole; one that stands at the last place by its word.
pub fn listing_of_a_long_end()
    ensures whole { listing m16 (0x9100 ∷ 0xffff ∷ []) ≡ codes "lds r16, 0xffff" ++ 10 ∷ [] }
    ensures cut { listing m16 (0x0000 ∷ 0x9100 ∷ []) ≡ codes "nop" ++ 10 ∷ codes ".word 0x9100" ++ 10 ∷ [] }
{}

/// How many words the lines of a listing stand for: up to the last word that is not erased, and with one more where that word is shown
/// with the erased one behind it.
pub fn words_that_are_listed()
    ensures short { listed m16 (0xffff ∷ 0xe001 ∷ 0xffff ∷ 0xffff ∷ []) ≡ 2 }
    ensures long { listed m16 (0x0000 ∷ 0x9100 ∷ 0xffff ∷ 0xffff ∷ []) ≡ 3 }
    ensures none { listed m16 (0xffff ∷ 0xffff ∷ []) ≡ 0 }
{}
