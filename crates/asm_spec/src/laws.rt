//! The laws of the definitions: each function is empty, and its contract is the law.
ghost use Rattle.asm_spec.specs.FormLaws.{FormsPrintTexts};
ghost use Rattle.asm_spec.specs.ListingLaws.{ListingsGiveTheirPrograms};

/// What the assembler reads as an instruction is what is printed of it.
pub fn forms_are_texts()
    ensures { FormsPrintTexts }
{}

/// The listing of a program that fills the flash of a part, assembled, gives that program again.
pub fn a_listing_gives_its_program()
    ensures { ListingsGiveTheirPrograms }
{}
