//! What the definitions of images say together.
ghost use Rattle.std.specs.Prelude.{◌≡◌, ◌≤◌, ◌%◌, ℕ, List, length};
ghost use Rattle.part_spec.specs.Chip.{chip_of, flash_bytes};
ghost use Rattle.part_spec.specs.declared.part.Part.{Part};
ghost use Rattle.image_hex.specs.Hex.{hex_image};
ghost use Rattle.image_hex.specs.Raw.{raw_image};
ghost use Rattle.image_hex.specs.Written.{ArePieces, joined, text_of};

/// A program that is written as records, in pieces of at most 255 bytes, is read back: its text gives the words that its raw image gives.
pub fn a_written_program_is_read_back()
    ensures { (part : Part) (pieces : List (List ℕ)) → ArePieces pieces → length (joined pieces) ≤ flash_bytes (chip_of part)
        → length (joined pieces) % 2 ≡ 0
        → hex_image (chip_of part) (text_of pieces 0) ≡ raw_image (chip_of part) (joined pieces) }
{}
