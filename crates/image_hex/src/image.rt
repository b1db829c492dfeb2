//! Images by name and content.
ghost use Rattle.std.specs.Prelude.{◌≡◌, length, Err, IfOk};
ghost use Rattle.part_spec.specs.Chip.{m16, chip_of, words_of};
ghost use Rattle.image_hex.specs.Reading.{image_of, Answers, NeedsMemory};

use crate::error::ImageError;
use crate::filling::read_hex;
use crate::raw::read_raw;
use part_spec::Part;
use std::alloc::Global;

/// The most bytes of an image.
const CONTENT: usize = 1_048_576;

/// The 8,192 words of an image for the ATmega16, FFFF where it gives none, as `read_image_for` reads it.
///
/// # Errors
///
/// Those of `read_image_for`.
pub fn read_image(alloc: Global, name: &str, bytes: &[u8]) -> Result<Vec<u16>, ImageError>
    ensures answer { Answers result (image_of m16 name.now bytes.now) }
    ensures size { IfOk result (λ words. length words.items ≡ words_of m16) }
    ensures memory { result ≡ Err ImageError.Memory → NeedsMemory m16 name.now bytes.now }
{
    read_image_for(alloc, Part::M16, name, bytes)
}

/// The words of an image for a part, as many as its flash has, FFFF where the image gives none.
/// The bytes of an image whose name ends in `.hex` are Intel HEX, those of every other are its words, low byte first.
///
/// # Errors
///
/// `TooLarge` for more than 1,048,576 bytes. Of a raw image `TooLarge` for more bytes than the flash has, else `Odd`.
/// Of a text what is wrong with its first wrong line: `BadRecord`, else `BadSum`, else `TooLarge` or `Overlap` by the first byte,
/// in rising address, that is behind the end or was given before. `Memory` for want of memory alone.
pub fn read_image_for(
    alloc: Global,
    part: Part,
    name: &str,
    bytes: &[u8],
) -> Result<Vec<u16>, ImageError>
    ensures answer { Answers result (image_of (chip_of part) name.now bytes.now) }
    ensures size { IfOk result (λ words. length words.items ≡ words_of (chip_of part)) }
    ensures memory { result ≡ Err ImageError.Memory → NeedsMemory (chip_of part) name.now bytes.now }
{
    if bytes.len() > CONTENT {
        return Err(ImageError::TooLarge);
    }
    if name.as_bytes().ends_with(b".hex") {
        read_hex(alloc, part, bytes)
    } else {
        read_raw(alloc, part, bytes)
    }
}
