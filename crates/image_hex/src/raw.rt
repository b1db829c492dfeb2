//! Raw images.
ghost use Rattle.std.specs.Prelude.{◌≡◌, ◌≤◌, length, Err, IfOk, IsOk};
ghost use Rattle.part_spec.specs.Chip.{chip_of, words_of, flash_bytes};
ghost use Rattle.image_hex.specs.Raw.{program_of, raw_image};
ghost use Rattle.image_hex.specs.Reading.{Answers};

use crate::error::ImageError;
use part_spec::Part;
use std::alloc::{AllocError, Global};

/// The program of a raw image.
pub(crate) fn read_raw(alloc: Global, part: Part, image: &[u8]) -> Result<Vec<u16>, ImageError>
    ensures answer { Answers result (raw_image (chip_of part) image.now) }
    ensures size { IfOk result (λ words. length words.items ≡ words_of (chip_of part)) }
    ensures memory { result ≡ Err ImageError.Memory → IsOk (raw_image (chip_of part) image.now) }
{
    if image.len() > flash_size(part) {
        return Err(ImageError::TooLarge);
    }
    if image.len() % 2 == 1 {
        return Err(ImageError::Odd);
    }
    program(alloc, part, image).map_err(|_| ImageError::Memory)
}

/// The bytes of the part's flash.
pub(crate) fn flash_size(part: Part) -> usize
    ensures { result ≡ flash_bytes (chip_of part) }
{
    2 * usize::from(part.words())
}

/// The words of the bytes, the low byte first, and FFFF behind them.
pub(crate) fn program(alloc: Global, part: Part, bytes: &[u8]) -> Result<Vec<u16>, AllocError>
    requires { length bytes.now ≤ flash_bytes (chip_of part) }
    ensures items { IfOk result (λ words. words.items ≡ program_of (chip_of part) bytes.now) }
    ensures size { IfOk result (λ words. length words.items ≡ words_of (chip_of part)) }
{
    let size = usize::from(part.words());
    let mut words = Vec::with_capacity(alloc, size)?;
    let mut rest = bytes;
    while let [low, high, behind @ ..] = rest {
        words.push(u16::from(*low) + 256 * u16::from(*high))?;
        rest = behind;
    }
    words.resize(size, 0xFFFF)?;
    Ok(words)
}
