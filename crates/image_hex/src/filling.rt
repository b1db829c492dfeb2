//! An image while it is read from a text.
ghost use Rattle.std.specs.Prelude.{◌≡◌, ◌+◌, ◌<◌, ◌≤◌, ◌^◌, length, map, replicate, None, Ok, Err, MatchResult, IfOk};
ghost use Rattle.part_spec.specs.Chip.{chip_of, words_of, flash_bytes};
ghost use Rattle.image_hex.specs.Lines.{lines_of};
ghost use Rattle.image_hex.specs.Hex.{placed, all_placed, filled, or_erased, words_in, hex_image};
ghost use Rattle.image_hex.specs.Taking.{TakesRecord, TakesLine, image_shown};
ghost use Rattle.image_hex.specs.Told.{record_shown};
ghost use Rattle.image_hex.specs.Reading.{Answers, content_limit};

use crate::error::ImageError;
use crate::line::first_line;
use crate::raw::{flash_size, program};
use crate::record::{Record, bytes_of, record_of, sums_to_zero};
use part_spec::Part;
use std::alloc::{AllocError, Global};

/// The program of a text.
pub(crate) fn read_hex(alloc: Global, part: Part, text: &[u8]) -> Result<Vec<u16>, ImageError>
    requires { length text.now ≤ content_limit }
    ensures answer { Answers result (hex_image (chip_of part) text.now) }
    ensures size { IfOk result (λ words. length words.items ≡ words_of (chip_of part)) }
{
    let Ok(bytes) = unfilled(alloc, part) else {
        return Err(ImageError::Memory);
    };
    let mut image = Filling { base: 0, bytes };
    fill(&mut image, text)?;
    words_of(alloc, part, image.bytes.as_slice()).map_err(|_| ImageError::Memory)
}

/// What is known of an image: the base of addresses, and each byte of the flash, None where none was given yet.
#[derive(Drop)]
struct Filling {
    base: u32,
    bytes: Vec<Option<u8>>,
}

/// No byte of the part's flash is given yet.
fn unfilled(alloc: Global, part: Part) -> Result<Vec<Option<u8>>, AllocError>
    ensures { IfOk result (λ bytes. bytes.items ≡ replicate (flash_bytes (chip_of part)) None) }
{
    vec![in alloc; None; flash_size(part)]
}

/// The words of the flash.
fn words_of(alloc: Global, part: Part, flash: &[Option<u8>]) -> Result<Vec<u16>, AllocError>
    requires { length flash.now ≡ flash_bytes (chip_of part) }
    ensures items { IfOk result (λ words. words.items ≡ words_in flash.now) }
    ensures size { IfOk result (λ words. length words.items ≡ words_of (chip_of part)) }
{
    let bytes = bytes_of_flash(alloc, flash)?;
    program(alloc, part, bytes.as_slice())
}

/// The bytes of the flash, FF where none was given.
fn bytes_of_flash(alloc: Global, flash: &[Option<u8>]) -> Result<Vec<u8>, AllocError>
    ensures { IfOk result (λ bytes. bytes.items ≡ map or_erased flash.now) }
{
    flash.iter().map(|byte| byte.unwrap_or(0xFF)).collect(alloc)
}

/// Takes the lines of a text up to the record that ends the image.
fn fill(image: &mut Filling, text: &[u8]) -> Result<(), ImageError>
    requires size { length image.old.bytes.items ≤ 32768 }
    requires limit { length text.now ≤ content_limit }
    ensures fills { MatchResult result (λ _. filled (lines_of text.now) 1 (image_shown image.old) ≡ Ok image.new.bytes.items)
        (λ error. filled (lines_of text.now) 1 (image_shown image.old) ≡ Err error) }
    ensures size { length image.new.bytes.items ≡ length image.old.bytes.items }
{
    let mut rest = text;
    let mut number = 1;
    while !rest.is_empty() {
        let (line, behind) = first_line(rest);
        if !take_line(image, number, line)? {
            return Ok(());
        }
        rest = behind;
        number += 1;
    }
    Err(ImageError::BadRecord(number))
}

/// Takes a line, and says whether the lines behind it are read.
fn take_line(image: &mut Filling, number: u32, line: &[u8]) -> Result<bool, ImageError>
    requires { length image.old.bytes.items ≤ 32768 }
    ensures takes { TakesLine number line.now (image_shown image.old) result (image_shown image.new) }
    ensures size { length image.new.bytes.items ≡ length image.old.bytes.items }
{
    if line.is_empty() {
        return Ok(true);
    }
    let Some(bytes) = bytes_of(line) else {
        return Err(ImageError::BadRecord(number));
    };
    let Some(record) = record_of(bytes.as_slice()) else {
        return Err(ImageError::BadRecord(number));
    };
    if !sums_to_zero(bytes.as_slice()) {
        return Err(ImageError::BadSum(number));
    }
    take_record(image, record)
}

/// Takes a record, and says whether the lines behind it are read.
fn take_record(image: &mut Filling, item: Record<'_>) -> Result<bool, ImageError>
    requires { length image.old.bytes.items ≤ 32768 }
    ensures takes { TakesRecord (record_shown item.entry) (image_shown image.old) result (image_shown image.new) }
    ensures size { length image.new.bytes.items ≡ length image.old.bytes.items }
{
    match item {
        Record::Data(address, content) => {
            let start = image.base as usize + usize::from(address);
            place_all(image.bytes.as_mut_slice(), start, content)?;
            Ok(true)
        }
        Record::End => Ok(false),
        Record::Base(base) => {
            image.base = base;
            Ok(true)
        }
        Record::Start => Ok(true),
    }
}

/// Places bytes from an address on.
fn place_all(flash: &mut [Option<u8>], start: usize, content: &[u8]) -> Result<(), ImageError>
    requires size { length flash.old ≤ 32768 }
    requires start { start < 2 ^ 33 }
    ensures { MatchResult result (λ _. all_placed content.now start flash.old ≡ Ok flash.new)
        (λ error. all_placed content.now start flash.old ≡ Err error) }
{
    let mut address = start;
    for byte in content {
        place(flash, address, *byte)?;
        address += 1;
    }
    Ok(())
}

/// Places a byte.
fn place(flash: &mut [Option<u8>], address: usize, byte: u8) -> Result<(), ImageError>
    requires { length flash.old ≤ 32768 }
    ensures { MatchResult result (λ _. placed flash.old address byte ≡ Ok flash.new)
        (λ error. placed flash.old address byte ≡ Err error) }
{
    if address >= flash.len() {
        return Err(ImageError::TooLarge);
    }
    if flash[address].is_some() {
        return Err(ImageError::Overlap(address as u32));
    }
    flash[address] = Some(byte);
    Ok(())
}
