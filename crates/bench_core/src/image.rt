//! A raw image in a flash.
ghost use Rattle.std.specs.Prelude.{◌≡◌};

use ice_base::{Failed, Flash, MemFlash};
use part_spec::PAGE_WORDS;

/// Fills a flash with an image: words of two bytes, the low byte first, with FF behind them. What does not fit is left out.
pub fn set_image(flash: &mut MemFlash, image: &[u8]) -> Result<(), Failed>
    ensures { flash.new.part ≡ flash.old.part }
{
    for page in 0..flash.part().pages() {
        flash.write_page(page, &page_of(image, usize::from(page)))?;
    }
    Ok(())
}

/// A page of an image.
fn page_of(image: &[u8], page: usize) -> [u16; PAGE_WORDS] {
    let mut words = [0; PAGE_WORDS];
    for (place, word) in words.iter_mut().enumerate() {
        *word = word_at(image, page.saturating_mul(PAGE_WORDS).saturating_add(place));
    }
    words
}

/// A word of an image.
fn word_at(image: &[u8], address: usize) -> u16 {
    let start = address.saturating_mul(2);
    u16::from(byte_at(image, start)) + 256 * u16::from(byte_at(image, start.saturating_add(1)))
}

fn byte_at(image: &[u8], address: usize) -> u8 {
    image.get(address).copied().unwrap_or(0xFF)
}
