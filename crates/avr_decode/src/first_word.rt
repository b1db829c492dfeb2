//! The fields of a first word, by the bits that they take: a dot is a bit of something else.

ghost use Rattle.std.specs.Prelude.{◌≡◌};
ghost use Rattle.avr_decode.specs.FirstWord as word;

/// `.... ...d dddd ....`
#[inline(always)]
pub fn destination(first: u16) -> u8
    ensures { result ≡ word.destination first }
{
    (first / 16 % 32) as u8
}

/// `.... ..r. .... rrrr`
#[inline(always)]
pub fn source(first: u16) -> u8
    ensures { result ≡ word.source first }
{
    (first / 512 % 2 * 16 + first % 16) as u8
}

/// `.... .... dddd ....`
#[inline(always)]
pub fn upper_nibble(first: u16) -> u8
    ensures { result ≡ word.upper_nibble first }
{
    (first / 16 % 16) as u8
}

/// `.... .... .... rrrr`
#[inline(always)]
pub fn lower_nibble(first: u16) -> u8
    ensures { result ≡ word.lower_nibble first }
{
    (first % 16) as u8
}

/// `.... .... .ddd ....`
#[inline(always)]
pub fn upper_octal(first: u16) -> u8
    ensures { result ≡ word.upper_octal first }
{
    (first / 16 % 8) as u8
}

/// `.... .... .... .rrr`
#[inline(always)]
pub fn lower_octal(first: u16) -> u8
    ensures { result ≡ word.lower_octal first }
{
    (first % 8) as u8
}

/// `.... .... ..dd ....`
#[inline(always)]
pub fn pair(first: u16) -> u8
    ensures { result ≡ word.pair first }
{
    (first / 16 % 4) as u8
}

/// `.... KKKK .... KKKK`
#[inline(always)]
pub fn immediate(first: u16) -> u8
    ensures { result ≡ word.immediate first }
{
    (first / 256 % 16 * 16 + first % 16) as u8
}

/// `.... .... KK.. KKKK`
#[inline(always)]
pub fn word_immediate(first: u16) -> u8
    ensures { result ≡ word.word_immediate first }
{
    (first / 64 % 4 * 16 + first % 16) as u8
}

/// `..q. qq.. .... .qqq`
#[inline(always)]
pub fn displacement(first: u16) -> u8
    ensures { result ≡ word.displacement first }
{
    (first / 8192 % 2 * 32 + first / 1024 % 4 * 8 + first % 8) as u8
}

/// `.... .AA. .... AAAA`
#[inline(always)]
pub fn io_address(first: u16) -> u8
    ensures { result ≡ word.io_address first }
{
    (first / 512 % 4 * 16 + first % 16) as u8
}

/// `.... .... AAAA A...`
#[inline(always)]
pub fn low_io_address(first: u16) -> u8
    ensures { result ≡ word.low_io_address first }
{
    (first / 8 % 32) as u8
}

/// `.... ..kk kkkk k...`
#[inline(always)]
pub fn short_distance(first: u16) -> u8
    ensures { result ≡ word.short_distance first }
{
    (first / 8 % 128) as u8
}

/// `.... kkkk kkkk kkkk`
#[inline(always)]
pub fn long_distance(first: u16) -> u16
    ensures { result ≡ word.long_distance first }
{
    first % 4096
}

/// `.... ...k kkkk ...k`, above the 16 bits of the second word.
#[inline(always)]
pub fn far_address(first: u16, second: u16) -> u32
    ensures { result ≡ word.far_address first second }
{
    u32::from(first / 16 % 32 * 2 + first % 2) * 65536 + u32::from(second)
}
