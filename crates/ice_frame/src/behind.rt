//! The check of bytes that stand behind others.
ghost use Rattle.std.specs.Prelude.{◌≡◌, ◌*◌, List, ℕ, ◌++◌, length};
ghost use Rattle.line_spec.specs.Check.{check};
ghost use Rattle.ice_frame.specs.Zeros.{over_zeros};

use crate::check::crc_with;

/// How many zero bytes the table `BLOCK` goes over at once.
const BLOCK_SIZE: usize = 64;

/// Each nibble at each of its four places, after 64 zero bytes.
static BLOCK: [u16; 64] = [
    0x0000, 0x922D, 0x2C4B, 0xBE66, 0x5896, 0xCABB, 0x74DD, 0xE6F0, 0xB12C, 0x2301, 0x9D67, 0x0F4A,
    0xE9BA, 0x7B97, 0xC5F1, 0x57DC, 0x0000, 0x6A49, 0xD492, 0xBEDB, 0xA135, 0xCB7C, 0x75A7, 0x1FEE,
    0x4A7B, 0x2032, 0x9EE9, 0xF4A0, 0xEB4E, 0x8107, 0x3FDC, 0x5595, 0x0000, 0x94F6, 0x21FD, 0xB50B,
    0x43FA, 0xD70C, 0x6207, 0xF6F1, 0x87F4, 0x1302, 0xA609, 0x32FF, 0xC40E, 0x50F8, 0xE5F3, 0x7105,
    0x0000, 0x07F9, 0x0FF2, 0x080B, 0x1FE4, 0x181D, 0x1016, 0x17EF, 0x3FC8, 0x3831, 0x303A, 0x37C3,
    0x202C, 0x27D5, 0x2FDE, 0x2827,
];

/// The check of so many bytes, from the check of those ahead of them and that of all. The check is linear: what stands ahead
/// of the bytes changes it by a number that is found without them.
pub fn crc_behind(ahead: u16, all: u16, count: usize) -> u16
    ensures { (front bytes : List ℕ) → ahead ≡ check front → all ≡ check (front ++ bytes) → count ≡ length bytes → result ≡ check bytes }
{
    let blocks = after_blocks(ahead ^ 0xFFFF, count / BLOCK_SIZE);
    all ^ after_zeros(blocks, count % BLOCK_SIZE)
}

/// The register after so many zero bytes.
fn after_zeros(register: u16, count: usize) -> u16
    ensures { result ≡ over_zeros count register }
{
    let mut after = register;
    for _ in 0..count {
        after = crc_with(after, 0);
    }
    after
}

/// The register after so many times 64 zero bytes.
fn after_blocks(register: u16, count: usize) -> u16
    ensures { result ≡ over_zeros (count * 64) register }
{
    let mut after = register;
    for _ in 0..count {
        after = after_block(after);
    }
    after
}

/// The register after 64 zero bytes.
fn after_block(register: u16) -> u16
    ensures { result ≡ over_zeros 64 register }
{
    BLOCK[usize::from(register % 16)]
        ^ BLOCK[usize::from(register / 16 % 16) + 16]
        ^ BLOCK[usize::from(register / 256 % 16) + 32]
        ^ BLOCK[usize::from(register / 4096) + 48]
}

#[cfg(test)]
mod tests;
