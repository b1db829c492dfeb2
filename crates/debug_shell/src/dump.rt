//! Dumps of memory.
ghost use Rattle.std.specs.Prelude.{◌≡◌, ◌+◌, ◌*◌, ◌%◌, ◌/◌, ◌^◌, ◌<◌, ◌≤◌, ◌++◌, length, take, drop};
ghost use Rattle.shell_spec.specs.Printed.{dump, dump_line, dump_lines};

use crate::text::{Text, put_address, put_bytes};
use ice_frame::append;

/// How many bytes a line shows.
const ROW: usize = 16;

/// The bytes of a memory from an address on.
pub(crate) fn dump(address: u32, bytes: &[u8]) -> Text
    requires { length bytes.now ≤ 4096 }
    ensures { result.items ≡ dump address bytes.now }
{
    let mut text = Text::new();
    let count = (bytes.len() + (ROW - 1)) / ROW;
    'rows: for row in 0..count {
        put_row(&mut text, address, row, bytes);
    }
    text
}

/// The line of a dump with this number, from 0.
fn put_row(text: &mut Text, address: u32, row: usize, bytes: &[u8])
    requires room { length text.old.items + 42 ≤ 10752 }
    requires within { 16 * row < length bytes.now }
    requires most { length bytes.now ≤ 4096 }
    ensures items { text.new.items ≡ text.old.items ++ dump_line ((address + 16 * row) % 2 ^ 32) (take 16 (drop (16 * row) bytes.now)) }
    ensures size { length text.new.items ≤ length text.old.items + 42 }
{
    put_address(text, address.wrapping_add(16 * row as u32));
    append(text, b" ");
    put_bytes(text, row_of(bytes, row));
    text.push(b'\n');
}

/// The bytes of a line.
fn row_of(bytes: &[u8], row: usize) -> &[u8]
    requires within { 16 * row < length bytes.now }
    requires most { length bytes.now ≤ 4096 }
    ensures bytes { result.now ≡ take 16 (drop (16 * row) bytes.now) }
    ensures size { length result.now ≤ 16 }
{
    let (_, behind) = bytes.split_at(ROW * row);
    let (front, _) = behind.split_at(behind.len().min(ROW));
    front
}
