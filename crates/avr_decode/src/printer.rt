//! The text of an instruction.

ghost use Rattle.std.specs.Prelude.{◌≡◌, ◌+◌, ◌<◌, ◌≤◌, [], ◌∷◌, ◌++◌, length, decimal};
ghost use Rattle.part_spec.specs.Chip.{m16, chip_of};
ghost use Rattle.avr_spec.specs.Fields.{FieldsFit};
ghost use Rattle.avr_spec.specs.Text.{text};
ghost use Rattle.avr_spec.specs.Text as spec;
ghost use Rattle.avr_decode.specs.Form.{operand_text};
ghost use Rattle.arrayvec.specs.ArrayString.{array_string_len};

use crate::form::{Form, Operand, form_of};
use arrayvec::ArrayString;
use avr_spec::Instr;
use part_spec::Part;

/// Appends a digit, hexadecimal ones in lower case.
fn push_digit(n: u8, out: &mut ArrayString<32>)
    requires digit { n < 16 }
    requires room { array_string_len out.old < 32 }
    ensures { out.new.bytes ≡ out.old.bytes ++ spec.hex_digit n ∷ [] }
{
    let code = if n < 10 { b'0' + n } else { b'a' + (n - 10) };
    out.push(char::from(code));
}

/// Appends a number in decimal.
fn push_decimal(n: u16, out: &mut ArrayString<32>)
    requires { array_string_len out.old + length (decimal n) ≤ 32 }
    ensures { out.new.bytes ≡ out.old.bytes ++ decimal n }
{
    if n < 10 {
        push_digit(n as u8, out);
        return;
    }
    push_decimal(n / 10, out);
    push_digit((n % 10) as u8, out);
}

/// Appends `0x` and two hexadecimal digits.
fn push_byte(n: u8, out: &mut ArrayString<32>)
    requires { array_string_len out.old + 4 ≤ 32 }
    ensures { out.new.bytes ≡ out.old.bytes ++ spec.hex_byte n }
{
    out.push_str("0x");
    push_digit(n / 16, out);
    push_digit(n % 16, out);
}

/// Appends `0x` and four hexadecimal digits.
fn push_word(n: u16, out: &mut ArrayString<32>)
    requires { array_string_len out.old + 6 ≤ 32 }
    ensures { out.new.bytes ≡ out.old.bytes ++ spec.hex_word n }
{
    push_byte((n / 256) as u8, out);
    push_digit((n / 16 % 16) as u8, out);
    push_digit((n % 16) as u8, out);
}

/// Appends a prefix and a number in decimal.
fn push_number(prefix: &str, n: u16, out: &mut ArrayString<32>)
    requires prefix { length prefix.now ≤ 2 }
    requires room { array_string_len out.old + 7 ≤ 32 }
    ensures text { out.new.bytes ≡ out.old.bytes ++ (prefix.now ++ decimal n) }
    ensures short { array_string_len out.new ≤ array_string_len out.old + 7 }
{
    out.push_str(prefix);
    push_decimal(n, out);
}

/// Appends an operand, in at most 7 bytes.
fn push_operand(operand: Operand, out: &mut ArrayString<32>)
    requires { array_string_len out.old + 7 ≤ 32 }
    ensures text { out.new.bytes ≡ out.old.bytes ++ operand_text operand }
    ensures short { array_string_len out.new ≤ array_string_len out.old + 7 }
{
    match operand {
        Operand::Register(n) => push_number("r", u16::from(n), out),
        Operand::Byte(n) => push_byte(n, out),
        Operand::Word(n) => push_word(n, out),
        Operand::Bit(n) => push_number("", u16::from(n), out),
        Operand::Ahead(n) => push_number(".+", n, out),
        Operand::Behind(n) => push_number(".-", n, out),
        Operand::PlusY(q) => push_number("Y+", u16::from(q), out),
        Operand::PlusZ(q) => push_number("Z+", u16::from(q), out),
        Operand::X => out.push_str("X"),
        Operand::XInc => out.push_str("X+"),
        Operand::XDec => out.push_str("-X"),
        Operand::YInc => out.push_str("Y+"),
        Operand::YDec => out.push_str("-Y"),
        Operand::Z => out.push_str("Z"),
        Operand::ZInc => out.push_str("Z+"),
        Operand::ZDec => out.push_str("-Z"),
    }
}

/// Writes the text of an instruction: its mnemonic in lower case, and its operands, destination first. A jump or a call shows
/// its address within the flash of the ATmega16.
pub fn print(i: &Instr, out: &mut ArrayString<32>)
    requires empty { out.old.bytes ≡ [] }
    requires fields { FieldsFit i.now }
    ensures { out.new.bytes ≡ text m16 i.now }
{
    print_for(Part::M16, i, out);
}

/// Writes the text of an instruction of a part: a jump or a call shows its address within the flash of that part.
pub fn print_for(part: Part, i: &Instr, out: &mut ArrayString<32>)
    requires empty { out.old.bytes ≡ [] }
    requires fields { FieldsFit i.now }
    ensures { out.new.bytes ≡ text (chip_of part) i.now }
{
    match form_of(part, i) {
        Form::Alone(name) => out.push_str(name),
        Form::One(name, operand) => {
            out.push_str(name);
            out.push_str(" ");
            push_operand(operand, out);
        }
        Form::Two(name, left, right) => {
            out.push_str(name);
            out.push_str(" ");
            push_operand(left, out);
            out.push_str(", ");
            push_operand(right, out);
        }
    }
}
