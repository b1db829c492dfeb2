//! The form of each instruction's text: its mnemonic and its operands, destination first.

ghost use Rattle.std.specs.Prelude.{◌≡◌, ◌<◌, ◌≤◌, length};
ghost use Rattle.part_spec.specs.Chip.{chip_of};
ghost use Rattle.avr_spec.specs.Fields.{FieldsFit};
ghost use Rattle.avr_spec.specs.Text.{text, target, distance};
ghost use Rattle.avr_decode.specs.Form.{operand_text, form_text, name_of};

use Operand::{
    Ahead, Behind, Bit, Byte, PlusY, PlusZ, Register, Word, X, XDec, XInc, YDec, YInc, Z, ZDec,
    ZInc,
};
use avr_spec::Instr;
use part_spec::Part;

/// An operand of an instruction.
pub enum Operand {
    /// A register, as `r16`.
    Register(u8),
    /// A byte, as `0x3f`.
    Byte(u8),
    /// A word, as `0x0060`.
    Word(u16),
    /// The number of a bit, as `7`.
    Bit(u8),
    /// So many words ahead of the next instruction, as `.+2`.
    Ahead(u16),
    /// So many words behind the next instruction, as `.-2`.
    Behind(u16),
    /// Y with a displacement, as `Y+5`.
    PlusY(u8),
    /// Z with a displacement, as `Z+5`.
    PlusZ(u8),
    /// `X`
    X,
    /// `X+`
    XInc,
    /// `-X`
    XDec,
    /// `Y+`
    YInc,
    /// `-Y`
    YDec,
    /// `Z`
    Z,
    /// `Z+`
    ZInc,
    /// `-Z`
    ZDec,
}

/// A mnemonic with its operands.
pub enum Form {
    /// A mnemonic alone, as `nop`.
    Alone(&'static str),
    /// With one operand, as `push r16`.
    One(&'static str, Operand),
    /// With two operands, as `add r16, r17`.
    Two(&'static str, Operand, Operand),
}

/// A two's complement distance of so many values.
fn distance_of(values: u16, k: u16) -> Operand
    requires { k < values }
    ensures { operand_text result ≡ distance values k }
{
    if k < values / 2 {
        Ahead(k)
    } else {
        Behind(values - k)
    }
}

/// The address of a jump or a call, within the flash of a part.
fn target_of(part: Part, k: u32) -> Operand
    ensures { operand_text result ≡ target (chip_of part) k }
{
    Word((k % u32::from(part.words())) as u16)
}

/// The form of an instruction of a part.
#[tactic(auto, unfolding(avr_spec::specs::Text::text))]
pub fn form_of(part: Part, i: &Instr) -> Form
    requires { FieldsFit i.now }
    ensures text { form_text result ≡ text (chip_of part) i.now }
    ensures short { length (name_of result) ≤ 6 }
{
    match *i {
        Instr::Nop => Form::Alone("nop"),
        Instr::Movw(d, r) => Form::Two("movw", Register(2 * d), Register(2 * r)),
        Instr::Muls(d, r) => Form::Two("muls", Register(16 + d), Register(16 + r)),
        Instr::Mulsu(d, r) => Form::Two("mulsu", Register(16 + d), Register(16 + r)),
        Instr::Fmul(d, r) => Form::Two("fmul", Register(16 + d), Register(16 + r)),
        Instr::Fmuls(d, r) => Form::Two("fmuls", Register(16 + d), Register(16 + r)),
        Instr::Fmulsu(d, r) => Form::Two("fmulsu", Register(16 + d), Register(16 + r)),
        Instr::Cpc(d, r) => Form::Two("cpc", Register(d), Register(r)),
        Instr::Sbc(d, r) => Form::Two("sbc", Register(d), Register(r)),
        Instr::Add(d, r) => Form::Two("add", Register(d), Register(r)),
        Instr::Cpse(d, r) => Form::Two("cpse", Register(d), Register(r)),
        Instr::Cp(d, r) => Form::Two("cp", Register(d), Register(r)),
        Instr::Sub(d, r) => Form::Two("sub", Register(d), Register(r)),
        Instr::Adc(d, r) => Form::Two("adc", Register(d), Register(r)),
        Instr::And(d, r) => Form::Two("and", Register(d), Register(r)),
        Instr::Eor(d, r) => Form::Two("eor", Register(d), Register(r)),
        Instr::Or(d, r) => Form::Two("or", Register(d), Register(r)),
        Instr::Mov(d, r) => Form::Two("mov", Register(d), Register(r)),
        Instr::Cpi(d, k) => Form::Two("cpi", Register(16 + d), Byte(k)),
        Instr::Sbci(d, k) => Form::Two("sbci", Register(16 + d), Byte(k)),
        Instr::Subi(d, k) => Form::Two("subi", Register(16 + d), Byte(k)),
        Instr::Ori(d, k) => Form::Two("ori", Register(16 + d), Byte(k)),
        Instr::Andi(d, k) => Form::Two("andi", Register(16 + d), Byte(k)),
        Instr::Ldi(d, k) => Form::Two("ldi", Register(16 + d), Byte(k)),
        Instr::LddY(d, q) => Form::Two("ldd", Register(d), PlusY(q)),
        Instr::LddZ(d, q) => Form::Two("ldd", Register(d), PlusZ(q)),
        Instr::StdY(r, q) => Form::Two("std", PlusY(q), Register(r)),
        Instr::StdZ(r, q) => Form::Two("std", PlusZ(q), Register(r)),
        Instr::Lds(d, address) => Form::Two("lds", Register(d), Word(address)),
        Instr::LdZInc(d) => Form::Two("ld", Register(d), ZInc),
        Instr::LdZDec(d) => Form::Two("ld", Register(d), ZDec),
        Instr::LpmZ(d) => Form::Two("lpm", Register(d), Z),
        Instr::LpmZInc(d) => Form::Two("lpm", Register(d), ZInc),
        Instr::LdYInc(d) => Form::Two("ld", Register(d), YInc),
        Instr::LdYDec(d) => Form::Two("ld", Register(d), YDec),
        Instr::LdX(d) => Form::Two("ld", Register(d), X),
        Instr::LdXInc(d) => Form::Two("ld", Register(d), XInc),
        Instr::LdXDec(d) => Form::Two("ld", Register(d), XDec),
        Instr::Pop(d) => Form::One("pop", Register(d)),
        Instr::Sts(r, address) => Form::Two("sts", Word(address), Register(r)),
        Instr::StZInc(r) => Form::Two("st", ZInc, Register(r)),
        Instr::StZDec(r) => Form::Two("st", ZDec, Register(r)),
        Instr::StYInc(r) => Form::Two("st", YInc, Register(r)),
        Instr::StYDec(r) => Form::Two("st", YDec, Register(r)),
        Instr::StX(r) => Form::Two("st", X, Register(r)),
        Instr::StXInc(r) => Form::Two("st", XInc, Register(r)),
        Instr::StXDec(r) => Form::Two("st", XDec, Register(r)),
        Instr::Push(r) => Form::One("push", Register(r)),
        Instr::Com(d) => Form::One("com", Register(d)),
        Instr::Neg(d) => Form::One("neg", Register(d)),
        Instr::Swap(d) => Form::One("swap", Register(d)),
        Instr::Inc(d) => Form::One("inc", Register(d)),
        Instr::Asr(d) => Form::One("asr", Register(d)),
        Instr::Lsr(d) => Form::One("lsr", Register(d)),
        Instr::Ror(d) => Form::One("ror", Register(d)),
        Instr::Dec(d) => Form::One("dec", Register(d)),
        Instr::Bset(s) => Form::One("bset", Bit(s)),
        Instr::Bclr(s) => Form::One("bclr", Bit(s)),
        Instr::Ijmp => Form::Alone("ijmp"),
        Instr::Icall => Form::Alone("icall"),
        Instr::Ret => Form::Alone("ret"),
        Instr::Reti => Form::Alone("reti"),
        Instr::Sleep => Form::Alone("sleep"),
        Instr::Wdr => Form::Alone("wdr"),
        Instr::Break => Form::Alone("break"),
        Instr::LpmR0 => Form::Alone("lpm"),
        Instr::Spm => Form::Alone("spm"),
        Instr::Jmp(k) => Form::One("jmp", target_of(part, k)),
        Instr::Call(k) => Form::One("call", target_of(part, k)),
        Instr::Adiw(d, k) => Form::Two("adiw", Register(24 + 2 * d), Byte(k)),
        Instr::Sbiw(d, k) => Form::Two("sbiw", Register(24 + 2 * d), Byte(k)),
        Instr::Cbi(a, b) => Form::Two("cbi", Byte(a), Bit(b)),
        Instr::Sbic(a, b) => Form::Two("sbic", Byte(a), Bit(b)),
        Instr::Sbi(a, b) => Form::Two("sbi", Byte(a), Bit(b)),
        Instr::Sbis(a, b) => Form::Two("sbis", Byte(a), Bit(b)),
        Instr::Mul(d, r) => Form::Two("mul", Register(d), Register(r)),
        Instr::In(d, a) => Form::Two("in", Register(d), Byte(a)),
        Instr::Out(r, a) => Form::Two("out", Byte(a), Register(r)),
        Instr::Rjmp(k) => Form::One("rjmp", distance_of(4096, k)),
        Instr::Rcall(k) => Form::One("rcall", distance_of(4096, k)),
        Instr::Brbs(s, k) => Form::Two("brbs", Bit(s), distance_of(128, u16::from(k))),
        Instr::Brbc(s, k) => Form::Two("brbc", Bit(s), distance_of(128, u16::from(k))),
        Instr::Bld(d, b) => Form::Two("bld", Register(d), Bit(b)),
        Instr::Bst(d, b) => Form::Two("bst", Register(d), Bit(b)),
        Instr::Sbrc(r, b) => Form::Two("sbrc", Register(r), Bit(b)),
        Instr::Sbrs(r, b) => Form::Two("sbrs", Register(r), Bit(b)),
        Instr::Undefined(word) => Form::One(".word", Word(word)),
    }
}
