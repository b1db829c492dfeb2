//! The instructions of the target (AVR Instruction Set Manual).

/// A decoded instruction: a variant for each form that the instruction table has a row for, and `Undefined`.
///
/// A field is the number that the bits of one letter of the row make, most significant first: `d` and `r` name registers
/// (before the arithmetic that a row adds, such as `16 + d`), `k` is an immediate value, a distance or an address, `a` an
/// I/O address (0 to 63), `b` and `s` the number of a bit (0 to 7), `q` a displacement (0 to 63). Fields stand in the order
/// that each variant names.
#[derive(Clone, Copy, Debug, PartialEq, Eq)]
pub enum Instr {
    /// Does nothing.
    Nop,
    /// Copies register pair `r` to pair `d`, which are registers 2r + 1 : 2r and 2d + 1 : 2d.
    Movw(u8, u8),
    /// Signed product of registers 16 + d and 16 + r.
    Muls(u8, u8),
    /// Product of the signed register 16 + d and the unsigned 16 + r.
    Mulsu(u8, u8),
    /// Fractional product of registers 16 + d and 16 + r, both unsigned.
    Fmul(u8, u8),
    /// Fractional product of registers 16 + d and 16 + r, both signed.
    Fmuls(u8, u8),
    /// Fractional product of the signed register 16 + d and the unsigned 16 + r.
    Fmulsu(u8, u8),
    /// Compares registers d and r with carry.
    Cpc(u8, u8),
    /// Subtracts register r and the carry from register d.
    Sbc(u8, u8),
    /// Adds register r to register d.
    Add(u8, u8),
    /// Skips the next instruction where registers d and r are equal.
    Cpse(u8, u8),
    /// Compares registers d and r.
    Cp(u8, u8),
    /// Subtracts register r from register d.
    Sub(u8, u8),
    /// Adds register r and the carry to register d.
    Adc(u8, u8),
    /// Bitwise and of registers d and r.
    And(u8, u8),
    /// Exclusive or of registers d and r.
    Eor(u8, u8),
    /// Bitwise or of registers d and r.
    Or(u8, u8),
    /// Copies register r to register d.
    Mov(u8, u8),
    /// Compares register 16 + d with k.
    Cpi(u8, u8),
    /// Subtracts k and the carry from register 16 + d.
    Sbci(u8, u8),
    /// Subtracts k from register 16 + d.
    Subi(u8, u8),
    /// Bitwise or of register 16 + d and k.
    Ori(u8, u8),
    /// Bitwise and of register 16 + d and k.
    Andi(u8, u8),
    /// Loads k into register 16 + d.
    Ldi(u8, u8),
    /// Loads register d from Y + q.
    LddY(u8, u8),
    /// Loads register d from Z + q.
    LddZ(u8, u8),
    /// Stores register r at Y + q.
    StdY(u8, u8),
    /// Stores register r at Z + q.
    StdZ(u8, u8),
    /// Loads register d from the data address in the second word.
    Lds(u8, u16),
    /// Loads register d from Z, then adds 1 to Z.
    LdZInc(u8),
    /// Subtracts 1 from Z, then loads register d from it.
    LdZDec(u8),
    /// Loads register d from the flash byte at Z.
    LpmZ(u8),
    /// Loads register d from the flash byte at Z, then adds 1 to Z.
    LpmZInc(u8),
    /// Loads register d from Y, then adds 1 to Y.
    LdYInc(u8),
    /// Subtracts 1 from Y, then loads register d from it.
    LdYDec(u8),
    /// Loads register d from X.
    LdX(u8),
    /// Loads register d from X, then adds 1 to X.
    LdXInc(u8),
    /// Subtracts 1 from X, then loads register d from it.
    LdXDec(u8),
    /// Loads register d from the stack.
    Pop(u8),
    /// Stores register r at the data address in the second word.
    Sts(u8, u16),
    /// Stores register r at Z, then adds 1 to Z.
    StZInc(u8),
    /// Subtracts 1 from Z, then stores register r at it.
    StZDec(u8),
    /// Stores register r at Y, then adds 1 to Y.
    StYInc(u8),
    /// Subtracts 1 from Y, then stores register r at it.
    StYDec(u8),
    /// Stores register r at X.
    StX(u8),
    /// Stores register r at X, then adds 1 to X.
    StXInc(u8),
    /// Subtracts 1 from X, then stores register r at it.
    StXDec(u8),
    /// Stores register r on the stack.
    Push(u8),
    /// One's complement of register d.
    Com(u8),
    /// Two's complement of register d.
    Neg(u8),
    /// Exchanges the halves of register d.
    Swap(u8),
    /// Adds 1 to register d.
    Inc(u8),
    /// Shifts register d right and keeps its sign.
    Asr(u8),
    /// Shifts register d right.
    Lsr(u8),
    /// Rotates register d right through the carry.
    Ror(u8),
    /// Subtracts 1 from register d.
    Dec(u8),
    /// Sets bit s of SREG.
    Bset(u8),
    /// Clears bit s of SREG.
    Bclr(u8),
    /// Jumps to word Z.
    Ijmp,
    /// Calls word Z.
    Icall,
    /// Returns from a call.
    Ret,
    /// Returns from an interrupt.
    Reti,
    /// Sleeps; acts as `Nop` here.
    Sleep,
    /// Resets the watchdog; acts as `Nop` here.
    Wdr,
    /// Stops for the debugger.
    Break,
    /// Loads register 0 from the flash byte at Z.
    LpmR0,
    /// Writes flash; stops like `Undefined` here.
    Spm,
    /// Jumps to word k, where the first word has the upper six bits of k.
    Jmp(u32),
    /// Calls word k, where the first word has the upper six bits of k.
    Call(u32),
    /// Adds k to the register pair from 24 + 2d on.
    Adiw(u8, u8),
    /// Subtracts k from the register pair from 24 + 2d on.
    Sbiw(u8, u8),
    /// Clears bit b of I/O address a.
    Cbi(u8, u8),
    /// Skips the next instruction where bit b of I/O address a is clear.
    Sbic(u8, u8),
    /// Sets bit b of I/O address a.
    Sbi(u8, u8),
    /// Skips the next instruction where bit b of I/O address a is set.
    Sbis(u8, u8),
    /// Product of registers d and r, both unsigned.
    Mul(u8, u8),
    /// Loads register d from I/O address a.
    In(u8, u8),
    /// Stores register r at I/O address a. The fields are r and a.
    Out(u8, u8),
    /// Jumps by the signed 12-bit distance k.
    Rjmp(u16),
    /// Calls by the signed 12-bit distance k.
    Rcall(u16),
    /// Jumps by the signed 7-bit distance k where bit s of SREG is set. The fields are s and k.
    Brbs(u8, u8),
    /// Jumps by the signed 7-bit distance k where bit s of SREG is clear. The fields are s and k.
    Brbc(u8, u8),
    /// Copies the T flag to bit b of register d.
    Bld(u8, u8),
    /// Copies bit b of register d to the T flag.
    Bst(u8, u8),
    /// Skips the next instruction where bit b of register r is clear.
    Sbrc(u8, u8),
    /// Skips the next instruction where bit b of register r is set.
    Sbrs(u8, u8),
    /// A word that the instruction table has no row for.
    Undefined(u16),
}
