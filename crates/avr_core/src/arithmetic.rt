//! Arithmetic and logic (AVR Instruction Set Manual): each method is an instruction, and answers its cycles.
ghost use Rattle.std.specs.Prelude.{◌≡◌};
ghost use Rattle.avr_spec.specs.Fields.{FieldsFit};
ghost use Rattle.avr_core.specs.Leaves.{Executes};

use crate::state::Core;
use avr_alu as alu;
use avr_spec::Instr;

impl Core {
    /// ADD.
    #[inline]
    pub(crate) fn add(&mut self, d: u8, r: u8) -> u8
        requires { FieldsFit (Instr.Add d r) }
        ensures { Executes self.old self.new result (Instr.Add d r) }
    {
        let after = alu::add(self.reg(d), self.reg(r), self.sreg());
        self.set_result(d, after);
        1
    }

    /// ADC.
    #[inline]
    pub(crate) fn adc(&mut self, d: u8, r: u8) -> u8
        requires { FieldsFit (Instr.Adc d r) }
        ensures { Executes self.old self.new result (Instr.Adc d r) }
    {
        let after = alu::adc(self.reg(d), self.reg(r), self.sreg());
        self.set_result(d, after);
        1
    }

    /// SUB.
    #[inline]
    pub(crate) fn sub(&mut self, d: u8, r: u8) -> u8
        requires { FieldsFit (Instr.Sub d r) }
        ensures { Executes self.old self.new result (Instr.Sub d r) }
    {
        let after = alu::sub(self.reg(d), self.reg(r), self.sreg());
        self.set_result(d, after);
        1
    }

    /// SBC.
    #[inline]
    pub(crate) fn sbc(&mut self, d: u8, r: u8) -> u8
        requires { FieldsFit (Instr.Sbc d r) }
        ensures { Executes self.old self.new result (Instr.Sbc d r) }
    {
        let after = alu::sbc(self.reg(d), self.reg(r), self.sreg());
        self.set_result(d, after);
        1
    }

    /// AND.
    #[inline]
    pub(crate) fn and(&mut self, d: u8, r: u8) -> u8
        requires { FieldsFit (Instr.And d r) }
        ensures { Executes self.old self.new result (Instr.And d r) }
    {
        let after = alu::and(self.reg(d), self.reg(r), self.sreg());
        self.set_result(d, after);
        1
    }

    /// OR.
    #[inline]
    pub(crate) fn or(&mut self, d: u8, r: u8) -> u8
        requires { FieldsFit (Instr.Or d r) }
        ensures { Executes self.old self.new result (Instr.Or d r) }
    {
        let after = alu::or(self.reg(d), self.reg(r), self.sreg());
        self.set_result(d, after);
        1
    }

    /// EOR.
    #[inline]
    pub(crate) fn eor(&mut self, d: u8, r: u8) -> u8
        requires { FieldsFit (Instr.Eor d r) }
        ensures { Executes self.old self.new result (Instr.Eor d r) }
    {
        let after = alu::eor(self.reg(d), self.reg(r), self.sreg());
        self.set_result(d, after);
        1
    }

    /// SUBI, on register 16 + d.
    #[inline]
    pub(crate) fn subi(&mut self, d: u8, k: u8) -> u8
        requires { FieldsFit (Instr.Subi d k) }
        ensures { Executes self.old self.new result (Instr.Subi d k) }
    {
        let after = alu::sub(self.reg(16 + d), k, self.sreg());
        self.set_result(16 + d, after);
        1
    }

    /// SBCI, on register 16 + d.
    #[inline]
    pub(crate) fn sbci(&mut self, d: u8, k: u8) -> u8
        requires { FieldsFit (Instr.Sbci d k) }
        ensures { Executes self.old self.new result (Instr.Sbci d k) }
    {
        let after = alu::sbc(self.reg(16 + d), k, self.sreg());
        self.set_result(16 + d, after);
        1
    }

    /// ANDI, on register 16 + d.
    #[inline]
    pub(crate) fn andi(&mut self, d: u8, k: u8) -> u8
        requires { FieldsFit (Instr.Andi d k) }
        ensures { Executes self.old self.new result (Instr.Andi d k) }
    {
        let after = alu::and(self.reg(16 + d), k, self.sreg());
        self.set_result(16 + d, after);
        1
    }

    /// ORI, on register 16 + d.
    #[inline]
    pub(crate) fn ori(&mut self, d: u8, k: u8) -> u8
        requires { FieldsFit (Instr.Ori d k) }
        ensures { Executes self.old self.new result (Instr.Ori d k) }
    {
        let after = alu::or(self.reg(16 + d), k, self.sreg());
        self.set_result(16 + d, after);
        1
    }

    /// CP: the flags of a difference.
    #[inline]
    pub(crate) fn cp(&mut self, d: u8, r: u8) -> u8
        requires { FieldsFit (Instr.Cp d r) }
        ensures { Executes self.old self.new result (Instr.Cp d r) }
    {
        let (_, status) = alu::sub(self.reg(d), self.reg(r), self.sreg());
        self.set_sreg(status);
        1
    }

    /// CPC: the flags of a difference.
    #[inline]
    pub(crate) fn cpc(&mut self, d: u8, r: u8) -> u8
        requires { FieldsFit (Instr.Cpc d r) }
        ensures { Executes self.old self.new result (Instr.Cpc d r) }
    {
        let (_, status) = alu::sbc(self.reg(d), self.reg(r), self.sreg());
        self.set_sreg(status);
        1
    }

    /// CPI, on register 16 + d.
    #[inline]
    pub(crate) fn cpi(&mut self, d: u8, k: u8) -> u8
        requires { FieldsFit (Instr.Cpi d k) }
        ensures { Executes self.old self.new result (Instr.Cpi d k) }
    {
        let (_, status) = alu::sub(self.reg(16 + d), k, self.sreg());
        self.set_sreg(status);
        1
    }

    /// COM.
    #[inline]
    pub(crate) fn com(&mut self, d: u8) -> u8
        requires { FieldsFit (Instr.Com d) }
        ensures { Executes self.old self.new result (Instr.Com d) }
    {
        let after = alu::com(self.reg(d), self.sreg());
        self.set_result(d, after);
        1
    }

    /// NEG.
    #[inline]
    pub(crate) fn neg(&mut self, d: u8) -> u8
        requires { FieldsFit (Instr.Neg d) }
        ensures { Executes self.old self.new result (Instr.Neg d) }
    {
        let after = alu::neg(self.reg(d), self.sreg());
        self.set_result(d, after);
        1
    }

    /// INC.
    #[inline]
    pub(crate) fn inc(&mut self, d: u8) -> u8
        requires { FieldsFit (Instr.Inc d) }
        ensures { Executes self.old self.new result (Instr.Inc d) }
    {
        let after = alu::inc(self.reg(d), self.sreg());
        self.set_result(d, after);
        1
    }

    /// DEC.
    #[inline]
    pub(crate) fn dec(&mut self, d: u8) -> u8
        requires { FieldsFit (Instr.Dec d) }
        ensures { Executes self.old self.new result (Instr.Dec d) }
    {
        let after = alu::dec(self.reg(d), self.sreg());
        self.set_result(d, after);
        1
    }

    /// ASR.
    #[inline]
    pub(crate) fn asr(&mut self, d: u8) -> u8
        requires { FieldsFit (Instr.Asr d) }
        ensures { Executes self.old self.new result (Instr.Asr d) }
    {
        let after = alu::asr(self.reg(d), self.sreg());
        self.set_result(d, after);
        1
    }

    /// LSR.
    #[inline]
    pub(crate) fn lsr(&mut self, d: u8) -> u8
        requires { FieldsFit (Instr.Lsr d) }
        ensures { Executes self.old self.new result (Instr.Lsr d) }
    {
        let after = alu::lsr(self.reg(d), self.sreg());
        self.set_result(d, after);
        1
    }

    /// ROR.
    #[inline]
    pub(crate) fn ror(&mut self, d: u8) -> u8
        requires { FieldsFit (Instr.Ror d) }
        ensures { Executes self.old self.new result (Instr.Ror d) }
    {
        let after = alu::ror(self.reg(d), self.sreg());
        self.set_result(d, after);
        1
    }

    /// ADIW, on the register pair from 24 + 2d on.
    #[inline]
    pub(crate) fn adiw(&mut self, d: u8, k: u8) -> u8
        requires { FieldsFit (Instr.Adiw d k) }
        ensures { Executes self.old self.new result (Instr.Adiw d k) }
    {
        let lower = 24 + 2 * d;
        let after = alu::adiw(self.pair(lower), k, self.sreg());
        self.set_word_result(lower, after);
        2
    }

    /// SBIW, on the register pair from 24 + 2d on.
    #[inline]
    pub(crate) fn sbiw(&mut self, d: u8, k: u8) -> u8
        requires { FieldsFit (Instr.Sbiw d k) }
        ensures { Executes self.old self.new result (Instr.Sbiw d k) }
    {
        let lower = 24 + 2 * d;
        let after = alu::sbiw(self.pair(lower), k, self.sreg());
        self.set_word_result(lower, after);
        2
    }

    /// MUL, into the register pair 1:0.
    #[inline]
    pub(crate) fn mul(&mut self, d: u8, r: u8) -> u8
        requires { FieldsFit (Instr.Mul d r) }
        ensures { Executes self.old self.new result (Instr.Mul d r) }
    {
        let after = alu::mul(self.reg(d), self.reg(r), self.sreg());
        self.set_word_result(0, after);
        2
    }

    /// MULS, of registers 16 + d and 16 + r.
    #[inline]
    pub(crate) fn muls(&mut self, d: u8, r: u8) -> u8
        requires { FieldsFit (Instr.Muls d r) }
        ensures { Executes self.old self.new result (Instr.Muls d r) }
    {
        let after = alu::muls(self.reg(16 + d), self.reg(16 + r), self.sreg());
        self.set_word_result(0, after);
        2
    }

    /// MULSU, of registers 16 + d and 16 + r.
    #[inline]
    pub(crate) fn mulsu(&mut self, d: u8, r: u8) -> u8
        requires { FieldsFit (Instr.Mulsu d r) }
        ensures { Executes self.old self.new result (Instr.Mulsu d r) }
    {
        let after = alu::mulsu(self.reg(16 + d), self.reg(16 + r), self.sreg());
        self.set_word_result(0, after);
        2
    }

    /// FMUL, of registers 16 + d and 16 + r.
    #[inline]
    pub(crate) fn fmul(&mut self, d: u8, r: u8) -> u8
        requires { FieldsFit (Instr.Fmul d r) }
        ensures { Executes self.old self.new result (Instr.Fmul d r) }
    {
        let after = alu::fmul(self.reg(16 + d), self.reg(16 + r), self.sreg());
        self.set_word_result(0, after);
        2
    }

    /// FMULS, of registers 16 + d and 16 + r.
    #[inline]
    pub(crate) fn fmuls(&mut self, d: u8, r: u8) -> u8
        requires { FieldsFit (Instr.Fmuls d r) }
        ensures { Executes self.old self.new result (Instr.Fmuls d r) }
    {
        let after = alu::fmuls(self.reg(16 + d), self.reg(16 + r), self.sreg());
        self.set_word_result(0, after);
        2
    }

    /// FMULSU, of registers 16 + d and 16 + r.
    #[inline]
    pub(crate) fn fmulsu(&mut self, d: u8, r: u8) -> u8
        requires { FieldsFit (Instr.Fmulsu d r) }
        ensures { Executes self.old self.new result (Instr.Fmulsu d r) }
    {
        let after = alu::fmulsu(self.reg(16 + d), self.reg(16 + r), self.sreg());
        self.set_word_result(0, after);
        2
    }
}
