//! One step: a due interrupt, or the instruction at pc (AVR Instruction Set Manual; ATmega16 datasheet, "Reset and Interrupt
//! Handling").
ghost use Rattle.std.specs.Prelude.{◌≡◌, ◌≢◌, ◌||◌, true, is_some, IsTrue, IfSome};
ghost use Rattle.part_spec.specs.Chip.{Chip, chip_of};
ghost use Rattle.avr_spec.specs.Machine.{Machine};
ghost use Rattle.avr_spec.specs.Kept.{kept};
ghost use Rattle.avr_spec.specs.Fields.{FieldsFit};
ghost use Rattle.avr_spec.specs.Interrupts.{is_pending};
ghost use Rattle.avr_spec.specs.Decode as decoding;
ghost use Rattle.avr_spec.specs.Step as book;
ghost use Rattle.avr_io.specs.Keeps.{io_of};
ghost use Rattle.avr_io.specs.Pending.{is_any_pending};
ghost use Rattle.avr_core.specs.Answer.{answer_of};
ghost use Rattle.avr_core.specs.Stands.{Moves, Shows};
ghost use Rattle.avr_core.specs.Leaves.{Does};
ghost use Rattle.avr_core.specs.Begins.{begun, held_by};

use crate::outcome::Outcome;
use crate::registers::{INTERRUPTS, X, Y, Z};
use crate::state::{Core, stands_for_a_state};
use avr_decode::decode;
use avr_io::Vector;
use avr_spec::{Ahead, Instr};
use ice_base::Flash;

/// What came of a step.
#[derive(Clone, Copy, Debug, PartialEq, Eq)]
pub enum Stepped {
    /// An interrupt was taken, or an instruction executed.
    Ran,
    /// A BREAK stands at pc. Nothing changed.
    AtBreak,
    /// A word without an instruction, or SPM, stands at pc. Nothing changed.
    AtUndefined,
}

impl Core {
    /// What the next step meets.
    pub fn ahead<F: Flash>(&self, flash: &F) -> Ahead
        requires { chip_of (F.part flash.now) ≡ self.now.part }
        ensures { Shows self.now result (λ part p. book.ahead part p (F.words flash.now)) }
    {
        match self.due() {
            Some(_) => Ahead::Interrupt,
            None => seen(&decode(flash.word(self.pc()), 0)),
        }
    }

    /// Makes one step: takes the due interrupt, or executes the instruction at pc. At a BREAK, and at a word that does not run,
    /// nothing changes. It is inlined where it is called, since a loop of steps is little else.
    #[inline(always)]
    pub fn step<F: Flash>(&mut self, flash: &F) -> Stepped
        requires { chip_of (F.part flash.now) ≡ self.old.part }
        ensures state { Moves self.old self.new (λ part p. book.step part p (F.words flash.now)) }
        ensures answer { Shows self.old result (λ part p. answer_of (book.ahead part p (F.words flash.now))) }
        ensures stays { result ≢ Stepped.Ran → self.new ≡ self.old }
        ensures part { self.new.part ≡ self.old.part }
    {
        // Told here that some state stands behind the core: that the part stays rests on it.
        stands_for_a_state(self);
        if self.begin(flash) {
            return Stepped::Ran;
        }
        self.execute(flash)
    }

    /// Executes the BREAK at pc as a NOP of one cycle, as one step.
    pub fn skip_break<F: Flash>(&mut self, flash: &F)
        requires ahead { (part : Chip) (p : Machine) → self.old ≡ kept part p → book.ahead part p (F.words flash.now) ≡ Ahead.Break }
        requires part { chip_of (F.part flash.now) ≡ self.old.part }
        ensures moves { Moves self.old self.new (λ part p. book.go_on part p (F.words flash.now)) }
        ensures part { self.new.part ≡ self.old.part }
    {
        stands_for_a_state(self);
        self.advance();
        self.end(1);
    }

    /// Takes the interrupt that is due; where none is, ends the hold if the instruction at pc runs. Answers whether it took one. Most
    /// steps begin where none is pending and nothing is kept back, so they test no more than that.
    #[inline(always)]
    fn begin<F: Flash>(&mut self, flash: &F) -> bool
        requires { chip_of (F.part flash.now) ≡ self.old.part }
        ensures took { Shows self.old result (λ part p. is_some (book.due part p)) }
        ensures moves { Moves self.old self.new (λ part p. begun part (F.words flash.now) p) }
    {
        if self.is_awaited() {
            self.begin_awaited(flash)
        } else {
            false
        }
    }

    /// Whether an interrupt is pending, or interrupts are kept back.
    #[inline(always)]
    fn is_awaited(&self) -> bool
        ensures { Shows self.now result (λ part p. is_any_pending p.io || p.hold) }
    {
        self.io().is_any_pending() | self.is_held()
    }

    /// Begins a step where an interrupt is pending, or interrupts are kept back.
    #[cold]
    #[inline(never)]
    fn begin_awaited<F: Flash>(&mut self, flash: &F) -> bool
        requires { chip_of (F.part flash.now) ≡ self.old.part }
        ensures took { Shows self.old result (λ part p. is_some (book.due part p)) }
        ensures moves { Moves self.old self.new (λ part p. begun part (F.words flash.now) p) }
    {
        match self.due() {
            Some(v) => {
                self.take(v);
                true
            }
            None => {
                let ahead = seen(&decode(flash.word(self.pc()), 0));
                let hold = held_by(self.is_held(), ahead);
                self.set_hold(hold);
                false
            }
        }
    }

    /// The interrupt that is due: I is set, the hold is off, and it is pending.
    fn due(&self) -> Option<Vector>
        ensures due { Shows self.now result (λ part p. book.due part p) }
        ensures pending { IfSome result (λ v. IsTrue (is_pending (io_of self.now.io) v)) }
    {
        if self.has_flag(INTERRUPTS) && !self.is_held() {
            self.io().pending()
        } else {
            None
        }
    }

    /// Takes an interrupt, in 4 cycles.
    fn take(&mut self, v: Vector)
        requires { IsTrue (is_pending (io_of self.old.io) v) }
        ensures { Moves self.old self.new (λ part p. book.taken part v p) }
    {
        self.take_flag(v);
        self.push_pc();
        self.set_flag(INTERRUPTS, false);
        self.go_to(u32::from(v.address_for(self.part())));
        self.set_hold(false);
        self.end(4);
    }

    /// Executes the instruction at pc, where it runs; where it does the hold has ended. It begins each as if it ran, so that nothing
    /// stands between decoding it and choosing what it does, and goes back where it does not run.
    #[inline(always)]
    fn execute<F: Flash>(&mut self, flash: &F) -> Stepped
        requires part { chip_of (F.part flash.now) ≡ self.old.part }
        requires unheld { self.old.hold ≡ true → book.seen (decoding.decode (book.word_at (F.words flash.now) self.old.pc) 0) ≢ Ahead.Ready }
        ensures state { Moves self.old self.new (λ part p. book.executed part p (F.words flash.now)) }
        ensures answer { Shows self.old result (λ part p. answer_of (book.seen (decoding.decode (book.word_at (F.words flash.now) p.pc) 0))) }
        ensures stays { result ≢ Stepped.Ran → self.new ≡ self.old }
    {
        // Told here that some state stands behind the core: what stays where an instruction does not run rests on it.
        stands_for_a_state(self);
        let before = self.pc();
        let first = self.next_word(flash);
        match self.act(decode(first, 0), flash) {
            // Most take one cycle, so these have an end of their own, which need not be told the number.
            Outcome::Took(1) => {
                self.end(1);
                Stepped::Ran
            }
            Outcome::Took(cycles) => {
                self.end(cycles);
                Stepped::Ran
            }
            Outcome::Break => {
                self.go_to(u32::from(before));
                Stepped::AtBreak
            }
            Outcome::Undefined => {
                self.go_to(u32::from(before));
                Stepped::AtUndefined
            }
        }
    }

    /// Goes past the first word of an instruction, and ends the hold.
    #[inline]
    fn advance(&mut self)
        ensures { Moves self.old self.new (λ part p. book.advanced part 1 p) }
    {
        let pc = self.pc();
        self.go_to(u32::from(pc) + 1);
        self.set_hold(false);
    }

    /// Executes what an instruction does but for its ticks, with pc behind its first word.
    #[inline(always)]
    fn act<F: Flash>(&mut self, instr: Instr, flash: &F) -> Outcome
        requires fields { FieldsFit instr }
        requires part { chip_of (F.part flash.now) ≡ self.old.part }
        ensures { Does self.old self.new result (F.words flash.now) instr }
    {
        match instr {
            Instr::Nop => Outcome::Took(1),
            Instr::Movw(d, r) => Outcome::Took(self.movw(d, r)),
            Instr::Muls(d, r) => Outcome::Took(self.muls(d, r)),
            Instr::Mulsu(d, r) => Outcome::Took(self.mulsu(d, r)),
            Instr::Fmul(d, r) => Outcome::Took(self.fmul(d, r)),
            Instr::Fmuls(d, r) => Outcome::Took(self.fmuls(d, r)),
            Instr::Fmulsu(d, r) => Outcome::Took(self.fmulsu(d, r)),
            Instr::Cpc(d, r) => Outcome::Took(self.cpc(d, r)),
            Instr::Sbc(d, r) => Outcome::Took(self.sbc(d, r)),
            Instr::Add(d, r) => Outcome::Took(self.add(d, r)),
            Instr::Cpse(d, r) => Outcome::Took(self.cpse(d, r, flash)),
            Instr::Cp(d, r) => Outcome::Took(self.cp(d, r)),
            Instr::Sub(d, r) => Outcome::Took(self.sub(d, r)),
            Instr::Adc(d, r) => Outcome::Took(self.adc(d, r)),
            Instr::And(d, r) => Outcome::Took(self.and(d, r)),
            Instr::Eor(d, r) => Outcome::Took(self.eor(d, r)),
            Instr::Or(d, r) => Outcome::Took(self.or(d, r)),
            Instr::Mov(d, r) => Outcome::Took(self.mov(d, r)),
            Instr::Cpi(d, k) => Outcome::Took(self.cpi(d, k)),
            Instr::Sbci(d, k) => Outcome::Took(self.sbci(d, k)),
            Instr::Subi(d, k) => Outcome::Took(self.subi(d, k)),
            Instr::Ori(d, k) => Outcome::Took(self.ori(d, k)),
            Instr::Andi(d, k) => Outcome::Took(self.andi(d, k)),
            Instr::Ldi(d, k) => Outcome::Took(self.ldi(d, k)),
            Instr::LddY(d, q) => Outcome::Took(self.load_displaced(d, Y, q)),
            Instr::LddZ(d, q) => Outcome::Took(self.load_displaced(d, Z, q)),
            Instr::StdY(r, q) => Outcome::Took(self.store_displaced(r, Y, q)),
            Instr::StdZ(r, q) => Outcome::Took(self.store_displaced(r, Z, q)),
            Instr::Lds(d, _) => Outcome::Took(self.lds(d, flash)),
            Instr::LdZInc(d) => Outcome::Took(self.load_then_add(d, Z)),
            Instr::LdZDec(d) => Outcome::Took(self.subtract_then_load(d, Z)),
            Instr::LpmZ(d) => Outcome::Took(self.lpm(d, flash)),
            Instr::LpmZInc(d) => Outcome::Took(self.lpm_then_add(d, flash)),
            Instr::LdYInc(d) => Outcome::Took(self.load_then_add(d, Y)),
            Instr::LdYDec(d) => Outcome::Took(self.subtract_then_load(d, Y)),
            Instr::LdX(d) => Outcome::Took(self.ld_x(d)),
            Instr::LdXInc(d) => Outcome::Took(self.load_then_add(d, X)),
            Instr::LdXDec(d) => Outcome::Took(self.subtract_then_load(d, X)),
            Instr::Pop(d) => Outcome::Took(self.pop(d)),
            Instr::Sts(r, _) => Outcome::Took(self.sts(r, flash)),
            Instr::StZInc(r) => Outcome::Took(self.store_then_add(r, Z)),
            Instr::StZDec(r) => Outcome::Took(self.subtract_then_store(r, Z)),
            Instr::StYInc(r) => Outcome::Took(self.store_then_add(r, Y)),
            Instr::StYDec(r) => Outcome::Took(self.subtract_then_store(r, Y)),
            Instr::StX(r) => Outcome::Took(self.st_x(r)),
            Instr::StXInc(r) => Outcome::Took(self.store_then_add(r, X)),
            Instr::StXDec(r) => Outcome::Took(self.subtract_then_store(r, X)),
            Instr::Push(r) => Outcome::Took(self.push(r)),
            Instr::Com(d) => Outcome::Took(self.com(d)),
            Instr::Neg(d) => Outcome::Took(self.neg(d)),
            Instr::Swap(d) => Outcome::Took(self.swap(d)),
            Instr::Inc(d) => Outcome::Took(self.inc(d)),
            Instr::Asr(d) => Outcome::Took(self.asr(d)),
            Instr::Lsr(d) => Outcome::Took(self.lsr(d)),
            Instr::Ror(d) => Outcome::Took(self.ror(d)),
            Instr::Dec(d) => Outcome::Took(self.dec(d)),
            Instr::Bset(s) => Outcome::Took(self.bset(s)),
            Instr::Bclr(s) => Outcome::Took(self.bclr(s)),
            Instr::Ijmp => Outcome::Took(self.ijmp()),
            Instr::Icall => Outcome::Took(self.icall()),
            Instr::Ret => Outcome::Took(self.ret()),
            Instr::Reti => Outcome::Took(self.reti()),
            Instr::Sleep => Outcome::Took(1),
            Instr::Wdr => Outcome::Took(1),
            Instr::Break => Outcome::Break,
            Instr::LpmR0 => Outcome::Took(self.lpm(0, flash)),
            Instr::Spm => Outcome::Undefined,
            Instr::Jmp(k) => Outcome::Took(self.jmp(k, flash)),
            Instr::Call(k) => Outcome::Took(self.call(k, flash)),
            Instr::Adiw(d, k) => Outcome::Took(self.adiw(d, k)),
            Instr::Sbiw(d, k) => Outcome::Took(self.sbiw(d, k)),
            Instr::Cbi(a, b) => Outcome::Took(self.cbi(a, b)),
            Instr::Sbic(a, b) => Outcome::Took(self.sbic(a, b, flash)),
            Instr::Sbi(a, b) => Outcome::Took(self.sbi(a, b)),
            Instr::Sbis(a, b) => Outcome::Took(self.sbis(a, b, flash)),
            Instr::Mul(d, r) => Outcome::Took(self.mul(d, r)),
            Instr::In(d, a) => Outcome::Took(self.in_(d, a)),
            Instr::Out(r, a) => Outcome::Took(self.out_(r, a)),
            Instr::Rjmp(k) => Outcome::Took(self.rjmp(k)),
            Instr::Rcall(k) => Outcome::Took(self.rcall(k)),
            Instr::Brbs(s, k) => Outcome::Took(self.brbs(s, k)),
            Instr::Brbc(s, k) => Outcome::Took(self.brbc(s, k)),
            Instr::Bld(d, b) => Outcome::Took(self.bld(d, b)),
            Instr::Bst(d, b) => Outcome::Took(self.bst(d, b)),
            Instr::Sbrc(r, b) => Outcome::Took(self.sbrc(r, b, flash)),
            Instr::Sbrs(r, b) => Outcome::Took(self.sbrs(r, b, flash)),
            Instr::Undefined(_) => Outcome::Undefined,
        }
    }
}

/// The hold, by what is ahead: it ends where an instruction runs.
fn held_by(hold: bool, ahead: Ahead) -> bool
    ensures { result ≡ held_by hold ahead }
{
    match ahead {
        Ahead::Ready => false,
        Ahead::Interrupt => hold,
        Ahead::Break => hold,
        Ahead::Undefined => hold,
    }
}

/// What an instruction is to one who looks ahead.
#[inline]
fn seen(instr: &Instr) -> Ahead
    ensures { result ≡ book.seen instr.now }
{
    match instr {
        Instr::Break => Ahead::Break,
        Instr::Spm => Ahead::Undefined,
        Instr::Undefined(_) => Ahead::Undefined,
        _ => Ahead::Ready,
    }
}
