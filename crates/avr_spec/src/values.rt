//! Values from outside, as laws: each function is empty, and its contract says what the definitions compute.
//!
//! The flags were worked by hand from the Boolean formulas of the AVR Instruction Set Manual (as H: Rd3 and Rr3, or Rr3 and not
//! R3, or not R3 and Rd3), not from the sums and comparisons of `specs/Flags.antt`.

ghost use Rattle.std.specs.Prelude.{◌≡◌, ◌∷◌, [], ◌++◌, map, replicate, codes, Some};
ghost use Rattle.part_spec.specs.Chip.{m16, m32};
ghost use Rattle.avr_spec.specs.declared.target.Vector.TheVariants.{Comp2, Ovf2, Ovf0, Comp0};
ghost use Rattle.avr_spec.specs.Flags.{as_call, add_of, adc_of, sub_of, sbc_of, neg_of, and_of, or_of, eor_of, com_of, inc_of};
ghost use Rattle.avr_spec.specs.Flags.{dec_of, lsr_of, asr_of, ror_of, adiw_of, sbiw_of, mul_of, muls_of, mulsu_of, fmul_of};
ghost use Rattle.avr_spec.specs.Flags.{fmuls_of, fmulsu_of};
ghost use Rattle.avr_spec.specs.Decode.{decode};
ghost use Rattle.avr_spec.specs.Text.{text};
ghost use Rattle.avr_spec.specs.Interrupts.{address_of, pending};
ghost use Rattle.avr_spec.specs.Timers.{ticks};
ghost use Rattle.avr_spec.specs.Memory.{store, with_io_byte};
ghost use Rattle.avr_spec.specs.Step.{step, go_on};
ghost use Rattle.avr_spec.specs.inside.Examples.{given_on, given, data_on, data_at, after_steps, progress, start_code};

/// Sums: 7F + 01 overflows, 80 + 80 overflows and carries and leaves I and T, and the carry goes in.
pub fn sums()
    ensures add { as_call (add_of 0x7f 0x01) 0x00 ≡ (0x80, 0x2c) }
    ensures add_twice { as_call (add_of 0x80 0x80) 0xc0 ≡ (0x00, 0xdb) }
    ensures adc { as_call (adc_of 0xff 0x00) 0x01 ≡ (0x00, 0x23) }
    ensures adc_overflow { as_call (adc_of 0x7f 0x00) 0x01 ≡ (0x80, 0x2c) }
{}

/// Differences: 80 - 01 overflows, 00 - 01 borrows, and Z after a carry keeps only a Z that was set.
pub fn differences()
    ensures sub { as_call (sub_of 0x80 0x01) 0x00 ≡ (0x7f, 0x38) }
    ensures sub_borrow { as_call (sub_of 0x00 0x01) 0x00 ≡ (0xff, 0x35) }
    ensures neg { as_call (neg_of 0x80) 0x00 ≡ (0x80, 0x0d) }
    ensures neg_one { as_call (neg_of 0x01) 0x00 ≡ (0xff, 0x35) }
    ensures sbc { as_call (sbc_of 0x00 0x00) 0x03 ≡ (0xff, 0x35) }
    ensures sbc_zero_clear { as_call (sbc_of 0x01 0x00) 0x01 ≡ (0x00, 0x00) }
    ensures sbc_zero_set { as_call (sbc_of 0x01 0x00) 0x03 ≡ (0x00, 0x02) }
    ensures sbc_overflow { as_call (sbc_of 0x80 0x7f) 0x03 ≡ (0x00, 0x3a) }
{}

/// Bitwise operations clear V and leave H and C; COM sets C.
pub fn bitwise()
    ensures and { as_call (and_of 0x80 0xff) 0x0b ≡ (0x80, 0x15) }
    ensures eor { as_call (eor_of 0x55 0x55) 0x35 ≡ (0x00, 0x23) }
    ensures or { as_call (or_of 0x00 0x00) 0xff ≡ (0x00, 0xe3) }
    ensures com { as_call (com_of 0xff) 0x00 ≡ (0x00, 0x03) }
    ensures com_zero { as_call (com_of 0x00) 0x28 ≡ (0xff, 0x35) }
{}

/// INC and DEC overflow at 7F and 80, and leave C.
pub fn counting()
    ensures inc { as_call (inc_of 0x7f) 0x01 ≡ (0x80, 0x0d) }
    ensures inc_wraps { as_call (inc_of 0xff) 0x00 ≡ (0x00, 0x02) }
    ensures dec { as_call (dec_of 0x80) 0x00 ≡ (0x7f, 0x18) }
    ensures dec_wraps { as_call (dec_of 0x00) 0x00 ≡ (0xff, 0x14) }
{}

/// Shifts: V where N and C differ after the shift.
pub fn shifts()
    ensures lsr { as_call (lsr_of 0x01) 0x00 ≡ (0x00, 0x1b) }
    ensures asr { as_call (asr_of 0x81) 0x00 ≡ (0xc0, 0x15) }
    ensures ror { as_call (ror_of 0x00) 0x01 ≡ (0x80, 0x0c) }
    ensures ror_out { as_call (ror_of 0x01) 0x00 ≡ (0x00, 0x1b) }
{}

/// Words: ADIW and SBIW at the signed and the unsigned edge.
pub fn words()
    ensures adiw { as_call (adiw_of 0x7fff 1) 0x00 ≡ (0x8000, 0x0c) }
    ensures adiw_carry { as_call (adiw_of 0xffff 1) 0x00 ≡ (0x0000, 0x03) }
    ensures sbiw { as_call (sbiw_of 0x8000 1) 0x00 ≡ (0x7fff, 0x18) }
    ensures sbiw_borrow { as_call (sbiw_of 0x0000 1) 0x00 ≡ (0xffff, 0x15) }
{}

/// Products: C is bit 15 of the product, before a fractional product is doubled; flags other than Z and C stay.
pub fn products()
    ensures mul { as_call (mul_of 0xff 0xff) 0x00 ≡ (0xfe01, 0x01) }
    ensures mul_zero { as_call (mul_of 0x00 0x7f) 0x3d ≡ (0x0000, 0x3e) }
    ensures muls { as_call (muls_of 0x80 0x80) 0x00 ≡ (0x4000, 0x00) }
    ensures muls_minus { as_call (muls_of 0xff 0x01) 0x00 ≡ (0xffff, 0x01) }
    ensures mulsu { as_call (mulsu_of 0x80 0xff) 0x00 ≡ (0x8080, 0x01) }
    ensures fmul { as_call (fmul_of 0x80 0x80) 0x00 ≡ (0x8000, 0x00) }
    ensures fmul_out { as_call (fmul_of 0xff 0xff) 0x00 ≡ (0xfc02, 0x01) }
    ensures fmuls { as_call (fmuls_of 0x80 0x80) 0x00 ≡ (0x8000, 0x00) }
    ensures fmulsu { as_call (fmulsu_of 0xff 0x80) 0x00 ≡ (0xff00, 0x01) }
{}

/// Texts: a two-word instruction with an address, a displacement of 0, a branch back, and a word without a row.
pub fn texts()
    ensures lds { text m16 (decode 0x9100 0x0060) ≡ codes "lds r16, 0x0060" }
    ensures ldd { text m16 (decode 0x8188 0) ≡ codes "ldd r24, Y+0" }
    ensures branch { text m16 (decode 0xf7e1 0) ≡ codes "brbc 1, .-4" }
    ensures call { text m16 (decode 0x940e 0x2001) ≡ codes "call 0x0001" }
    ensures none { text m16 (decode 0x0001 0) ≡ codes ".word 0x0001" }
{}

/// The I/O space: PINx shows PORTx and cannot be stored, UCSRA and EECR are always ready, a 1 stored to TIFR clears that flag, and
/// the stores to PORTC, DDRC and UDR are output writes. Behind the SRAM a load gives 0.
pub fn io_space()
    ensures pins { data_at (given ((0x36, 0xff) ∷ (0x38, 0xa5) ∷ [])) (0x36 ∷ 0x38 ∷ []) ≡ 0xa5 ∷ 0xa5 ∷ [] }
    ensures ready { data_at (given ((0x2b, 0xff) ∷ (0x3c, 0xff) ∷ [])) (0x2b ∷ 0x3c ∷ []) ≡ 0x20 ∷ 0x00 ∷ [] }
    ensures flags { data_at (store m16 0x58 0x01 (with_io_byte 0x38 0xc3 (given []))) (0x58 ∷ []) ≡ 0xc2 ∷ [] }
    ensures outputs { (given ((0x2c, 0x41) ∷ (0x34, 0x01) ∷ (0x35, 0x02) ∷ [])).io.outputs
        ≡ record { cycle = 0; a = 0x0c; byte = 0x41 } ∷ record { cycle = 0; a = 0x14; byte = 0x01 } ∷
        record { cycle = 0; a = 0x15; byte = 0x02 } ∷ [] }
    ensures behind { data_at (given ((0x460, 0xff) ∷ (0x45f, 0xee) ∷ [])) (0x45f ∷ 0x460 ∷ []) ≡ 0xee ∷ 0x00 ∷ [] }
{}

/// Loads and stores: `ldd r24, Y+1`, `std Y+2, r0`, `lds r16, 0x0061`, `sts 0x0061, r16`, `ld r0, -X` that borrows, `st -Y, r0`,
/// `push r0`, `lpm r0, Z` of an odd byte, and of byte 4000, which is byte 0.
pub fn loads_and_stores()
    ensures ldd { data_at (step m16 (given ((28, 0x60) ∷ (0x61, 0x77) ∷ [])) (0x8189 ∷ [])) (24 ∷ []) ≡ 0x77 ∷ [] }
    ensures std { data_at (step m16 (given ((28, 0x60) ∷ (0, 0x77) ∷ [])) (0x820a ∷ [])) (0x62 ∷ []) ≡ 0x77 ∷ [] }
    ensures lds { let p = step m16 (given ((0x61, 0x77) ∷ [])) (0x9100 ∷ 0x0061 ∷ []) in
        progress p ++ data_at p (16 ∷ []) ≡ 2 ∷ 2 ∷ 1 ∷ 0x77 ∷ [] }
    ensures sts { let p = step m16 (given ((16, 0x77) ∷ [])) (0x9300 ∷ 0x0061 ∷ []) in
        progress p ++ data_at p (0x61 ∷ []) ≡ 2 ∷ 2 ∷ 1 ∷ 0x77 ∷ [] }
    ensures ld { data_at (step m16 (given ((27, 0x01) ∷ (0xff, 0x77) ∷ [])) (0x900e ∷ [])) (0 ∷ 26 ∷ 27 ∷ []) ≡ 0x77 ∷ 0xff ∷ 0x00 ∷ [] }
    ensures st { data_at (step m16 (given ((28, 0x61) ∷ (0, 0x77) ∷ [])) (0x920a ∷ [])) (0x60 ∷ 28 ∷ []) ≡ 0x77 ∷ 0x60 ∷ [] }
    ensures push { data_at (step m16 (given ((0x5d, 0x5f) ∷ (0x5e, 0x04) ∷ (0, 0x77) ∷ [])) (0x920f ∷ [])) (0x45f ∷ 0x5d ∷ []) ≡
        0x77 ∷ 0x5e ∷ [] }
    ensures lpm { let p = step m16 (given ((30, 0x01) ∷ [])) (0x9004 ∷ []) in progress p ++ data_at p (0 ∷ []) ≡ 1 ∷ 3 ∷ 1 ∷ 0x90 ∷ [] }
    ensures lpm_wraps { data_at (step m16 (given ((31, 0x40) ∷ [])) (0x9004 ∷ [])) (0 ∷ []) ≡ 0x04 ∷ [] }
{}

/// Jumps: `rjmp` back over word 0, `brne .-4` taken and not taken, `ijmp` with Z = 2005, `rcall .+2` with the return address 0001.
pub fn jumps()
    ensures rjmp { progress (step m16 (given []) (0xcffe ∷ [])) ≡ 8191 ∷ 2 ∷ 1 ∷ [] }
    ensures taken { progress (step m16 (given []) (0xf7e1 ∷ [])) ≡ 8189 ∷ 2 ∷ 1 ∷ [] }
    ensures not_taken { progress (step m16 (given ((0x5f, 0x02) ∷ [])) (0xf7e1 ∷ [])) ≡ 1 ∷ 1 ∷ 1 ∷ [] }
    ensures ijmp { progress (step m16 (given ((30, 0x05) ∷ (31, 0x20) ∷ [])) (0x9409 ∷ [])) ≡ 5 ∷ 2 ∷ 1 ∷ [] }
    ensures rcall { let p = step m16 (given ((0x5d, 0x5f) ∷ (0x5e, 0x04) ∷ [])) (0xd002 ∷ []) in
        progress p ++ data_at p (0x45e ∷ 0x45f ∷ 0x5d ∷ []) ≡ 3 ∷ 3 ∷ 1 ∷ 0x00 ∷ 0x01 ∷ 0x5d ∷ [] }
{}

/// Bits: `bst r0, 7` and `bld r1, 0`, `swap r0`, `sbi` and `cbi` of bit 0 of PORTB, and the four skips on a bit that is set.
pub fn single_bits()
    ensures bst { data_at (after_steps 2 (given ((0, 0x80) ∷ [])) (0xfa07 ∷ 0xf810 ∷ [])) (1 ∷ 0x5f ∷ []) ≡ 0x01 ∷ 0x40 ∷ [] }
    ensures swap { data_at (step m16 (given ((0, 0xa5) ∷ [])) (0x9402 ∷ [])) (0 ∷ []) ≡ 0x5a ∷ [] }
    ensures sbi { let p = step m16 (given ((0x38, 0x80) ∷ [])) (0x9ac0 ∷ []) in
        progress p ++ data_at p (0x38 ∷ []) ≡ 1 ∷ 2 ∷ 1 ∷ 0x81 ∷ [] }
    ensures cbi { data_at (step m16 (given ((0x38, 0x81) ∷ [])) (0x98c0 ∷ [])) (0x38 ∷ []) ≡ 0x80 ∷ [] }
    ensures sbis { progress (step m16 (given ((0x38, 0x01) ∷ [])) (0x9bb0 ∷ [])) ≡ 2 ∷ 2 ∷ 1 ∷ [] }
    ensures sbic { progress (step m16 (given ((0x38, 0x01) ∷ [])) (0x99b0 ∷ [])) ≡ 1 ∷ 1 ∷ 1 ∷ [] }
    ensures sbrs { progress (step m16 (given ((16, 0x01) ∷ [])) (0xff00 ∷ [])) ≡ 2 ∷ 2 ∷ 1 ∷ [] }
    ensures sbrc { progress (step m16 (given ((16, 0x01) ∷ [])) (0xfd00 ∷ [])) ≡ 1 ∷ 1 ∷ 1 ∷ [] }
    ensures cpse { progress (step m16 (given []) (0x1001 ∷ [])) ≡ 2 ∷ 2 ∷ 1 ∷ [] }
{}

/// Registers: `movw r30, r0`, `mul r16, r17` to r1:r0, `adiw r24, 1` over two bytes, `subi r16, 1` and `cpi r16, 1`.
pub fn registers()
    ensures movw { data_at (step m16 (given ((0, 0x34) ∷ (1, 0x12) ∷ [])) (0x01f0 ∷ [])) (30 ∷ 31 ∷ []) ≡ 0x34 ∷ 0x12 ∷ [] }
    ensures mul { let p = step m16 (given ((16, 0xff) ∷ (17, 0xff) ∷ [])) (0x9f01 ∷ []) in
        progress p ++ data_at p (0 ∷ 1 ∷ 0x5f ∷ []) ≡ 1 ∷ 2 ∷ 1 ∷ 0x01 ∷ 0xfe ∷ 0x01 ∷ [] }
    ensures adiw { let p = step m16 (given ((24, 0xff) ∷ [])) (0x9601 ∷ []) in
        progress p ++ data_at p (24 ∷ 25 ∷ []) ≡ 1 ∷ 2 ∷ 1 ∷ 0x00 ∷ 0x01 ∷ [] }
    ensures subi { data_at (step m16 (given ((16, 0x80) ∷ [])) (0x5001 ∷ [])) (16 ∷ 0x5f ∷ []) ≡ 0x7f ∷ 0x38 ∷ [] }
    ensures cpi { data_at (step m16 (given ((16, 0x80) ∷ [])) (0x3001 ∷ [])) (16 ∷ 0x5f ∷ []) ≡ 0x80 ∷ 0x38 ∷ [] }
{}

/// `st Z+, r30` at Z = 0060 stores 60, the register before the change, and leaves 61; `ld r30, Z+` at Z = 00FF leaves the byte
/// loaded in r30, and the carry of the increment in r31.
pub fn pointers_that_move_under_a_register()
    ensures store { data_at (step m16 (given ((30, 0x60) ∷ [])) (0x93e1 ∷ [])) (0x60 ∷ 30 ∷ 31 ∷ []) ≡ 0x60 ∷ 0x61 ∷ 0x00 ∷ [] }
    ensures load { data_at (step m16 (given ((30, 0xff) ∷ (0xff, 0xab) ∷ [])) (0x91e1 ∷ [])) (30 ∷ 31 ∷ []) ≡ 0xab ∷ 0x01 ∷ [] }
{}

/// `call 0x0123` at word 8190 pushes 0000 and leaves SP two lower; `jmp` at 8191 has its second word at 0.
pub fn instructions_at_the_end_of_flash()
    ensures call { let start = given ((0x5d, 0x5f) ∷ (0x5e, 0x04) ∷ (0x45f, 0xee) ∷ (0x45e, 0xee) ∷ []) in
        let p = step m16 (record start { pc = 8190 }) (replicate 8190 0 ++ (0x940e ∷ 0x0123 ∷ [])) in
        progress p ++ data_at p (0x45e ∷ 0x45f ∷ 0x5d ∷ 0x5e ∷ []) ≡ 0x0123 ∷ 4 ∷ 1 ∷ 0x00 ∷ 0x00 ∷ 0x5d ∷ 0x04 ∷ [] }
    ensures jump { let flash = 0x0042 ∷ (replicate 8190 0 ++ (0x940c ∷ [])) in
        progress (step m16 (record (given []) { pc = 8191 }) flash) ≡ 0x0042 ∷ 3 ∷ 1 ∷ [] }
{}

/// `sbrc r16, 0` skips a two-word LDS in 3 cycles, as one step, and does not skip in 1.
pub fn skips_over_two_words()
    ensures skipped { progress (step m16 (given []) (0xfd00 ∷ 0x9100 ∷ 0x0060 ∷ [])) ≡ 3 ∷ 3 ∷ 1 ∷ [] }
    ensures kept { progress (step m16 (given ((16, 1) ∷ [])) (0xfd00 ∷ 0x9100 ∷ 0x0060 ∷ [])) ≡ 1 ∷ 1 ∷ 1 ∷ [] }
{}

/// With SP at 005C, POP raises SP first and then loads SPL, which is 5D; RET loads the bytes of the SP that it began with.
pub fn stack_over_the_stack_pointer()
    ensures pop { data_at (step m16 (given ((0x5d, 0x5c) ∷ [])) (0x900f ∷ [])) (0 ∷ 0x5d ∷ []) ≡ 0x5d ∷ 0x5d ∷ [] }
    ensures ret { let p = step m16 (given ((0x5d, 0x5c) ∷ [])) (0x9508 ∷ []) in
        progress p ++ data_at p (0x5d ∷ []) ≡ 0x1c00 ∷ 4 ∷ 1 ∷ 0x5e ∷ [] }
{}

/// Timer 0 with divisor 1 and clear on compare at 2: the compare flag comes with the count of 2, the next count is 0, and no
/// overflow. Timer 2 counts every 32 cycles at clock select 3 and every 128 at 5.
pub fn timers()
    ensures reached { let start = given ((0x53, 0x09) ∷ (0x5c, 0x02) ∷ []) in
        data_at (record start { io = ticks 2 start.io }) (0x52 ∷ 0x58 ∷ []) ≡ 0x02 ∷ 0x02 ∷ [] }
    ensures cleared { let start = given ((0x53, 0x09) ∷ (0x5c, 0x02) ∷ []) in
        data_at (record start { io = ticks 3 start.io }) (0x52 ∷ 0x58 ∷ []) ≡ 0x00 ∷ 0x02 ∷ [] }
    ensures before_32 { let start = given ((0x45, 0x03) ∷ []) in data_at (record start { io = ticks 31 start.io }) (0x44 ∷ []) ≡ 0x00 ∷ [] }
    ensures at_32 { let start = given ((0x45, 0x03) ∷ []) in data_at (record start { io = ticks 32 start.io }) (0x44 ∷ []) ≡ 0x01 ∷ [] }
    ensures before_128 { let start = given ((0x45, 0x05) ∷ []) in data_at (record start { io = ticks 127 start.io }) (0x44 ∷ []) ≡
        0x00 ∷ [] }
    ensures at_128 { let start = given ((0x45, 0x05) ∷ []) in data_at (record start { io = ticks 128 start.io }) (0x44 ∷ []) ≡ 0x01 ∷ [] }
{}

/// Both flags of timer 0 pending on the ATmega16: the overflow at the lower address goes first, and only its flag is cleared with I.
pub fn lower_vector_first()
    ensures pending { pending m16 (with_io_byte 0x38 0x03 (given ((0x59, 0x03) ∷ []))).io ≡ Some Ovf0 }
    ensures taken { let start = with_io_byte 0x38 0x03 (given ((0x59, 0x03) ∷ (0x5d, 0x5f) ∷ (0x5e, 0x04) ∷ (0x5f, 0x80) ∷ [])) in
        let p = step m16 start [] in
        progress p ++ data_at p (0x58 ∷ 0x5f ∷ 0x5d ∷ []) ≡ 0x12 ∷ 4 ∷ 1 ∷ 0x02 ∷ 0x00 ∷ 0x5d ∷ [] }
{}

/// Where the interrupts enter on each part, by the tables of vectors of the two datasheets. With both flags of timer 0 set the
/// ATmega32 takes the compare match first, where the ATmega16 takes the overflow, and only the flag of the one taken is cleared.
pub fn vectors_of_each_part()
    ensures m16 { map (address_of m16) (Comp2 ∷ Ovf2 ∷ Ovf0 ∷ Comp0 ∷ []) ≡ 0x06 ∷ 0x08 ∷ 0x12 ∷ 0x26 ∷ [] }
    ensures m32 { map (address_of m32) (Comp2 ∷ Ovf2 ∷ Ovf0 ∷ Comp0 ∷ []) ≡ 0x08 ∷ 0x0a ∷ 0x16 ∷ 0x14 ∷ [] }
    ensures first_on_m32 { pending m32 (with_io_byte 0x38 0x03 (given_on m32 ((0x59, 0x03) ∷ []))).io ≡ Some Comp0 }
    ensures taken_on_m32 { let bytes = (0x59, 0x03) ∷ (0x5d, 0x5f) ∷ (0x5e, 0x04) ∷ (0x5f, 0x80) ∷ [] in
        let p = step m32 (with_io_byte 0x38 0x03 (given_on m32 bytes)) [] in
        progress p ++ data_on m32 p (0x58 ∷ 0x5f ∷ 0x5d ∷ []) ≡ 0x14 ∷ 4 ∷ 1 ∷ 0x01 ∷ 0x00 ∷ 0x5d ∷ [] }
{}

/// The larger flash and SRAM of the ATmega32: `jmp 0x2000` reaches word 2000, which on the ATmega16 is word 0; behind word 16383
/// comes word 0, and behind 8191 word 8192; the last byte of SRAM is 085F, and behind it a store does nothing and a load gives 0.
pub fn the_larger_part()
    ensures jump { progress (step m32 (given_on m32 []) (0x940c ∷ 0x2000 ∷ [])) ≡ 0x2000 ∷ 3 ∷ 1 ∷ [] }
    ensures jump_on_m16 { progress (step m16 (given_on m16 []) (0x940c ∷ 0x2000 ∷ [])) ≡ 0x0000 ∷ 3 ∷ 1 ∷ [] }
    ensures wraps { progress (step m32 (record (given_on m32 []) { pc = 16383 }) []) ≡ 0 ∷ 1 ∷ 1 ∷ [] }
    ensures does_not_wrap { progress (step m32 (record (given_on m32 []) { pc = 8191 }) []) ≡ 8192 ∷ 1 ∷ 1 ∷ [] }
    ensures sram { data_on m32 (given_on m32 ((0x85f, 0x5a) ∷ (0x860, 0xff) ∷ [])) (0x85f ∷ 0x860 ∷ []) ≡ 0x5a ∷ 0x00 ∷ [] }
{}

/// ICALL with SP at r31, the high byte of Z: it goes to the Z before the push, whose bytes then stand in r31 and r30.
pub fn icall_reads_z_before_it_pushes()
    ensures { let p = step m16 (given ((30, 0x05) ∷ (0x5d, 0x1f) ∷ [])) (0x9509 ∷ []) in
        progress p ++ data_at p (30 ∷ 31 ∷ 0x5d ∷ []) ≡ 0x05 ∷ 3 ∷ 1 ∷ 0x00 ∷ 0x01 ∷ 0x1d ∷ [] }
{}

/// BSET and BCLR change the one bit that they name: S stays though N or V changes.
pub fn single_flags_leave_the_sign()
    ensures set_n { data_at (step m16 (given []) (0x9428 ∷ [])) (0x5f ∷ []) ≡ 0x04 ∷ [] }
    ensures set_v { data_at (step m16 (given []) (0x9438 ∷ [])) (0x5f ∷ []) ≡ 0x08 ∷ [] }
    ensures clear_n { data_at (step m16 (given ((0x5f, 0x14) ∷ [])) (0x94a8 ∷ [])) (0x5f ∷ []) ≡ 0x10 ∷ [] }
    ensures clear_v { data_at (step m16 (given ((0x5f, 0x18) ∷ [])) (0x94b8 ∷ [])) (0x5f ∷ []) ≡ 0x10 ∷ [] }
{}

/// An interrupt whose push falls on SREG, TIFR or TIMSK: the vector is chosen first, then pc is pushed, then I and the flag are
/// cleared, and then pc is set. Pushed onto SREG, pc = 01C5 leaves C5 there, and I is cleared in it. Pushed onto TIFR, pc = 0001
/// clears the very flag whose interrupt was chosen, and the other stays. Pushed onto TIMSK and, with its high byte, onto TIFR below
/// it, pc = 0100 masks both interrupts and clears one flag, too late for the one that was chosen.
pub fn interrupts_that_push_onto_their_own_registers()
    ensures status { let start = with_io_byte 0x38 0x01 (given ((0x59, 0x01) ∷ (0x5d, 0x5f) ∷ (0x5f, 0x80) ∷ [])) in
        let p = step m16 (record start { pc = 0x1c5 }) [] in
        progress p ++ data_at p (0x5f ∷ 0x58 ∷ 0x5d ∷ 0x5e ∷ []) ≡ 0x12 ∷ 4 ∷ 1 ∷ 0x45 ∷ 0x00 ∷ 0x5d ∷ 0x00 ∷ [] }
    ensures flags { let start = with_io_byte 0x38 0x03 (given ((0x59, 0x03) ∷ (0x5d, 0x58) ∷ (0x5f, 0x80) ∷ [])) in
        let p = step m16 (record start { pc = 0x001 }) [] in
        progress p ++ data_at p (0x5f ∷ 0x58 ∷ 0x57 ∷ 0x5d ∷ []) ≡ 0x12 ∷ 4 ∷ 1 ∷ 0x00 ∷ 0x02 ∷ 0x00 ∷ 0x56 ∷ [] }
    ensures masks { let start = with_io_byte 0x38 0x03 (given ((0x59, 0x03) ∷ (0x5d, 0x59) ∷ (0x5f, 0x80) ∷ [])) in
        let p = step m16 (record start { pc = 0x100 }) [] in
        progress p ++ data_at p (0x5f ∷ 0x58 ∷ 0x59 ∷ 0x5d ∷ []) ≡ 0x12 ∷ 4 ∷ 1 ∷ 0x00 ∷ 0x02 ∷ 0x00 ∷ 0x57 ∷ [] }
{}

/// SEI at 0 with timer 0 one count before its overflow: the flag is set in cycle 1, the NOP at 1 still runs, the interrupt enters
/// at 12 in cycle 6, and RETI is back at 2 in cycle 10. With the compare match of timer 0 at 5 too, one NOP runs after RETI, and
/// that interrupt enters at 26 in cycle 15.
pub fn hold_after_sei()
    ensures sei { let start = given ((0x5d, 0x5f) ∷ (0x5e, 0x04) ∷ (0x59, 0x01) ∷ (0x52, 0xff) ∷ (0x53, 0x01) ∷ []) in
        let flash = 0x9478 ∷ (replicate 0x11 0 ++ (0x9518 ∷ [])) in
        progress (after_steps 1 start flash) ++ progress (after_steps 2 start flash) ++
        progress (after_steps 3 start flash) ++ progress (after_steps 4 start flash)
        ≡ 0x01 ∷ 1 ∷ 1 ∷ 0x02 ∷ 2 ∷ 2 ∷ 0x12 ∷ 6 ∷ 3 ∷ 0x02 ∷ 10 ∷ 4 ∷ [] }
    ensures reti { let start = given ((0x5d, 0x5f) ∷ (0x5e, 0x04) ∷ (0x59, 0x03) ∷ (0x52, 0xff) ∷ (0x53, 0x01) ∷ (0x5c, 0x05) ∷ []) in
        let flash = 0x9478 ∷ (replicate 0x11 0 ++ (0x9518 ∷ [])) in
        progress (after_steps 5 start flash) ++ progress (after_steps 6 start flash) ≡ 0x03 ∷ 11 ∷ 5 ∷ 0x26 ∷ 15 ∷ 6 ∷ [] }
{}

/// A step leaves the state before a BREAK, and `go_on` runs it as a NOP of one cycle.
pub fn break_is_a_nop_to_go()
    ensures step { progress (after_steps 2 (given []) (0x0000 ∷ 0x9598 ∷ 0xcfff ∷ [])) ≡ 1 ∷ 1 ∷ 1 ∷ [] }
    ensures go { let flash = 0x0000 ∷ 0x9598 ∷ 0xcfff ∷ [] in
        progress (go_on m16 (after_steps 1 (given []) flash) flash) ≡ 2 ∷ 2 ∷ 2 ∷ [] }
{}

/// A program that writes to port B and waits: the two output writes, the newest first, with the cycles of their stores.
pub fn port_program()
    ensures progress { progress (after_steps 7 (given []) (0xe001 ∷ 0xbb07 ∷ 0xbb08 ∷ 0xcfff ∷ [])) ≡ 3 ∷ 11 ∷ 7 ∷ [] }
    ensures outputs { (after_steps 7 (given []) (0xe001 ∷ 0xbb07 ∷ 0xbb08 ∷ 0xcfff ∷ [])).io.outputs
        ≡ record { cycle = 2; a = 0x18; byte = 1 } ∷ record { cycle = 1; a = 0x17; byte = 1 } ∷ [] }
{}

/// The start of an ordinary C program: it sets SP, copies four bytes from flash to SRAM and calls `main` at 10, which it reaches
/// in cycle 44 after 27 steps with the return address 000F on the stack.
pub fn ordinary_start()
    ensures reached { progress (after_steps 27 (given []) start_code) ≡ 0x10 ∷ 44 ∷ 27 ∷ [] }
    ensures copied { data_at (after_steps 27 (given []) start_code) (0x60 ∷ 0x61 ∷ 0x62 ∷ 0x63 ∷ 0x45e ∷ 0x45f ∷ [])
        ≡ 0x11 ∷ 0x22 ∷ 0x33 ∷ 0x44 ∷ 0x00 ∷ 0x0f ∷ [] }
{}
