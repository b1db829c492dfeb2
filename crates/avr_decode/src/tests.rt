//! Words and texts worked by hand from the bit patterns of the AVR Instruction Set Manual, and not from the program's output.

use super::*;
use arrayvec::ArrayString;
use part_spec::Part;
use std::process::Abort;

/// A first word, the word behind it, and their text.
struct Sample(u16, u16, &'static str);

/// One word pair for each row of the instruction table, in its order.
const ROWS: [Sample; 86] = [
    Sample(0x0000, 0, "nop"),
    Sample(0x01cf, 0, "movw r24, r30"),
    Sample(0x0254, 0, "muls r21, r20"),
    Sample(0x0316, 0, "mulsu r17, r22"),
    Sample(0x037a, 0, "fmul r23, r18"),
    Sample(0x0383, 0, "fmuls r16, r19"),
    Sample(0x03cd, 0, "fmulsu r20, r21"),
    Sample(0x0611, 0, "cpc r1, r17"),
    Sample(0x09f0, 0, "sbc r31, r0"),
    Sample(0x0f01, 0, "add r16, r17"),
    Sample(0x1040, 0, "cpse r4, r0"),
    Sample(0x1643, 0, "cp r4, r19"),
    Sample(0x18dc, 0, "sub r13, r12"),
    Sample(0x1e3d, 0, "adc r3, r29"),
    Sample(0x2023, 0, "and r2, r3"),
    Sample(0x2444, 0, "eor r4, r4"),
    Sample(0x2af0, 0, "or r15, r16"),
    Sample(0x2d00, 0, "mov r16, r0"),
    Sample(0x3033, 0, "cpi r19, 0x03"),
    Sample(0x441f, 0, "sbci r17, 0x4f"),
    Sample(0x5161, 0, "subi r22, 0x11"),
    Sample(0x6f00, 0, "ori r16, 0xf0"),
    Sample(0x701f, 0, "andi r17, 0x0f"),
    Sample(0xa041, 0, "ldd r4, Z+33"),
    Sample(0xad9f, 0, "ldd r25, Y+63"),
    Sample(0xa200, 0, "std Z+32, r0"),
    Sample(0x830a, 0, "std Y+2, r16"),
    Sample(0x9100, 0x0060, "lds r16, 0x0060"),
    Sample(0x9051, 0, "ld r5, Z+"),
    Sample(0x9112, 0, "ld r17, -Z"),
    Sample(0x9104, 0, "lpm r16, Z"),
    Sample(0x9005, 0, "lpm r0, Z+"),
    Sample(0x9099, 0, "ld r9, Y+"),
    Sample(0x91fa, 0, "ld r31, -Y"),
    Sample(0x902c, 0, "ld r2, X"),
    Sample(0x912d, 0, "ld r18, X+"),
    Sample(0x903e, 0, "ld r3, -X"),
    Sample(0x91df, 0, "pop r29"),
    Sample(0x9220, 0x0100, "sts 0x0100, r2"),
    Sample(0x9211, 0, "st Z+, r1"),
    Sample(0x9302, 0, "st -Z, r16"),
    Sample(0x9209, 0, "st Y+, r0"),
    Sample(0x93ba, 0, "st -Y, r27"),
    Sample(0x926c, 0, "st X, r6"),
    Sample(0x938d, 0, "st X+, r24"),
    Sample(0x927e, 0, "st -X, r7"),
    Sample(0x93cf, 0, "push r28"),
    Sample(0x9440, 0, "com r4"),
    Sample(0x94b1, 0, "neg r11"),
    Sample(0x9412, 0, "swap r1"),
    Sample(0x9563, 0, "inc r22"),
    Sample(0x9505, 0, "asr r16"),
    Sample(0x9406, 0, "lsr r0"),
    Sample(0x94f7, 0, "ror r15"),
    Sample(0x951a, 0, "dec r17"),
    Sample(0x9478, 0, "bset 7"),
    Sample(0x94f8, 0, "bclr 7"),
    Sample(0x9409, 0, "ijmp"),
    Sample(0x9509, 0, "icall"),
    Sample(0x9508, 0, "ret"),
    Sample(0x9518, 0, "reti"),
    Sample(0x9588, 0, "sleep"),
    Sample(0x9598, 0, "break"),
    Sample(0x95a8, 0, "wdr"),
    Sample(0x95c8, 0, "lpm"),
    Sample(0x95e8, 0, "spm"),
    Sample(0x940c, 0x0123, "jmp 0x0123"),
    Sample(0x940e, 0x1a2b, "call 0x1a2b"),
    Sample(0x96ff, 0, "adiw r30, 0x3f"),
    Sample(0x9711, 0, "sbiw r26, 0x01"),
    Sample(0x9897, 0, "cbi 0x12, 7"),
    Sample(0x99e1, 0, "sbic 0x1c, 1"),
    Sample(0x9ae0, 0, "sbi 0x1c, 0"),
    Sample(0x9b83, 0, "sbis 0x10, 3"),
    Sample(0x9c54, 0, "mul r5, r4"),
    Sample(0xb396, 0, "in r25, 0x16"),
    Sample(0xbb07, 0, "out 0x17, r16"),
    Sample(0xcfff, 0, "rjmp .-1"),
    Sample(0xd7ff, 0, "rcall .+2047"),
    Sample(0xef2f, 0, "ldi r18, 0xff"),
    Sample(0xf011, 0, "brbs 1, .+2"),
    Sample(0xf7e1, 0, "brbc 1, .-4"),
    Sample(0xf804, 0, "bld r0, 4"),
    Sample(0xfa12, 0, "bst r1, 2"),
    Sample(0xfd00, 0, "sbrc r16, 0"),
    Sample(0xfe07, 0, "sbrs r0, 7"),
];

/// Words at the edge of a row, and words that only larger parts have an instruction for.
const EDGES: [Sample; 12] = [
    Sample(0x8188, 0, "ldd r24, Y+0"),
    Sample(0xc000, 0, "rjmp .+0"),
    Sample(0xd800, 0, "rcall .-2048"),
    Sample(0xf200, 0, "brbs 0, .-64"),
    Sample(0xf1f8, 0, "brbs 0, .+63"),
    Sample(0x95fd, 0xffff, "jmp 0x1fff"),
    Sample(0x0001, 0, ".word 0x0001"),
    Sample(0x9003, 0, ".word 0x9003"),
    Sample(0x9419, 0, ".word 0x9419"),
    Sample(0x95d8, 0, ".word 0x95d8"),
    Sample(0xf808, 0, ".word 0xf808"),
    Sample(0xffff, 0, ".word 0xffff"),
];

/// Compares the text of each sample.
fn assert_texts(rt: &impl Abort, samples: &[Sample]) {
    for sample in samples {
        let mut out = ArrayString::new();
        print(&decode(sample.0, sample.1), &mut out);
        assert_eq!(rt; out.as_str(), sample.2);
    }
}

#[test]
fn each_row_has_its_text(rt: HostRuntime) {
    assert_texts(&rt, &ROWS);
}

#[test]
fn edges_and_undefined_words_have_their_text(rt: HostRuntime) {
    assert_texts(&rt, &EDGES);
}

#[test]
fn first_words_tell_skips_and_lengths(rt: HostRuntime) {
    assert!(rt; is_skip(0xfd00), "sbrc");
    assert!(rt; is_skip(0x1040), "cpse");
    assert!(rt; is_skip(0x9b83), "sbis");
    assert!(rt; !is_skip(0xffff), "undefined");
    assert!(rt; two_word(0x940c), "jmp");
    assert!(rt; two_word(0x9220), "sts");
    assert!(rt; !two_word(0x940a), "dec");
    assert_eq!(rt; words(&decode(0x9100, 0x0060)), 2);
    assert_eq!(rt; words(&decode(0x96ff, 0)), 1);
}

/// A first word, the word behind it, and their text on the ATmega16 and on the ATmega32.
struct PartSample(u16, u16, &'static str, &'static str);

/// Jumps and calls, of which the part tells the address, and data addresses, of which it does not.
const PART_SAMPLES: [PartSample; 6] = [
    PartSample(0x940c, 0x1fff, "jmp 0x1fff", "jmp 0x1fff"),
    PartSample(0x940c, 0x2000, "jmp 0x0000", "jmp 0x2000"),
    PartSample(0x940e, 0x3fff, "call 0x1fff", "call 0x3fff"),
    PartSample(0x940e, 0x4001, "call 0x0001", "call 0x0001"),
    PartSample(0x95fd, 0xffff, "jmp 0x1fff", "jmp 0x3fff"),
    PartSample(0x9100, 0x2000, "lds r16, 0x2000", "lds r16, 0x2000"),
];

#[test]
fn an_address_is_shown_within_the_flash_of_the_part(rt: HostRuntime) {
    for sample in &PART_SAMPLES {
        let instr = decode(sample.0, sample.1);
        let mut small = ArrayString::new();
        print_for(Part::M16, &instr, &mut small);
        assert_eq!(rt; small.as_str(), sample.2);
        let mut large = ArrayString::new();
        print_for(Part::M32, &instr, &mut large);
        assert_eq!(rt; large.as_str(), sample.3);
    }
}
