//! Texts that are read on both parts, and the words that they give from address 0 on.

/// LDI r16,1; OUT DDRB,r16; OUT PORTB,r16; RJMP to itself.
const PROGRAM: &[u16] = &[0xE001, 0xBB07, 0xBB08, 0xCFFF];

/// One word behind sixteen bytes.
const BEHIND_16: &[u16] = &[
    0xFFFF, 0xFFFF, 0xFFFF, 0xFFFF, 0xFFFF, 0xFFFF, 0xFFFF, 0xFFFF, 0xFF01,
];

/// Each text with its words.
pub(super) const TEXTS: [(&[u8], &[u16]); 12] = [
    (b":0800000001E007BB08BBFFCFC4\n:00000001FF\n", PROGRAM),
    // digits of the other case, carriage returns, and a last line with no end
    (b":0800000001e007bb08bbffcfc4\n:00000001ff\n", PROGRAM),
    (b":0800000001E007BB08BBFFCFC4\r\n:00000001FF\r\n", PROGRAM),
    (b":0800000001E007BB08BBFFCFC4\n:00000001FF", PROGRAM),
    // empty lines, and records that are not in the order of their addresses
    (
        b"\n\r\n:0400040008BBFFCF67\n\n:0400000001E007BB59\n\r\n:00000001FF\n",
        PROGRAM,
    ),
    // nothing is given, nothing behind the end is read, no byte is given, and half a word is given
    (b":00000001FF", &[]),
    (b":00000001FF\n:0100000001FF\nx\n", &[]),
    (b":0000000000\n:00000001FF\n", &[]),
    (b":0100010012EC\n:00000001FF\n", &[0x12FF]),
    // the newest base counts
    (b":020000020001FB\n:0100000001FE\n:00000001FF\n", BEHIND_16),
    (
        b":020000040001F9\n:020000021000EC\n:020000040000FA\n:0100000001FE\n:00000001FF\n",
        &[0xFF01],
    ),
    // where the program starts has no effect
    (
        b":0400000300003800C1\n:0400000500000000F7\n:0100000001FE\n:00000001FF\n",
        &[0xFF01],
    ),
];
