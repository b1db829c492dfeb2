//! The forms of instructions: the letters of each row of the instruction table, its mnemonic, and what its operands are.

/// The registers that the values of a field name.
#[derive(Clone, Copy, Debug, PartialEq, Eq)]
pub(crate) enum Named {
    /// Each register.
    Any,
    /// Each second register.
    Even,
    /// The registers from r16 on.
    Upper,
    /// Each second register from r24 on.
    Double,
}

/// What an operand is; a letter is that of the field which it gives.
#[derive(Clone, Copy, Debug, PartialEq, Eq)]
pub(crate) enum Operand {
    /// A register.
    Register(Named, u8),
    /// A byte.
    Byte(u8),
    /// The number of a bit.
    Bit(u8),
    /// A fixed text, with blanks behind it.
    Exact([u8; 2]),
    /// A displacement behind a pointer register.
    Displacement(u8, u8),
    /// A distance of so many values.
    Distance(u32, u8),
    /// An address of data, which is the second word.
    Address,
    /// The address of a jump, which is a field and the second word.
    Target(u8),
}

/// The operands of a form.
#[derive(Clone, Copy, Debug, PartialEq, Eq)]
pub(crate) enum Operands {
    /// None.
    None,
    /// One.
    One(Operand),
    /// Two.
    Two(Operand, Operand),
}

/// The form of a row of the instruction table.
#[derive(Clone, Copy, Debug, PartialEq, Eq)]
pub(crate) struct Form {
    /// The letters of the row, its most significant bit first; a blank only groups letters.
    pub letters: [u8; 19],
    /// The mnemonic, with blanks behind it.
    pub name: [u8; 6],
    /// The operands.
    pub operands: Operands,
}

/// The forms of all rows, in their order.
pub(crate) const FORMS: [Form; 86] = [
    Form {
        letters: *b"0000 0000 0000 0000",
        name: *b"nop   ",
        operands: Operands::None,
    },
    Form {
        letters: *b"0000 0001 dddd rrrr",
        name: *b"movw  ",
        operands: Operands::Two(
            Operand::Register(Named::Even, b'd'),
            Operand::Register(Named::Even, b'r'),
        ),
    },
    Form {
        letters: *b"0000 0010 dddd rrrr",
        name: *b"muls  ",
        operands: Operands::Two(
            Operand::Register(Named::Upper, b'd'),
            Operand::Register(Named::Upper, b'r'),
        ),
    },
    Form {
        letters: *b"0000 0011 0ddd 0rrr",
        name: *b"mulsu ",
        operands: Operands::Two(
            Operand::Register(Named::Upper, b'd'),
            Operand::Register(Named::Upper, b'r'),
        ),
    },
    Form {
        letters: *b"0000 0011 0ddd 1rrr",
        name: *b"fmul  ",
        operands: Operands::Two(
            Operand::Register(Named::Upper, b'd'),
            Operand::Register(Named::Upper, b'r'),
        ),
    },
    Form {
        letters: *b"0000 0011 1ddd 0rrr",
        name: *b"fmuls ",
        operands: Operands::Two(
            Operand::Register(Named::Upper, b'd'),
            Operand::Register(Named::Upper, b'r'),
        ),
    },
    Form {
        letters: *b"0000 0011 1ddd 1rrr",
        name: *b"fmulsu",
        operands: Operands::Two(
            Operand::Register(Named::Upper, b'd'),
            Operand::Register(Named::Upper, b'r'),
        ),
    },
    Form {
        letters: *b"0000 01rd dddd rrrr",
        name: *b"cpc   ",
        operands: Operands::Two(
            Operand::Register(Named::Any, b'd'),
            Operand::Register(Named::Any, b'r'),
        ),
    },
    Form {
        letters: *b"0000 10rd dddd rrrr",
        name: *b"sbc   ",
        operands: Operands::Two(
            Operand::Register(Named::Any, b'd'),
            Operand::Register(Named::Any, b'r'),
        ),
    },
    Form {
        letters: *b"0000 11rd dddd rrrr",
        name: *b"add   ",
        operands: Operands::Two(
            Operand::Register(Named::Any, b'd'),
            Operand::Register(Named::Any, b'r'),
        ),
    },
    Form {
        letters: *b"0001 00rd dddd rrrr",
        name: *b"cpse  ",
        operands: Operands::Two(
            Operand::Register(Named::Any, b'd'),
            Operand::Register(Named::Any, b'r'),
        ),
    },
    Form {
        letters: *b"0001 01rd dddd rrrr",
        name: *b"cp    ",
        operands: Operands::Two(
            Operand::Register(Named::Any, b'd'),
            Operand::Register(Named::Any, b'r'),
        ),
    },
    Form {
        letters: *b"0001 10rd dddd rrrr",
        name: *b"sub   ",
        operands: Operands::Two(
            Operand::Register(Named::Any, b'd'),
            Operand::Register(Named::Any, b'r'),
        ),
    },
    Form {
        letters: *b"0001 11rd dddd rrrr",
        name: *b"adc   ",
        operands: Operands::Two(
            Operand::Register(Named::Any, b'd'),
            Operand::Register(Named::Any, b'r'),
        ),
    },
    Form {
        letters: *b"0010 00rd dddd rrrr",
        name: *b"and   ",
        operands: Operands::Two(
            Operand::Register(Named::Any, b'd'),
            Operand::Register(Named::Any, b'r'),
        ),
    },
    Form {
        letters: *b"0010 01rd dddd rrrr",
        name: *b"eor   ",
        operands: Operands::Two(
            Operand::Register(Named::Any, b'd'),
            Operand::Register(Named::Any, b'r'),
        ),
    },
    Form {
        letters: *b"0010 10rd dddd rrrr",
        name: *b"or    ",
        operands: Operands::Two(
            Operand::Register(Named::Any, b'd'),
            Operand::Register(Named::Any, b'r'),
        ),
    },
    Form {
        letters: *b"0010 11rd dddd rrrr",
        name: *b"mov   ",
        operands: Operands::Two(
            Operand::Register(Named::Any, b'd'),
            Operand::Register(Named::Any, b'r'),
        ),
    },
    Form {
        letters: *b"0011 KKKK dddd KKKK",
        name: *b"cpi   ",
        operands: Operands::Two(Operand::Register(Named::Upper, b'd'), Operand::Byte(b'K')),
    },
    Form {
        letters: *b"0100 KKKK dddd KKKK",
        name: *b"sbci  ",
        operands: Operands::Two(Operand::Register(Named::Upper, b'd'), Operand::Byte(b'K')),
    },
    Form {
        letters: *b"0101 KKKK dddd KKKK",
        name: *b"subi  ",
        operands: Operands::Two(Operand::Register(Named::Upper, b'd'), Operand::Byte(b'K')),
    },
    Form {
        letters: *b"0110 KKKK dddd KKKK",
        name: *b"ori   ",
        operands: Operands::Two(Operand::Register(Named::Upper, b'd'), Operand::Byte(b'K')),
    },
    Form {
        letters: *b"0111 KKKK dddd KKKK",
        name: *b"andi  ",
        operands: Operands::Two(Operand::Register(Named::Upper, b'd'), Operand::Byte(b'K')),
    },
    Form {
        letters: *b"10q0 qq0d dddd 0qqq",
        name: *b"ldd   ",
        operands: Operands::Two(
            Operand::Register(Named::Any, b'd'),
            Operand::Displacement(b'Z', b'q'),
        ),
    },
    Form {
        letters: *b"10q0 qq0d dddd 1qqq",
        name: *b"ldd   ",
        operands: Operands::Two(
            Operand::Register(Named::Any, b'd'),
            Operand::Displacement(b'Y', b'q'),
        ),
    },
    Form {
        letters: *b"10q0 qq1r rrrr 0qqq",
        name: *b"std   ",
        operands: Operands::Two(
            Operand::Displacement(b'Z', b'q'),
            Operand::Register(Named::Any, b'r'),
        ),
    },
    Form {
        letters: *b"10q0 qq1r rrrr 1qqq",
        name: *b"std   ",
        operands: Operands::Two(
            Operand::Displacement(b'Y', b'q'),
            Operand::Register(Named::Any, b'r'),
        ),
    },
    Form {
        letters: *b"1001 000d dddd 0000",
        name: *b"lds   ",
        operands: Operands::Two(Operand::Register(Named::Any, b'd'), Operand::Address),
    },
    Form {
        letters: *b"1001 000d dddd 0001",
        name: *b"ld    ",
        operands: Operands::Two(Operand::Register(Named::Any, b'd'), Operand::Exact(*b"Z+")),
    },
    Form {
        letters: *b"1001 000d dddd 0010",
        name: *b"ld    ",
        operands: Operands::Two(Operand::Register(Named::Any, b'd'), Operand::Exact(*b"-Z")),
    },
    Form {
        letters: *b"1001 000d dddd 0100",
        name: *b"lpm   ",
        operands: Operands::Two(Operand::Register(Named::Any, b'd'), Operand::Exact(*b"Z ")),
    },
    Form {
        letters: *b"1001 000d dddd 0101",
        name: *b"lpm   ",
        operands: Operands::Two(Operand::Register(Named::Any, b'd'), Operand::Exact(*b"Z+")),
    },
    Form {
        letters: *b"1001 000d dddd 1001",
        name: *b"ld    ",
        operands: Operands::Two(Operand::Register(Named::Any, b'd'), Operand::Exact(*b"Y+")),
    },
    Form {
        letters: *b"1001 000d dddd 1010",
        name: *b"ld    ",
        operands: Operands::Two(Operand::Register(Named::Any, b'd'), Operand::Exact(*b"-Y")),
    },
    Form {
        letters: *b"1001 000d dddd 1100",
        name: *b"ld    ",
        operands: Operands::Two(Operand::Register(Named::Any, b'd'), Operand::Exact(*b"X ")),
    },
    Form {
        letters: *b"1001 000d dddd 1101",
        name: *b"ld    ",
        operands: Operands::Two(Operand::Register(Named::Any, b'd'), Operand::Exact(*b"X+")),
    },
    Form {
        letters: *b"1001 000d dddd 1110",
        name: *b"ld    ",
        operands: Operands::Two(Operand::Register(Named::Any, b'd'), Operand::Exact(*b"-X")),
    },
    Form {
        letters: *b"1001 000d dddd 1111",
        name: *b"pop   ",
        operands: Operands::One(Operand::Register(Named::Any, b'd')),
    },
    Form {
        letters: *b"1001 001r rrrr 0000",
        name: *b"sts   ",
        operands: Operands::Two(Operand::Address, Operand::Register(Named::Any, b'r')),
    },
    Form {
        letters: *b"1001 001r rrrr 0001",
        name: *b"st    ",
        operands: Operands::Two(Operand::Exact(*b"Z+"), Operand::Register(Named::Any, b'r')),
    },
    Form {
        letters: *b"1001 001r rrrr 0010",
        name: *b"st    ",
        operands: Operands::Two(Operand::Exact(*b"-Z"), Operand::Register(Named::Any, b'r')),
    },
    Form {
        letters: *b"1001 001r rrrr 1001",
        name: *b"st    ",
        operands: Operands::Two(Operand::Exact(*b"Y+"), Operand::Register(Named::Any, b'r')),
    },
    Form {
        letters: *b"1001 001r rrrr 1010",
        name: *b"st    ",
        operands: Operands::Two(Operand::Exact(*b"-Y"), Operand::Register(Named::Any, b'r')),
    },
    Form {
        letters: *b"1001 001r rrrr 1100",
        name: *b"st    ",
        operands: Operands::Two(Operand::Exact(*b"X "), Operand::Register(Named::Any, b'r')),
    },
    Form {
        letters: *b"1001 001r rrrr 1101",
        name: *b"st    ",
        operands: Operands::Two(Operand::Exact(*b"X+"), Operand::Register(Named::Any, b'r')),
    },
    Form {
        letters: *b"1001 001r rrrr 1110",
        name: *b"st    ",
        operands: Operands::Two(Operand::Exact(*b"-X"), Operand::Register(Named::Any, b'r')),
    },
    Form {
        letters: *b"1001 001r rrrr 1111",
        name: *b"push  ",
        operands: Operands::One(Operand::Register(Named::Any, b'r')),
    },
    Form {
        letters: *b"1001 010d dddd 0000",
        name: *b"com   ",
        operands: Operands::One(Operand::Register(Named::Any, b'd')),
    },
    Form {
        letters: *b"1001 010d dddd 0001",
        name: *b"neg   ",
        operands: Operands::One(Operand::Register(Named::Any, b'd')),
    },
    Form {
        letters: *b"1001 010d dddd 0010",
        name: *b"swap  ",
        operands: Operands::One(Operand::Register(Named::Any, b'd')),
    },
    Form {
        letters: *b"1001 010d dddd 0011",
        name: *b"inc   ",
        operands: Operands::One(Operand::Register(Named::Any, b'd')),
    },
    Form {
        letters: *b"1001 010d dddd 0101",
        name: *b"asr   ",
        operands: Operands::One(Operand::Register(Named::Any, b'd')),
    },
    Form {
        letters: *b"1001 010d dddd 0110",
        name: *b"lsr   ",
        operands: Operands::One(Operand::Register(Named::Any, b'd')),
    },
    Form {
        letters: *b"1001 010d dddd 0111",
        name: *b"ror   ",
        operands: Operands::One(Operand::Register(Named::Any, b'd')),
    },
    Form {
        letters: *b"1001 010d dddd 1010",
        name: *b"dec   ",
        operands: Operands::One(Operand::Register(Named::Any, b'd')),
    },
    Form {
        letters: *b"1001 0100 0sss 1000",
        name: *b"bset  ",
        operands: Operands::One(Operand::Bit(b's')),
    },
    Form {
        letters: *b"1001 0100 1sss 1000",
        name: *b"bclr  ",
        operands: Operands::One(Operand::Bit(b's')),
    },
    Form {
        letters: *b"1001 0100 0000 1001",
        name: *b"ijmp  ",
        operands: Operands::None,
    },
    Form {
        letters: *b"1001 0101 0000 1001",
        name: *b"icall ",
        operands: Operands::None,
    },
    Form {
        letters: *b"1001 0101 0000 1000",
        name: *b"ret   ",
        operands: Operands::None,
    },
    Form {
        letters: *b"1001 0101 0001 1000",
        name: *b"reti  ",
        operands: Operands::None,
    },
    Form {
        letters: *b"1001 0101 1000 1000",
        name: *b"sleep ",
        operands: Operands::None,
    },
    Form {
        letters: *b"1001 0101 1001 1000",
        name: *b"break ",
        operands: Operands::None,
    },
    Form {
        letters: *b"1001 0101 1010 1000",
        name: *b"wdr   ",
        operands: Operands::None,
    },
    Form {
        letters: *b"1001 0101 1100 1000",
        name: *b"lpm   ",
        operands: Operands::None,
    },
    Form {
        letters: *b"1001 0101 1110 1000",
        name: *b"spm   ",
        operands: Operands::None,
    },
    Form {
        letters: *b"1001 010k kkkk 110k",
        name: *b"jmp   ",
        operands: Operands::One(Operand::Target(b'k')),
    },
    Form {
        letters: *b"1001 010k kkkk 111k",
        name: *b"call  ",
        operands: Operands::One(Operand::Target(b'k')),
    },
    Form {
        letters: *b"1001 0110 KKdd KKKK",
        name: *b"adiw  ",
        operands: Operands::Two(Operand::Register(Named::Double, b'd'), Operand::Byte(b'K')),
    },
    Form {
        letters: *b"1001 0111 KKdd KKKK",
        name: *b"sbiw  ",
        operands: Operands::Two(Operand::Register(Named::Double, b'd'), Operand::Byte(b'K')),
    },
    Form {
        letters: *b"1001 1000 AAAA Abbb",
        name: *b"cbi   ",
        operands: Operands::Two(Operand::Byte(b'A'), Operand::Bit(b'b')),
    },
    Form {
        letters: *b"1001 1001 AAAA Abbb",
        name: *b"sbic  ",
        operands: Operands::Two(Operand::Byte(b'A'), Operand::Bit(b'b')),
    },
    Form {
        letters: *b"1001 1010 AAAA Abbb",
        name: *b"sbi   ",
        operands: Operands::Two(Operand::Byte(b'A'), Operand::Bit(b'b')),
    },
    Form {
        letters: *b"1001 1011 AAAA Abbb",
        name: *b"sbis  ",
        operands: Operands::Two(Operand::Byte(b'A'), Operand::Bit(b'b')),
    },
    Form {
        letters: *b"1001 11rd dddd rrrr",
        name: *b"mul   ",
        operands: Operands::Two(
            Operand::Register(Named::Any, b'd'),
            Operand::Register(Named::Any, b'r'),
        ),
    },
    Form {
        letters: *b"1011 0AAd dddd AAAA",
        name: *b"in    ",
        operands: Operands::Two(Operand::Register(Named::Any, b'd'), Operand::Byte(b'A')),
    },
    Form {
        letters: *b"1011 1AAr rrrr AAAA",
        name: *b"out   ",
        operands: Operands::Two(Operand::Byte(b'A'), Operand::Register(Named::Any, b'r')),
    },
    Form {
        letters: *b"1100 kkkk kkkk kkkk",
        name: *b"rjmp  ",
        operands: Operands::One(Operand::Distance(4096, b'k')),
    },
    Form {
        letters: *b"1101 kkkk kkkk kkkk",
        name: *b"rcall ",
        operands: Operands::One(Operand::Distance(4096, b'k')),
    },
    Form {
        letters: *b"1110 KKKK dddd KKKK",
        name: *b"ldi   ",
        operands: Operands::Two(Operand::Register(Named::Upper, b'd'), Operand::Byte(b'K')),
    },
    Form {
        letters: *b"1111 00kk kkkk ksss",
        name: *b"brbs  ",
        operands: Operands::Two(Operand::Bit(b's'), Operand::Distance(128, b'k')),
    },
    Form {
        letters: *b"1111 01kk kkkk ksss",
        name: *b"brbc  ",
        operands: Operands::Two(Operand::Bit(b's'), Operand::Distance(128, b'k')),
    },
    Form {
        letters: *b"1111 100d dddd 0bbb",
        name: *b"bld   ",
        operands: Operands::Two(Operand::Register(Named::Any, b'd'), Operand::Bit(b'b')),
    },
    Form {
        letters: *b"1111 101d dddd 0bbb",
        name: *b"bst   ",
        operands: Operands::Two(Operand::Register(Named::Any, b'd'), Operand::Bit(b'b')),
    },
    Form {
        letters: *b"1111 110r rrrr 0bbb",
        name: *b"sbrc  ",
        operands: Operands::Two(Operand::Register(Named::Any, b'r'), Operand::Bit(b'b')),
    },
    Form {
        letters: *b"1111 111r rrrr 0bbb",
        name: *b"sbrs  ",
        operands: Operands::Two(Operand::Register(Named::Any, b'r'), Operand::Bit(b'b')),
    },
];
