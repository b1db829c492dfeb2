//! The laws of the definitions: each function is empty, and its contract is the law.

ghost use Rattle.avr_spec.specs.Laws.{RowsExclude, EachWordDecodes, FirstWordTells, DecodedFieldsFit, TicksAdd};
ghost use Rattle.avr_spec.specs.Laws.{StillTimersOnlyCount, PendingIsLowest, StepKeepsShape, GoKeepsShape, StepRaisesSteps};
ghost use Rattle.avr_spec.specs.Laws.{GoRaisesSteps, StepSeesLittle, AheadSeesOneWord, KeptIsRing, RingHasOutputs, FlagsOfByte};
ghost use Rattle.avr_spec.specs.Laws.{ByteOfFlags, IsChip};
ghost use Rattle.part_spec.specs.Chip.{m16, m32};

/// No first word has two rows of the instruction table, and each has one or is undefined; the first word
/// alone tells how long its instruction is and whether it may skip.
pub fn one_row_a_word()
    ensures exclude { RowsExclude }
    ensures each { EachWordDecodes }
    ensures tells { FirstWordTells }
    ensures fields { DecodedFieldsFit }
{}

/// SREG as a byte and SREG as eight flags are the same thing.
pub fn status_is_flags()
    ensures of_byte { FlagsOfByte }
    ensures of_flags { ByteOfFlags }
{}

/// Ticks add up, and with both timers still they change the count of cycles alone.
pub fn ticks_add_up()
    ensures add { TicksAdd }
    ensures still { StillTimersOnlyCount }
{}

/// Of the pending interrupts the one with the lowest address goes first.
pub fn lowest_vector_goes_first()
    ensures { PendingIsLowest }
{}

/// A step keeps the shape of the state, under any words of the flash; both parts are ones for which this holds.
pub fn steps_keep_the_shape()
    ensures step { StepKeepsShape }
    ensures go { GoKeepsShape }
    ensures m16 { IsChip m16 }
    ensures m32 { IsChip m32 }
{}

/// A step raises the count of steps by 1, and leaves the state as it is where it is not defined.
pub fn steps_are_counted()
    ensures step { StepRaisesSteps }
    ensures go { GoRaisesSteps }
{}

/// A step sees of the flash the word at pc, the word behind it, and the byte that the instruction reads.
pub fn steps_see_little()
    ensures step { StepSeesLittle }
    ensures ahead { AheadSeesOneWord }
{}

/// What a core keeps of output writes has some list of output writes behind it, so no contract over the states of the machine that a
/// core stands for is about nothing.
pub fn kept_is_never_empty()
    ensures kept { KeptIsRing }
    ensures behind { RingHasOutputs }
{}
