//! What a line says.

/// A line of the shell. Addresses of a `read`, a `write`, a `page` and an `erase` are byte addresses, all others word addresses; digits
/// are those of bytes, two for each, in either case.
#[derive(Clone, Copy, Debug, PartialEq, Eq)]
pub enum Line<'a> {
    /// `sign`: asks for the versions and the name of the tool.
    Sign,
    /// `sync`: asks whether the tool is there.
    Sync,
    /// `get ID`: asks for a parameter, at most FF.
    Get(u32),
    /// `set ID HEX`: writes a parameter, at most FF, by 2 to 128 digits.
    Set(u32, &'a [u8]),
    /// `read SPACE ADDRESS COUNT`: asks for bytes of a memory, at most 1000 (4,096), by its type.
    Read(u8, u32, u32),
    /// `write SPACE ADDRESS HEX`: writes bytes to a memory, by 2 to 128 digits.
    Write(u8, u32, &'a [u8]),
    /// `pc`: asks for the program counter.
    Pc,
    /// `pc ADDRESS`: sets the program counter.
    PcTo(u32),
    /// `break ADDRESS`: sets a breakpoint.
    Break(u32),
    /// `break ADDRESS NUMBER`: sets the breakpoint of a comparator, at most FF.
    BreakAt(u32, u32),
    /// `clear ADDRESS`: clears a breakpoint.
    Clear(u32),
    /// `clear ADDRESS NUMBER`: clears the breakpoint of a comparator, at most FF.
    ClearAt(u32, u32),
    /// `go`: lets the target run.
    Go,
    /// `to ADDRESS`: lets the target run up to an address.
    To(u32),
    /// `step`: lets the target make one step.
    Step,
    /// `stop`: stops the running target.
    Stop,
    /// `reset`: resets the target.
    Reset,
    /// `wait`: takes the next event.
    Wait,
    /// `quit`: ends the session.
    Quit,
    /// `prog`: begins to program the flash.
    Prog,
    /// `leave`: ends the programming of the flash.
    Leave,
    /// `erase`: erases the flash.
    Erase,
    /// `erase ADDRESS`: erases a page of flash.
    EraseAt(u32),
    /// `page ADDRESS HEX`: writes a page of flash, by 256 digits.
    Page(u32, &'a [u8]),
    /// An empty line, or one that begins with `#`.
    Nothing,
}
