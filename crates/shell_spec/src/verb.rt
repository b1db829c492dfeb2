//! The first words of lines.

/// What a line begins with; its name is the variant's, in lower-case letters.
#[derive(Clone, Copy, Debug, PartialEq, Eq)]
pub enum Verb {
    /// Asks for the versions and the name of the tool.
    Sign,
    /// Asks whether the tool is there.
    Sync,
    /// Asks for a parameter of the tool.
    Get,
    /// Writes a parameter of the tool.
    Set,
    /// Asks for bytes of a memory.
    Read,
    /// Writes bytes to a memory.
    Write,
    /// Asks for the program counter, or sets it.
    Pc,
    /// Sets a breakpoint.
    Break,
    /// Clears a breakpoint.
    Clear,
    /// Lets the target run.
    Go,
    /// Lets the target run up to an address.
    To,
    /// Lets the target make one step.
    Step,
    /// Stops the running target.
    Stop,
    /// Resets the target.
    Reset,
    /// Takes the next event.
    Wait,
    /// Ends the session.
    Quit,
    /// Begins to program the flash.
    Prog,
    /// Ends the programming of the flash.
    Leave,
    /// Erases the flash, or a page of it.
    Erase,
    /// Writes a page of flash.
    Page,
}
