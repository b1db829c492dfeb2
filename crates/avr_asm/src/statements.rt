//! Statements: a mnemonic with its operands, and the other names of instructions.
ghost use Rattle.std.specs.Prelude.{◌≡◌, ◌≤◌, List, ℕ, [], ◌∷◌, ◌++◌, length, not, find, option_map, Some};
ghost use Rattle.std.specs.List.{take_while};
ghost use Rattle.std.specs.Str.{bytes_eq};
ghost use Rattle.asm_spec.specs.Reading.{aliases, written_out};
ghost use Rattle.asm_spec.specs.Tokens.{is_blank, operands_in, statement_of};
ghost use Rattle.avr_asm.specs.Statements.{AreFew, alias_told, written_told};

use crate::tokens::{ahead_of_blanks, behind_blanks, trimmed};

/// Operands of a statement; no form has more than two.
#[derive(Clone, Copy, Debug, PartialEq, Eq)]
pub(crate) enum Few<'a> {
    /// None.
    None,
    /// One.
    One(&'a [u8]),
    /// Two.
    Two(&'a [u8], &'a [u8]),
    /// More than two.
    More,
}

/// A mnemonic with its operands.
#[derive(Clone, Copy, Debug, PartialEq, Eq)]
pub(crate) struct Statement<'a> {
    /// The mnemonic.
    pub name: &'a [u8],
    /// The operands.
    pub operands: Few<'a>,
}

/// How the operands of an alias are written.
#[derive(Clone, Copy, Debug, PartialEq, Eq)]
pub(crate) enum How {
    /// Behind the number of a bit.
    Behind(&'static [u8]),
    /// Twice.
    Twice,
}

/// Another name of an instruction.
#[derive(Clone, Copy, Debug, PartialEq, Eq)]
pub(crate) struct Alias {
    /// The name.
    pub name: &'static [u8],
    /// The mnemonic that it stands for.
    pub of: &'static [u8],
    /// How its operands are written.
    pub written: How,
}

/// The statement that bytes without blanks at their ends are: the mnemonic up to the first blank, and operands behind blanks.
pub(crate) fn statement_of(bytes: &[u8]) -> Statement<'_>
    ensures name { result.name.now ≡ (statement_of bytes.now).name }
    ensures operands { AreFew result.operands (statement_of bytes.now).operands }
{
    let name = ahead_of_blanks(bytes);
    Statement {
        name,
        operands: operands_in(behind_blanks(&bytes[name.len()..])),
    }
}

/// The operands: none in nothing, else those between commas, without the blanks round them.
fn operands_in(bytes: &[u8]) -> Few<'_>
    ensures { AreFew result (operands_in bytes.now) }
{
    let mut few = Few::None;
    if bytes.is_empty() {
        return few;
    }
    'pieces: for piece in bytes.split(|byte| *byte == b',') {
        few = one_more(few, trimmed(piece));
    }
    few
}

/// Operands with one more behind them.
fn one_more<'a>(few: Few<'a>, last: &'a [u8]) -> Few<'a>
    ensures { (operands : List (List ℕ)) → AreFew few.entry operands → AreFew result (operands ++ last.now ∷ []) }
{
    match few {
        Few::None => Few::One(last),
        Few::One(first) => Few::Two(first, last),
        Few::Two(_, _) => Few::More,
        Few::More => Few::More,
    }
}

/// A statement with its alias written out.
pub(crate) fn written_out<'a>(statement: &Statement<'a>) -> Statement<'a>
    ensures { (operands : List (List ℕ)) → AreFew statement.now.operands operands →
        (result.name.now ≡ (written_out (record { name = statement.now.name.now; operands = operands })).name) ×
        AreFew result.operands (written_out (record { name = statement.now.name.now; operands = operands })).operands }
{
    match alias_of(statement.name) {
        Some(alias) => Statement {
            name: alias.of,
            operands: written(alias.written, statement.operands),
        },
        None => *statement,
    }
}

/// Operands as an alias has them.
fn written(how: How, few: Few<'_>) -> Few<'_>
    ensures { (operands : List (List ℕ)) → AreFew few.entry operands → AreFew result (written_told how operands) }
{
    match how {
        How::Behind(bit) => behind_bit(bit, few),
        How::Twice => twice(few),
    }
}

/// The alias with this name.
fn alias_of(name: &[u8]) -> Option<Alias>
    ensures { option_map alias_told result ≡ find (λ alias. bytes_eq alias.name name.now) aliases }
{
    if b"sei".as_slice() == name {
        return behind(b"sei", b"bset", b"7");
    }
    if b"cli".as_slice() == name {
        return behind(b"cli", b"bclr", b"7");
    }
    if b"brcs".as_slice() == name {
        return behind(b"brcs", b"brbs", b"0");
    }
    if b"brcc".as_slice() == name {
        return behind(b"brcc", b"brbc", b"0");
    }
    if b"breq".as_slice() == name {
        return behind(b"breq", b"brbs", b"1");
    }
    if b"brne".as_slice() == name {
        return behind(b"brne", b"brbc", b"1");
    }
    if b"brmi".as_slice() == name {
        return behind(b"brmi", b"brbs", b"2");
    }
    if b"brpl".as_slice() == name {
        return behind(b"brpl", b"brbc", b"2");
    }
    if b"brlt".as_slice() == name {
        return behind(b"brlt", b"brbs", b"4");
    }
    if b"brge".as_slice() == name {
        return behind(b"brge", b"brbc", b"4");
    }
    if b"clr".as_slice() == name {
        return doubled(b"clr", b"eor");
    }
    if b"tst".as_slice() == name {
        return doubled(b"tst", b"and");
    }
    if b"lsl".as_slice() == name {
        return doubled(b"lsl", b"add");
    }
    if b"rol".as_slice() == name {
        return doubled(b"rol", b"adc");
    }
    None
}

/// An alias whose operands stand behind the number of a bit.
fn behind(name: &'static [u8], of: &'static [u8], bit: &'static [u8]) -> Option<Alias>
    ensures { option_map alias_told result ≡ Some (record { name = name.now; of = of.now; written = λ operands. bit.now ∷ operands }) }
{
    Some(Alias {
        name,
        of,
        written: How::Behind(bit),
    })
}

/// An alias whose operands are written twice.
fn doubled(name: &'static [u8], of: &'static [u8]) -> Option<Alias>
    ensures { option_map alias_told result ≡ Some (record { name = name.now; of = of.now; written = λ operands. operands ++ operands }) }
{
    Some(Alias {
        name,
        of,
        written: How::Twice,
    })
}

/// Operands behind the number of a bit.
fn behind_bit<'a>(bit: &'a [u8], few: Few<'a>) -> Few<'a>
    ensures { (operands : List (List ℕ)) → AreFew few.entry operands → AreFew result (bit.now ∷ operands) }
{
    match few {
        Few::None => Few::One(bit),
        Few::One(first) => Few::Two(bit, first),
        Few::Two(_, _) => Few::More,
        Few::More => Few::More,
    }
}

/// Operands written twice.
fn twice(few: Few<'_>) -> Few<'_>
    ensures { (operands : List (List ℕ)) → AreFew few.entry operands → AreFew result (operands ++ operands) }
{
    match few {
        Few::None => Few::None,
        Few::One(first) => Few::Two(first, first),
        Few::Two(_, _) => Few::More,
        Few::More => Few::More,
    }
}
