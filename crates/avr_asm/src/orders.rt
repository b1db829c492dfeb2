//! What a statement says.
ghost use Rattle.std.specs.Prelude.{◌≡◌, ◌≤◌, List, ℕ, [], ◌∷◌, Ok, count_by, if◌then◌else◌, length, nat_lt, option_map};
ghost use Rattle.std.specs.List.{zip};
ghost use Rattle.std.specs.Str.{bytes_eq};
ghost use Rattle.part_spec.specs.Chip.{Chip, chip_of};
ghost use Rattle.avr_spec.specs.Table.{table};
ghost use Rattle.asm_spec.specs.Forms.{forms};
ghost use Rattle.asm_spec.specs.Reading.{by_form, by_meanings, fitting, is_outside, meaning, meanings, order_of, origin, plain_word, with_number};
ghost use Rattle.avr_asm.specs.Meanings.{ahead_of_blanks, operand_told, operands_told};
ghost use Rattle.avr_asm.specs.Orders.{answer_told, capped_answer, meant_told, meants_told, only_number, said_or, SaidOrder};
ghost use Rattle.avr_asm.specs.Statements.{AreFew};
ghost use Rattle.avr_asm.specs.Told.{capped};

use crate::forms::{FORMS, Form, Operand, Operands};
use crate::meanings::{Meaning, meaning_of};
use crate::numbers::number_in;
use crate::statements::{Few, Statement, written_out};
use crate::tokens::ahead_of_blanks;
use asm_spec::AsmKind;
use part_spec::Part;

/// An operand with its meaning.
#[derive(Clone, Copy, Debug, PartialEq, Eq)]
pub(crate) struct Meant<'a> {
    /// What it is.
    pub operand: Operand,
    /// What it means.
    pub meaning: Meaning<'a>,
}

/// Operands with their meanings.
#[derive(Clone, Copy, Debug, PartialEq, Eq)]
pub(crate) enum Meants<'a> {
    /// None.
    None,
    /// One.
    One(Meant<'a>),
    /// Two.
    Two(Meant<'a>, Meant<'a>),
}

/// What a statement puts into flash.
#[derive(Clone, Copy, Debug, PartialEq, Eq)]
pub(crate) enum Item<'a> {
    /// A word.
    Plain(u16),
    /// An instruction, by the letters of its row and the meaning of its operands.
    Coded([u8; 19], Meants<'a>),
}

/// What a statement says.
#[derive(Clone, Copy, Debug, PartialEq, Eq)]
pub(crate) enum Order<'a> {
    /// Nothing.
    Nothing,
    /// The next place.
    Origin(u32),
    /// What is put at the place.
    Put(Item<'a>),
}

/// What a statement says.
pub(crate) fn order_of<'a>(part: Part, statement: &Statement<'a>) -> Result<Order<'a>, AsmKind>
    ensures { (operands : List (List ℕ)) → AreFew statement.now.operands operands →
        answer_told result ≡ capped_answer (order_of (chip_of part) (record { name = statement.now.name.now; operands = operands })) }
{
    if b".word".as_slice() == statement.name {
        return word_of(statement.operands);
    }
    if b".org".as_slice() == statement.name {
        return origin_of(statement.operands);
    }
    by_form(part, &written_out(statement))
}

/// The number that is the one operand.
fn only_number(few: Few<'_>) -> Option<u32>
    ensures { (operands : List (List ℕ)) → AreFew few.entry operands → result ≡ option_map capped (only_number operands) }
{
    match few {
        Few::None => None,
        Few::One(operand) => number_in(operand),
        Few::Two(_, _) => None,
        Few::More => None,
    }
}

/// A word by its number.
fn word_of(few: Few<'_>) -> Result<Order<'static>, AsmKind>
    ensures { (operands : List (List ℕ)) → AreFew few.entry operands →
        answer_told result ≡ capped_answer (with_number plain_word operands) }
{
    match only_number(few) {
        Some(number) => plain_word(number),
        None => Err(AsmKind::Text),
    }
}

/// A word, where the number is one.
fn plain_word(number: u32) -> Result<Order<'static>, AsmKind>
    ensures { answer_told result ≡ plain_word number }
{
    if number < 0x10000 {
        return Ok(Order::Put(Item::Plain(number as u16)));
    }
    Err(AsmKind::Value)
}

/// A place by its number.
fn origin_of(few: Few<'_>) -> Result<Order<'static>, AsmKind>
    ensures { (operands : List (List ℕ)) → AreFew few.entry operands →
        answer_told result ≡ capped_answer (with_number (λ place. Ok (origin place)) operands) }
{
    match only_number(few) {
        Some(number) => Ok(Order::Origin(number)),
        None => Err(AsmKind::Text),
    }
}

/// An instruction by the first form that its mnemonic and its operands have.
fn by_form<'a>(part: Part, statement: &Statement<'a>) -> Result<Order<'a>, AsmKind>
    ensures { (operands : List (List ℕ)) → AreFew statement.now.operands operands →
        answer_told result
        ≡ by_form (chip_of part) (record { name = statement.now.name.now; operands = operands }) (zip table forms) }
{
    'forms: for form in &FORMS {
        match by_one(part, form, statement) {
            Some(said) => return said,
            None => {}
        }
    }
    Err(AsmKind::Text)
}

/// An instruction by a form, if its mnemonic and its operands are those of the form.
fn by_one<'a>(
    part: Part,
    form: &Form,
    statement: &Statement<'a>,
) -> Option<Result<Order<'a>, AsmKind>>
    ensures { (operands : List (List ℕ)) → AreFew statement.now.operands operands → (otherwise : SaidOrder) →
        said_or result otherwise
        ≡ (if bytes_eq (ahead_of_blanks form.now.name) statement.now.name.now
        then by_meanings form.now.letters (meanings (chip_of part) form.now.letters (operands_told form.now.operands) operands) otherwise
        else otherwise) }
{
    if ahead_of_blanks(&form.name) != statement.name {
        return None;
    }
    match meants_of(part, form, statement.operands) {
        Some(meants) => Some(fitting(form.letters, meants)),
        None => None,
    }
}

/// What each operand means, if there are as many as a form has, each of its kind.
fn meants_of<'a>(part: Part, form: &Form, few: Few<'a>) -> Option<Meants<'a>>
    ensures { (operands : List (List ℕ)) → AreFew few.entry operands →
        option_map meants_told result ≡ meanings (chip_of part) form.now.letters (operands_told form.now.operands) operands }
{
    match form.operands {
        Operands::None => no_meant(few),
        Operands::One(operand) => one_meant(part, &form.letters, operand, few),
        Operands::Two(left, right) => two_meants(part, &form.letters, left, right, few),
    }
}

/// The meanings of no operand.
fn no_meant(few: Few<'_>) -> Option<Meants<'static>>
    ensures { (part : Chip) (letters : List ℕ) (operands : List (List ℕ)) → AreFew few.entry operands →
        option_map meants_told result ≡ meanings part letters [] operands }
{
    match few {
        Few::None => Some(Meants::None),
        Few::One(_) => None,
        Few::Two(_, _) => None,
        Few::More => None,
    }
}

/// What the one operand means.
fn one_meant<'a>(part: Part, letters: &[u8], operand: Operand, few: Few<'a>) -> Option<Meants<'a>>
    requires { length letters.now ≤ 19 }
    ensures { (operands : List (List ℕ)) → AreFew few.entry operands →
        option_map meants_told result ≡ meanings (chip_of part) letters.now (operand_told operand ∷ []) operands }
{
    match few {
        Few::None => None,
        Few::One(bytes) => match meant_of(part, letters, operand, bytes) {
            Some(meant) => Some(Meants::One(meant)),
            None => None,
        },
        Few::Two(_, _) => None,
        Few::More => None,
    }
}

/// What the two operands mean.
fn two_meants<'a>(
    part: Part,
    letters: &[u8],
    left: Operand,
    right: Operand,
    few: Few<'a>,
) -> Option<Meants<'a>>
    requires { length letters.now ≤ 19 }
    ensures { (operands : List (List ℕ)) → AreFew few.entry operands →
        option_map meants_told result ≡ meanings (chip_of part) letters.now (operand_told left ∷ operand_told right ∷ []) operands }
{
    match few {
        Few::None => None,
        Few::One(_) => None,
        Few::Two(first, second) => match meant_of(part, letters, left, first) {
            Some(one) => match meant_of(part, letters, right, second) {
                Some(other) => Some(Meants::Two(one, other)),
                None => None,
            },
            None => None,
        },
        Few::More => None,
    }
}

/// An operand with what bytes mean as it.
fn meant_of<'a>(part: Part, letters: &[u8], operand: Operand, bytes: &'a [u8]) -> Option<Meant<'a>>
    requires { length letters.now ≤ 19 }
    ensures { option_map meant_told result
        ≡ option_map (λ meaning. record { operand = operand_told operand; meaning = meaning })
        (meaning (chip_of part) letters.now (operand_told operand) bytes.now) }
{
    match meaning_of(part, letters, operand, bytes) {
        Some(meaning) => Some(Meant { operand, meaning }),
        None => None,
    }
}

/// An instruction whose numbers fit their fields.
fn fitting<'a>(letters: [u8; 19], meants: Meants<'a>) -> Result<Order<'a>, AsmKind>
    ensures { answer_told result ≡ fitting letters (meants_told meants.entry) }
{
    if has_outside(&meants) {
        return Err(AsmKind::Value);
    }
    Ok(Order::Put(Item::Coded(letters, meants)))
}

/// Whether a number is outside of its field.
fn has_outside(meants: &Meants<'_>) -> bool
    ensures { result ≡ nat_lt 0 (count_by is_outside (meants_told meants.now)) }
{
    match meants {
        Meants::None => false,
        Meants::One(meant) => is_outside(meant),
        Meants::Two(one, other) => is_outside(one) || is_outside(other),
    }
}

/// Whether the number of an operand is outside of its field.
fn is_outside(meant: &Meant<'_>) -> bool
    ensures { result ≡ is_outside (meant_told meant.now) }
{
    match meant.meaning {
        Meaning::Value(_) => false,
        Meaning::Outside => true,
        Meaning::Label(_) => false,
    }
}
