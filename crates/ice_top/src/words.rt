//! The words of the command line.
ghost use Rattle.std.specs.Prelude.{◌≡◌, ◌↔◌, ℕ, List, MatchOption};
ghost use Rattle.ice_top.specs.Calls.{form_told};
ghost use Rattle.ice_top.specs.Words.{HasForm, HasNoForm, IsForNone, IsOnImage, IsPort, IsRun, Names, NamesNone, NamesPart};
ghost use Rattle.ice_top.specs.Words.{assembling, connecting, frames, gen, listing, replay, script, serving, verifying};
ghost use Rattle.ice_top.specs.Words.{Says, SaysFor, SaysNone, takes_part, texts, word_of};

use crate::numbers::number_of;
use crate::stops::{STOPS, stops_of};
use arrayvec::ArrayVec;
use part_spec::Part;

/// What a call does.
#[derive(Drop)]
pub(crate) enum Form<'a> {
    /// A session over a debug line: `replay IMAGE STOPS`.
    Replay {
        /// The name of the image.
        image: &'a str,
        /// The numbers of steps of its runs.
        stops: ArrayVec<u32, STOPS>,
    },
    /// A session of a script: `script IMAGE STOPS`.
    Script {
        /// The name of the image.
        image: &'a str,
        /// The numbers of steps of its runs.
        stops: ArrayVec<u32, STOPS>,
    },
    /// The listing of a line: `frames`.
    Frames,
    /// The session that is made from a seed: `gen SEED COUNT`.
    Gen {
        /// The seed.
        seed: u32,
        /// How many commands it has ahead of its sign-off.
        count: u32,
    },
    /// The listing of a program: `list IMAGE`.
    Listing {
        /// The name of the image.
        image: &'a str,
    },
    /// The check of a session record: `verify IMAGE`.
    Verify {
        /// The name of the image.
        image: &'a str,
    },
    /// The assembly of a text: `asm`.
    Assembly,
    /// A session with a client over a port: `serve PORT IMAGE`.
    Serve {
        /// The port.
        port: u16,
        /// The name of the image.
        image: &'a str,
    },
    /// The shell over a port: `connect PORT`.
    Connect {
        /// The port.
        port: u16,
    },
}

/// The greatest count of commands.
const MOST_COMMANDS: u32 = 100_000;

/// A call, as its words say it.
#[derive(Drop)]
pub(crate) struct Call<'a> {
    /// What it does.
    pub form: Form<'a>,
    /// The part that it is for.
    pub part: Part,
}

/// The part that a call with these words is for, and so the part of the flash that `ice2` and `ice2_serve` take: the ATmega32 where the last word is `m32`
/// and the words before it are a whole form that takes a part, else the ATmega16.
pub fn part_of(words: &[String]) -> Part
    ensures named { (result ≡ Part.M32) ↔ NamesPart (texts words.now) Part.M32 }
    ensures said { SaysFor (texts words.now) result }
{
    match call_of(words) {
        Some(call) => call.part,
        None => Part::M16,
    }
}

/// The call that the words say.
pub(crate) fn call_of(words: &[String]) -> Option<Call<'_>>
    ensures { MatchOption result (SaysNone (texts words.now)) (λ call. Says (texts words.now) (form_told call.form) call.part) }
{
    match form_of(words) {
        Some(form) => Some(Call {
            form,
            part: Part::M16,
        }),
        None => named_call(words),
    }
}

/// The call of words of which the last is for a part.
fn named_call(words: &[String]) -> Option<Call<'_>>
    ensures { MatchOption result (NamesNone (texts words.now))
        (λ call. Names (texts words.now) (form_told call.form) call.part) }
{
    let [front @ .., last] = words else {
        return None;
    };
    let Some(part) = part_for(last.as_str()) else {
        return None;
    };
    match form_of(front) {
        Some(form) if may_have_part(&form) => Some(Call { form, part }),
        _ => None,
    }
}

/// Whether the form may have a part behind it.
fn may_have_part(form: &Form<'_>) -> bool
    ensures { result ≡ takes_part (form_told form.now) }
{
    match form {
        Form::Replay { .. } => true,
        Form::Script { .. } => true,
        Form::Frames => false,
        Form::Gen { .. } => false,
        Form::Listing { .. } => true,
        Form::Verify { .. } => true,
        Form::Assembly => true,
        Form::Serve { .. } => true,
        Form::Connect { .. } => false,
    }
}

/// The part with this word.
fn part_for(word: &str) -> Option<Part>
    ensures { MatchOption result (IsForNone word.now) (λ part. word.now ≡ word_of part) }
{
    match word {
        "m16" => Some(Part::M16),
        "m32" => Some(Part::M32),
        _ => None,
    }
}

/// The form of words with no part behind it.
fn form_of(words: &[String]) -> Option<Form<'_>>
    ensures { MatchOption result (HasNoForm (texts words.now)) (λ form. HasForm (texts words.now) (form_told form)) }
{
    match replay_of(words) {
        Some(form) => return Some(form),
        None => {}
    }
    match script_of(words) {
        Some(form) => return Some(form),
        None => {}
    }
    match gen_of(words) {
        Some(form) => return Some(form),
        None => {}
    }
    match listing_of(words) {
        Some(form) => return Some(form),
        None => {}
    }
    match verify_of(words) {
        Some(form) => return Some(form),
        None => {}
    }
    match asm_of(words) {
        Some(form) => return Some(form),
        None => {}
    }
    match serve_of(words) {
        Some(form) => return Some(form),
        None => {}
    }
    match connect_of(words) {
        Some(form) => return Some(form),
        None => {}
    }
    frames_of(words)
}

/// The form of words that say a replay.
fn replay_of(words: &[String]) -> Option<Form<'_>>
    ensures { MatchOption result ((image stops : List ℕ) → HasForm (texts words.now) (replay image stops) → ⊥)
        (λ form. HasForm (texts words.now) (form_told form)) }
{
    match run_of(words, "replay") {
        Some(Run { image, stops }) => Some(Form::Replay { image, stops }),
        None => None,
    }
}

/// The form of words that say a script.
fn script_of(words: &[String]) -> Option<Form<'_>>
    ensures { MatchOption result ((image stops : List ℕ) → HasForm (texts words.now) (script image stops) → ⊥)
        (λ form. HasForm (texts words.now) (form_told form)) }
{
    match run_of(words, "script") {
        Some(Run { image, stops }) => Some(Form::Script { image, stops }),
        None => None,
    }
}

/// What stands behind a command that runs the program of an image.
#[derive(Drop)]
struct Run<'a> {
    /// The name of the image.
    image: &'a str,
    /// The numbers of steps of its runs.
    stops: ArrayVec<u32, STOPS>,
}

/// What words say behind this command, where it runs the program of an image.
fn run_of<'a>(words: &'a [String], command: &str) -> Option<Run<'a>>
    ensures { MatchOption result ((image stops : List ℕ) → IsRun command.now (texts words.now) image stops → ⊥)
        (λ run. IsRun command.now (texts words.now) run.image.now run.stops.items) }
{
    let [first, image, stops] = words else {
        return None;
    };
    if first.as_str() != command {
        return None;
    }
    match stops_of(stops.as_bytes()) {
        Some(stops) => Some(Run {
            image: image.as_str(),
            stops,
        }),
        None => None,
    }
}

/// The form of words that say a made session.
fn gen_of(words: &[String]) -> Option<Form<'_>>
    ensures { MatchOption result ((seed count : ℕ) → HasForm (texts words.now) (gen seed count) → ⊥)
        (λ form. HasForm (texts words.now) (form_told form)) }
{
    let [command, seed, count] = words else {
        return None;
    };
    if command.as_str() != "gen" {
        return None;
    }
    let Some(seed) = number_of(seed.as_bytes(), 0, u32::MAX) else {
        return None;
    };
    let Some(count) = number_of(count.as_bytes(), 0, MOST_COMMANDS) else {
        return None;
    };
    Some(Form::Gen { seed, count })
}

/// The form of words that say the listing of a program.
fn listing_of(words: &[String]) -> Option<Form<'_>>
    ensures { MatchOption result ((image : List ℕ) → HasForm (texts words.now) (listing image) → ⊥)
        (λ form. HasForm (texts words.now) (form_told form)) }
{
    match image_of(words, "list") {
        Some(image) => Some(Form::Listing { image }),
        None => None,
    }
}

/// The form of words that say the check of a session record.
fn verify_of(words: &[String]) -> Option<Form<'_>>
    ensures { MatchOption result ((image : List ℕ) → HasForm (texts words.now) (verifying image) → ⊥)
        (λ form. HasForm (texts words.now) (form_told form)) }
{
    match image_of(words, "verify") {
        Some(image) => Some(Form::Verify { image }),
        None => None,
    }
}

/// The name of the image that alone stands behind this command.
fn image_of<'a>(words: &'a [String], command: &str) -> Option<&'a str>
    ensures { MatchOption result ((image : List ℕ) → IsOnImage command.now (texts words.now) image → ⊥)
        (λ image. IsOnImage command.now (texts words.now) image.now) }
{
    let [first, image] = words else {
        return None;
    };
    if first.as_str() != command {
        return None;
    }
    Some(image.as_str())
}

/// The form of the one word that says the listing of a line.
fn frames_of(words: &[String]) -> Option<Form<'_>>
    ensures { MatchOption result (HasForm (texts words.now) frames → ⊥) (λ form. HasForm (texts words.now) (form_told form)) }
{
    let [command] = words else {
        return None;
    };
    if command.as_str() != "frames" {
        return None;
    }
    Some(Form::Frames)
}

/// The form of the one word that says the assembly of a text.
fn asm_of(words: &[String]) -> Option<Form<'_>>
    ensures { MatchOption result (HasForm (texts words.now) assembling → ⊥) (λ form. HasForm (texts words.now) (form_told form)) }
{
    let [command] = words else {
        return None;
    };
    if command.as_str() != "asm" {
        return None;
    }
    Some(Form::Assembly)
}

/// The form of words that say a session with a client.
fn serve_of(words: &[String]) -> Option<Form<'_>>
    ensures { MatchOption result ((port : ℕ) (image : List ℕ) → HasForm (texts words.now) (serving port image) → ⊥)
        (λ form. HasForm (texts words.now) (form_told form)) }
{
    let [command, port, image] = words else {
        return None;
    };
    if command.as_str() != "serve" {
        return None;
    }
    match port_of(port.as_bytes()) {
        Some(port) => Some(Form::Serve {
            port,
            image: image.as_str(),
        }),
        None => None,
    }
}

/// The form of words that say the shell over a port.
fn connect_of(words: &[String]) -> Option<Form<'_>>
    ensures { MatchOption result ((port : ℕ) → HasForm (texts words.now) (connecting port) → ⊥)
        (λ form. HasForm (texts words.now) (form_told form)) }
{
    let [command, port] = words else {
        return None;
    };
    if command.as_str() != "connect" {
        return None;
    }
    match port_of(port.as_bytes()) {
        Some(port) => Some(Form::Connect { port }),
        None => None,
    }
}

/// The port of a text.
fn port_of(text: &[u8]) -> Option<u16>
    ensures { MatchOption result ((port : ℕ) → IsPort text.now port → ⊥) (λ port. IsPort text.now port) }
{
    match number_of(text, 1, u32::from(u16::MAX)) {
        Some(port) => Some(port as u16),
        None => None,
    }
}
