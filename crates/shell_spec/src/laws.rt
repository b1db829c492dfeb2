//! What follows from the definitions: each law is the contract of a function that does nothing.
ghost use Rattle.std.specs.Prelude.{◌≡◌, ℕ, suc, Bool, List, [], ◌∷◌, ◌++◌, length};
ghost use Rattle.part_spec.specs.Chip.{Chip};
ghost use Rattle.line_spec.specs.Frames.{IsBytes};
ghost use Rattle.debug_spec.specs.Device.{Device};
ghost use Rattle.debug_spec.specs.Replay.{IsReplay};
ghost use Rattle.shell_spec.specs.CleanScripts.{TranscriptsAgree};
ghost use Rattle.shell_spec.specs.Generator.{made_bytes, made_commands, made_program, made_session, made_stops};
ghost use Rattle.shell_spec.specs.Listing.{IsListing};
ghost use Rattle.shell_spec.specs.ScriptLaws.{OneTranscript, ScriptsAreSessions};
ghost use Rattle.shell_spec.specs.Sent.{frames_of};
ghost use Rattle.shell_spec.specs.Text.{IsCut};

/// Every text has a cut into lines.
pub fn every_text_has_a_cut()
    ensures { (text : List ℕ) → (lines : List (List ℕ)) × (behind : List ℕ) × IsCut text lines behind }
{}

/// A text has one cut at most.
pub fn one_cut_a_text()
    ensures { (text : List ℕ) (lines others : List (List ℕ)) (behind other_behind : List ℕ) → IsCut text lines behind
        → IsCut text others other_behind → (lines ≡ others) × (behind ≡ other_behind) }
{}

/// Every stream of bytes has a listing.
pub fn every_stream_has_a_listing()
    ensures { (bytes : List ℕ) → IsBytes bytes → (text : List ℕ) × IsListing bytes text }
{}

/// A stream has one listing at most.
pub fn one_listing_a_stream()
    ensures { (bytes text other : List ℕ) → IsListing bytes text → IsListing bytes other → text ≡ other }
{}

/// A made session is the replay of its bytes, in which nothing is dropped, and has one frame more than commands were asked for.
pub fn made_sessions_are_replays()
    ensures replay { (planted : Bool) (part : Chip) (seed count : ℕ) (device : Device) → IsReplay planted part made_stops
        (made_program part) device (made_bytes seed count) (made_session planted part seed count device) }
    ensures frames { (seed count : ℕ) → length (frames_of 0 (made_commands seed count)) ≡ suc count }
{}

/// A script has one transcript at most, one ending, and one debugger behind it.
pub fn one_transcript_a_script()
    ensures { OneTranscript }
{}

/// The debugger behind a script is that of the session over the commands of its lines, in which nothing is dropped.
pub fn scripts_are_sessions()
    ensures { ScriptsAreSessions }
{}

/// The patched debugger's script prints what the plain one's does, up to and with the answer that starts the first run that is not clean;
/// where all runs are clean, the two are equal; and each leaves its program in the device.
pub fn transcripts_agree()
    ensures { TranscriptsAgree }
{}
