//! Schedules worked by hand, as laws: each function is empty, and its contract says where the notes lead a session, on a part of one
//! page whose program jumps to itself. How long a run goes on that is forced to end is open: here it makes five steps.

ghost use Rattle.std.specs.Prelude.{List, [], ◌∷◌};
ghost use Rattle.line_spec.specs.Messages.{go, forced_stop, sign_off};
ghost use Rattle.debug_spec.specs.Schedule.{bytes, line_end_note, line_fault, too_long, halted};
ghost use Rattle.debug_spec.specs.inside.Examples.{okays, tells, pages_of};
ghost use Rattle.debug_spec.specs.inside.ScheduleExamples.{asking, framed, begun, IsServed};

/// Each kind of note that ends the line does the same: the bytes held are dropped, the run that is out is left, and what comes of the
/// line behind it is ignored; the run then ends with no event.
pub fn line_ends_in_three_kinds()
    ensures end { IsServed (0xcfff ∷ []) (bytes (framed (asking 0 go ∷ []) begun) ∷ line_end_note ∷ bytes begun ∷ halted 1 ∷ [])
        [] (record {
          frames = okays 0 ∷ [];
          counts = 10 ∷ 5 ∷ 0 ∷ 2 ∷ [];
          pages = pages_of (0xcfff ∷ []) ([] ∷ []);
        }) }
    ensures fault { IsServed (0xcfff ∷ []) (bytes (framed (asking 0 go ∷ []) begun) ∷ line_fault ∷ bytes begun ∷ halted 1 ∷ []) [] (record {
      frames = okays 0 ∷ [];
      counts = 10 ∷ 5 ∷ 0 ∷ 2 ∷ [];
      pages = pages_of (0xcfff ∷ []) ([] ∷ []);
    }) }
    ensures long { IsServed (0xcfff ∷ []) (bytes (framed (asking 0 go ∷ []) begun) ∷ too_long ∷ bytes begun ∷ halted 1 ∷ []) [] (record {
      frames = okays 0 ∷ [];
      counts = 10 ∷ 5 ∷ 0 ∷ 2 ∷ [];
      pages = pages_of (0xcfff ∷ []) ([] ∷ []);
    }) }
{}

/// A target that has halted is no event where no run is out, where it is of another launch than the run that is out, and where the
/// session is closed.
pub fn others_that_halt_are_no_event()
    ensures before { IsServed (0xcfff ∷ []) (halted 0 ∷ halted 1 ∷ []) [] (record {
      frames = [];
      counts = 0 ∷ 0 ∷ 0 ∷ 0 ∷ [];
      pages = pages_of (0xcfff ∷ []) ([] ∷ []);
    }) }
    ensures other { IsServed (0xcfff ∷ []) (bytes (framed (asking 0 go ∷ []) []) ∷ halted 0 ∷ halted 2 ∷ []) [] (record {
      frames = okays 0 ∷ [];
      counts = 0 ∷ 0 ∷ 0 ∷ 0 ∷ [];
      pages = pages_of (0xcfff ∷ []) ([] ∷ []);
    }) }
    ensures behind { IsServed (0xcfff ∷ []) (line_end_note ∷ halted 0 ∷ halted 1 ∷ []) [] (record {
      frames = [];
      counts = 0 ∷ 0 ∷ 0 ∷ 0 ∷ [];
      pages = pages_of (0xcfff ∷ []) ([] ∷ []);
    }) }
{}

/// Bytes that are held when the target halts stay held, and are dropped once, when the line ends.
pub fn held_bytes_stay_held()
    ensures halted { IsServed (0xcfff ∷ []) (bytes (framed (asking 0 go ∷ asking 1 forced_stop ∷ []) begun) ∷ halted 1 ∷ []) begun (record {
      frames = okays 0 ∷ okays 1 ∷ tells 0 2 ∷ [];
      counts = 10 ∷ 5 ∷ 0 ∷ 0 ∷ [];
      pages = pages_of (0xcfff ∷ []) ([] ∷ []);
    }) }
    ensures ended { IsServed (0xcfff ∷ [])
        (bytes (framed (asking 0 go ∷ asking 1 forced_stop ∷ []) begun) ∷ halted 1 ∷ line_end_note ∷ line_fault ∷ []) [] (record {
          frames = okays 0 ∷ okays 1 ∷ tells 0 2 ∷ [];
          counts = 10 ∷ 5 ∷ 0 ∷ 2 ∷ [];
          pages = pages_of (0xcfff ∷ []) ([] ∷ []);
        }) }
{}

/// What comes behind an answered SIGN_OFF is neither held nor dropped.
pub fn nothing_is_held_behind_a_sign_off()
    ensures { IsServed (0xcfff ∷ []) (bytes (framed (asking 0 sign_off ∷ []) begun) ∷ bytes begun ∷ line_end_note ∷ []) [] (record {
      frames = okays 0 ∷ [];
      counts = 0 ∷ 0 ∷ 0 ∷ 0 ∷ [];
      pages = pages_of (0xcfff ∷ []) ([] ∷ []);
    }) }
{}
