//! Scripts worked by hand, as laws: each function is empty, and its contract says what the definitions compute, on a part of one page.
ghost use Rattle.std.specs.Prelude.{◌≡◌, true, [], ◌∷◌, ◌++◌, codes, replicate};
ghost use Rattle.debug_spec.specs.Replay.{totals};
ghost use Rattle.debug_spec.specs.inside.Examples.{erased_device, filled, okays, port_bytes, port_words, sends, small, tells};
ghost use Rattle.shell_spec.specs.Lines.{break, go, pc, quit, read, step};
ghost use Rattle.shell_spec.specs.Script.{answer, event, events_full, goes_on, has_failed, has_quit, left_behind, no_event, wrong};
ghost use Rattle.shell_spec.specs.declared.error.LineError.TheVariants.{Unknown};
ghost use Rattle.shell_spec.specs.Examples.{port_lines, port_script, port_transcript};
ghost use Rattle.shell_spec.specs.Transcript.{IsTranscript};

/// A breakpoint is met, the event is taken, and the program counter and the program are read.
pub fn script_of_a_breakpoint()
    ensures said { (port_script port_lines).said ≡ answer (break 2) (okays 0) ∷ answer go (okays 1) ∷ event (tells 2 1) ∷
        answer pc (sends 2 (0x84 ∷ 2 ∷ 0 ∷ 0 ∷ 0 ∷ [])) ∷ answer (read 0xa0 0 8) (sends 3 port_bytes) ∷ answer quit (okays 4) ∷ [] }
    ensures transcript { IsTranscript true small (100 ∷ []) (filled port_words) (erased_device small []) port_lines port_transcript has_quit
        (left_behind true small (100 ∷ []) (port_script port_lines)) }
    ensures totals { totals (left_behind true small (100 ∷ []) (port_script port_lines))
        ≡ record { cycles = 2; steps = 2; writes = 1; dropped = 0 } }
{}

/// Where no event waits, none can come: the script ends, and the line behind it is not run.
pub fn script_with_no_event()
    ensures said { (port_script (codes "wait" ∷ codes "sync" ∷ [])).said ≡ no_event ∷ [] }
    ensures ending { (port_script (codes "wait" ∷ codes "sync" ∷ [])).ending ≡ has_failed }
{}

/// Events wait in the order in which they were sent, and each is taken once.
pub fn script_of_two_events()
    ensures { (port_script (codes "step" ∷ codes "step" ∷ codes "wait" ∷ codes "wait" ∷ codes "wait" ∷ [])).said ≡ answer step (okays 0) ∷
        answer step (okays 1) ∷ event (tells 1 3) ∷ event (tells 2 3) ∷ no_event ∷ [] }
{}

/// What is wrong with a line is said, and the script goes on; a line that does nothing says nothing; behind `quit` no line is run.
pub fn script_of_lines_that_send_nothing()
    ensures { (port_script (codes "brake 2" ∷ codes "# quit" ∷ codes "quit" ∷ codes "sync" ∷ [])).said ≡ wrong (Unknown 1) ∷
        answer quit (okays 0) ∷ [] }
{}

/// A command is answered while 64 events wait. While 65 do it is heard, but the script ends.
pub fn script_with_many_events()
    ensures kept { (port_script (replicate 64 (codes "step") ++ codes "sync" ∷ [])).ending ≡ goes_on }
    ensures full { (port_script (replicate 65 (codes "step") ++ codes "sync" ∷ [])).ending ≡ has_failed }
{}
