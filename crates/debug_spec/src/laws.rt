//! The laws of the definitions: each function is empty, and its contract is the law. The headline is the last of them.

ghost use Rattle.debug_spec.specs.RunLaws.{DueStepsAlike, CleanStepsAlike, StopsAgree, PlantedWordsStop, StopsHaveReasons};
ghost use Rattle.debug_spec.specs.RunLaws.{NaturalEndIsFirst, OneEnd, EndByIsEnd, RunsGoOn, CleanRunsAlike, CleanEndsAlike};
ghost use Rattle.debug_spec.specs.PageLaws.{SyncIsExact, ReplantMakesPatch, ProgrammingIsExact, EachLeads};
ghost use Rattle.debug_spec.specs.SessionLaws.{EventsMove, ItemsSettle, OpenedIsSound, RunsArePlanted, OnlyProgrammingChanges};
ghost use Rattle.debug_spec.specs.SessionLaws.{ReplaysClose, ChunksGoOn, ChunksDivide, OneChunk, PartsMakeChunks};
ghost use Rattle.debug_spec.specs.SessionLaws.{EveryLineIsHeard, OneReplay, EndsNowMayCome, SchedulesLeaveProgram};
ghost use Rattle.debug_spec.specs.DeviceRuns.{DeviceMakesRuns};
ghost use Rattle.debug_spec.specs.Looks.{RunsAreAdvanced};
ghost use Rattle.debug_spec.specs.CleanSessions.{CleanEventsAlike, CleanReplaysAlike, ReplaysAlikeAtFirst, ReadsShowProgram};
ghost use Rattle.debug_spec.specs.ServedAlike.{CleanSchedulesAlike, CleanIsSchedule, SchedulesAlike};
ghost use Rattle.debug_spec.specs.Events.{EventsHaveReasons, StopsAreAsked, SignOffsEnd};
ghost use Rattle.debug_spec.specs.Passes.{SchedulesPass, ItemsSendFirst};
ghost use Rattle.debug_spec.specs.Headline.{ReplaysAgree, SchedulesAgree};
ghost use Rattle.debug_spec.specs.TakeLaws.{OneTake, EveryChunkIsTaken, LaunchesDrop, TakesMakeChunks, EveryChunkEnds};
ghost use Rattle.debug_spec.specs.TakeReplays.{ReplaysGoOn};
ghost use Rattle.debug_spec.specs.Moved.{AnswersGoOn};
ghost use Rattle.debug_spec.specs.Opening.{OpenedHasProgram};
ghost use Rattle.debug_spec.specs.Pinned.{SchedulesAreCut, ReplaysAreSchedules};
ghost use Rattle.debug_spec.specs.CutShortLaws.{EveryFrameIsCutShort, OneCutShort, CutsShortShow, EveryNoteIsCutShort};
ghost use Rattle.debug_spec.specs.CutShortLaws.{OneScheduleCutShort, SchedulesCutShortShow};
ghost use Rattle.debug_spec.specs.ScheduleEnds.{EndsFixSchedules, EndsAreOne};

/// What a step sees of planted words: nothing where it takes an interrupt, and nothing where it is clean and does not begin at
/// one of them; the target stops at the same places.
pub fn planted_words_are_not_seen()
    ensures due { DueStepsAlike }
    ensures clean { CleanStepsAlike }
    ensures stops { StopsAgree }
    ensures words { PlantedWordsStop }
{}

/// The first stop of a run within some steps is its natural end, and what a run is made to end by is an end of it.
pub fn first_stop_is_the_end()
    ensures first { NaturalEndIsFirst }
    ensures end { EndByIsEnd }
    ensures one { OneEnd }
    ensures on { RunsGoOn }
{}

/// A clean run is the same under the planted words and under the program: its end, its steps and its states.
pub fn clean_runs_are_the_programs()
    ensures runs { CleanRunsAlike }
    ensures ends { CleanEndsAlike }
{}

/// The page writes for wanted words are those that are needed, in rising order, up to the first that fails; programming makes the
/// same writes, and of the program changes the pages that the device has then; a replant makes the patch whole; and all that is
/// asked of a device, made one after the other, leads to the device behind it.
pub fn page_writes_are_exact()
    ensures sync { SyncIsExact }
    ensures programming { ProgrammingIsExact }
    ensures replant { ReplantMakesPatch }
    ensures leads { EachLeads }
{}

/// What holds of a debugger at every moment: it holds at the start, each event keeps it, and while a run is out it says that the
/// device has the breakpoints planted. The program changes while the flash is programmed and at no other time, and then only in pages
/// that the device has so.
pub fn debuggers_stay_sound()
    ensures start { OpenedIsSound }
    ensures events { EventsMove }
    ensures settle { ItemsSettle }
    ensures runs { RunsArePlanted }
    ensures program { OnlyProgrammingChanges }
{}

/// A session closes with the program as last programmed in the flash where its closing restore did not fail: each replay does, and
/// each schedule that closes.
pub fn closed_sessions_leave_the_program()
    ensures replays { ReplaysClose }
    ensures schedules { SchedulesLeaveProgram }
{}

/// A chunk of bytes may come as one or as two, may be heard in parts, and leads to one session only.
pub fn chunks_may_be_divided()
    ensures joined { ChunksGoOn }
    ensures divided { ChunksDivide }
    ensures one { OneChunk }
    ensures parts { PartsMakeChunks }
{}

/// A patched debugger does what the plain one does, as long as the program runs clean: event by event, and over every replay, for
/// every line, every list of stops, every start device and every list of outcomes. Where a run is not clean the two have sent the
/// same up to and with the reply that starts it.
pub fn patched_replays_are_plain()
    ensures events { CleanEventsAlike }
    ensures replays { CleanReplaysAlike }
    ensures first { ReplaysAlikeAtFirst }
{}

/// One who has the device and knows no set of addresses makes the run that is out, and needs the set only to name its end.
pub fn the_device_makes_the_run()
    ensures { DeviceMakesRuns }
{}

/// The same over a schedule of notes: each schedule of the patched debugger whose runs are clean is one of the plain debugger, and
/// any other is so up to the first run that is not clean.
pub fn patched_schedules_are_plain()
    ensures clean { CleanSchedulesAlike }
    ensures schedule { CleanIsSchedule }
    ensures first { SchedulesAlike }
{}

/// What is shown is the program: a read of its memory gives its bytes, and under its words the target stops for an address of the
/// set or of a comparator, or for the program's own word.
pub fn the_program_is_shown()
    ensures reads { ReadsShowProgram }
    ensures stops { StopsHaveReasons }
{}

/// No law of sessions is about nothing: every line of bytes has a replay, and one only, and every chunk of bytes leads to a session.
/// The ends of runs in a replay are ends that they may have in a schedule.
pub fn every_line_is_heard()
    ensures heard { EveryLineIsHeard }
    ensures one { OneReplay }
    ensures ends { EndsNowMayCome }
{}

/// Each chunk is taken in one way, and its takes, each followed by its launch, are together the chunk.
pub fn takes_make_chunks()
    ensures one { OneTake }
    ensures every { EveryChunkIsTaken }
    ensures launch { LaunchesDrop }
    ensures chunks { TakesMakeChunks }
    ensures ends { EveryChunkEnds }
{}

/// Takes, each followed by its launch and by what happens between two items, are together a replay.
pub fn takes_make_replays()
    ensures on { ReplaysGoOn }
    ensures answers { AnswersGoOn }
{}

/// A replay may be cut short behind each frame of its line, in one way: what was taken behind the frame is dropped once, and the frames
/// sent are the first of the replay's. A session that opened has the program in its device.
pub fn replays_are_cut_short()
    ensures opened { OpenedHasProgram }
    ensures every { EveryFrameIsCutShort }
    ensures one { OneCutShort }
    ensures shows { CutsShortShow }
{}

/// A schedule may be cut short behind each frame of a chunk and behind each end of a run, in one way but for the ends of its runs: what
/// was taken behind the frame is dropped once, nothing more is sent, and where it closes the program is in the device.
pub fn schedules_are_cut_short()
    ensures every { EveryNoteIsCutShort }
    ensures one { OneScheduleCutShort }
    ensures shows { SchedulesCutShortShow }
{}

/// All that is open in a schedule is how its runs end, and that only where a stop was asked for.
pub fn ends_fix_schedules()
    ensures schedules { EndsFixSchedules }
    ensures ends { EndsAreOne }
{}

/// What a schedule has heard and holds is the cut of the bytes that it took, as long as the debugger listens; and a replay is a schedule.
pub fn schedules_are_pinned()
    ensures cut { SchedulesAreCut }
    ensures replays { ReplaysAreSchedules }
{}

/// A run that is made some steps at a time, with a look at each boundary, ends in one of its ways or goes on from a later boundary; it
/// is forced to end at the first look that is true, where nothing stops it before.
pub fn runs_are_advanced()
    ensures { RunsAreAdvanced }
{}

/// Each break event has a pc and a cause that come from no planted word, and nothing else sends one; and a run is forced to end only
/// behind a request that asks for it or the end of the line. A session ends behind a SIGN_OFF alone, or the end of the line.
pub fn events_have_reasons()
    ensures events { EventsHaveReasons }
    ensures stops { StopsAreAsked }
    ensures off { SignOffsEnd }
{}

/// The headline: the host sees the program as it was loaded, of the debugger that plants breakpoints as of the one that does not, until
/// the program takes a planted word as an operand or as data; and a session that closes leaves the program in the device. Over every
/// line of bytes, and over every schedule of notes, which is the same as the sessions that its notes lead through.
pub fn the_headline()
    ensures replays { ReplaysAgree }
    ensures schedules { SchedulesAgree }
    ensures passes { SchedulesPass }
    ensures items { ItemsSendFirst }
{}
