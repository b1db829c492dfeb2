//! What follows for a row of calls.
ghost use Rattle.std.specs.Prelude.{◌<◌, ◌^◌, List};
ghost use Rattle.ice_recv.specs.Handing.{Call, FollowsCut, Leads};
ghost use Rattle.ice_recv.specs.Received.{Received};

/// Whatever is fed and handed out, and in whatever pieces: the frames handed out are, in order, the frames of the cut of all bytes taken, as far as they were asked for.
pub fn handed_frames_follow_the_cut()
    ensures { (before after : Received) (calls : List Call) → before.dropped < 2 ^ 64 → Leads before calls after → FollowsCut before calls after }
{}
