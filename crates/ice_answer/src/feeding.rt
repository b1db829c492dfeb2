//! A receiver is fed up to the next frame, and the bytes that it drops are counted.
ghost use Rattle.std.specs.Prelude.{◌≡◌, ◌<◌, ◌+◌, ◌%◌, ◌^◌};
ghost use Rattle.ice_recv.specs.Receiving.{risen};
ghost use Rattle.ice_answer.specs.Feeding.{Feeds};

use crate::tool::Tool;
use ice_recv::Receiver;

/// Counts the bytes that a receiver has dropped since its count was this.
pub fn count_dropped(tool: &mut Tool, before: u64, now: u64)
    ensures { tool.new ≡ record tool.old { dropped = (tool.old.dropped + risen before now) % 2 ^ 64 } }
{
    tool.drop_bytes(now.wrapping_sub(before));
}

/// Feeds bytes until a frame waits or all are used, and tells how many were used.
pub fn feed(receiver: &mut Receiver, tool: &mut Tool, bytes: &[u8]) -> usize
    ensures range { receiver.old.dropped < 2 ^ 64 }
    ensures feeds { Feeds receiver.old bytes.now result receiver.new }
    ensures counts { tool.new ≡
        record tool.old { dropped = (tool.old.dropped + risen receiver.old.dropped receiver.new.dropped) % 2 ^ 64 } }
{
    let counted = receiver.dropped();
    let used = feed_all(receiver, bytes);
    count_dropped(tool, counted, receiver.dropped());
    used
}

/// Feeds bytes until a frame waits or all are used: a receiver considers only so many at a time.
fn feed_all(receiver: &mut Receiver, bytes: &[u8]) -> usize
    ensures { Feeds receiver.old bytes.now result receiver.new }
{
    let mut used = receiver.feed(bytes);
    'feeds: while used < bytes.len() && !receiver.waits() {
        used += receiver.feed(&bytes[used..]);
    }
    used
}
