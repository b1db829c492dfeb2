//! An inbox: notes from the line and from the target, taken in order for each sender.
ghost use Rattle.std.specs.Prelude.{◌≡◌, ◌≤◌, List, [], ◌∷◌, ◌++◌, true, None, Some, IfOk, IfSome};
ghost use mathlib.Core.List.{IsPrefix};
ghost use Rattle.crossbeam_channel.specs.Claims.{view, IsSeatAt};
ghost use Rattle.crossbeam_channel.specs.Ends.{sends_on, receives_on, ruled_capacity};
ghost use Rattle.ice_inbox.specs.Notes.{is_of_line, of_line, bytes_in, line_limit};
ghost use Rattle.ice_inbox.specs.Posting.{MaySend, sent_more};

use arrayvec::ArrayVec;
use crossbeam_channel::protocol::{Join, Lesson, Outcome, Protocol, Split};
use crossbeam_channel::{Pass, RuledReceiver, RuledSender, bounded_with};
use std::alloc::{AllocError, Global};
use std::collections::LinkedList;
use std::marker::Model;
use std::sync::Wait;

/// How many notes wait at most.
const CAPACITY: usize = 16;

/// What the line and the target tell the one who serves them.
#[derive(Drop)]
pub enum Note {
    /// Bytes of the line.
    Bytes(ArrayVec<u8, 512>),
    /// The line is at its end.
    LineEnd,
    /// A read of the line failed.
    LineFault,
    /// The line has more bytes than a session takes.
    TooLong,
    /// The target has halted, in the job of this number.
    Halted(u64),
}

/// What a pass of the channel is for, and what it has sent or taken. No value of it is made.
pub struct View {
    pub lines: bool,
    pub targets: bool,
    pub reads: bool,
    pub sent: LinkedList<Note>,
    pub taken: LinkedList<Note>,
    pub known: Option<LinkedList<Note>>,
}

/// The rule of the inbox.
struct InOrder;

impl Protocol<Note, View> for InOrder {
    ghost use Rattle.ice_inbox.specs.Posting.{Posted, whole_view};

    ghost holds = { Posted };

    ghost first = { whole_view };
}

/// The line's pass is cut off.
struct LineLeaves;

impl Split<View> for LineLeaves {
    ghost use Rattle.std.specs.Prelude.{true, false};
    ghost use Rattle.ice_inbox.specs.Posting.{sender_view};

    ghost left = { λ v. record v { lines = false } };

    ghost right = { λ v. sender_view true false };
}

/// The target's pass is cut off.
struct TargetLeaves;

impl Split<View> for TargetLeaves {
    ghost use Rattle.std.specs.Prelude.{true, false};
    ghost use Rattle.ice_inbox.specs.Posting.{sender_view};

    ghost left = { λ v. record v { targets = false } };

    ghost right = { λ v. sender_view false true };
}

/// The line's pass comes back to the receiver.
struct LineReturns;

impl Join<View> for LineReturns {
    ghost use Rattle.ice_inbox.specs.Posting.{knows_line, spent_view};

    ghost both = { knows_line };

    ghost spent = { spent_view };
}

/// A note was sent.
struct Sends;

impl Outcome<Note, View> for Sends {
    ghost use Rattle.std.specs.Prelude.{◌≡◌};
    ghost use Rattle.ice_inbox.specs.Posting.{sent_more};

    ghost then = { λ v x w. w ≡ sent_more v x };
}

impl Lesson<Note, View> for Sends {
    ghost use Rattle.std.specs.Prelude.{⊤};

    ghost fact = { λ v items. ⊤ };
}

/// A note was taken.
struct Takes;

impl Outcome<Note, View> for Takes {
    ghost use Rattle.ice_inbox.specs.Posting.{Takes as IsTaken};

    ghost then = { IsTaken };
}

impl Lesson<Note, View> for Takes {
    ghost use Rattle.std.specs.Prelude.{⊤};

    ghost fact = { λ v items. ⊤ };
}

/// What was taken of the line is compared with what it has sent.
struct Compares;

impl Lesson<Note, View> for Compares {
    ghost use Rattle.ice_inbox.specs.Posting.{Compares as IsCompared};

    ghost fact = { λ v items. IsCompared v };
}

type SendingEnd = RuledSender<Note, View, InOrder>;

type ReceivingEnd = RuledReceiver<Note, View, InOrder>;

/// The line's end of an inbox. Contracts see it as what it has sent, in order.
#[derive(Drop)]
pub struct LineSender {
    end: SendingEnd,
    pass: Pass<Note, View>,
}

impl Model for LineSender {
    ghost use Rattle.ice_inbox.specs.Ends.{Sent};

    ghost Value = { Sent };

    ghost use Rattle.ice_inbox.specs.Inside.{sent_of, IsLine};

    ghost view = { λ sender. sent_of sender.pass };

    ghost invariant = { IsLine };
}

/// The target's end of an inbox. Contracts see it as what it has sent, in order.
#[derive(Drop)]
pub struct TargetSender {
    end: SendingEnd,
    pass: Pass<Note, View>,
}

impl Model for TargetSender {
    ghost use Rattle.ice_inbox.specs.Ends.{Sent};

    ghost Value = { Sent };

    ghost use Rattle.ice_inbox.specs.Inside.{sent_of, IsTarget};

    ghost view = { λ sender. sent_of sender.pass };

    ghost invariant = { IsTarget };
}

/// The end of an inbox at which notes are taken. Contracts see it as what was taken, in order, and what the line has sent in all,
/// once that is known.
#[derive(Drop)]
pub struct NoteReceiver {
    end: ReceivingEnd,
    pass: Pass<Note, View>,
}

impl Model for NoteReceiver {
    ghost use Rattle.ice_inbox.specs.Ends.{Taken};

    ghost Value = { Taken };

    ghost use Rattle.ice_inbox.specs.Inside.{taken_of, IsReceiver};

    ghost view = { λ receiver. taken_of receiver.pass };

    ghost invariant = { IsReceiver };
}

/// An inbox in which at most 16 notes wait: the ends of the line, of the target and of the one who takes the notes.
/// It takes all its memory here.
pub fn make_inbox(alloc: Global) -> Result<(LineSender, TargetSender, NoteReceiver), AllocError>
    ensures one { IfOk result (λ ends. (ends.0.inbox ≡ ends.2.inbox) × (ends.1.inbox ≡ ends.2.inbox)) }
    ensures sent { IfOk result (λ ends. (ends.0.sent ≡ []) × (ends.1.sent ≡ [])) }
    ensures taken { IfOk result (λ ends. (ends.2.taken ≡ []) × (ends.2.known ≡ None)) }
{
    let (end, receiver, mut pass) = bounded_with::<Note, View, InOrder, Global>(alloc, CAPACITY)?;
    let other = end.try_clone()?;
    let line = end.another::<LineLeaves>(&mut pass);
    let target = end.another::<TargetLeaves>(&mut pass);
    Ok((
        LineSender { end, pass: line },
        TargetSender {
            end: other,
            pass: target,
        },
        NoteReceiver {
            end: receiver,
            pass,
        },
    ))
}

/// Sends a note; one that is handed back is sent again.
fn post<R: Wait>(rt: &R, end: &SendingEnd, pass: &mut Pass<Note, View>, mut note: Note)
    requires channel { IsSeatAt (sends_on end.now) pass.old }
    requires rule { MaySend (ruled_capacity (sends_on end.now)) pass.old.id (view pass.old) note }
    ensures channel { IsSeatAt (sends_on end.now) pass.new }
    ensures sent { view pass.new ≡ sent_more (view pass.old) note }
{
    for _ in rt.forever() {
        match end.send_as::<Sends, R>(rt, pass, note) {
            Ok(()) => return,
            Err(back) => note = back.into_inner(),
        }
    }
    unreachable!()
}

impl LineSender {
    /// Sends a note of the line. It waits while 16 notes wait, and for ever where the receiver is gone.
    pub fn send<R: Wait>(&mut self, rt: &R, note: Note)
        requires of_line { is_of_line note ≡ true }
        requires bounded { bytes_in (self.old.sent ++ note ∷ []) ≤ line_limit }
        ensures { self.new ≡ record self.old { sent = self.old.sent ++ note ∷ [] } }
    {
        post(rt, &self.end, &mut self.pass, note);
    }
}

impl TargetSender {
    /// Tells that the target has halted in the job of this number. It waits as the line's sender does.
    pub fn send<R: Wait>(&mut self, rt: &R, number: u64)
        ensures { self.new ≡ record self.old { sent = self.old.sent ++ Note.Halted number ∷ [] } }
    {
        post(rt, &self.end, &mut self.pass, Note::Halted(number));
    }
}

impl NoteReceiver {
    /// Takes the next note. It waits until there is one, so never call it once both senders are gone and all notes are taken.
    pub fn take<R: Wait>(&mut self, rt: &R) -> Note
        ensures listed { self.new ≡ record self.old { taken = self.old.taken ++ result ∷ [] } }
        ensures bounded { bytes_in self.new.taken ≤ line_limit }
        ensures order { IfSome self.new.known (λ sent. IsPrefix (of_line self.new.taken) sent) }
    {
        for _ in rt.forever() {
            if let Ok(note) = self.end.recv_as::<Takes, R>(rt, &mut self.pass) {
                return note;
            }
        }
        unreachable!()
    }

    /// Takes in the line's sender, which sends no more: what it has sent is known from now on.
    pub fn take_in(&mut self, line: LineSender)
        requires { self.old.inbox ≡ line.inbox }
        ensures known { self.new ≡ record self.old { known = Some line.sent } }
        ensures order { IsPrefix (of_line self.new.taken) line.sent }
    {
        let LineSender { end, pass } = line;
        end.absorb::<LineReturns>(&mut self.pass, pass);
        end.learn_as::<Compares>(&mut self.pass);
    }
}
