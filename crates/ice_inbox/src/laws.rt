//! What the rule of the inbox tells, and what a receiver makes of it.
ghost use Rattle.std.specs.Prelude.{◌≡◌, ◌≤◌, List, true, length};
ghost use mathlib.Core.List.{IsPrefix};
ghost use Rattle.ice_inbox.specs.declared.inbox.Note.{Note};
ghost use Rattle.ice_inbox.specs.declared.inbox.View.{View};
ghost use Rattle.ice_inbox.specs.Notes.{has_last, EndsOnce};
ghost use Rattle.ice_inbox.specs.Posting.{Posted, TakenInOrder, capacity};

/// At every moment of an inbox, as its rule holds then: what was taken of each sender is, in its order and each note once,
/// a prefix of what that sender has sent; and at most 16 notes wait.
pub fn taken_in_order_at_every_moment()
    ensures order { (items : List Note) (views : List View) → Posted items views → TakenInOrder views }
    ensures room { (items : List Note) (views : List View) → Posted items views → length items ≤ capacity }
{}

/// Where the notes taken of the line are a prefix of what it has sent, and its last note is among them, they are all that it has sent.
pub fn the_last_note_is_all()
    ensures { (taken sent : List Note) → EndsOnce sent → IsPrefix taken sent → has_last taken ≡ true → taken ≡ sent }
{}
