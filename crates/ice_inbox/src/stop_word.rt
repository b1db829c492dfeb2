//! A stop word: a raiser sets it to a number, and a looker on another thread looks for that number.
ghost use Rattle.std.specs.Prelude.{◌≡◌, ◌+◌, ◌%◌, ◌^◌, ◌≤◌, [], ◌∷◌, ◌++◌, ◌↔◌, true, false, IfOk, IsTrue, Contains};
ghost use Rattle.ice_inbox.specs.Stopping.{asked_also};

use atomic_table::{Join, Play, Seat, Split, Table, TableRule};
use std::alloc::{AllocError, Global};
use std::collections::LinkedList;
use std::marker::Model;
use std::sync::Arc;

/// One side of a stop word, and what it knows. No value of it is made.
pub enum Side {
    /// The numbers raised, and those that joined lookers saw last.
    Raiser(LinkedList<u64>, LinkedList<u64>),
    /// The number seen last, and how many loads were made.
    Looker(u64, u64),
    /// It was joined.
    Spent,
}

/// The rule of the word.
struct OnlyRaised;

impl TableRule<(), Side, ()> for OnlyRaised {
    ghost use Rattle.std.specs.Prelude.{[]};
    ghost use Rattle.ice_inbox.specs.declared.stop_word.Side.TheVariants.{Raiser};
    ghost use Rattle.ice_inbox.specs.Standing.{Standing};

    ghost holds = { λ _. Standing };

    ghost first = { λ _. Raiser [] [] };
}

/// A number was raised.
struct Raises;

impl Play<(), Side> for Raises {
    ghost use Rattle.std.specs.Prelude.{◌≡◌};
    ghost use Rattle.ice_inbox.specs.Standing.{raised_more};

    ghost then = { λ step before found after. after ≡ (raised_more before.0 step.first, before.1) };
}

/// The number was seen.
struct Looks;

impl Play<(), Side> for Looks {
    ghost use Rattle.std.specs.Prelude.{◌≡◌};
    ghost use Rattle.ice_inbox.specs.Standing.{looked};

    ghost then = { λ step before found after. after ≡ (looked before.0 found, before.1) };
}

/// What is kept of lookers was raised.
struct Checks;

impl Play<(), Side> for Checks {
    ghost use Rattle.std.specs.Prelude.{◌≡◌};
    ghost use Rattle.ice_inbox.specs.Standing.{KeptIsRaised};

    ghost then = { λ step before found after. (after ≡ before) × KeptIsRaised before.0 };
}

/// A looker leaves, which has seen nothing.
struct Leaves;

impl Split<Side> for Leaves {
    ghost use Rattle.ice_inbox.specs.declared.stop_word.Side.TheVariants.{Looker};

    ghost left = { λ v. v };

    ghost right = { λ v. Looker 0 0 };
}

/// A looker comes back.
struct Returns;

impl Join<Side> for Returns {
    ghost use Rattle.ice_inbox.specs.declared.stop_word.Side.TheVariants.{Spent};
    ghost use Rattle.ice_inbox.specs.Standing.{kept_more};

    ghost both = { kept_more };

    ghost spent = { Spent };
}

type Word = Table<(), Side, (), OnlyRaised, Global>;

/// Which numbers a looker has asked for.
#[derive(Clone, Copy, Debug, PartialEq, Eq)]
pub enum Asked {
    /// It has not looked.
    Nothing,
    /// Each look asked for this number.
    One(u64),
    /// Two looks asked for different numbers.
    Several,
}

impl Asked {
    fn also(self, number: u64) -> Asked
        ensures { result ≡ asked_also self number }
    {
        match self {
            Asked::Nothing => Asked::One(number),
            Asked::One(other) => {
                if other == number {
                    Asked::One(other)
                } else {
                    Asked::Several
                }
            }
            Asked::Several => Asked::Several,
        }
    }
}

/// A word by which a stop is raised.
pub struct StopWord;

/// The end that raises. Contracts see it as the numbers raised, and whether a looker is out.
#[derive(Drop)]
pub struct StopRaiser {
    word: Arc<Word>,
    /// The looker's end while no looker is out, so that a split takes no memory.
    spare: Option<Arc<Word>>,
    seat: Seat<(), Side>,
}

impl Model for StopRaiser {
    ghost use Rattle.ice_inbox.specs.Stopping.{Raising};

    ghost Value = { Raising };

    ghost use Rattle.ice_inbox.specs.StopInside.{raising_of, IsRaiser};

    ghost view = { raising_of };

    ghost invariant = { IsRaiser };
}

/// The end that looks. Contracts see it as the number seen last, the count of its loads, and the numbers that it asked for.
#[derive(Drop)]
pub struct StopLooker {
    word: Arc<Word>,
    seat: Seat<(), Side>,
    asked: Asked,
}

impl Model for StopLooker {
    ghost use Rattle.ice_inbox.specs.Stopping.{Looking};

    ghost Value = { Looking };

    ghost use Rattle.ice_inbox.specs.StopInside.{looking_of, IsLooker};

    ghost view = { looking_of };

    ghost invariant = { IsLooker };
}

impl StopWord {
    /// A stop word at 0, with no looker out. It takes the memory of the word and of one looker's end.
    pub fn make(alloc: Global) -> Result<StopRaiser, AllocError>
        ensures { IfOk result (λ raiser. (raiser.raised ≡ []) × (raiser.is_out ≡ false)) }
    {
        let (table, seat) = Word::of_words(alloc, &[0], &())?;
        let Ok(word) = Arc::new(alloc, table) else {
            return Err(AllocError);
        };
        let spare = Arc::try_clone(&word)?;
        Ok(StopRaiser {
            word,
            spare: Some(spare),
            seat,
        })
    }
}

impl StopRaiser {
    /// Hands out the looker's end.
    pub fn split(&mut self) -> StopLooker
        requires { self.old.is_out ≡ false }
        ensures raiser { self.new ≡ record self.old { is_out = true } }
        ensures looker { result ≡ record { word = self.old.word; seen = 0; loads = 0; asked = Asked.Nothing } }
    {
        let Some(word) = self.spare.take() else {
            unreachable!()
        };
        let seat = self.word.shared.split_seat::<Leaves>(&mut self.seat);
        StopLooker {
            word,
            seat,
            asked: Asked::Nothing,
        }
    }

    /// Sets the word to the number, by one swap.
    pub fn raise(&mut self, number: u64)
        ensures { self.new ≡ record self.old { raised = self.old.raised ++ number ∷ [] } }
    {
        self.word.shared.swap::<Raises>(&mut self.seat, 0, number);
    }

    /// Takes a looker's end back. What it saw last is 0 or was raised.
    pub fn join(&mut self, looker: StopLooker)
        requires { looker.word ≡ self.old.word }
        ensures raiser { self.new ≡ record self.old { is_out = false } }
        ensures seen { 1 ≤ looker.seen → Contains self.new.raised looker.seen }
    {
        let StopLooker {
            word,
            seat,
            asked: _,
        } = looker;
        self.word.shared.join_seat::<Returns>(&mut self.seat, seat);
        self.word.shared.load::<Checks>(&mut self.seat, 0);
        self.spare = Some(word);
    }
}

impl StopLooker {
    /// Whether the word is this number, by one load.
    pub fn look_for(&mut self, number: u64) -> bool
        ensures answer { IsTrue result ↔ (self.new.seen ≡ number) }
        ensures loads { self.new.loads ≡ (self.old.loads + 1) % 2 ^ 64 }
        ensures asked { self.new.asked ≡ asked_also self.old.asked number }
        ensures word { self.new.word ≡ self.old.word }
    {
        let found = self.word.shared.load::<Looks>(&mut self.seat, 0);
        self.asked = self.asked.also(number);
        found == number
    }
}
