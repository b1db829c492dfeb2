//! What a flash holds, and images.
use part_spec::{PAGE_WORDS, Part};
use std::alloc::{AllocError, Global};

/// Words at their addresses; a later run of words goes over an earlier one, and all other words are erased.
pub(super) type Words = &'static [(usize, &'static [u16])];

/// What a flash holds: these words, and a BREAK in the place of those at these addresses.
#[derive(Clone, Copy)]
pub(super) struct Held(pub Words, pub &'static [usize]);

/// Page writes in order: the page of each, and what the whole flash would hold that it is cut from.
pub(super) type Journal = &'static [(u16, Held)];

/// LDI r16,1; OUT DDRB,r16; OUT PORTB,r16; RJMP to itself.
pub(super) const LIGHT: Words = &[(0, &[0xE001, 0xBB07, 0xBB08, 0xCFFF])];

/// RJMP to itself.
pub(super) const LOOP: Words = &[(0, &[0xCFFF])];

/// A NOP; a BREAK of the program's own; RJMP to itself.
pub(super) const OWN_BREAK: Words = &[(0, &[0x0000, 0x9598, 0xCFFF])];

/// A flash as it is made.
pub(super) const ERASED: Held = Held(&[], &[]);

/// A flash with the light, and the same with a breakpoint at its third word.
pub(super) const LIT: Held = Held(LIGHT, &[]);

pub(super) const PLANTED: Held = Held(LIGHT, &[2]);

/// The page writes of a session of the light: the opening one alone; with a breakpoint planted and restored; and with that again.
pub(super) const OPENED: Journal = &[(0, LIT)];

pub(super) const RESTORED_ONCE: Journal = &[(0, LIT), (0, PLANTED), (0, LIT)];

pub(super) const RESTORED_TWICE: Journal = &[
    (0, LIT),
    (0, PLANTED),
    (0, LIT),
    (0, PLANTED),
    (0, LIT),
];

/// A flash with the loop.
pub(super) const LOOPED: Held = Held(LOOP, &[]);

impl Held {
    /// The words of a part's flash.
    pub(super) fn flash(&self, alloc: Global, part: Part) -> Result<Vec<u16>, AllocError> {
        let mut words = vec![in alloc; 0xFFFF; usize::from(part.words())]?;
        self.fill(&mut words, 0);
        Ok(words)
    }

    /// The words of a page.
    pub(super) fn page(&self, page: u16) -> [u16; PAGE_WORDS] {
        let mut words = [0xFFFF; PAGE_WORDS];
        self.fill(&mut words, PAGE_WORDS * usize::from(page));
        words
    }

    /// Puts what it holds from an address on into erased words.
    fn fill(&self, words: &mut [u16], first: usize) {
        let Held(given, breaks) = *self;
        for (address, run) in given {
            for (offset, word) in run.iter().enumerate() {
                set_word(words, first, address.saturating_add(offset), *word);
            }
        }
        for address in breaks {
            set_word(words, first, *address, 0x9598);
        }
    }
}

/// Sets the word at an address where it is one of these, of which the first has its address.
fn set_word(words: &mut [u16], first: usize, address: usize, word: u16) {
    if address >= first && address - first < words.len() {
        words[address - first] = word;
    }
}

/// The raw image of words, up to the last that is given.
pub(super) fn image_of(alloc: Global, given: Words) -> Result<Vec<u8>, AllocError> {
    let mut len = 0usize;
    for (address, run) in given {
        len = len.max(address.saturating_add(run.len()));
    }
    let mut words = vec![in alloc; 0xFFFFu16; len]?;
    Held(given, &[]).fill(&mut words, 0);
    let mut bytes = Vec::new(alloc);
    for word in &words {
        bytes.extend_from_slice(&word.to_le_bytes())?;
    }
    Ok(bytes)
}
