//! Pages of a program with a BREAK at each address of a set, and the page writes that make a flash hold them.
ghost use Rattle.std.specs.Prelude.{◌≡◌, ◌<◌, ◌≤◌, ◌+◌, ◌*◌, ℕ, List, length, is_ok, OnOk};
ghost use Rattle.part_spec.specs.Chip.{chip_of, page_words, words_of};
ghost use Rattle.part_spec.specs.Pages.{page_of, page_has};
ghost use Rattle.ice_base.specs.Counts.{HasCause};
ghost use Rattle.debug_spec.specs.Patch.{patch};
ghost use Rattle.debug_spec.specs.Device.{synced, synced_page};
ghost use Rattle.flash_patch.specs.State.{touches as touches_by, with_break};
ghost use Rattle.flash_patch.specs.Asking.{seen, Asks};

use crate::plan::FlashFault;
use ice_base::{Flash, Part};
use part_spec::PAGE_WORDS;

/// The word of a BREAK (AVR Instruction Set Manual, 'BREAK').
const BREAK: u16 = 0x9598;

/// The words of a page, with a BREAK at each address of a set.
pub(crate) fn patched_page(program: &[u16], set: &[u16], page: u16) -> [u16; PAGE_WORDS]
    requires { page_words * page + page_words ≤ length program.now }
    ensures { result ≡ page_of (patch program.now set.now) page }
{
    let start = PAGE_WORDS * usize::from(page);
    let mut words = [0; PAGE_WORDS];
    words.copy_from_slice(&program[start..start + PAGE_WORDS]);
    if !touches(set, page) {
        return words;
    }
    for address in set {
        plant(&mut words, page, *address);
    }
    words
}

/// An address of a set is one of the page's.
fn touches(set: &[u16], page: u16) -> bool
    ensures { result ≡ touches_by page set.now }
{
    // Most pages have none, and without a way out of the loop several addresses are looked at at a time.
    let mut found = false;
    for address in set {
        found = found | (*address / PAGE_WORDS as u16 == page);
    }
    found
}

/// Plants a BREAK at an address, where it is one of the page's.
fn plant(words: &mut [u16; PAGE_WORDS], page: u16, address: u16)
    ensures { words.new ≡ with_break page address words.old }
{
    let place = usize::from(address);
    if place / PAGE_WORDS == usize::from(page) {
        words[place % PAGE_WORDS] = BREAK;
    }
}

/// A page of a flash has these words.
fn has_words<F: Flash>(flash: &F, page: u16, content: &[u16; PAGE_WORDS]) -> bool
    requires { page < (chip_of (F.part flash.now)).pages }
    ensures { result ≡ page_has (F.words flash.now) page content.now }
{
    let start = PAGE_WORDS as u16 * page;
    // Most pages have the words, and without a way out of the loop several are compared at a time.
    let mut same = true;
    for place in 0..PAGE_WORDS {
        let word = flash.word(start + place as u16);
        same = same & (word == content[place]);
    }
    same
}

/// Writes a page where a flash has other words there.
pub fn sync_page<F: Flash>(
    flash: &mut F,
    page: u16,
    content: &[u16; PAGE_WORDS],
) -> Result<(), FlashFault>
    requires { page < (chip_of (F.part flash.old)).pages }
    ensures asks { (wanted : List ℕ) → page_of wanted page ≡ content.now →
        Asks (seen F.words F.journal F.faults F.writes) (synced_page wanted page) flash.old (is_ok result) flash.new }
    ensures words { OnOk result (page_of (F.words flash.new) page ≡ content.now) }
    ensures part { F.part flash.new ≡ F.part flash.old }
    ensures cause { HasCause result (F.faults flash.old) (F.faults flash.new) }
    ensures still { OnOk result (F.faults flash.new ≡ F.faults flash.old) }
{
    if has_words(flash, page, content) {
        return Ok(());
    }
    match flash.write_page(page, content) {
        Ok(()) => Ok(()),
        Err(_) => Err(FlashFault),
    }
}

/// Writes each page where a flash has other words than the program with a BREAK at each address of a set, up to the first write that
/// fails.
pub(crate) fn sync_pages<F: Flash>(
    flash: &mut F,
    part: Part,
    program: &[u16],
    set: &[u16],
) -> Result<(), FlashFault>
    requires part { F.part flash.old ≡ part }
    requires size { length program.now ≡ words_of (chip_of part) }
    ensures asks { Asks (seen F.words F.journal F.faults F.writes)
        (synced (chip_of part) (patch program.now set.now)) flash.old (is_ok result) flash.new }
    ensures words { OnOk result (F.words flash.new ≡ patch program.now set.now) }
    ensures part { F.part flash.new ≡ F.part flash.old }
    ensures cause { HasCause result (F.faults flash.old) (F.faults flash.new) }
    ensures still { OnOk result (F.faults flash.new ≡ F.faults flash.old) }
{
    // That the flash has as many words as the part is told by this call.
    let _first = flash.word(0);
    for page in 0..part.pages() {
        let content = patched_page(program, set, page);
        match sync_page(flash, page, &content) {
            Ok(()) => {}
            Err(fault) => return Err(fault),
        }
    }
    Ok(())
}
