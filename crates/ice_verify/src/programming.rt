//! The program, programmed page by page.
ghost use Rattle.std.specs.Prelude.{◌≡◌, ◌<◌, ◌≤◌, ◌+◌, ◌*◌, ◌/◌, ◌%◌, [], false, length};
ghost use Rattle.part_spec.specs.Chip.{chip_of, flash_bytes, page_bytes, page_words};
ghost use Rattle.part_spec.specs.Pages.{erased, overlaid, paired, with_page};
ghost use Rattle.line_spec.specs.Messages.{chip_erase};
ghost use Rattle.debug_spec.specs.Commands.{carried_out, page_erased};
ghost use Rattle.debug_spec.specs.MemoryTypes.{program, written_to};
ghost use Rattle.ice_verify.specs.Well.{DoesWell};
ghost use Rattle.ice_verify.specs.Standing.{IsReady, at_of, given_pages, with_program};

use crate::plain::Plain;
use ice_answer::{ERASED, Out, okay, paired_page, refuse};
use ice_msg::Refusal;
use part_spec::{PAGE_BYTES, PAGE_WORDS};

impl Plain {
    /// Gives pages from one on the words that these bytes make.
    fn give_bytes(&mut self, first: u16, bytes: &[u8])
        requires ready { IsReady self.old }
        requires soft { self.old.tool.plan.soft ≡ [] }
        requires within { page_bytes * first + length bytes.now ≤ flash_bytes (chip_of self.old.tool.plan.part) }
        requires whole { length bytes.now % page_bytes ≡ 0 }
        ensures { self.new ≡ with_program (given_pages (overlaid self.old.tool.plan.prog (page_words * first) (paired bytes.now)) first
            (length bytes.now / page_bytes) self.old.tool.plan.prog) self.old }
    {
        // That the program has as many words as its part is told by this call.
        let _part = self.tool.part();
        for page in 0..bytes.len() / PAGE_BYTES {
            let start = PAGE_BYTES * page;
            let words = paired_page(&bytes[start..start + PAGE_BYTES]);
            self.give_page(first + page as u16, &words);
        }
    }

    /// Erases pages from one on.
    fn erase(&mut self, first: u16, count: u16)
        requires ready { IsReady self.old }
        requires soft { self.old.tool.plan.soft ≡ [] }
        requires within { first + count ≤ (chip_of self.old.tool.plan.part).pages }
        ensures { self.new ≡ with_program (given_pages (erased (chip_of self.old.tool.plan.part)) first count self.old.tool.plan.prog) self.old }
    {
        for page in 0..count {
            self.give_page(first + page, &[ERASED; PAGE_WORDS]);
        }
    }

    /// Gives a page of the program these words.
    fn give_page(&mut self, page: u16, words: &[u16; PAGE_WORDS])
        requires ready { IsReady self.old }
        requires soft { self.old.tool.plan.soft ≡ [] }
        requires within { page < (chip_of self.old.tool.plan.part).pages }
        ensures { self.new ≡ with_program (with_page self.old.tool.plan.prog page words.now) self.old }
    {
        let _ = self.tool.plan.program_page(&mut self.words, page, words);
        self.words.follow(&self.tool.plan);
    }

    /// Erases every page.
    pub(crate) fn erase_all(&mut self, out: &mut Out, number: u16)
        requires ready { IsReady self.old }
        requires empty { out.old.items ≡ [] }
        requires soft { self.old.tool.plan.soft ≡ [] }
        ensures does { DoesWell (λ part. carried_out false part number chip_erase) (at_of self.old out.old.items) (at_of self.new out.new.items) }
        ensures program { self.new ≡ with_program self.new.tool.plan.prog self.old }
    {
        let pages = self.tool.part().pages();
        self.erase(0, pages);
        okay(out, number)
    }

    /// Erases the page of a byte address.
    pub(crate) fn erase_page(&mut self, out: &mut Out, number: u16, address: u32)
        requires ready { IsReady self.old }
        requires empty { out.old.items ≡ [] }
        requires soft { self.old.tool.plan.soft ≡ [] }
        ensures does { DoesWell (λ part. page_erased part number address) (at_of self.old out.old.items) (at_of self.new out.new.items) }
        ensures program { self.new ≡ with_program self.new.tool.plan.prog self.old }
    {
        if address >= 2 * u32::from(self.tool.part().words()) {
            return refuse(out, number, Refusal::IllegalMemoryRange);
        }
        self.erase((address / PAGE_BYTES as u32) as u16, 1);
        okay(out, number)
    }

    /// Writes whole pages of the program.
    pub(crate) fn write_pages(&mut self, out: &mut Out, frame: u16, address: u32, bytes: &[u8])
        requires ready { IsReady self.old }
        requires empty { out.old.items ≡ [] }
        requires soft { self.old.tool.plan.soft ≡ [] }
        requires within { address + length bytes.now ≤ flash_bytes (chip_of self.old.tool.plan.part) }
        requires page { address % page_bytes ≡ 0 }
        requires whole { length bytes.now % page_bytes ≡ 0 }
        ensures does { DoesWell (λ part. written_to part program frame address bytes.now) (at_of self.old out.old.items) (at_of self.new out.new.items) }
        ensures program { self.new ≡ with_program self.new.tool.plan.prog self.old }
    {
        self.give_bytes((address / PAGE_BYTES as u32) as u16, bytes);
        okay(out, frame)
    }
}
