//! The memory of a machine.
ghost use Rattle.std.specs.Prelude.{◌≡◌, ◌⊎◌, ℕ, ◌+◌, ◌*◌, ◌/◌, ◌%◌, ◌^◌, ◌<◌, ◌≤◌, length, slice_index, if◌then◌else◌, ◌==◌, IfOk, IfSome, IsTrue, ◌↔◌, OnOk, OnErr};
ghost use Rattle.mem_plain.specs.Memory.{IsMemory};
ghost use Rattle.mem_plain.specs.Kept.{AreZeros};
ghost use Rattle.mem_plain.specs.Contents.{no_bytes, byte_at, number_at, with_number, laid, chunk_at, IsUsed, IsNextUsed, IsNextUsedBelow};

use crate::directory::{Directory, TABLE_PAGES};
use crate::page::{CHUNK_BYTES, PAGE_BYTES, Page};
use rd_base::Memory;
use std::alloc::Global;
use std::marker::Model;

/// How many pages there are.
pub const PAGES: u32 = 1_048_576;

/// Memory of 2^32 bytes, of which contracts see those that aren't 0.
#[derive(Drop)]
pub struct PlainMem {
    pages: Directory,
    alloc: Global,
}

impl Model for PlainMem {
    ghost use Rattle.mem_plain.specs.Contents.{Contents, contents_code};

    ghost Value = { Contents };

    ghost coded = { contents_code };

    ghost use Rattle.mem_plain.specs.Pages.{contents_of, page_in};

    ghost view = { λ m. contents_of (page_in m.pages.tables.items) };
}

impl PlainMem {
    /// Memory in which every byte is 0. It takes no memory itself; what it takes later it takes from `alloc`.
    pub fn new(alloc: Global) -> Self
        ensures { result ≡ no_bytes }
    {
        PlainMem {
            pages: Directory::new(alloc),
            alloc,
        }
    }

    /// The byte at an address.
    pub fn byte(&self, addr: u32) -> u8
        ensures { result ≡ byte_at self.now addr }
    {
        match self.pages.page(addr / PAGE_BYTES) {
            Some(page) => page.byte((addr % PAGE_BYTES) as usize),
            None => 0,
        }
    }

    /// The number of two bytes at an address, the least byte first (RV32I, section 2.6). The address is a multiple
    /// of 2.
    pub fn half(&self, addr: u32) -> u32
        requires { addr % 2 ≡ 0 }
        ensures { result ≡ number_at self.now addr 2 }
    {
        match self.pages.page(addr / PAGE_BYTES) {
            Some(page) => page.half((addr % PAGE_BYTES) as usize),
            None => 0,
        }
    }

    /// The word of four bytes at an address, the least byte first (RV32I, section 2.6). The address is a
    /// multiple of 4.
    pub fn word(&self, addr: u32) -> u32
        requires { addr % 4 ≡ 0 }
        ensures { result ≡ number_at self.now addr 4 }
    {
        match self.pages.page(addr / PAGE_BYTES) {
            Some(page) => page.word((addr % PAGE_BYTES) as usize),
            None => 0,
        }
    }

    /// The chunk with an index below 2^27: the 32 bytes from address 32 * `index` on.
    pub fn chunk(&self, index: u32) -> [u8; 32]
        requires { index < 2 ^ 27 }
        ensures { result ≡ chunk_at self.now index }
    {
        let addr = CHUNK_BYTES as u32 * index;
        match self.pages.page(addr / PAGE_BYTES) {
            Some(page) => page.chunk((addr % PAGE_BYTES) as usize),
            None => [0; 32],
        }
    }

    /// The least page at or after `from` with a byte that isn't 0, or `None` if there is no such page. A page
    /// goes by its number, which is that of its addresses / 4,096; `from` may be any number.
    pub fn next_page(&self, from: u32) -> Option<u32>
        ensures next { IsNextUsed self.now from result }
        ensures below { IfSome result (λ page. page < 2 ^ 20) }
    {
        self.is_memory();
        self.next_page_below(from, PAGES)
    }

    /// The least page at or after `from` and before `end` with a byte that isn't 0, or `None` if there is no such page.
    /// As the code shows it looks at no page from `end` on. Both may be any numbers.
    pub fn next_page_below(&self, from: u32, end: u32) -> Option<u32>
        ensures next { IsNextUsedBelow self.now from end result }
        ensures below { IfSome result (λ page. page < 2 ^ 20) }
    {
        let end = end.min(PAGES);
        let mut number = from;
        'pages: while number < end {
            let next = self.past_empty_table(number);
            if next > number {
                number = next;
            } else {
                if self.is_used(number) {
                    return Some(number);
                }
                number += 1;
            }
        }
        self.is_memory();
        None
    }

    /// The number itself, which is below 2^20, if some page of its table is kept, and else the first number of the
    /// next table. No page from the number on and before the one that comes back is used.
    fn past_empty_table(&self, number: u32) -> u32
        requires { number < 2 ^ 20 }
        ensures further { number ≤ result }
        ensures unused { (q : ℕ) → number ≤ q → q < result → ¬ (IsUsed self.now q) }
    {
        if self.pages.has_table(number) {
            number
        } else {
            (number / TABLE_PAGES + 1) * TABLE_PAGES
        }
    }

    /// Whether the page with a number below 2^20 has a byte that isn't 0. As the code shows it looks at no other page.
    pub fn is_used(&self, number: u32) -> bool
        requires { number < 2 ^ 20 }
        ensures { IsTrue result ↔ IsUsed self.now number }
    {
        match self.pages.page(number) {
            Some(page) => page.is_used(),
            None => false,
        }
    }

    /// A copy of the memory: what is stored to the one later isn't stored to the other.
    pub fn copy(&self) -> Result<PlainMem, Memory>
        ensures { IfOk result (λ m. m ≡ self.now) }
    {
        Ok(PlainMem {
            pages: self.pages.copy()?,
            alloc: self.alloc,
        })
    }

    /// A copy of the page with a number below 2^20: the 4,096 bytes from address 4,096 * `number` on.
    pub fn page(&self, number: u32) -> Result<Page, Memory>
        requires { number < 2 ^ 20 }
        ensures { IfOk result (λ page. (at : ℕ) → at < 4096 → slice_index page.bytes.items at ≡ byte_at self.now (number * 4096 + at)) }
    {
        match self.pages.page(number) {
            Some(page) => Ok(page.clone()?),
            None => Page::zeros(self.alloc),
        }
    }

    /// The page with a number below 2^20 has these bytes from now on, and every other byte stays. An `Err` is out of
    /// memory, and changes nothing.
    pub fn put_page(&mut self, number: u32, page: Page) -> Result<(), Memory>
        requires { number < 2 ^ 20 }
        ensures put { OnOk result ((q : ℕ) → byte_at self.new q ≡ (if q / 4096 == number then slice_index page.bytes.items (q % 4096) else byte_at self.old q)) }
        ensures err { OnErr result (self.new ≡ self.old) }
    {
        self.pages.make_places()?;
        self.pages.put(self.alloc, number, page)
    }

    /// States that the contents are those of a memory, so that its bytes determine them. It computes nothing.
    pub fn is_memory(&self)
        ensures { IsMemory self.now }
    {
        let _pages = &self.pages;
    }

    /// Stores the low `width` bytes of `value` at an address, the least byte first. The width is 1, 2 or 4,
    /// and the address a multiple of it. An `Err` is out of memory for a page in which every byte is 0, and changes
    /// nothing. As the code shows, zeros that are stored to a page that isn't kept take no memory, since they change no byte.
    pub fn store(&mut self, addr: u32, width: u8, value: u32) -> Result<(), Memory>
        requires width { (width ≡ 1) ⊎ (width ≡ 2) ⊎ (width ≡ 4) }
        requires aligned { addr % width ≡ 0 }
        ensures stored { OnOk result (self.new ≡ with_number self.old addr width value) }
        ensures err { OnErr result (self.new ≡ self.old) }
        ensures unused { OnErr result (¬ (IsUsed self.old (addr / 4096))) }
    {
        let at = (addr % PAGE_BYTES) as usize;
        if self.pages.write(addr / PAGE_BYTES, at, width, value) {
            return Ok(());
        }
        if are_zeros(width, value) {
            return Ok(());
        }
        let mut page = Page::zeros(self.alloc)?;
        page.write(at, width, value);
        self.put_page(addr / PAGE_BYTES, page)?;
        self.is_memory();
        Ok(())
    }

    /// Lays bytes over what is there, from an address on. They don't reach beyond the end of the addresses. An
    /// `Err` is out of memory, and drops all.
    pub fn lay(self, addr: u32, bytes: &[u8]) -> Result<PlainMem, Memory>
        requires { addr + length bytes.now ≤ 2 ^ 32 }
        ensures { IfOk result (λ m. m ≡ laid self addr bytes.now) }
    {
        let mut mem = self;
        let mut done = 0;
        'pieces: while done < bytes.len() {
            let from = addr + done as u32;
            let room = (PAGE_BYTES - from % PAGE_BYTES) as usize;
            let count = room.min(bytes.len() - done);
            mem.lay_piece(from, &bytes[done..done + count])?;
            done += count;
        }
        Ok(mem)
    }

    /// Lays bytes that lie in one page, in place if it is kept.
    fn lay_piece(&mut self, addr: u32, piece: &[u8]) -> Result<(), Memory>
        requires { addr % 4096 + length piece.now ≤ 4096 }
        ensures { OnOk result (self.new ≡ laid self.old addr piece.now) }
    {
        let number = addr / PAGE_BYTES;
        let at = (addr % PAGE_BYTES) as usize;
        if self.pages.lay(number, at, piece) {
            return Ok(());
        }
        let mut page = Page::zeros(self.alloc)?;
        page.lay(at, piece);
        self.put_page(number, page)?;
        self.is_memory();
        Ok(())
    }
}

/// Whether the low `width` bytes of a value are 0. The width is 1, 2 or 4.
fn are_zeros(width: u8, value: u32) -> bool
    requires { (width ≡ 1) ⊎ (width ≡ 2) ⊎ (width ≡ 4) }
    ensures { IsTrue result → AreZeros width value }
{
    match width {
        1 => value % 256 == 0,
        2 => value % 65536 == 0,
        _ => value == 0,
    }
}
