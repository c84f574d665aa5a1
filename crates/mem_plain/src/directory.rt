//! The pages that are kept, found by two array accesses: a table by the high ten bits of a page's number, and the page
//! in it by the low ten.
ghost use Rattle.std.specs.Prelude.{◌≡◌, ◌≢◌, ◌⊎◌, ℕ, ◌+◌, ◌/◌, ◌<◌, ◌≤◌, ◌^◌, [], IfOk, OnOk, OnErr, Some, None, is_some, replicate, slice_index_or, option_copied, vec_len, length};
ghost use Rattle.mem_plain.specs.Pages.{page_in};
ghost use Rattle.mem_plain.specs.Kept.{AreBoth, Written, Laid, IsCopied};

use crate::page::Page;
use crate::table::Table;
use rd_base::Memory;
use std::alloc::{AllocError, Global};

/// How many tables there are.
const TABLES: u32 = 1024;

/// How many pages a table is for.
pub const TABLE_PAGES: u32 = 1024;

/// Tables of pages by the high ten bits of the pages' numbers: none until a page is put, and then a place for each.
#[derive(Drop)]
pub struct Directory {
    /// The tables in which some page is kept.
    pub tables: Vec<Option<Table>>,
}

impl Directory {
    /// No page is kept. It takes no memory.
    pub fn new(alloc: Global) -> Directory
        ensures { result.tables.items ≡ [] }
    {
        Directory {
            tables: Vec::new(alloc),
        }
    }

    fn table(&self, high: u32) -> Option<&Table>
        ensures { option_copied result ≡ slice_index_or self.now.tables.items high None }
    {
        if high as usize >= self.tables.len() {
            return None;
        }
        match &self.tables[high as usize] {
            Some(table) => Some(table),
            None => None,
        }
    }

    /// Whether some page is kept in the table of a page's number.
    pub fn has_table(&self, number: u32) -> bool
        ensures { result ≡ is_some (slice_index_or self.now.tables.items (number / 1024) None) }
    {
        self.table(number / TABLE_PAGES).is_some()
    }

    /// The page with a number, if it is kept.
    pub fn page(&self, number: u32) -> Option<&Page>
        ensures { option_copied result ≡ page_in self.now.tables.items number }
    {
        match self.table(number / TABLE_PAGES) {
            Some(table) => match &table.pages[(number % TABLE_PAGES) as usize] {
                Some(page) => Some(page),
                None => None,
            },
            None => None,
        }
    }

    /// Writes the low `width` bytes of `value` into the page with a number, from a place on, the least byte first, if the page is kept. The
    /// result is whether it is.
    pub fn write(&mut self, number: u32, at: usize, width: u8, value: u32) -> bool
        requires width { (width ≡ 1) ⊎ (width ≡ 2) ⊎ (width ≡ 4) }
        requires within { at + width ≤ 4096 }
        ensures there { result ≡ is_some (page_in self.old.tables.items number) }
        ensures here { AreBoth (Written at width value) (page_in self.old.tables.items number) (page_in self.new.tables.items number) }
        ensures elsewhere { (q : ℕ) → q ≢ number → page_in self.new.tables.items q ≡ page_in self.old.tables.items q }
    {
        let high = (number / TABLE_PAGES) as usize;
        if high >= self.tables.len() {
            return false;
        }
        match &mut self.tables[high] {
            Some(table) => match &mut table.pages[(number % TABLE_PAGES) as usize] {
                Some(page) => {
                    page.write(at, width, value);
                    true
                }
                None => false,
            },
            None => false,
        }
    }

    /// Lays bytes over those of the page with a number, from a place on, if the page is kept. The result is whether it is.
    pub fn lay(&mut self, number: u32, at: usize, bytes: &[u8]) -> bool
        requires { at + length bytes.now ≤ 4096 }
        ensures there { result ≡ is_some (page_in self.old.tables.items number) }
        ensures here { AreBoth (Laid at bytes.now) (page_in self.old.tables.items number) (page_in self.new.tables.items number) }
        ensures elsewhere { (q : ℕ) → q ≢ number → page_in self.new.tables.items q ≡ page_in self.old.tables.items q }
    {
        let high = (number / TABLE_PAGES) as usize;
        if high >= self.tables.len() {
            return false;
        }
        match &mut self.tables[high] {
            Some(table) => match &mut table.pages[(number % TABLE_PAGES) as usize] {
                Some(page) => {
                    page.lay(at, bytes);
                    true
                }
                None => false,
            },
            None => false,
        }
    }

    /// Makes a place for each table that has none. The same pages are kept.
    pub fn make_places(&mut self) -> Result<(), Memory>
        ensures places { OnOk result (1024 ≤ vec_len self.new.tables) }
        ensures same { (q : ℕ) → page_in self.new.tables.items q ≡ page_in self.old.tables.items q }
    {
        'places: for _place in self.tables.len() as u64..u64::from(TABLES) {
            self.tables.push(None)?;
        }
        Ok(())
    }

    /// Puts a page, which has a number below 2^20, into its table, and makes the table if there is none. There is a
    /// place for each table. An `Err` is out of memory, and changes nothing.
    pub fn put(&mut self, alloc: Global, number: u32, page: Page) -> Result<(), Memory>
        requires number { number < 2 ^ 20 }
        requires places { 1024 ≤ vec_len self.old.tables }
        ensures here { OnOk result (page_in self.new.tables.items number ≡ Some page) }
        ensures elsewhere { OnOk result ((q : ℕ) → q ≢ number → page_in self.new.tables.items q ≡ page_in self.old.tables.items q) }
        ensures err { OnErr result (self.new.tables.items ≡ self.old.tables.items) }
    {
        match &mut self.tables[(number / TABLE_PAGES) as usize] {
            Some(table) => {
                table.pages[(number % TABLE_PAGES) as usize] = Some(page);
                Ok(())
            }
            None => {
                let mut table = no_pages(alloc)?;
                table.pages[(number % TABLE_PAGES) as usize] = Some(page);
                self.tables[(number / TABLE_PAGES) as usize] = Some(table);
                Ok(())
            }
        }
    }

    /// A directory with copies of the pages.
    pub fn copy(&self) -> Result<Directory, Memory>
        ensures { IfOk result (λ copied. (q : ℕ) → IsCopied (page_in self.now.tables.items q) (page_in copied.tables.items q)) }
    {
        Ok(Directory {
            tables: self.tables.clone()?,
        })
    }
}

impl Clone for Table {
    ghost is_clone = { λ table copied. (low : ℕ) → IsCopied (slice_index_or table.pages.items low None) (slice_index_or copied.pages.items low None) };

    fn clone(&self) -> Result<Table, AllocError> {
        Ok(Table {
            pages: self.pages.clone()?,
        })
    }
}

/// A table in which no page is kept.
fn no_pages(alloc: Global) -> Result<Table, Memory>
    ensures { IfOk result (λ table. table.pages.items ≡ replicate 1024 None) }
{
    let mut pages = Vec::with_capacity(alloc, TABLE_PAGES as usize)?;
    'pages: for _k in 0..TABLE_PAGES {
        pages.push(None)?;
    }
    Ok(Table { pages })
}
