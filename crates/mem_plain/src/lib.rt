//! The machine's memory: 2^32 bytes, all of them 0 until something is stored.
//!
//! The layers above see a finite map from addresses to the bytes that aren't 0, whatever is kept inside.
//! `PlainMem::is_memory` and `memories_are_their_bytes` state that two memories with the same bytes are one value. `store`
//! and `lay` change their own bytes alone, which `laying_bytes` states byte by byte, and `numbers_lie_in_chunks` for the
//! chunks of 32 bytes. A memory is taken apart and put together by pages of 4,096 bytes with `next_page`,
//! `next_page_below`, `page` and `put_page`; `is_used` looks at one page alone. Inside, only those pages are kept that a byte
//! other than 0 was stored to, or bytes were laid or put into: an access finds its page by two array accesses (`directory`),
//! and `next_page` goes over the tables of these pages alone. Read `specs/Contents.antt` first, and then `memory` and `laws`. An `Err` that no comment names is out of memory.
#![tactic(auto)]

mod directory;
mod laws;
mod memory;
mod page;
mod table;

pub use laws::{
    contents_of_a_function, laying_bytes, memories_are_their_bytes, numbers_lie_in_chunks,
};
pub use memory::{PAGES, PlainMem};
pub use page::{PAGE_BYTES, Page};
