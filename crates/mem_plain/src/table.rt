//! A table of pages.
ghost use Rattle.std.specs.Prelude.{◌≡◌, vec_len};

use crate::page::Page;

/// Those pages that are kept of 1,024 neighbours, by the low ten bits of their numbers.
#[derive(Drop)]
pub struct Table {
    pub pages: Vec<Option<Page>>,
    ghost whole: { vec_len pages ≡ 1024 },
}
