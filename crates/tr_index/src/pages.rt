ghost use Rattle.std.specs.Prelude.{◌≡◌, ℕ, ◌==◌, ◌<◌, ◌/◌, ◌%◌, [], OnOk, if◌then◌else◌, get_or, length, set};
ghost use Rattle.tr_index.specs.Pages.{IsOpen, number_at};

use std::alloc::{AllocError, Global};
use std::marker::Model;

/// How many ids a page has numbers of.
const PAGE: usize = 256;

/// The numbers of some ids in a row, up to the last that room was made for.
#[derive(Drop)]
struct Page {
    numbers: Vec<usize>,
}

impl Model for Page {
    ghost use Rattle.std.specs.Prelude.{List, ℕ};

    ghost Value = { List ℕ };

    ghost view = { λ p. p.numbers.items };
}

impl Page {
    fn new(alloc: Global) -> Page
        ensures { result ≡ [] }
    {
        Page {
            numbers: Vec::new(alloc),
        }
    }

    fn number(&self, at: usize) -> usize
        ensures { result ≡ get_or self.now at 0 }
    {
        match self.numbers.get(at) {
            Some(number) => *number,
            None => 0,
        }
    }

    /// Makes room for the number at a place, and for those before it: 0 until they are set.
    fn open(&mut self, at: usize) -> Result<(), AllocError>
        requires { at < 256 }
        ensures same { (i : ℕ) → get_or self.new i 0 ≡ get_or self.old i 0 }
        ensures ok { OnOk result (at < length self.new) }
    {
        self.numbers
            .reserve((at + 1).saturating_sub(self.numbers.len()))?;
        for _ in self.numbers.len()..at + 1 {
            self.numbers.push_reserved(0);
        }
        Ok(())
    }

    fn set(&mut self, at: usize, number: usize)
        requires { at < length self.old }
        ensures { self.new ≡ set self.old at number }
    {
        self.numbers[at] = number;
    }
}

/// A number for each id, found in a page of its neighbours; 0 where none was set.
#[derive(Drop)]
pub(crate) struct Pages {
    alloc: Global,
    pages: Vec<Page>,
}

impl Model for Pages {
    ghost use Rattle.std.specs.Prelude.{List, ℕ};

    ghost Value = { List (List ℕ) };

    ghost view = { λ p. p.pages.items };
}

fn page_of(id: u32) -> usize
    ensures { result ≡ id / 256 }
{
    id as usize / PAGE
}

fn place_of(id: u32) -> usize
    ensures same { result ≡ id % 256 }
    ensures within { result < 256 }
{
    id as usize % PAGE
}

impl Pages {
    pub(crate) fn new(alloc: Global) -> Pages
        ensures { result ≡ [] }
    {
        Pages {
            alloc,
            pages: Vec::new(alloc),
        }
    }

    /// The number of an id.
    #[inline(always)]
    pub(crate) fn number(&self, id: u32) -> usize
        ensures { result ≡ number_at self.now id }
    {
        match self.pages.get(page_of(id)) {
            Some(page) => page.number(place_of(id)),
            None => 0,
        }
    }

    /// Makes room for the number of an id. Numbers stay as they are.
    pub(crate) fn open(&mut self, id: u32) -> Result<(), AllocError>
        ensures same { (n : ℕ) → number_at self.new n ≡ number_at self.old n }
        ensures ok { OnOk result (IsOpen self.new id) }
    {
        let page = page_of(id);
        self.pages
            .reserve((page + 1).saturating_sub(self.pages.len()))?;
        for _ in self.pages.len()..page + 1 {
            self.pages.push_reserved(Page::new(self.alloc));
        }
        self.pages[page].open(place_of(id))
    }

    /// Sets the number of an id.
    pub(crate) fn set(&mut self, id: u32, number: usize)
        requires { IsOpen self.old id }
        ensures numbers { (n : ℕ)
            → number_at self.new n ≡ (if n == id then number else number_at self.old n) }
        ensures open { (n : ℕ) → IsOpen self.old n → IsOpen self.new n }
    {
        self.pages[page_of(id)].set(place_of(id), number);
    }
}
