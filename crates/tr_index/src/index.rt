ghost use Rattle.std.specs.Prelude.{◌≡◌, ℕ, ◌<◌, ◌≤◌, ◌==◌, ◌++◌, ◌∷◌, [], OnOk, OnErr, false, length, position, remove};
ghost use Rattle.std.specs.List.{list_any};
ghost use Rattle.tr_model.specs.Journals.{occurs};
ghost use Rattle.tr_index.specs.Pages.{IsIndex, IsMoved};

use crate::pages::Pages;
use std::alloc::{AllocError, Global};
use std::marker::Model;

/// The ids of a list's records, in the list's order: where the record of an id stands.
#[derive(Drop)]
pub struct Index {
    ids: Vec<u32>,
    /// Of each id its place, counted from 1.
    pages: Pages,
}

impl Model for Index {
    ghost use Rattle.std.specs.Prelude.{List, ℕ};
    ghost use Rattle.tr_index.specs.Pages.{IsIndex};

    ghost Value = { List ℕ };

    ghost view = { λ a. a.ids.items };

    ghost invariant = { λ a. IsIndex a.ids.items a.pages };
}

/// Lowers the numbers of the ids from a place on, after which one has gone.
fn move_up(ids: &[u32], pages: &mut Pages, place: usize)
    requires once { (n : ℕ) → occurs n ids.now ≤ 1 }
    requires moved { IsMoved place ids.now pages.old }
    ensures { IsIndex ids.now pages.new }
{
    for at in place..ids.len() {
        pages.set(ids[at], at + 1);
    }
}

impl Index {
    /// Makes an index of no ids, which takes no memory.
    pub fn new(alloc: Global) -> Index
        ensures { result ≡ [] }
    {
        Index {
            ids: Vec::new(alloc),
            pages: Pages::new(alloc),
        }
    }

    /// Says how many ids there are. None stands twice.
    pub fn len(&self) -> usize
        ensures len { result ≡ length self.now }
        ensures once { (n : ℕ) → occurs n self.now ≤ 1 }
    {
        self.ids.len()
    }

    /// Says where an id stands. None stands twice.
    #[inline(always)]
    pub fn place(&self, id: u32) -> Option<usize>
        ensures at { result ≡ position (λ n. n == id) self.now }
        ensures once { (n : ℕ) → occurs n self.now ≤ 1 }
    {
        self.pages.number(id).checked_sub(1)
    }

    /// Says the same, and looks first at a likely place.
    #[inline(always)]
    pub fn place_near(&self, likely: usize, id: u32) -> Option<usize>
        ensures at { result ≡ position (λ n. n == id) self.now }
        ensures once { (n : ℕ) → occurs n self.now ≤ 1 }
    {
        if likely < self.ids.len() && self.ids[likely] == id {
            return Some(likely);
        }
        self.place(id)
    }

    /// Puts a new id last. Where memory is refused nothing has changed.
    pub fn push(&mut self, id: u32) -> Result<(), AllocError>
        requires { list_any (λ n. n == id) self.old ≡ false }
        ensures ok { OnOk result (self.new ≡ self.old ++ id ∷ []) }
        ensures err { OnErr result (self.new ≡ self.old) }
    {
        self.ids.reserve(1)?;
        self.pages.open(id)?;
        self.ids.push_reserved(id);
        self.pages.set(id, self.ids.len());
        Ok(())
    }

    /// Takes the id at a place out, and those after it move up.
    pub fn remove(&mut self, place: usize)
        requires { place < length self.old }
        ensures { self.new ≡ remove self.old place }
    {
        let id = self.ids.remove(place);
        self.pages.set(id, 0);
        move_up(&self.ids, &mut self.pages, place);
    }
}
