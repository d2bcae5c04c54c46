ghost use Rattle.std.specs.Prelude.{◌≡◌, ◌↔◌, ◌++◌, ◌+◌, ◌≤◌, ◌<◌, ◌∷◌, [], IsTrue, OnOk, Some, true};
ghost use Rattle.std.specs.Option.{option_to_list};
ghost use Rattle.tr_steps.specs.News.{IsPlain, no_news};

use std::alloc::{AllocError, Global};
use std::marker::Model;
use tr_model::{Raise, Target};

/// What a step did beside what it ended. Most raise reports at most, or take from a queue.
pub struct News {
    raises: Vec<Raise>,
    dying: Vec<u32>,
    killed: Vec<u32>,
    renamed: Vec<u32>,
    taken_from: Option<Target>,
    /// At most reports are in it, and whose queue a take took from.
    is_plain: bool,
    /// How many places each of the lists has at least, those in use included.
    places: usize,
}

impl Drop for News {
    fn drop(self) {
        let News {
            raises: _,
            dying: _,
            killed: _,
            renamed: _,
            taken_from: _,
            is_plain: _,
            places: _,
        } = self;
    }
}

impl Model for News {
    ghost use Rattle.tr_steps.specs.News.{IsKnown, NewsAndRoom, news_and_room};

    ghost Value = { NewsAndRoom };

    ghost view = { news_and_room };

    ghost invariant = { IsKnown };
}

impl News {
    pub(crate) fn new(alloc: Global) -> News
        ensures { result.news ≡ no_news }
    {
        News {
            raises: Vec::new(alloc),
            dying: Vec::new(alloc),
            killed: Vec::new(alloc),
            renamed: Vec::new(alloc),
            taken_from: None,
            is_plain: true,
            places: 0,
        }
    }

    /// The reports that were raised, in order.
    pub fn raises(&self) -> &[Raise]
        ensures { result.now ≡ self.now.news.raises }
    {
        self.raises.as_slice()
    }

    /// The groups whose death the step began, in order.
    pub fn dying(&self) -> &[u32]
        ensures { result.now ≡ self.now.news.dying }
    {
        self.dying.as_slice()
    }

    /// The groups that a KILL was delivered to, in order.
    pub fn killed(&self) -> &[u32]
        ensures { result.now ≡ self.now.news.killed }
    {
        self.killed.as_slice()
    }

    /// The ids that the step gave to another thread.
    pub fn renamed(&self) -> &[u32]
        ensures { result.now ≡ self.now.news.renamed }
    {
        self.renamed.as_slice()
    }

    /// Whose queue a take took from. None in every other step.
    pub fn taken_from(&self) -> Option<Target>
        ensures { result ≡ self.now.news.taken_from }
    {
        self.taken_from
    }

    /// Whether there are at most reports in it, and whose queue a take took from.
    #[inline(always)]
    pub fn is_plain(&self) -> bool
        ensures { IsTrue result ↔ IsPlain self.now.news }
    {
        self.is_plain
    }

    /// Forgets it all. The places stay.
    #[inline(always)]
    pub(crate) fn clear(&mut self)
        ensures { self.new.news ≡ no_news }
    {
        self.raises.clear();
        self.taken_from = None;
        if self.is_plain {
            return;
        }
        self.dying.clear();
        self.killed.clear();
        self.renamed.clear();
        self.is_plain = true;
    }

    /// Whether each list is known to have so many places, where all are empty.
    #[inline(always)]
    pub(crate) fn has_places(&self, n: usize) -> bool
        requires { self.now.news ≡ no_news }
        ensures { result ≡ true → n ≤ self.now.room }
    {
        n <= self.places
    }

    /// Makes places for n more in each list.
    pub(crate) fn reserve(&mut self, n: usize) -> Result<(), AllocError>
        ensures news { self.new.news ≡ self.old.news }
        ensures room { OnOk result (n ≤ self.new.room) }
    {
        self.raises.reserve(n)?;
        self.dying.reserve(n)?;
        self.killed.reserve(n)?;
        self.renamed.reserve(n)?;
        self.places = n;
        Ok(())
    }

    pub(crate) fn raise(&mut self, raise: &Raise)
        requires { 0 < self.old.room }
        ensures news { self.new.news
            ≡ record self.old.news { raises = self.old.news.raises ++ raise.now ∷ [] } }
        ensures room { self.old.room ≤ self.new.room + 1 }
    {
        self.raises.push_reserved(Raise {
            number: raise.number,
            whom: raise.whom,
            id: raise.id,
            status: raise.status,
        });
    }

    /// Adds a report, if one was raised.
    pub(crate) fn raise_some(&mut self, raise: &Option<Raise>)
        requires { 0 < self.old.room }
        ensures news { self.new.news
            ≡ record self.old.news { raises = self.old.news.raises ++ option_to_list raise.now } }
        ensures room { self.old.room ≤ self.new.room + 1 }
    {
        if let Some(raise) = raise {
            self.raise(raise);
        }
    }

    /// Adds the id that a thread took, if it took one.
    pub(crate) fn rename_some(&mut self, id: Option<u32>)
        requires { 0 < self.old.room }
        ensures news { self.new.news
            ≡ record self.old.news { renamed = self.old.news.renamed ++ option_to_list id } }
        ensures room { self.old.room ≤ self.new.room + 1 }
    {
        if let Some(id) = id {
            self.renamed.push_reserved(id);
            self.is_plain = false;
        }
    }

    pub(crate) fn tell_dying(&mut self, tgid: u32)
        requires { 0 < self.old.room }
        ensures news { self.new.news
            ≡ record self.old.news { dying = self.old.news.dying ++ tgid ∷ [] } }
        ensures room { self.old.room ≤ self.new.room + 1 }
    {
        self.dying.push_reserved(tgid);
        self.is_plain = false;
    }

    pub(crate) fn tell_killed(&mut self, tgid: u32)
        requires { 0 < self.old.room }
        ensures news { self.new.news
            ≡ record self.old.news { killed = self.old.news.killed ++ tgid ∷ [] } }
        ensures room { self.old.room ≤ self.new.room + 1 }
    {
        self.killed.push_reserved(tgid);
        self.is_plain = false;
    }

    pub(crate) fn take_from(&mut self, queue: Target)
        ensures news { self.new.news ≡ record self.old.news { taken_from = Some queue } }
        ensures room { self.new.room ≡ self.old.room }
    {
        self.taken_from = Some(queue);
    }
}
