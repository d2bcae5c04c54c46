ghost use Rattle.std.specs.Prelude.{◌≡◌, ◌≤◌, ◌<◌, ◌+◌, ◌++◌, ◌^◌, ◌∷◌, [], IfOk, IsTrue, OnOk, codes, decimal, length};
ghost use Rattle.std.specs.Str.{bytes_eq};
ghost use Rattle.tr_workers.specs.Follows.{heard};
ghost use Rattle.tr_scenario.specs.RunTexts.{call_of};
ghost use Rattle.tr_picture.specs.Drawn.{Drawn, actor_head, actor_heads, blank, closed, group_head, placed, reports_at, shown, thread_head, times_note, with_answer, with_call, with_group, with_groups, with_new_row, with_row, with_start_row, with_thread, with_threads};
ghost use Rattle.tr_figures.specs.declared.styles.Style.TheVariants.{Ink};
ghost use Rattle.tr_figures.specs.Elements.{printed, words};
ghost use Rattle.tr_picture.specs.Layouts.{IsLaidOut};

use crate::layouts::Layout;
use crate::rows::{push_group_start, push_row_inside};
use itoa::Buffer;
use std::alloc::{AllocError, Global};
use std::marker::Model;
use tr_figures::{LaneReport, Style, list_reports, push_cells, push_number, push_words};
use tr_kernel::{Answer, Kernel, StepLog};
use tr_model::{Event, Reply, Target};
use tr_scenario::Page;
use tr_sigset::SigSet;
use tr_starts::GroupStart;
use tr_table::Table;

/// The most rows of a picture.
const MOST_ROWS: u64 = 200;

/// What is drawn of a run so far.
#[derive(Drop)]
pub(crate) struct Canvas {
    pub(crate) layout: Layout,
    pub(crate) calls: u64,
    pub(crate) rows: u64,
    times: u64,
    last: Page,
    pub(crate) lost: u64,
    pub(crate) page: Page,
}

impl Model for Canvas {
    ghost use Rattle.std.specs.Prelude.{◌≡◌, ◌≤◌, length};
    ghost use Rattle.tr_picture.specs.Drawn.{Drawn};
    ghost use Rattle.tr_picture.specs.Layouts.{IsLaidOut};

    ghost Value = { Drawn };

    ghost view = { λ c. record {
      layout = c.layout;
      calls = c.calls;
      rows = c.rows;
      times = c.times;
      last = c.last;
      lost = c.lost;
      text = c.page;
    } };

    ghost invariant = { λ c.
        IsLaidOut c.layout × (c.rows ≤ 200) × (length c.last ≡ 0 → c.times ≡ 0) };
}

/// Counts one more. What can't be counted has no memory either.
fn one_more(count: u64) -> Result<u64, AllocError>
    ensures { IfOk result (λ n. n ≡ count + 1) }
{
    count.checked_add(1).ok_or(AllocError)
}

/// Appends the head of an actor's lane.
fn push_actor_head(page: &mut Page, x: u64, actor: u32) -> Result<(), AllocError>
    requires { x < 2 ^ 32 }
    ensures { OnOk result (page.new ≡ page.old ++ printed (actor_head x actor)) }
{
    push_number(page, Style::Ink, x + 4, 78, actor)?;
    push_words(page, Style::Dim, x + 4, 94, &[b"actor"])?;
    Ok(())
}

/// Appends the heads of the actors' lanes.
fn push_actor_heads(page: &mut Page, actors: &[u32]) -> Result<(), AllocError>
    requires { length actors.now ≤ 8 }
    ensures { OnOk result (page.new ≡ page.old ++ printed (actor_heads 640 actors.now)) }
{
    let mut x = 640;
    for actor in actors {
        push_actor_head(page, x, *actor)?;
        x += 118;
    }
    Ok(())
}

/// Appends the head of a thread's lane.
fn push_thread_head(page: &mut Page, x: u64, id: u32) -> Result<(), AllocError>
    requires { x < 2 ^ 32 }
    ensures { OnOk result (page.new ≡ page.old ++ printed (thread_head x id)) }
{
    let mut digits = Buffer::new();
    let pieces: [&[u8]; 2] = [b"thread ", digits.format(id).as_bytes()];
    push_words(page, Style::Ink, x + 128, 94, &pieces)
}

/// Appends the id of a group, over its lane.
fn push_group_id(page: &mut Page, x: u64, tgid: u32) -> Result<(), AllocError>
    requires { x < 2 ^ 32 }
    ensures { OnOk result (page.new
        ≡ page.old ++ printed (words Ink (x + 128) 94 (codes "group " ∷ decimal tgid ∷ []))) }
{
    let mut digits = Buffer::new();
    let pieces: [&[u8]; 2] = [b"group ", digits.format(tgid).as_bytes()];
    push_words(page, Style::Ink, x + 128, 94, &pieces)
}

/// Appends the head of a group's lane.
fn push_group_head(page: &mut Page, x: u64, tgid: u32, name: &[u8]) -> Result<(), AllocError>
    requires { x < 2 ^ 32 }
    ensures { OnOk result (page.new ≡ page.old ++ printed (group_head x tgid name.now)) }
{
    push_words(page, Style::Name, x + 128, 78, &[name])?;
    push_group_id(page, x, tgid)?;
    Ok(())
}

/// Appends of how many calls the last of so many rows is, if of more than one.
fn push_times(page: &mut Page, rows: u64, times: u64) -> Result<(), AllocError>
    requires { rows ≤ 200 }
    ensures { OnOk result (page.new ≡ page.old ++ printed (times_note rows times)) }
{
    if times <= 1 {
        return Ok(());
    }
    let mut digits = Buffer::new();
    let pieces: [&[u8]; 2] = [b"x", digits.format(times).as_bytes()];
    push_words(page, Style::Dim, 16, 122 + 44 * rows, &pieces)
}

/// Appends a row, in which there is this, below so many rows.
fn push_placed(page: &mut Page, rows: u64, inside: &[u8]) -> Result<(), AllocError>
    requires { rows ≤ 200 }
    ensures { OnOk result (page.new ≡ page.old ++ placed rows inside.now) }
{
    push_group_start(page, 136 + 44 * rows)?;
    page.push(inside)?;
    page.push(b"</g>\n")?;
    Ok(())
}

fn is_same(one: &[u8], other: &[u8]) -> bool
    ensures { result ≡ bytes_eq one.now other.now }
{
    one == other
}

impl Canvas {
    /// Begins with lanes of the first of these actors.
    pub fn new(alloc: Global, actors: &[u32]) -> Result<Canvas, AllocError>
        ensures { IfOk result (λ c. c ≡ blank actors.now) }
    {
        let layout = Layout::new(alloc, actors)?;
        let mut page = Page::new(alloc);
        push_actor_heads(&mut page, layout.actors.as_slice())?;
        Ok(Canvas {
            layout,
            calls: 0,
            rows: 0,
            times: 0,
            last: Page::new(alloc),
            lost: 0,
            page,
        })
    }

    /// Adds a lane of a thread, unless it has one, or there are 16.
    fn add_thread(&mut self, id: u32) -> Result<(), AllocError>
        ensures { OnOk result (self.new ≡ with_thread self.old id) }
    {
        if self.layout.has_lane(Target::Thread(id)) {
            return Ok(());
        }
        if self.layout.threads >= 16 {
            self.layout.hidden_threads = one_more(self.layout.hidden_threads)?;
            return Ok(());
        }
        push_thread_head(&mut self.page, self.layout.lanes_right(), id)?;
        self.layout.add_thread(id)
    }

    /// Adds a lane of a group, unless there are 16.
    fn add_group(&mut self, tgid: u32, name: &[u8]) -> Result<(), AllocError>
        ensures { OnOk result (self.new ≡ with_group self.old tgid name.now) }
    {
        if self.layout.groups >= 16 {
            self.layout.hidden_groups = one_more(self.layout.hidden_groups)?;
            return Ok(());
        }
        push_group_head(&mut self.page, self.layout.lanes_right(), tgid, name)?;
        self.layout.add_group(tgid)
    }

    fn add_threads(&mut self, threads: &[(u32, SigSet)]) -> Result<(), AllocError>
        ensures { OnOk result (self.new ≡ with_threads self.old threads.now) }
    {
        for thread in threads {
            self.add_thread(thread.0)?;
        }
        Ok(())
    }

    /// Adds the lanes of groups and of their threads.
    pub fn add_groups(&mut self, groups: &[GroupStart]) -> Result<(), AllocError>
        ensures { OnOk result (self.new ≡ with_groups self.old groups.now) }
    {
        for group in groups {
            self.add_group(group.tgid, group.name.as_slice())?;
            self.add_threads(group.threads.as_slice())?;
        }
        Ok(())
    }

    /// Draws what holds before the first call.
    pub fn push_start_row(&mut self, table: &Table) -> Result<(), AllocError>
        ensures { OnOk result (self.new ≡ with_start_row self.old table.now.table) }
    {
        push_group_start(&mut self.page, 92)?;
        push_cells(
            &mut self.page,
            true,
            self.layout.lanes_left(),
            table,
            self.layout.lanes.as_slice(),
        )?;
        self.page.push(b"</g>\n")?;
        Ok(())
    }

    /// Tells of how many calls the last row is: it is of no call more.
    pub fn close(&mut self) -> Result<(), AllocError>
        ensures { OnOk result (self.new ≡ closed self.old) }
    {
        push_times(&mut self.page, self.rows, self.times)?;
        self.times = 0;
        self.last.clear();
        Ok(())
    }

    /// Draws a row, in which there is this.
    fn push_new_row(&mut self, inside: &[u8]) -> Result<(), AllocError>
        requires rows { self.old.rows < 200 }
        requires some { 0 < length inside.now }
        ensures { OnOk result (self.new ≡ with_new_row self.old inside.now) }
    {
        push_placed(&mut self.page, self.rows, inside)?;
        self.last.clear();
        self.times = 0;
        self.last.push(inside)?;
        self.rows += 1;
        self.times = 1;
        Ok(())
    }

    /// Draws a row, unless it is as the last one, or there are 200.
    fn push_row(&mut self, inside: &[u8]) -> Result<(), AllocError>
        requires { 0 < length inside.now }
        ensures { OnOk result (self.new ≡ with_row self.old inside.now) }
    {
        if is_same(inside, self.last.as_bytes()) {
            self.times = one_more(self.times)?;
            return Ok(());
        }
        self.close()?;
        if self.rows < MOST_ROWS {
            return self.push_new_row(inside);
        }
        self.lost = one_more(self.lost)?;
        Ok(())
    }

    /// Adds the lane of a thread that an answer tells of as new.
    fn hear(&mut self, answer: &Answer) -> Result<(), AllocError>
        ensures { OnOk result (self.new ≡ with_answer self.old (heard answer.now)) }
    {
        let Answer::Entered(receipt) = answer else {
            return Ok(());
        };
        let Reply::Cloned { tid } = receipt.reply else {
            return Ok(());
        };
        self.add_thread(tid)
    }

    /// Whether no further call can have a row, so that none needs to be composed.
    fn is_full(&self) -> bool
        ensures { IsTrue result
            → (inside : _)
            → 0 < length inside
            → with_row self.now inside ≡ record self.now { lost = self.now.lost + 1 } }
    {
        self.rows >= MOST_ROWS && self.last.len() == 0
    }

    /// Draws the row of a call that was made, if it may have one.
    fn show(
        &mut self,
        inside: &mut Page,
        line: &[u8],
        done: &StepLog,
        before: &[LaneReport],
        kernel: &Kernel,
        actor: u32,
        event: &Event,
        answer: &Answer,
    ) -> Result<(), AllocError>
        requires { length before.now ≤ 64 }
        ensures { OnOk result (self.new
            ≡ shown self.old line.now (length kernel.now.journal) done.now before.now
            kernel.now.table (call_of actor event.now) (heard answer.now)) }
    {
        if self.is_full() {
            self.lost = one_more(self.lost)?;
            return Ok(());
        }
        inside.clear();
        push_row_inside(
            inside,
            &self.layout,
            line,
            kernel.position(),
            done,
            before,
            kernel.table(),
            actor,
            event,
            answer,
        )?;
        self.push_row(inside.as_bytes())
    }

    /// Lists the reports that the lanes show at a table.
    pub fn list_reports(
        &self,
        reports: &mut Vec<LaneReport>,
        table: &Table,
    ) -> Result<(), AllocError>
        requires { reports.old.items ≡ [] }
        ensures reports { OnOk result (reports.new.items ≡ reports_at table.now.table self.now) }
        ensures few { OnOk result (length reports.new.items ≤ 64) }
    {
        list_reports(reports, table, self.layout.lanes.as_slice())
    }

    /// Draws a call that was made, with its line, what it did beside its answer, and the reports that lanes showed before it.
    pub fn push_call(
        &mut self,
        inside: &mut Page,
        line: &[u8],
        done: &StepLog,
        before: &[LaneReport],
        kernel: &Kernel,
        actor: u32,
        event: &Event,
        answer: &Answer,
    ) -> Result<(), AllocError>
        requires { length before.now ≤ 64 }
        ensures { OnOk result (self.new
            ≡ with_call self.old line.now (length kernel.now.journal) done.now before.now
            kernel.now.table (call_of actor event.now) (heard answer.now)) }
    {
        self.hear(answer)?;
        self.show(inside, line, done, before, kernel, actor, event, answer)?;
        self.calls = one_more(self.calls)?;
        Ok(())
    }
}
