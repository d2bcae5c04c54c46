ghost use Rattle.std.specs.Prelude.{◌≡◌, ◌<◌, []};

use super::{KILL, item, same};
use std::alloc::Global;
use std::mem;
use std::sync::atomic::{AtomicBool, AtomicU64, Ordering};
use std::test::Fail;
use tr_hub::{Answer, Receipt};
use tr_model::{Event, Refusal};
use tr_workers::{Ended, Gate, Item, Plan, Port, Repeat, Script, Told, keep, work};

const WORKER: usize = 5;

/// What a port and a gate count, and whether the gate was ever told something else.
#[derive(Drop)]
struct Book {
    calls: AtomicU64,
    done: AtomicU64,
    wrong: AtomicBool,
}

impl Book {
    fn new() -> Book {
        Book {
            calls: AtomicU64::new(0),
            done: AtomicU64::new(0),
            wrong: AtomicBool::new(false),
        }
    }
}

/// Says yes at every other turn. It is to be told of each of these, once its call was made, and of no other.
#[derive(Drop)]
struct EveryOther<'a> {
    book: &'a Book,
}

impl Gate for EveryOther<'_> {
    ghost may_say = { λ gate worker turn said. Unit {0} };

    fn may(&self, worker: usize, turn: u64) -> bool {
        if worker != WORKER {
            self.book.wrong.store(true, Ordering::SeqCst);
        }
        turn % 2 == 0
    }

    fn done(&self, worker: usize, turn: u64) {
        let calls = self.book.calls.load(Ordering::SeqCst);
        let done = self.book.done.fetch_add(1, Ordering::SeqCst);
        let right = worker == WORKER
            && turn % 2 == 0
            && turn / 2 == calls
            && calls.checked_sub(1) == Some(done);
        if !right {
            self.book.wrong.store(true, Ordering::SeqCst);
        }
    }
}

/// A port in memory that refuses every call.
#[derive(Drop)]
struct Refusing<'a> {
    alloc: Global,
    book: &'a Book,
    calls: u64,
    receipts: Vec<Receipt>,
    told: Vec<Told>,
}

impl<'a> Refusing<'a> {
    fn new(alloc: Global, book: &'a Book) -> Refusing<'a>
        ensures { (result.calls ≡ 0) × (result.receipts.items ≡ []) × (result.told.items ≡ []) }
    {
        Refusing {
            alloc,
            book,
            calls: 0,
            receipts: Vec::new(alloc),
            told: Vec::new(alloc),
        }
    }
}

impl Port for Refusing<'_> {
    ghost calls = { λ p. p.calls };

    ghost receipts = { λ p. p.receipts.items };

    ghost told = { λ p. p.told.items };

    fn call(&mut self, event: Event) -> Answer {
        self.calls += 1;
        self.book.calls.fetch_add(1, Ordering::SeqCst);
        if self.receipts.reserve(1).is_err() || self.told.reserve(1).is_err() {
            return Answer::Refused(Refusal::NoMemory);
        }
        let answer = Answer::Refused(Refusal::Perm);
        keep(&mut self.receipts, &mut self.told, &event, &answer);
        answer
    }

    fn hand_over(&mut self) -> (Vec<Receipt>, Vec<Told>) {
        let receipts = mem::replace(&mut self.receipts, Vec::new(self.alloc));
        let told = mem::replace(&mut self.told, Vec::new(self.alloc));
        (receipts, told)
    }
}

#[test]
fn gate_is_told_of_each_call_after_it_was_made(rt: HostRuntime) -> Result<(), Fail> {
    let alloc = rt.alloc();
    let book = Book::new();
    let repeat = Repeat::Times(3);
    let items = item(
        alloc,
        Item {
            event: KILL,
            repeat,
        },
    )?;
    let script = Script {
        actor: 900,
        plan: Plan::Items(items),
    };
    let tally = work(
        alloc,
        WORKER,
        &mut Refusing::new(alloc, &book),
        &EveryOther { book: &book },
        &script,
        7,
    )?;
    same(&rt, &(tally.refused, tally.outcome), &(3, Ended::AtEnd));
    let counts = (
        book.calls.load(Ordering::SeqCst),
        book.done.load(Ordering::SeqCst),
        book.wrong.load(Ordering::SeqCst),
    );
    same(&rt, &counts, &(3, 3, false));
    Ok(())
}
