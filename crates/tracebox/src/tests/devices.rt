ghost use Rattle.std.specs.Prelude.{◌≡◌};

use std::alloc::Global;
use tr_scenario::{Got, Source};
use tr_status::Sink;

/// How devices in memory behave: how many bytes they give or take at a time, and which call of each goes wrong, counted
/// from 1; 0 is none.
#[derive(Clone, Copy)]
pub struct Ways {
    pub most: usize,
    pub failing_get: usize,
    pub interrupted_get: usize,
    pub failing_put: usize,
    pub failing_tell: usize,
}

/// Nothing goes wrong.
pub const SOUND: Ways = Ways {
    most: 4096,
    failing_get: 0,
    interrupted_get: 0,
    failing_put: 0,
    failing_tell: 0,
};

/// Counts calls down, and says whether this is the one that goes wrong.
fn goes_wrong(calls: &mut usize) -> bool {
    let now = *calls == 1;
    *calls = calls.saturating_sub(1);
    now
}

/// Takes at most `most` bytes a put, and fails at one put.
#[derive(Drop)]
pub struct Page {
    pub bytes: Vec<u8>,
    most: usize,
    failing: usize,
    failures: u64,
}

impl Sink for Page {
    ghost taken = { λ p. p.bytes.items };

    ghost failures = { λ p. p.failures };

    fn put(&mut self, bytes: &[u8]) -> Option<usize> {
        let count = bytes.len().min(self.most);
        if count > 0
            && !goes_wrong(&mut self.failing)
            && self.bytes.extend_from_slice(&bytes[..count]).is_ok()
        {
            return Some(count);
        }
        self.failures += 1;
        None
    }
}

pub fn blank_page(alloc: Global, most: usize, failing: usize) -> Page
    ensures { result.failures ≡ 0 }
{
    Page {
        bytes: Vec::new(alloc),
        most,
        failing,
        failures: 0,
    }
}

/// Gives a text, at most `most` bytes a call. It fails at one call, and is interrupted at another.
#[derive(Drop)]
pub struct Feed<'a> {
    rest: &'a [u8],
    given: Vec<u8>,
    ways: Ways,
    ended: bool,
    failures: u64,
    interruptions: u64,
}

impl Source for Feed<'_> {
    ghost shown = { λ s. record {
      given = s.given.items;
      ended = s.ended;
      failures = s.failures;
      interruptions = s.interruptions;
    } };

    fn get(&mut self, room: &mut [u8]) -> Got {
        self.ended = false;
        if goes_wrong(&mut self.ways.failing_get) {
            self.failures += 1;
            return Got::Failed;
        }
        if goes_wrong(&mut self.ways.interrupted_get) {
            self.interruptions += 1;
            return Got::Interrupted;
        }
        let count = room.len().min(self.ways.most).min(self.rest.len());
        room[..count].copy_from_slice(&self.rest[..count]);
        if self.given.extend_from_slice(&room[..count]).is_err() {
            self.failures += 1;
            return Got::Failed;
        }
        self.rest = &self.rest[count..];
        self.ended = count == 0;
        Got::Bytes(count)
    }
}

pub fn new_feed<'a>(alloc: Global, text: &'a [u8], ways: Ways) -> Feed<'a>
    ensures failures { result.failures ≡ 0 }
    ensures interruptions { result.interruptions ≡ 0 }
{
    Feed {
        rest: text,
        given: Vec::new(alloc),
        ways,
        ended: false,
        failures: 0,
        interruptions: 0,
    }
}
