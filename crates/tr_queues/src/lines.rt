ghost use Rattle.std.specs.Prelude.{◌≡◌, ℕ, ◌+◌, ◌<◌, ◌≤◌, ◌^◌, ◌++◌, ◌∷◌, [], IfSome, List, None, Some, false, filter, if◌then◌else◌, is_some, length, option_map, slice_get, true};
ghost use Rattle.indexmap.specs.IndexMap.{get, index_map_len, spare, values};
ghost use Rattle.tr_model.specs.Journals.{IsSorted};
ghost use Rattle.tr_model.specs.Tables.{same_target};
ghost use Rattle.tr_model.specs.declared.rows.Target.{Target};
ghost use Rattle.tr_model.specs.declared.rows.Waiting.{Waiting};
ghost use Rattle.tr_pending.specs.Waiting.{is_waiting};
ghost use Rattle.tr_pending.specs.declared.instance.Instance.{Instance};
ghost use Rattle.tr_queues.specs.Lines.{AreLines, IsQueue, StandsAt, first_number, is_key, line_at, line_of, longer, queue_at, same_key, unless_empty};
ghost use Rattle.tr_queues.specs.Queues.{is_one};
ghost use Rattle.tr_queues.specs.Slots.{line_in, standing};
ghost use Rattle.tr_queues.specs.declared.lines.Line.{Line};
ghost use Rattle.tr_queues.specs.declared.lines.Queue.{Queue};

use crate::hashing::WordHashing;
use crate::picked::is_one;
use crate::slots::Slot;
use indexmap::IndexMap;
use std::hash::Hash;
use tr_model::{Target, Waiting};
use tr_pending::Instance;
use tr_sigset::{SigSet, Signal};

/// Names a line: what waits of one signal for one target.
#[derive(Clone, Copy, Debug, PartialEq, Eq, Hash)]
pub(crate) struct LineKey {
    pub(crate) target: Target,
    pub(crate) signal: u8,
}

/// A line: the number of its first instance, and how many it has. An empty one may stay, and has no first.
#[derive(Clone, Copy, Debug)]
pub(crate) struct Line {
    pub(crate) first: u64,
    pub(crate) count: usize,
}

/// What waits for a target: of which signals, and how many instances.
#[derive(Clone, Copy, Debug)]
pub(crate) struct Queue {
    pub(crate) mask: SigSet,
    pub(crate) count: usize,
}

const EMPTY: Line = Line { first: 0, count: 0 };

/// Where a key stands, and its value. The key that came last is looked at first.
#[inline(always)]
pub(crate) fn find<K: Copy + Eq + Hash, V: Copy>(
    map: &IndexMap<K, V, WordHashing>,
    key: &K,
) -> Option<(usize, V)>
    ensures value { option_map (λ p. p.1) result ≡ get K.eq map.now key.now }
    ensures place { IfSome result (λ p. StandsAt K.eq map.now p.0 key.now) }
{
    let last = map.len().saturating_sub(1);
    match map.get_index(last) {
        Some((found, value)) if *key == *found => Some((last, *value)),
        _ => find_other(map, *key),
    }
}

/// The same, wherever the key stands. The value is read here, so that none comes through memory.
#[inline(always)]
fn find_other<K: Copy + Eq + Hash, V: Copy>(
    map: &IndexMap<K, V, WordHashing>,
    key: K,
) -> Option<(usize, V)>
    ensures value { option_map (λ p. p.1) result ≡ get K.eq map.now key }
    ensures place { IfSome result (λ p. StandsAt K.eq map.now p.0 key) }
{
    let place = place_of(map, key)?;
    let (_, value) = map.get_index(place)?;
    Some((place, *value))
}

/// Where a key stands.
#[cold]
#[inline(never)]
fn place_of<K: Copy + Eq + Hash, V: Copy>(
    map: &IndexMap<K, V, WordHashing>,
    key: K,
) -> Option<usize>
    ensures place { IfSome result (λ place. StandsAt K.eq map.now place key) }
    ensures value { IfSome result (λ place. slice_get (values map.now) place ≡ get K.eq map.now key) }
    ensures none { result ≡ None → get K.eq map.now key ≡ None }
{
    let (place, _, _) = map.get_full(&key)?;
    Some(place)
}

/// Writes the value of the key at a place.
#[inline(always)]
fn rewrite<K: Eq + Hash + Drop, V: Drop>(
    map: &mut IndexMap<K, V, WordHashing>,
    place: usize,
    value: V,
)
    ensures get { (key k : K)
        → StandsAt K.eq map.old place key
        → get K.eq map.new k ≡ (if K.eq key k then Some value else get K.eq map.old k) }
    ensures spare { spare map.new ≡ spare map.old }
    ensures len { index_map_len map.new ≡ index_map_len map.old }
{
    if let Some(kept) = map.get_index_mut(place) {
        *kept = value;
    }
}

/// Where a line stands, and what is kept of it, where something waits in it.
#[inline(always)]
pub(crate) fn find_line(
    lines: &IndexMap<LineKey, Line, WordHashing>,
    key: &LineKey,
) -> Option<(usize, Line)>
    ensures line { option_map (λ p. p.1) result
        ≡ line_at lines.now key.now.target key.now.signal }
    ensures place { IfSome result (λ p. StandsAt same_key lines.now p.0 key.now) }
{
    match find(lines, key) {
        Some((place, line)) if line.count != 0 => Some((place, line)),
        _ => None,
    }
}

fn key_of(waiting: &Waiting) -> LineKey
    ensures { result ≡ record { target = waiting.now.target; signal = waiting.now.instance.sig } }
{
    LineKey {
        target: waiting.target,
        signal: waiting.instance.sig.number(),
    }
}

/// Puts an instance last in its line.
#[inline(always)]
pub(crate) fn enter_line(lines: &mut IndexMap<LineKey, Line, WordHashing>, waiting: &Waiting)
    requires spare { 0 < spare lines.old }
    requires few { (l : Line)
        → line_at lines.old waiting.now.target waiting.now.instance.sig ≡ Some l
        → l.count + 1 < 2 ^ 64 }
    ensures get { (q : Target) (s : ℕ)
        → line_at lines.new q s
        ≡ (if is_key waiting.now q s
        then Some
        (longer waiting.now.instance.n
        (line_at lines.old waiting.now.target waiting.now.instance.sig))
        else line_at lines.old q s) }
    ensures spare { spare lines.old ≤ spare lines.new + 1 }
    ensures places { index_map_len lines.old + spare lines.old
        ≤ index_map_len lines.new + spare lines.new }
    ensures len { index_map_len lines.new ≤ index_map_len lines.old + 1 }
{
    let key = key_of(waiting);
    match find(lines, &key) {
        Some((place, line)) => rewrite(lines, place, longer(&line, waiting.instance.n)),
        None => {
            let line = Line {
                first: waiting.instance.n,
                count: 1,
            };
            let _none = lines.insert(key, line).unwrap();
        }
    }
}

/// A line with one more instance, which comes last.
fn longer(line: &Line, n: u64) -> Line
    requires { line.now.count + 1 < 2 ^ 64 }
    ensures { result ≡ longer n (unless_empty (Some line.now)) }
{
    Line {
        first: if line.count == 0 { n } else { line.first },
        count: line.count + 1,
    }
}

/// Puts an instance last in its queue.
#[inline(always)]
pub(crate) fn enter_queue(queues: &mut IndexMap<Target, Queue, WordHashing>, waiting: &Waiting)
    requires spare { 0 < spare queues.old }
    requires few { (x : Queue)
        → queue_at queues.old waiting.now.target ≡ Some x
        → x.count + 1 < 2 ^ 64 }
    ensures own { (q : Target) (is : List Instance)
        → same_target waiting.now.target q ≡ true
        → IsQueue (queue_at queues.old waiting.now.target) is
        → IsQueue (queue_at queues.new q) (is ++ waiting.now.instance ∷ []) }
    ensures others { (q : Target)
        → same_target waiting.now.target q ≡ false
        → queue_at queues.new q ≡ queue_at queues.old q }
    ensures spare { spare queues.old ≤ spare queues.new + 1 }
    ensures places { index_map_len queues.old + spare queues.old
        ≤ index_map_len queues.new + spare queues.new }
{
    let target = waiting.target;
    match find(queues, &target) {
        Some((place, queue)) => rewrite(queues, place, wider(&queue, &waiting.instance)),
        None => {
            let queue = Queue {
                mask: SigSet::empty().with(waiting.instance.sig),
                count: 1,
            };
            let _none = queues.insert(target, queue).unwrap();
        }
    }
}

/// A queue with one more instance, which comes last.
fn wider(queue: &Queue, instance: &Instance) -> Queue
    requires { queue.now.count + 1 < 2 ^ 64 }
    ensures { (is : List Instance)
        → IsQueue (Some queue.now) is
        → IsQueue (Some result) (is ++ instance.now ∷ []) }
{
    Queue {
        mask: queue.mask.with(instance.sig),
        count: queue.count + 1,
    }
}

/// The number of the first that waits of one signal for one target, in these slots.
fn first_of_line(slots: &[Slot], target: Target, signal: Signal) -> Option<u64>
    ensures { result ≡ first_number (filter (is_one target signal) (standing slots.now)) }
{
    for slot in slots {
        if !slot.gone && is_one(target, signal, &slot.waiting) {
            return Some(slot.waiting.instance.n);
        }
    }
    None
}

/// What is left of a line where an instance goes; `after` are the slots after that of the instance.
fn left_of(line: &Line, waiting: &Waiting, after: &[Slot]) -> Line
    ensures { (before : List Waiting)
        → IsSorted (before ++ waiting.now ∷ line_in waiting.now after.now)
        → Some line.now ≡ line_of (before ++ waiting.now ∷ line_in waiting.now after.now)
        → unless_empty (Some result) ≡ line_of (before ++ line_in waiting.now after.now) }
{
    if line.count <= 1 {
        return EMPTY;
    }
    let count = line.count - 1;
    if line.first != waiting.instance.n {
        return Line { count, ..*line };
    }
    match first_of_line(after, waiting.target, waiting.instance.sig) {
        Some(first) => Line { first, count },
        None => EMPTY,
    }
}

/// Takes an instance out of its line, and says whether the line has others.
pub(crate) fn leave_line(
    lines: &mut IndexMap<LineKey, Line, WordHashing>,
    waiting: &Waiting,
    after: &[Slot],
) -> bool
    requires { is_some (line_at lines.old waiting.now.target waiting.now.instance.sig) ≡ true }
    ensures others { (q : Target) (s : ℕ)
        → is_key waiting.now q s ≡ false
        → line_at lines.new q s ≡ line_at lines.old q s }
    ensures own { (q : Target) (s : ℕ) (before : List Waiting)
        → is_key waiting.now q s ≡ true
        → IsSorted (before ++ waiting.now ∷ line_in waiting.now after.now)
        → line_at lines.old waiting.now.target waiting.now.instance.sig
        ≡ line_of (before ++ waiting.now ∷ line_in waiting.now after.now)
        → line_at lines.new q s ≡ line_of (before ++ line_in waiting.now after.now) }
    ensures answer { result
        ≡ is_some (line_at lines.new waiting.now.target waiting.now.instance.sig) }
    ensures spare { spare lines.old ≤ spare lines.new }
    ensures places { index_map_len lines.old + spare lines.old
        ≤ index_map_len lines.new + spare lines.new }
{
    let key = key_of(waiting);
    let Some((place, line)) = find_line(lines, &key) else {
        return false;
    };
    let left = left_of(&line, waiting, after);
    rewrite(lines, place, left);
    left.count != 0
}

/// Takes an instance out of its queue; `stays` says whether others of its signal wait there.
pub(crate) fn leave_queue(
    queues: &mut IndexMap<Target, Queue, WordHashing>,
    waiting: &Waiting,
    stays: bool,
)
    requires { is_some (queue_at queues.old waiting.now.target) ≡ true }
    ensures own { (q : Target) (before after : List Instance)
        → same_target waiting.now.target q ≡ true
        → stays ≡ is_waiting waiting.now.instance.sig (before ++ after)
        → IsQueue (queue_at queues.old waiting.now.target) (before ++ waiting.now.instance ∷ after)
        → IsQueue (queue_at queues.new q) (before ++ after) }
    ensures others { (q : Target)
        → same_target waiting.now.target q ≡ false
        → queue_at queues.new q ≡ queue_at queues.old q }
    ensures spare { spare queues.old ≤ spare queues.new }
    ensures places { index_map_len queues.old + spare queues.old
        ≤ index_map_len queues.new + spare queues.new }
{
    if let Some((place, queue)) = find(queues, &waiting.target) {
        let left = narrower(&queue, waiting.instance.sig, stays);
        rewrite(queues, place, left);
    }
}

/// A queue that has lost an instance of the signal; `stays` says whether it has others of it.
fn narrower(queue: &Queue, signal: Signal, stays: bool) -> Queue
    ensures { (i : Instance) (before after : List Instance)
        → i.sig ≡ signal
        → stays ≡ is_waiting signal (before ++ after)
        → IsQueue (Some queue.now) (before ++ i ∷ after)
        → IsQueue (Some result) (before ++ after) }
{
    let mask = if stays {
        queue.mask
    } else {
        queue.mask.without(signal)
    };
    Queue {
        mask,
        count: queue.count.saturating_sub(1),
    }
}

/// Makes the lines and the queues of all that waits in these slots, and no others.
pub(crate) fn enter_all(
    lines: &mut IndexMap<LineKey, Line, WordHashing>,
    queues: &mut IndexMap<Target, Queue, WordHashing>,
    slots: &[Slot],
)
    requires line_room { length (standing slots.now) ≤ index_map_len lines.old + spare lines.old }
    requires queue_room { length (standing slots.now)
        ≤ index_map_len queues.old + spare queues.old }
    ensures made { AreLines lines.new queues.new (standing slots.now) }
    ensures line_spare { index_map_len lines.old + spare lines.old
        ≤ spare lines.new + length (standing slots.now) }
    ensures queue_spare { index_map_len queues.old + spare queues.old
        ≤ spare queues.new + length (standing slots.now) }
    ensures line_places { index_map_len lines.old + spare lines.old
        ≤ index_map_len lines.new + spare lines.new }
    ensures queue_places { index_map_len queues.old + spare queues.old
        ≤ index_map_len queues.new + spare queues.new }
    ensures few { index_map_len lines.new ≤ length (standing slots.now) }
{
    lines.clear();
    queues.clear();
    for slot in slots {
        if !slot.gone {
            enter_line(lines, &slot.waiting);
            enter_queue(queues, &slot.waiting);
        }
    }
}
