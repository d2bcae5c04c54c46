ghost use Rattle.std.specs.Prelude.{◌≡◌, ◌<◌, ◌^◌, IfOk, length, map, sum_by, vec_len};
ghost use Rattle.tr_hub.specs.Seats.{new_seat};
ghost use Rattle.tr_workers.specs.Private.{AreKept, task, tasks};
ghost use Rattle.tr_workers.specs.Runs.{AreDone, IsDone};

use crate::ports::{Gate, Port};
use crate::receipts::Receipts;
use crate::scripts::Script;
use crate::seat_ports::SeatPort;
use crate::working::work;
use std::alloc::{AllocError, Global};
use std::sync::Wait;
use std::thread::{self, Promise, PromisedHandle, Scope, Threads};
use tr_hub::{Hub, Parts, Seat};
use tr_starts::Items;

/// A worker's seat after its work, and what it hands back.
#[derive(Drop)]
struct Done<E: Parts, A: Parts> {
    seat: Seat<E, A>,
    receipts: Receipts,
}

/// What the thread of a worker is to hand back.
#[derive(Drop)]
struct WorkOf<'a, G: Gate> {
    gate: &'a G,
    worker: usize,
    script: &'a Script,
    turns: u64,
}

impl<'a, E: Parts, A: Parts, G: Gate> Promise<Result<Done<E, A>, AllocError>> for WorkOf<'a, G> {
    ghost use Rattle.std.specs.Prelude.{◌≡◌, IfOk};
    ghost use Rattle.tr_workers.specs.Runs.{IsDone};

    ghost kept_by = { λ p r. IfOk r (λ d.
        IsDone (G.may_say p.gate.now p.worker) p.turns p.script.now d.receipts
        × (d.seat.entries ≡ d.receipts.entries)
        × (d.seat.accepted ≡ d.receipts.accepted)) };
}

/// All workers' seats after their work, and what they hand back, both in their order.
#[derive(Drop)]
pub(crate) struct Team<E: Parts, A: Parts> {
    pub(crate) seats: Vec<Seat<E, A>>,
    pub(crate) receipts: Vec<Receipts>,
}

/// The work of one worker at its actor's seat.
fn work_at<E: Parts, A: Parts, R: Wait, G: Gate>(
    rt: &R,
    alloc: Global,
    hub: &Hub<E, A>,
    gate: &G,
    worker: usize,
    script: &Script,
    seat: Seat<E, A>,
    turns: u64,
) -> Result<Done<E, A>, AllocError>
    requires actor { seat.actor ≡ script.now.actor }
    requires fresh { (seat.entries ≡ 0) × (seat.accepted ≡ 0) }
    requires turns { turns < 2 ^ 32 }
    ensures done { IfOk result
        (λ d. IsDone (G.may_say gate.now worker) turns script.now d.receipts) }
    ensures shares { IfOk result
        (λ d. (d.seat.entries ≡ d.receipts.entries) × (d.seat.accepted ≡ d.receipts.accepted)) }
{
    let mut port = SeatPort::new(alloc, rt, hub, seat);
    let tally = work(alloc, worker, &mut port, gate, script, turns)?;
    let (list, told) = port.hand_over();
    let receipts = Receipts {
        actor: script.actor,
        list: Items::from_vec(list),
        told: Items::from_vec(told),
        entries: tally.entries,
        accepted: tally.accepted,
        refused: tally.refused,
        outcome: tally.outcome,
    };
    Ok(Done {
        seat: port.into_seat(),
        receipts,
    })
}

/// Starts a thread for each script, whose number is the worker's.
fn start_all<
    's,
    'e: 's,
    E: Parts + Send + Sync,
    A: Parts + Send + Sync,
    R: Threads + Wait + Sync,
    G: Gate + Sync,
>(
    scope: &Scope<'s, &'e ()>,
    rt: &'e R,
    alloc: Global,
    hub: &'e Hub<E, A>,
    gate: &'e G,
    scripts: &'e [Script],
    mut seats: Vec<Seat<E, A>>,
    turns: u64,
) -> Result<Vec<PromisedHandle<Result<Done<E, A>, AllocError>, WorkOf<'e, G>>>, AllocError>
    requires turns { turns < 2 ^ 32 }
    requires seats { seats.items ≡ map (λ s. new_seat s.actor) scripts.now }
    ensures tasks { IfOk result
        (λ handles. map
        (λ h. task h.promise.gate.now h.promise.worker h.promise.script.now h.promise.turns) handles.items
        ≡ tasks gate.now 0 scripts.now turns) }
    ensures count { IfOk result (λ handles. vec_len handles ≡ length scripts.now) }
{
    let mut handles = Vec::new(alloc);
    for worker in 0..scripts.len() {
        let script = &scripts[worker];
        let seat = seats.remove(0);
        let job = move || -> Result<Done<E, A>, AllocError>
            requires { (seat.actor ≡ script.now.actor)
                × (seat.entries ≡ 0)
                × (seat.accepted ≡ 0)
                × (turns < 2 ^ 32) }
            ensures { IfOk result
                (λ d. IsDone (G.may_say gate.entry.now worker) turns script.entry.now d.receipts
                × (d.seat.entries ≡ d.receipts.entries)
                × (d.seat.accepted ≡ d.receipts.accepted)) }
        { work_at(rt, alloc, hub, gate, worker, script, seat, turns) };
        let promise = WorkOf {
            gate,
            worker,
            script,
            turns,
        };
        handles.push(scope.spawn_with(promise, job)?)?;
    }
    Ok(handles)
}

/// Joins all threads.
fn join_all<'s, E: Parts + Send + Sync, A: Parts + Send + Sync, R: Threads, G: Gate + Sync>(
    rt: &R,
    alloc: Global,
    handles: Vec<PromisedHandle<Result<Done<E, A>, AllocError>, WorkOf<'s, G>>>,
) -> Result<Team<E, A>, AllocError>
    ensures done { IfOk result
        (λ t. AreKept G.may_say
        (map (λ h. task h.promise.gate.now h.promise.worker h.promise.script.now h.promise.turns) handles.entry.items) t.receipts.items) }
    ensures entries { IfOk result
        (λ t. sum_by (λ s. s.entries) t.seats.items ≡ sum_by (λ r. r.entries) t.receipts.items) }
    ensures accepted { IfOk result
        (λ t. sum_by (λ s. s.accepted) t.seats.items ≡ sum_by (λ r. r.accepted) t.receipts.items) }
    ensures seats { IfOk result (λ t. vec_len t.seats ≡ vec_len handles.entry) }
{
    let mut seats = Vec::new(alloc);
    let mut receipts = Vec::new(alloc);
    for handle in handles {
        let done = handle.join(rt)?;
        seats.push(done.seat)?;
        receipts.push(done.receipts)?;
    }
    Ok(Team { seats, receipts })
}

/// The work of all workers, each on a thread of its own, until all are joined.
#[tactic(auto, using(crate::proofs::Joins::all_done))]
pub(crate) fn work_on_threads<
    E: Parts + Send + Sync,
    A: Parts + Send + Sync,
    R: Threads + Wait + Sync,
    G: Gate + Sync,
>(
    rt: &R,
    alloc: Global,
    hub: &Hub<E, A>,
    gate: &G,
    scripts: &[Script],
    seats: Vec<Seat<E, A>>,
    turns: u64,
) -> Result<Team<E, A>, AllocError>
    requires turns { turns < 2 ^ 32 }
    requires seats { seats.items ≡ map (λ s. new_seat s.actor) scripts.now }
    ensures done { IfOk result
        (λ t. AreDone (G.may_say gate.now) turns 0 scripts.now t.receipts.items) }
    ensures entries { IfOk result
        (λ t. sum_by (λ s. s.entries) t.seats.items ≡ sum_by (λ r. r.entries) t.receipts.items) }
    ensures accepted { IfOk result
        (λ t. sum_by (λ s. s.accepted) t.seats.items ≡ sum_by (λ r. r.accepted) t.receipts.items) }
    ensures seats { IfOk result (λ t. vec_len t.seats ≡ length scripts.now) }
{
    thread::scope(
        thread::scope_env(),
        rt,
        |scope| -> Result<Team<E, A>, AllocError>
            requires { (turns < 2 ^ 32) × (seats.items ≡ map (λ s. new_seat s.actor) scripts.now) }
            ensures { IfOk result (λ t.
                AreKept G.may_say (tasks gate.entry.now 0 scripts.entry.now turns) t.receipts.items
                × (sum_by (λ s. s.entries) t.seats.items ≡ sum_by (λ r. r.entries) t.receipts.items)
                × (sum_by (λ s. s.accepted) t.seats.items
                ≡ sum_by (λ r. r.accepted) t.receipts.items)
                × (vec_len t.seats ≡ length scripts.entry.now)) }
        {
            let handles = start_all(scope, rt, alloc, hub, gate, scripts, seats, turns)?;
            join_all(rt, alloc, handles)
        },
    )
}
