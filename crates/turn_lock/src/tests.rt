ghost use Rattle.std.specs.Prelude.{◌≡◌, Contains, MatchOption};
ghost use Rattle.turn_lock.specs.Held.{IsSettled};
ghost use Rattle.turn_lock.specs.HeldFields.{holding, IsHeld};
ghost use Rattle.turn_lock.specs.Turned.{Stays, Adds};

mod log;

use crate::{Held, Machine, Pass, Turn};
use cal_value::NoMemory;
use log::{Entry, Log};
use std::sync::Wait;
use std::test::Fail;
use std::thread::{Threads, join};

// What is done in a turn: this entry is committed where there is memory, and its place is answered.
fn commit_in_turn(held: Held<'_, Log>, entry: Entry) -> (Pass<Log>, Option<u64>)
    requires held { IsHeld ⟦<Log as Machine>⟧.actor held }
    requires fresh { (holding held).committed ≡ None }
    requires settled { IsSettled ⟦<Log as Machine>⟧.history ⟦<Log as Machine>⟧.base (holding held) }
    requires own { Contains (holding held).pass.actors entry.actor }
    ensures { MatchOption result.1
        (Stays ⟦<Log as Machine>⟧.actor (holding held.entry).entered result.0)
        (λ place. Adds ⟦<Log as Machine>⟧.actor (holding held.entry).entered entry place result.0) }
{
    let mut held = held;
    match held.machine().add(entry) {
        Ok(()) => {
            let place = held.commit();
            (held.leave(), Some(place))
        }
        Err(NoMemory) => (held.leave(), None),
    }
}

// One turn of the pass.
fn commit_one<R: Wait>(
    rt: &R,
    turn: &Turn<Log>,
    pass: Pass<Log>,
    entry: Entry,
) -> (Pass<Log>, Option<u64>)
    requires lock { pass.lock ≡ turn.now.id }
    requires own { Contains pass.actors entry.actor }
    ensures { MatchOption result.1
        (Stays ⟦<Log as Machine>⟧.actor pass result.0)
        (λ place. Adds ⟦<Log as Machine>⟧.actor pass entry place result.0) }
{
    commit_in_turn(turn.enter(rt, pass), entry)
}

// So many turns, each with an entry of this actor.
fn commit_many<R: Wait>(
    rt: &R,
    turn: &Turn<Log>,
    pass: Pass<Log>,
    actor: u32,
    turns: u64,
) -> Pass<Log>
    requires lock { pass.lock ≡ turn.now.id }
    requires own { Contains pass.actors actor }
    ensures { (result.lock ≡ pass.lock) × (result.actors ≡ pass.actors) }
{
    let mut pass = pass;
    for number in 0..turns {
        (pass, _) = commit_one(rt, turn, pass, Entry { actor, number });
    }
    pass
}

// How many entries are by this actor, where their numbers are those from 0 on, in order.
fn count_in_order(entries: &[Entry], actor: u32) -> Option<usize> {
    let in_order = entries
        .iter()
        .filter(|entry| entry.actor == actor)
        .enumerate()
        .all(|(at, entry)| entry.number == at as u64);
    let count = entries.iter().filter(|entry| entry.actor == actor).count();
    in_order.then_some(count)
}

// Two threads, each with a pass and an actor of its own.
fn commit_in_threads<R: Threads + Wait + Sync>(
    rt: &R,
    turn: &Turn<Log>,
    first: Pass<Log>,
    second: Pass<Log>,
    turns: u64,
) -> (Pass<Log>, Pass<Log>)
    requires lock { (first.lock ≡ turn.now.id) × (second.lock ≡ turn.now.id) }
    requires own { Contains first.actors 0 × Contains second.actors 1 }
    ensures first { (result.0.lock ≡ first.lock) × (result.0.actors ≡ first.actors) }
    ensures second { (result.1.lock ≡ second.lock) × (result.1.actors ≡ second.actors) }
{
    join(
        rt,
        || commit_many(rt, turn, first, 0, turns),
        || commit_many(rt, turn, second, 1, turns),
    )
}

#[test]
fn a_pass_meets_what_another_committed(rt: HostRuntime) -> Result<(), Fail> {
    let entries = [(0, 0), (1, 0), (0, 1)].map(|(actor, number)| Entry { actor, number });
    let mut log = Log::new(rt.alloc(), 7);
    log.add(entries[0])?;
    let (turn, pass) = Turn::new(rt.alloc(), log, 2)?;
    assert_eq!(rt; turn.seats(), 2);
    assert_eq!(rt; pass.shares(), 2);
    let (first, second) = turn.split(pass, 1);
    assert_eq!(rt; (first.shares(), second.shares()), (1, 1));
    let (second, place) = commit_one(&rt, &turn, second, entries[1]);
    assert_eq!(rt; place, Some(2));
    let first = turn.meet(first);
    let (first, place) = commit_one(&rt, &turn, first, entries[2]);
    assert_eq!(rt; place, Some(3));
    let pass = turn.join(first, second);
    assert_eq!(rt; pass.shares(), 2);
    let log = turn.close(pass);
    assert_eq!(rt; log.name(), 7);
    assert_eq!(rt; log.sum(), 1);
    assert_eq!(rt; log.entries(), entries.as_slice());
    Ok(())
}

#[test]
fn two_threads_commit_in_turn(rt: HostRuntime) -> Result<(), Fail> {
    let (turn, pass) = Turn::new(rt.alloc(), Log::new(rt.alloc(), 0), 3)?;
    let (pass, third) = turn.split(pass, 1);
    let (first, second) = turn.split(pass, 1);
    let (first, second) = commit_in_threads(&rt, &turn, first, second, 100);
    let pass = turn.join(third, turn.join(second, first));
    assert_eq!(rt; pass.shares(), turn.seats());
    let log = turn.close(pass);
    let entries = log.entries();
    assert_eq!(rt; entries.len(), 200);
    assert_eq!(rt; count_in_order(entries, 0), Some(100));
    assert_eq!(rt; count_in_order(entries, 1), Some(100));
    Ok(())
}
