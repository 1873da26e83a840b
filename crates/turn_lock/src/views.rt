//! What each seat knows, for the proofs alone: no value of these types but a `Start` is ever made.
use crate::machine::Machine;
use atomic_table::TableRule;
use std::collections::LinkedList;
use std::marker::PhantomData;
use std::snapshot::Snapshot;

/// Where a seat is.
pub enum Stage<E> {
    Idle,
    Waiting {
        ticket: u64,
    },
    /// It has the machine.
    InTurn {
        ticket: u64,
        /// The whole history, with the committed event.
        noted: LinkedList<E>,
        /// The event that it has committed.
        committed: Option<E>,
    },
    /// It was just made of two seats, of which it keeps the prefixes and the actors.
    Joining {
        prefix: LinkedList<E>,
        actors: LinkedList<u64>,
        other_prefix: LinkedList<E>,
        other_actors: LinkedList<u64>,
    },
}

/// What a seat knows.
pub struct View<E, B> {
    pub stage: Stage<E>,
    /// None where the seat is spent.
    pub base: Option<B>,
    pub prefix: LinkedList<E>,
    pub places: LinkedList<u64>,
    pub actors: LinkedList<u64>,
}

/// What the table is told once, when it is made.
#[derive(Drop)]
pub struct Start<M> {
    pub machine: Snapshot<M>,
    pub seats: u32,
}

/// The rule of the lock.
pub struct Law<M> {
    of: PhantomData<M>,
}

impl<M: Machine> TableRule<M, View<M::Event, M::Base>, Start<M>> for Law<M> {
    ghost use Rattle.turn_lock.specs.Rule.{Ruled, first_view};

    ghost holds = { λ start.
        Ruled M.history M.actor M.base start.seats (M.base start.machine.value) };

    ghost first = { λ start.
        first_view start.seats (M.history start.machine.value) (M.base start.machine.value) };
}
