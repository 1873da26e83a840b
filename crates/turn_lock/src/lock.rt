//! The lock, its passes and its turns.
ghost use Rattle.std.specs.Prelude.{IsSome};

use crate::machine::Machine;
use crate::views::{Law, Start, View};
use atomic_table::{Seat, Table};
use std::alloc::Global;
use std::marker::Model;
use std::snapshot::Snapshot;

/// A lock: it keeps one machine, which passes have in turn. Contracts see a record of which lock it is and its number of seats.
#[derive(Drop)]
pub struct Turn<M: Machine> {
    pub(crate) table: Table<M, View<M::Event, M::Base>, Start<M>, Law<M>, Global>,
    pub(crate) seats: u32,
}

impl<M: Machine> Model for Turn<M> {
    ghost use Rattle.turn_lock.specs.Pass.{Lock};
    ghost use Rattle.turn_lock.specs.Kept.{IsLaidOut};

    ghost Value = { Lock };

    ghost view = { λ turn. record { id = turn.table.shared.table_id; seats = turn.seats } };

    ghost invariant = { λ turn.
        IsLaidOut turn.table.shared.table_id turn.table.shared.key.seats turn.seats };
}

/// The right to enter a lock, and what its holder knows. Contracts see a record of the lock that it is of, the base, the
/// prefix of the history that it has seen, the places of its own commits and its actors.
#[derive(Drop)]
pub struct Pass<M: Machine> {
    pub(crate) seat: Seat<M, View<M::Event, M::Base>>,
    pub(crate) shares: u32,
    pub(crate) ghost based: { IsSome seat.me.0.base },
}

impl<M: Machine> Model for Pass<M> {
    ghost use Rattle.turn_lock.specs.Pass.{Known};
    ghost use Rattle.turn_lock.specs.Kept.{known, AtRest};

    ghost Value = { Known M.Event M.Base };

    ghost view = { λ pass. known pass.seat.table_id pass.seat.me.0 pass.based };

    ghost invariant = { λ pass. AtRest pass.seat.me pass.shares };
}

/// The turn, with the machine. It can only be left. Contracts see a record of what the pass knew at entry and knows by now,
/// the committed event, and the machine.
pub struct Held<'a, M: Machine> {
    pub(crate) turn: &'a Turn<M>,
    pub(crate) seat: Seat<M, View<M::Event, M::Base>>,
    pub(crate) shares: u32,
    pub(crate) pass: Snapshot<Pass<M>>,
}
