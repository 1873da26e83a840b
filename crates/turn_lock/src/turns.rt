//! How a lock is made and closed, and how a pass enters.
ghost use Rattle.std.specs.Prelude.{◌≡◌, ◌≢◌, ◌≤◌, IfOk, length};
ghost use Rattle.std.specs.List.{range_with_len};
ghost use Rattle.std.specs.List.Sorted.{IsPermutation};
ghost use Rattle.turn_lock.specs.Seats.{Rests, IsSame, Waits};
ghost use Rattle.turn_lock.specs.Steps.{Draws, Enters};
ghost use Rattle.turn_lock.specs.Held.{IsSettled};
ghost use Rattle.turn_lock.specs.HeldFields.{holding, IsHeld};
ghost use Rattle.turn_lock.specs.Turned.{Stays};

use crate::lock::{Held, Pass, Turn};
use crate::machine::Machine;
use crate::plays::{Draw, Look};
use crate::views::{Start, View};
use atomic_table::{Seat, Table};
use cal_value::NoMemory;
use std::alloc::Global;
use std::snapshot::Snapshot;
use std::sync::Wait;

impl<M: Machine> Turn<M> {
    /// A lock over the machine, and its first pass. The pass has the actors 0 to `seats - 1`, and the places of the history
    /// that the machine comes with are its own. At NoMemory the machine is dropped.
    pub fn new(alloc: Global, machine: M, seats: u32) -> Result<(Turn<M>, Pass<M>), NoMemory>
    where
        M: Drop,
        requires { 1 ≤ seats }
        ensures seats { IfOk result (λ r. r.0.seats ≡ seats) }
        ensures lock { IfOk result (λ r. r.1.lock ≡ r.0.id) }
        ensures base { IfOk result (λ r. r.1.base ≡ M.base machine) }
        ensures prefix { IfOk result (λ r. r.1.prefix ≡ M.history machine) }
        ensures commits { IfOk result (λ r.
            r.1.commits ≡ range_with_len 1 (length (M.history machine))) }
        ensures actors { IfOk result (λ r. r.1.actors ≡ range_with_len 0 seats) }
    {
        let start = Start {
            machine: Snapshot::of(&machine),
            seats,
        };
        let count = machine.count();
        let mut slots = Vec::new(alloc);
        slots.push(machine)?;
        let Ok((table, seat)) = Table::new(alloc, &[count, 0, 0], slots, &start) else {
            return Err(NoMemory);
        };
        let pass = Pass {
            seat,
            shares: seats,
        };
        Ok((Turn { table, seats }, pass))
    }

    /// For how many seats the lock was made.
    pub fn seats(&self) -> u32
        ensures { result ≡ self.now.seats }
    {
        self.seats
    }

    // The ticket.
    fn draw(&self, seat: &mut Seat<M, View<M::Event, M::Base>>) -> u64
        requires { Rests self.now.id seat.old }
        ensures same { IsSame seat.old seat.new }
        ensures ticket { Draws seat.old.me result seat.new.me }
    {
        self.table.shared.fetch_add::<Draw>(seat, 1, 1)
    }

    // The serving word. Where it is the ticket, the seat is in turn and has the machine.
    fn look(&self, seat: &mut Seat<M, View<M::Event, M::Base>>, ticket: u64) -> u64
        requires id { seat.old.table_id ≡ self.now.id }
        requires waits { Waits ticket seat.old.me }
        ensures same { IsSame seat.old seat.new }
        ensures turn { result ≡ ticket → Enters M.history M.actor M.base seat.old.me seat.new.me }
        ensures wait { result ≢ ticket → seat.new.me ≡ seat.old.me }
    {
        self.table.shared.load::<Look>(seat, 2)
    }

    /// Waits for the turn of the pass. What the history has past the prefix of the pass is by none of its actors.
    pub fn enter<R: Wait>(&self, rt: &R, pass: Pass<M>) -> Held<'_, M>
        requires { pass.lock ≡ self.now.id }
        ensures held { IsHeld M.actor result }
        ensures entered { (holding result).entered ≡ pass }
        ensures stays { Stays M.actor pass (holding result).pass }
        ensures fresh { (holding result).committed ≡ None }
        ensures settled { IsSettled M.history M.base (holding result) }
    {
        let known = Snapshot::of(&pass);
        let Pass { mut seat, shares } = pass;
        let ticket = self.draw(&mut seat);
        for _ in rt.forever() {
            let serving = self.look(&mut seat, ticket);
            if serving == ticket {
                return Held {
                    turn: self,
                    seat,
                    shares,
                    pass: known,
                };
            }
            self.table.shared.park(rt, 2, (serving % (1 << 32)) as u32);
        }
        unreachable!()
    }

    /// Gives the machine back. The pass has all shares, so no other is left.
    pub fn close(self, pass: Pass<M>) -> M
        requires lock { pass.lock ≡ self.id }
        requires all { length pass.actors ≡ self.seats }
        ensures base { M.base result ≡ pass.base }
        ensures history { M.history result ≡ pass.prefix }
        ensures commits { IsPermutation pass.commits
            (range_with_len 1 (length (M.history result))) }
    {
        let Turn { table, seats: _ } = self;
        let Pass { seat, shares: _ } = pass;
        let mut closed = table.close_with(seat);
        let machine = closed.take(0);
        closed.free();
        machine
    }
}
