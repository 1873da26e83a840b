//! A turn commits its event, and is left.
ghost use Rattle.std.specs.Prelude.{◌≡◌, ◌∷◌, ◌++◌, [], length};
ghost use Rattle.turn_lock.specs.Held.{IsSettled, AddsOne};
ghost use Rattle.turn_lock.specs.HeldFields.{holding, IsHeld};
ghost use Rattle.turn_lock.specs.Turned.{Stays, Adds};

use crate::lock::{Held, Pass};
use crate::machine::Machine;
use crate::plays::{Commit, HandOn};

impl<'a, M: Machine> Held<'a, M> {
    /// Commits the one event that the machine in hand has more, and answers its place, counted from 1.
    pub fn commit(&mut self) -> u64
        requires held { IsHeld M.actor self.old }
        requires fresh { (holding self.old).committed ≡ None }
        requires adds { AddsOne M.history M.base M.actor (holding self.old) }
        ensures held { IsHeld M.actor self.new }
        ensures entered { (holding self.new).entered ≡ (holding self.old).entered }
        ensures place { result ≡ length (holding self.new).pass.prefix }
        ensures pass { (holding self.new).pass ≡ record (holding self.old).pass {
          prefix = (holding self.new).pass.prefix;
          commits = (holding self.old).pass.commits ++ result ∷ [];
        } }
        ensures committed { (e : M.Event)
            → (holding self.new).pass.prefix ≡ (holding self.old).pass.prefix ++ e ∷ []
            → (holding self.new).committed ≡ Some e }
        ensures machine { (holding self.new).machine ≡ (holding self.old).machine }
        ensures settled { IsSettled M.history M.base (holding self.new) }
    {
        let turn = self.turn;
        let place = self.machine().count();
        turn.table.shared.fetch_add::<Commit>(&mut self.seat, 0, 1);
        place
    }

    /// Gives the machine back and hands the turn on. The pass has then seen the whole history, and has what it had at entry and
    /// the event that was committed, if there is one.
    pub fn leave(self) -> Pass<M>
        requires held { IsHeld M.actor self }
        requires settled { IsSettled M.history M.base (holding self) }
        ensures pass { result ≡ (holding self.entry).pass }
        ensures stays { (holding self.entry).committed ≡ None
            → Stays M.actor (holding self.entry).entered result }
        ensures adds { (e : M.Event) → (holding self.entry).committed ≡ Some e
            → Adds M.actor (holding self.entry).entered e (length result.prefix) result }
    {
        let Held {
            turn,
            mut seat,
            shares,
            pass: _,
        } = self;
        turn.table.shared.fetch_add::<HandOn>(&mut seat, 2, 1);
        turn.table.shared.wake_all(2);
        Pass { seat, shares }
    }
}
