// `machine` has a file of its own: its clause names the row of `Held`, which the file that declares `Held` cannot import.
ghost use Rattle.std.specs.Prelude.{◌≡◌, Some, []};
ghost use Rattle.std.specs.Borrow.{Lends, sem};
ghost use mir.Syntax.{named};
ghost use Rattle.turn_lock.specs.contracts.lock.Held.{the_row};
ghost use Rattle.turn_lock.specs.HeldFields.{holding, IsHeld};
ghost use Rattle.turn_lock.specs.Lent.{held_with};

use crate::lock::Held;
use crate::machine::Machine;

impl<'a, M: Machine> Held<'a, M> {
    /// The machine in hand. When the loan ends, the turn has what was written through it.
    pub fn machine(&mut self) -> &mut M
        requires held { IsHeld M.actor self.old }
        ensures* writes_back { sem 𝓛 (Lends
            (the_row (record { mir = named 1; lft = [] }) M.row M.Event.row M.Base.row M.Machine)
            M.row self.entry result (held_with self.old)) }
        ensures value { (holding self.old).machine ≡ Some result.now }
    {
        let turn = self.turn;
        self.seat.slot_mut(&turn.table.shared, 0)
    }
}
