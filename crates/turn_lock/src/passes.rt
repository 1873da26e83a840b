//! How passes are split, joined and brought up to date.
ghost use Rattle.std.specs.Prelude.{◌≡◌, ◌+◌, ◌^◌, ◌<◌, ◌≤◌, [], ◌++◌, length};
ghost use Rattle.std.specs.List.Sorted.{IsStrictlyIncreasing};
ghost use Rattle.turn_lock.specs.Actors.{lower, upper, merged};
ghost use Rattle.turn_lock.specs.History.{longer, GoesOn};
ghost use Rattle.turn_lock.specs.Steps.{lower_view, upper_view, joint_view};
ghost use Rattle.turn_lock.specs.Seats.{Rests, IsSame};
ghost use Rattle.turn_lock.specs.Views.{share_count};
ghost use Rattle.turn_lock.specs.declared.views.Stage.TheVariants.{Idle};

use crate::lock::{Pass, Turn};
use crate::machine::Machine;
use crate::plays::{Both, Cut, Meet, Part, Settle};
use crate::views::View;
use atomic_table::Seat;
use std::marker::Brand;

impl<M: Machine> Pass<M> {
    /// How many actors the pass has.
    pub fn shares(&self) -> u32
        ensures count { result ≡ length self.now.actors }
        ensures some { 0 < result }
        ensures rise { IsStrictlyIncreasing self.now.actors }
    {
        self.shares
    }
}

impl<M: Machine> Turn<M> {
    // The seat keeps all but so many of the highest actors, and a new one gets these.
    fn cut<C: Cut>(
        &self,
        seat: &mut Seat<M, View<M::Event, M::Base>>,
        shares: u32,
    ) -> Seat<M, View<M::Event, M::Base>>
        requires picked { shares ≡ C.shares }
        requires seat { Rests self.now.id seat.old }
        requires shares { (1 ≤ shares) × (shares < share_count seat.old.me.0) }
        ensures kept { IsSame seat.old seat.new
            × (seat.new.me ≡ (lower_view shares seat.old.me.0, [])) }
        ensures given { (result.table_id ≡ self.now.id)
            × (result.me ≡ (upper_view shares seat.old.me.0, [])) }
    {
        self.table.shared.split_seat::<Part<C>>(seat)
    }

    /// Two passes of one: the second gets so many of the highest actors and no commits, the first keeps the rest.
    pub fn split(&self, pass: Pass<M>, shares: u32) -> (Pass<M>, Pass<M>)
        requires lock { pass.lock ≡ self.now.id }
        requires shares { (1 ≤ shares) × (shares < length pass.actors) }
        ensures first { result.0 ≡ record pass { actors = lower shares pass.actors } }
        ensures second { result.1 ≡ record pass {
          actors = upper shares pass.actors;
          commits = [];
        } }
        ensures lower { length result.0.actors + shares ≡ length pass.actors }
        ensures upper { length result.1.actors ≡ shares }
        ensures whole { result.0.actors ++ result.1.actors ≡ pass.actors }
    {
        let Pass {
            mut seat,
            shares: all,
        } = pass;
        let other = self.cut::<Brand>(&mut seat, shares);
        (
            Pass {
                seat,
                shares: all - shares,
            },
            Pass {
                seat: other,
                shares,
            },
        )
    }

    // The seat takes in what the other has.
    fn unite(
        &self,
        seat: &mut Seat<M, View<M::Event, M::Base>>,
        other: Seat<M, View<M::Event, M::Base>>,
    )
        requires seats { Rests self.now.id seat.old × Rests self.now.id other }
        ensures same { IsSame seat.old seat.new }
        ensures joint { seat.new.me
            ≡ (record (joint_view seat.old.me.0 other.me.0) { stage = Idle }, []) }
        ensures first { GoesOn M.actor seat.old.me.0.actors
            seat.old.me.0.prefix seat.new.me.0.prefix }
        ensures second { GoesOn M.actor other.me.0.actors other.me.0.prefix seat.new.me.0.prefix }
        ensures rise { IsStrictlyIncreasing seat.new.me.0.actors }
        ensures shares { share_count seat.new.me.0
            ≡ share_count seat.old.me.0 + share_count other.me.0 }
        ensures few { share_count seat.new.me.0 < 2 ^ 32 }
    {
        self.table.shared.join_seat::<Both>(seat, other);
        self.table.shared.load::<Settle>(seat, 0);
    }

    /// One pass of two, which has seen what either had. Past the shorter prefix the longer one has no event by an actor of
    /// the pass that had the shorter one.
    pub fn join(&self, a: Pass<M>, b: Pass<M>) -> Pass<M>
        requires lock { (a.lock ≡ self.now.id) × (b.lock ≡ self.now.id) }
        ensures both { result ≡ record a {
          prefix = longer a.prefix b.prefix;
          commits = a.commits ++ b.commits;
          actors = merged a.actors b.actors;
        } }
        ensures first { GoesOn M.actor a.actors a.prefix result.prefix }
        ensures second { GoesOn M.actor b.actors b.prefix result.prefix }
        ensures rise { IsStrictlyIncreasing result.actors }
        ensures shares { length result.actors ≡ length a.actors + length b.actors }
    {
        let Pass {
            mut seat,
            shares: first,
        } = a;
        let Pass {
            seat: other,
            shares: second,
        } = b;
        self.unite(&mut seat, other);
        Pass {
            seat,
            shares: first + second,
        }
    }

    /// The pass sees what was committed so far, by one load. What is new to it is by none of its actors.
    pub fn meet(&self, pass: Pass<M>) -> Pass<M>
        requires { pass.lock ≡ self.now.id }
        ensures same { result ≡ record pass { prefix = result.prefix } }
        ensures more { GoesOn M.actor pass.actors pass.prefix result.prefix }
    {
        let Pass { mut seat, shares } = pass;
        self.table.shared.load::<Meet>(&mut seat, 0);
        Pass { seat, shares }
    }
}
