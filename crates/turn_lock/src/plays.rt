//! What each step tells its seat, and how seats are split and joined. These types are for the proofs alone.
ghost use Rattle.std.specs.Prelude.{ℕ};
ghost use Rattle.turn_lock.specs.Steps.{Draws, Looks, Commits, HandsOn, Meets, Settles, lower_view, upper_view, joint_view, spent_view};

use crate::machine::Machine;
use crate::views::View;
use atomic_table::{Join, Play, Split};
use std::marker::{Brand, PhantomData};

pub(crate) struct Draw;

impl<M, E, B> Play<M, View<E, B>> for Draw {
    ghost then = { λ _. Draws };
}

pub(crate) struct Look;

impl<M: Machine> Play<M, View<M::Event, M::Base>> for Look {
    ghost then = { λ _. Looks M.history M.actor M.base };
}

pub(crate) struct Commit;

impl<M: Machine> Play<M, View<M::Event, M::Base>> for Commit {
    ghost then = { λ _. Commits M.history };
}

pub(crate) struct HandOn;

impl<M, E, B> Play<M, View<E, B>> for HandOn {
    ghost then = { λ _. HandsOn };
}

pub(crate) struct Meet;

impl<M: Machine> Play<M, View<M::Event, M::Base>> for Meet {
    ghost then = { λ _. Meets M.actor };
}

/// A load after two seats were joined.
pub(crate) struct Settle;

impl<M: Machine> Play<M, View<M::Event, M::Base>> for Settle {
    ghost then = { λ _. Settles M.actor };
}

/// How many shares are split off, which a call picks.
pub(crate) trait Cut {
    ghost shares: { ℕ };
}

impl Cut for Brand {
    ghost shares = { 0 };
}

pub(crate) struct Part<C> {
    of: PhantomData<C>,
}

impl<E, B, C: Cut> Split<View<E, B>> for Part<C> {
    ghost left = { lower_view C.shares };

    ghost right = { upper_view C.shares };
}

pub(crate) struct Both;

impl<E, B> Join<View<E, B>> for Both {
    ghost both = { joint_view };

    ghost spent = { spent_view };
}
