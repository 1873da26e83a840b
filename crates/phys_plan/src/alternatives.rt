ghost use Rattle.std.specs.Prelude.{◌≡◌, ◌↔◌, ◌++◌, ◌∷◌, [], IsTrue, IfOk, OnOk, option_map, Some};
ghost use Rattle.phys_plan.specs.Alternatives as spec;
ghost use Rattle.phys_plan.specs.Seen.{space_of};

use crate::space::Space;
use crate::spelled::fitting_ways;
use crate::ways::{Ask, Way, fits};
use cal_value::{Collation, Duplicate, KeyOrder, List, NoMemory};
use plan_nodes::{PlanNode, below, is_prefix, weight};
use std::alloc::Global;

/// What is asked at a place of a plan, and the order that has to come out there.
#[derive(Debug, Drop)]
pub struct State {
    pub ask: Ask,
    pub need: Collation,
}

/// A root that meets a state: its node, the estimate of its set, the rows of the part that it reads, its weight, and the
/// states of its inputs.
#[derive(Debug, Drop)]
pub struct Alternative {
    pub node: PlanNode,
    pub rows: u128,
    pub part_rows: u64,
    pub weight: u128,
    pub first: Option<State>,
    pub second: Option<State>,
}

impl Duplicate for State {
    ghost use Rattle.std.specs.Prelude.{◌≡◌, IfOk};

    fn copy(&self, alloc: Global) -> Result<State, NoMemory> {
        let ask = self.ask.copy(alloc)?;
        let need = self.need.copy(alloc)?;
        Ok(State { ask, need })
    }
}

#[tactic(auto, using(crate::proofs::SameSteps::same_steps))]
fn same_order(a: &[KeyOrder], b: &[KeyOrder]) -> bool
    ensures { IsTrue result ↔ (a.now ≡ b.now) }
{
    a.len() == b.len() && is_prefix(a, b)
}

/// Whether the two are one state. Takes no memory.
pub fn same_state(a: &State, b: &State) -> bool
    ensures { IsTrue result ↔ (a.now ≡ b.now) }
{
    if a.ask.set != b.ask.set {
        return false;
    }
    if a.ask.want != b.ask.want {
        return false;
    }
    if !same_order(a.ask.order.as_slice(), b.ask.order.as_slice()) {
        return false;
    }
    same_order(a.need.as_slice(), b.need.as_slice())
}

// ---- what a way makes of a state

fn asked_width(space: &Space, ask: &Option<Ask>) -> usize
    ensures { result ≡ spec.asked_width (space_of space.now) ask.now }
{
    match ask {
        None => 0,
        Some(ask) => space.set_width(ask.set),
    }
}

fn asked_rows(space: &Space, ask: &Option<Ask>) -> u128
    ensures { result ≡ spec.asked_rows (space_of space.now) ask.now }
{
    match ask {
        None => 0,
        Some(ask) => space.estimate(ask.set),
    }
}

fn first_state(alloc: Global, ask: &Option<Ask>, need: Collation) -> Result<Option<State>, NoMemory>
    ensures { IfOk result (λ made. made ≡ option_map (spec.state need) ask.now) }
{
    match ask {
        None => Ok(None),
        Some(ask) => {
            let ask = ask.copy(alloc)?;
            Ok(Some(State { ask, need }))
        }
    }
}

/// Nothing is needed of a second input but what is asked.
fn second_state(alloc: Global, ask: &Option<Ask>) -> Result<Option<State>, NoMemory>
    ensures { IfOk result (λ made. made ≡ option_map spec.as_asked ask.now) }
{
    match ask {
        None => Ok(None),
        Some(ask) => {
            let need = ask.order.copy(alloc)?;
            let ask = ask.copy(alloc)?;
            Ok(Some(State { ask, need }))
        }
    }
}

fn made_by(
    alloc: Global,
    space: &Space,
    state: &State,
    way: &Way,
    need: Collation,
) -> Result<Alternative, NoMemory>
    ensures { IfOk result
        (λ made. made ∷ [] ≡ spec.alternative (space_of space.now) state.now way.now (Some need)) }
{
    let rows = space.estimate(state.ask.set);
    let part_rows = space.part_len(&way.node);
    let left = asked_rows(space, &way.first);
    let right = asked_rows(space, &way.second);
    let weight = weight(&way.node, rows, left, right, part_rows);
    let first = first_state(alloc, &way.first, need)?;
    let second = second_state(alloc, &way.second)?;
    let node = way.node.copy(alloc)?;
    Ok(Alternative {
        node,
        rows,
        part_rows,
        weight,
        first,
        second,
    })
}

fn push_made(
    alloc: Global,
    out: &mut List<Alternative>,
    space: &Space,
    state: &State,
    way: &Way,
) -> Result<(), NoMemory>
    ensures { OnOk result
        (out.new ≡ out.old ++ spec.meets_by (space_of space.now) state.now way.now) }
{
    if !fits(state.ask.want, &way.node) {
        return Ok(());
    }
    let width = asked_width(space, &way.first);
    match below(alloc, &space.info, width, &way.node, &state.need)? {
        None => Ok(()),
        Some(need) => {
            let made = made_by(alloc, space, state, way, need)?;
            out.push(made)?;
            Ok(())
        }
    }
}

/// All alternatives of a state, in the order of the roots of its set.
#[tactic(auto, using(crate::proofs::WaySteps::way_steps))]
pub fn alternatives_of(
    alloc: Global,
    space: &Space,
    state: &State,
) -> Result<List<Alternative>, NoMemory>
    ensures { IfOk result (λ out. out ≡ spec.alternatives (space_of space.now) state.now) }
{
    let (set, want) = (state.ask.set, state.ask.want);
    let ways = fitting_ways(alloc, space, Some(want), set, state.ask.order.as_slice())?;
    let mut out = List::new(alloc);
    for way in ways.as_slice() {
        push_made(alloc, &mut out, space, state, way)?;
    }
    Ok(out)
}
