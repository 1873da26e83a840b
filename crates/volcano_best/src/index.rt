//! Where to look for a state's number.
ghost use Rattle.std.specs.Prelude.{◌≡◌, slice_get, Some, IfSome};
ghost use Rattle.cheapest_derivations.specs.Tables.{IsBelow};

use cal_value::NoMemory;
use phys_plan::{State, same_state};
use std::alloc::Global;

/// The number of chains.
const CHAINS: u32 = 1024;

/// By chain its newest state, and by state the one before it in its chain. The sets of a chain's states are equal modulo
/// `CHAINS`. What is found is compared, so nothing is asked of an index but speed.
#[derive(Drop)]
pub struct Index {
    newest: Vec<Option<u32>>,
    older: Vec<Option<u32>>,
}

pub fn empty(alloc: Global) -> Result<Index, NoMemory> {
    let mut newest = Vec::new(alloc);
    for _ in 0..CHAINS {
        newest.push(None)?;
    }
    Ok(Index {
        newest,
        older: Vec::new(alloc),
    })
}

fn entry(entries: &[Option<u32>], at: u32) -> Option<u32> {
    if (at as usize) < entries.len() {
        entries[at as usize]
    } else {
        None
    }
}

/// The number before n in its chain.
fn before(older: &[Option<u32>], n: u32) -> Option<u32>
    ensures { IsBelow n result }
{
    match entry(older, n) {
        None => None,
        Some(m) => { if m < n { Some(m) } else { None } }
    }
}

/// The state's number, where its chain has it.
pub fn find(states: &[State], index: &Index, state: &State) -> Option<u32>
    ensures { IfSome result (λ n. slice_get states.now n ≡ Some state.now) }
{
    let mut next = entry(index.newest.as_slice(), state.ask.set % CHAINS);
    'chain: while let Some(n) = next {
        if n as usize >= states.len() {
            return None;
        }
        if same_state(&states[n as usize], state) {
            return Some(n);
        }
        next = before(index.older.as_slice(), n);
    }
    None
}

/// Adds a state of the set, with the next number.
pub fn add(index: &mut Index, set: u32, n: u32) -> Result<(), NoMemory> {
    let chain = set % CHAINS;
    index.older.push(entry(index.newest.as_slice(), chain))?;
    if (chain as usize) < index.newest.len() {
        index.newest[chain as usize] = Some(n);
    }
    Ok(())
}
