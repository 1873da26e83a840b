use cal_value::List;
use memo_sets::Memo;
use plan_nodes::{Plan, Traits};
use rule_hep::HepRecord;
use search_firings::Firing;

/// The number of steps after which a tree is rewritten no further.
pub const HEP_LIMIT: u32 = 200;

/// How a SELECT was planned: the plan, what it costs and the traits that were asked of it; the steps by which the tree was rewritten and
/// the tree after them; the memo that was searched from it, the set of the memo in which it stands, the firings of the search, and whether
/// nothing was left to fire; how many rows each set is thought to have, by its number, and the instances of the tiles that could be read.
#[derive(Debug, Drop)]
pub struct Planning {
    pub plan: Plan,
    pub cost: u128,
    pub traits: Traits,
    pub hep: HepRecord,
    pub memo: Memo,
    pub root: u32,
    pub firings: List<Firing>,
    pub complete: bool,
    pub estimates: List<u128>,
    pub tiles: List<u32>,
}
