use cal_value::List;

/// One alternative: a way to derive the state `target`, at its own weight, from at most two other states.
/// States are numbers below a bound that is told with the alternatives.
#[derive(Clone, Copy, Debug, Drop)]
pub struct Edge {
    pub target: u32,
    pub weight: u128,
    pub first: Option<u32>,
    pub second: Option<u32>,
}

/// The cheapest derivation of a state: its cost, and the place of its last step.
#[derive(Clone, Copy, Debug, Drop)]
pub struct Cell {
    pub cost: u128,
    pub place: usize,
}

/// One step of a derivation: the place of an alternative, and the places of the steps that derive its inputs, which are
/// earlier ones.
#[derive(Clone, Copy, Debug, Drop)]
pub struct Step {
    pub edge: usize,
    pub first: Option<usize>,
    pub second: Option<usize>,
}

/// By number of a state its cell, None where it has no derivation; and each step that was cheapest at some time.
#[derive(Debug, Drop)]
pub struct Table {
    pub cells: List<Option<Cell>>,
    pub steps: List<Step>,
}
