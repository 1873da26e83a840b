use cal_expr::Expr;
use cal_value::{Agg, List};

/// An aggregate of the values of an expression, or without one of the rows.
#[derive(Debug, Drop)]
pub struct ExprCall {
    pub agg: Agg,
    pub argument: Option<Expr>,
}

/// The columns of an Aggregate's rows: those of the groups, then the calls.
#[derive(Debug, Drop)]
pub struct Layout {
    pub groups: List<u32>,
    pub calls: List<ExprCall>,
}
