use crate::{
    columns_read, conjunction, conjuncts_of, is_constant, over_columns, over_items, reads_below,
    reads_from, shifted_down,
};
use cal_expr::{Expr, Op};
use cal_value::{List, NoMemory, Value};
use std::alloc::Global;
use std::test::Fail;

fn list_of<T: Drop, const N: usize>(alloc: Global, items: [T; N]) -> Result<List<T>, NoMemory> {
    Ok(List::from_vec(Vec::from_array(alloc, items)?))
}

fn less(alloc: Global, left: u32, right: u32) -> Result<Expr, NoMemory> {
    Expr::binary(alloc, Op::Less, Expr::Column(left), Expr::Column(right))
}

fn both(alloc: Global, op: Op, left: Expr, right: Expr) -> Result<Expr, NoMemory> {
    Expr::binary(alloc, op, left, right)
}

// Whether the expression reads these columns.
fn reads(alloc: Global, e: &Expr, wanted: &[u32]) -> Result<bool, NoMemory> {
    let columns = columns_read(alloc, e)?;
    Ok(columns.as_slice() == wanted)
}

// The two columns of a comparison.
const READ: &[(u32, u32)] = &[(0, 1), (1, 0), (2, 2)];

#[test]
fn columns_from_left_to_right(rt: HostRuntime) -> Result<(), Fail> {
    let alloc = rt.alloc();
    for (left, right) in READ {
        let e = less(alloc, *left, *right)?;
        let is_read = reads(alloc, &e, &[*left, *right])?;
        assert!(rt; is_read, "{left} {right}");
    }
    Ok(())
}

// The two columns of a comparison, a width, and whether both are below it, and from it on.
const WIDTHS: &[(u32, u32, usize, bool, bool)] = &[
    (0, 1, 2, true, false),
    (2, 3, 2, false, true),
    (1, 2, 2, false, false),
    (2, 1, 2, false, false),
];

#[test]
fn columns_on_one_side(rt: HostRuntime) -> Result<(), Fail> {
    let alloc = rt.alloc();
    for (left, right, width, below, from) in WIDTHS {
        let e = less(alloc, *left, *right)?;
        let found = (reads_below(&e, *width), reads_from(&e, *width));
        assert!(rt;
            found.0 == *below && found.1 == *from && !is_constant(&e),
            "{left} {right}"
        );
    }
    assert!(rt; is_constant(&Expr::Literal(Value::Int(1))));
    Ok(())
}

// (0 < 1 AND TRUE) AND 2 < 3
fn with_true(alloc: Global) -> Result<Expr, NoMemory> {
    let truth = Expr::Literal(Value::Bool(true));
    let left = both(alloc, Op::And, less(alloc, 0, 1)?, truth)?;
    both(alloc, Op::And, left, less(alloc, 2, 3)?)
}

// 0 < 1 AND 2 < 3
fn without_true(alloc: Global) -> Result<Expr, NoMemory> {
    both(alloc, Op::And, less(alloc, 0, 1)?, less(alloc, 2, 3)?)
}

fn again(alloc: Global, e: &Expr) -> Result<Expr, NoMemory> {
    let conjuncts = conjuncts_of(alloc, e)?;
    conjunction(alloc, conjuncts)
}

#[test]
fn conjuncts_and_their_conjunction(rt: HostRuntime) -> Result<(), Fail> {
    let alloc = rt.alloc();
    let made = again(alloc, &with_true(alloc)?)?;
    let wanted = without_true(alloc)?;
    assert!(rt; made == wanted);
    Ok(())
}

#[test]
fn no_conjunct(rt: HostRuntime) -> Result<(), Fail> {
    let alloc = rt.alloc();
    let truth = Expr::Literal(Value::Bool(true));
    let made = again(alloc, &truth)?;
    assert!(rt; made == truth);
    Ok(())
}

#[test]
fn items_in_the_place_of_columns(rt: HostRuntime) -> Result<(), Fail> {
    let alloc = rt.alloc();
    let items = list_of(alloc, [less(alloc, 1, 2)?])?;
    let made = over_items(alloc, &less(alloc, 0, 5)?, &items)?;
    let wanted = both(alloc, Op::Less, less(alloc, 1, 2)?, Expr::Column(5))?;
    assert!(rt; made == wanted);
    Ok(())
}

#[test]
fn columns_in_the_place_of_columns(rt: HostRuntime) -> Result<(), Fail> {
    let alloc = rt.alloc();
    let columns = list_of(alloc, [7, 4])?;
    let made = over_columns(alloc, &less(alloc, 1, 5)?, &columns)?;
    let wanted = less(alloc, 4, 5)?;
    assert!(rt; made == wanted);
    Ok(())
}

#[test]
fn columns_counted_from_a_later_one(rt: HostRuntime) -> Result<(), Fail> {
    let alloc = rt.alloc();
    let made = shifted_down(alloc, &less(alloc, 3, 2)?, 2)?;
    let wanted = less(alloc, 1, 0)?;
    assert!(rt; made == wanted);
    Ok(())
}
