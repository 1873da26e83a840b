//! Memos, and their texts.
ghost use Rattle.cal_schema.specs.Valid.{IsValidSchema};

use crate::memos::{Searched, push_memo_line, push_sets, sets_there};
use crate::push_memo;
use crate::tests::trees::{expression, expressions, schema};
use cal_rel::{PlanInfo, Rel, RelType};
use cal_schema::{Agg, AggCall, JoinKind, Schema};
use cal_value::{List, NoMemory};
use memo_sets::{Member, Memo, MemoFault};
use std::alloc::Global;
use std::test::Fail;

// Sets 0, 2 and 3 are there, 1 is gone. Nothing names a table and a tile that aren't there.
const SETS: &str = "memo root=3 sets=3 members=10 firings=7 stopped
set 0 rows=2
  Scan(S.T)
  Project($1, - $0) #0
  TileScan(tile 41)
  Scan()
  TileScan()
set 2 rows=1
  Filter(($0 = 7) AND ($1 = 'it''s')) #0
  Scan(\"sales\".\"a\"\"b\")
  Empty
set 3 rows=0
  Join(kind=Left on=[$0 = $1]) #0 #2
  Aggregate(keys=[$0, $1] calls=[COUNT(*), SUM0($2)]) #2
";

fn project(alloc: Global) -> Result<Rel, NoMemory> {
    let items = expressions(alloc, &["1", "0~"])?;
    Rel::project(alloc, Rel::Hole(0), items)
}

fn filter(alloc: Global) -> Result<Rel, NoMemory> {
    let predicate = expression(alloc, "0i=1q=&")?;
    Rel::filter(alloc, Rel::Hole(0), predicate)
}

fn join(alloc: Global) -> Result<Rel, NoMemory> {
    let on = expression(alloc, "01=")?;
    Rel::join(alloc, JoinKind::Left, Rel::Hole(0), Rel::Hole(2), on)
}

fn calls(alloc: Global) -> Result<List<AggCall>, NoMemory> {
    let mut calls = List::new(alloc);
    calls.push(AggCall {
        agg: Agg::Count,
        argument: None,
    })?;
    calls.push(AggCall {
        agg: Agg::Sum0,
        argument: Some(2),
    })?;
    Ok(calls)
}

fn aggregate(alloc: Global) -> Result<Rel, NoMemory> {
    let mut groups = List::new(alloc);
    groups.push(0)?;
    groups.push(1)?;
    let calls = calls(alloc)?;
    Rel::aggregate(alloc, Rel::Hole(2), groups, calls)
}

fn rel(alloc: Global, sign: u8) -> Result<Rel, NoMemory> {
    match sign {
        b's' => Ok(Rel::Scan(0)),
        b'u' => Ok(Rel::Scan(1)),
        b'x' => Ok(Rel::Scan(2)),
        b't' => Ok(Rel::TileScan(1)),
        b'y' => Ok(Rel::TileScan(2)),
        b'p' => project(alloc),
        b'f' => filter(alloc),
        b'j' => join(alloc),
        b'a' => aggregate(alloc),
        _ => Ok(Rel::Empty(List::new(alloc))),
    }
}

// The members of the sets that are there, not set by set.
const MEMBERS: &[(u32, u8)] = &[
    (0, b's'),
    (2, b'f'),
    (3, b'j'),
    (0, b'p'),
    (0, b't'),
    (2, b'u'),
    (0, b'x'),
    (2, b'e'),
    (3, b'a'),
    (0, b'y'),
];

fn members(alloc: Global) -> Result<List<Member>, NoMemory> {
    let mut members = List::new(alloc);
    for (set, sign) in MEMBERS {
        let rel = rel(alloc, *sign)?;
        members.push(Member { set: *set, rel })?;
    }
    Ok(members)
}

fn is_there(set: u32) -> bool {
    set != 1
}

fn types(alloc: Global) -> Result<List<Option<RelType>>, NoMemory> {
    let mut types = List::new(alloc);
    for set in 0..4u32 {
        let columns = List::new(alloc);
        let kind = if is_there(set) {
            Some(RelType { columns, bound: 9 })
        } else {
            None
        };
        types.push(kind)?;
    }
    Ok(types)
}

fn print_sets(alloc: Global, out: &mut String, schema: &Schema) -> Result<(), NoMemory> {
    let types = types(alloc)?;
    let members = members(alloc)?;
    let sets = sets_there(alloc, types.as_slice())?;
    let searched = Searched {
        root: 3,
        firings: 7,
        complete: false,
    };
    push_memo_line(out, searched, sets.len(), members.len())?;
    push_sets(
        out,
        members.as_slice(),
        sets.as_slice(),
        &[2, 5, 1],
        &[40, 41],
        schema,
    )
}

#[test]
fn sets_print(rt: HostRuntime) -> Result<(), Fail> {
    let mut out = String::new(rt.alloc());
    let schema = schema(rt.alloc())?;
    print_sets(rt.alloc(), &mut out, &schema)?;
    assert_eq!(rt; out.as_str(), SETS);
    Ok(())
}

const SEEDED: &str = "memo root=1 sets=2 members=2 firings=0 complete
set 0 rows=0
  Empty
set 1 rows=4
  Filter(TRUE) #0
";

fn no_tables(alloc: Global) -> Schema
    ensures { IsValidSchema result }
{
    Schema {
        default_schema: None,
        tables: List::new(alloc),
    }
}

// A memo of a filter over no rows.
fn seeded(alloc: Global) -> Result<Memo, MemoFault> {
    let schema = no_tables(alloc);
    let (tiles, sets) = (List::new(alloc), List::new(alloc));
    let info = PlanInfo::new(&schema, &tiles, &sets);
    let predicate = expression(alloc, "t")?;
    let rel = Rel::filter(alloc, Rel::Empty(List::new(alloc)), predicate)?;
    let mut memo = Memo::new(alloc);
    let _set = memo.seed(alloc, &rel, &info)?;
    Ok(memo)
}

#[test]
fn memos_print(rt: HostRuntime) -> Result<(), Fail> {
    let memo = seeded(rt.alloc())?;
    let schema = no_tables(rt.alloc());
    let searched = Searched {
        root: 1,
        firings: 0,
        complete: true,
    };
    let mut out = String::new(rt.alloc());
    push_memo(rt.alloc(), &mut out, &memo, searched, &[0, 4], &[], &schema)?;
    assert_eq!(rt; out.as_str(), SEEDED);
    Ok(())
}
