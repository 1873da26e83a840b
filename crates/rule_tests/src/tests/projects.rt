//! What the rules of projects, of expressions and of trees without rows make.
use crate::tests::run::first_wrong;
use rules_project::{ProjectMerge, ProjectRemove, PruneEmpty, ReduceExpressions};
use std::test::Fail;

const PROJECT_MERGE: &str = "T0 $1 $0 1 + project $1 $0 project => T0 $0 1 + $1 project
T0 $0 $1 + project $0 $0 * project => T0 $0 $1 + $0 $1 + * project
T0 $0 2 * project $0 3 > $0 ISNULL NOT $0 NEGATE project => T0 $0 2 * 3 > $0 2 * ISNULL NOT $0 2 * NEGATE project
T0 $1 project 7 project => T0 7 project
T0 $1 $0 project $1 $0 project $1 project => T0 $1 $0 project $0 project
T0 $0 project $1 project => none
T0 $0 project $0 1 > filter $0 project => none
T0 $0 project => none
T0 => none";

const PROJECT_REMOVE: &str = "T0 $0 $1 project => T0
T0 $0 project => none
T0 $1 $0 project => none
T0 $0 $1 $0 project => none
T0 $0 $0 project => none
T0 $0 $1 0 + project => none
T0 T2 TRUE inner $0 $1 $2 $3 project => T0 T2 TRUE inner
T0 T2 TRUE left $0 $1 $2 project => none
T0 #1 COUNT aggregate $0 $1 project => T0 #1 COUNT aggregate
T0 $1 project $0 project => T0 $1 project
T0 $1 3 > filter $0 $1 project => T0 $1 3 > filter
text empty $0 project => text empty
T0 $0 $1 project $0 1 > filter => none";

const REDUCE_EXPRESSIONS: &str = "T0 TRUE filter => T0
T0 FALSE filter => integer integer empty
T2 FALSE filter => text boolean empty
T0 1 1 = filter => T0
T2 2 3 * 7 < NOT filter => text boolean empty
T2 'x' 'x' <> 1 ISNULL OR filter => text boolean empty
T0 $0 2 3 + > filter => T0 $0 5 > filter
T0 $0 1 > 1 1 = AND filter => T0 $0 1 > TRUE AND filter
T0 $0 1 > TRUE AND filter => none
T0 $0 1 > filter => none
T0 $0 7 2 / + 7 NEGATE 2 / project => T0 $0 3 + -3 project
T0 1 2 - $1 2 3 + 4 * - 'x' project => T0 -1 $1 20 - 'x' project
T0 $0 NEGATE $1 ISNULL project => none
T0 $0 1 + 2 + project => none
T0 $0 7 2 'x' TRUE project => none
T0 1 filter => none
T0 1 0 / project => none
T0 T1 1 1 = inner => none
T0 => none";

const PRUNE_EMPTY: &str = "integer text empty $0 1 > filter => integer text empty
integer text empty $1 $0 1 > project => text boolean empty
integer text empty #1 COUNT aggregate => text integer empty
integer text empty COUNT aggregate => none
integer empty T2 TRUE inner => integer text boolean empty
T2 integer empty TRUE inner => text boolean integer empty
integer empty T0 $0 $1 = left => integer integer integer empty
T0 integer empty $0 $2 = left => none
integer empty integer empty $0 $1 = left => integer integer empty
integer empty $0 filter => none
integer empty => none
T0 T1 TRUE inner => none
T0 $0 1 > filter => none";

#[test]
fn projects_of_projects(rt: HostRuntime) -> Result<(), Fail> {
    let wrong = first_wrong(rt.alloc(), &ProjectMerge::new(), PROJECT_MERGE)?;
    assert_eq!(rt; wrong, "");
    Ok(())
}

#[test]
fn projects_of_all_columns(rt: HostRuntime) -> Result<(), Fail> {
    let wrong = first_wrong(rt.alloc(), &ProjectRemove::new(), PROJECT_REMOVE)?;
    assert_eq!(rt; wrong, "");
    Ok(())
}

#[test]
fn constant_parts(rt: HostRuntime) -> Result<(), Fail> {
    let wrong = first_wrong(rt.alloc(), &ReduceExpressions::new(), REDUCE_EXPRESSIONS)?;
    assert_eq!(rt; wrong, "");
    Ok(())
}

#[test]
fn trees_over_no_rows(rt: HostRuntime) -> Result<(), Fail> {
    let wrong = first_wrong(rt.alloc(), &PruneEmpty::new(), PRUNE_EMPTY)?;
    assert_eq!(rt; wrong, "");
    Ok(())
}
