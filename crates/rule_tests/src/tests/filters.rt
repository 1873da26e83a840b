//! What the rules of filters make.
use crate::tests::run::first_wrong;
use rules_filter::{FilterAggregateTranspose, FilterIntoJoin, FilterMerge, FilterProjectTranspose};
use std::test::Fail;

const FILTER_MERGE: &str = "T0 $0 1 > filter $1 2 < filter => T0 $0 1 > $1 2 < AND filter
T0 $0 1 > $1 2 > AND filter $0 5 < $1 6 < AND filter => T0 $0 1 > $1 2 > AND $0 5 < AND $1 6 < AND filter
T0 $0 1 > $1 2 > $0 5 < AND AND filter $1 6 < filter => T0 $0 1 > $1 2 > AND $0 5 < AND $1 6 < AND filter
T0 $0 1 > filter $0 2 > filter $0 3 > filter => T0 $0 1 > filter $0 2 > $0 3 > AND filter
T0 $0 1 > $1 2 < OR filter FALSE filter => T0 $0 1 > $1 2 < OR FALSE AND filter
T0 $0 1 > filter TRUE filter => T0 $0 1 > filter
T0 TRUE filter $0 1 > TRUE AND filter => T0 $0 1 > filter
T0 TRUE filter TRUE TRUE AND filter => T0
T0 $0 1 > filter $0 project $0 2 > filter => none
T0 $0 filter $0 1 > filter => none
T0 $0 1 > filter => none
T0 => none";

const FILTER_PROJECT_TRANSPOSE: &str =
    "T0 $1 $0 1 + project $1 3 > filter => T0 $0 1 + 3 > filter $1 $0 1 + project
T0 $0 $1 + $0 project $0 $1 = $1 ISNULL OR filter => T0 $0 $1 + $0 = $0 ISNULL OR filter $0 $1 + $0 project
T0 7 project TRUE filter => T0 TRUE filter 7 project
T2 $0 $1 project $1 NOT $0 'x' = AND filter => T2 $1 NOT $0 'x' = AND filter $0 $1 project
T0 $0 project $0 1 > filter $0 2 > filter => none
T0 $0 1 > filter $0 project => none
T0 $1 project $1 3 > filter => none
T0 #0 aggregate $0 3 > filter => none";

const FILTER_INTO_JOIN: &str =
    "T0 T1 $0 $2 = inner $1 1 > filter => T0 $1 1 > filter T1 $0 $2 = inner
T0 T1 $0 $2 = inner $3 1 > filter => T0 T1 $1 1 > filter $0 $2 = inner
T0 T1 $0 $2 = inner $1 $3 < filter => T0 T1 $0 $2 = $1 $3 < AND inner
T0 T1 $0 $2 = inner 1 2 = filter => T0 1 2 = filter T1 $0 $2 = inner
T0 T1 $0 $2 = inner TRUE filter => T0 T1 $0 $2 = inner
T0 T1 TRUE inner $0 $2 = filter => T0 T1 $0 $2 = inner
T0 T1 $0 $2 = TRUE AND inner $0 3 > filter => T0 $0 3 > filter T1 $0 $2 = TRUE AND inner
T0 T1 $0 $2 = inner $3 2 > $1 $3 < AND $0 1 > AND $2 3 > AND 1 2 = AND filter => T0 $0 1 > 1 2 = AND filter T1 $1 2 > $0 3 > AND filter $0 $2 = $1 $3 < AND inner
T0 $0 project T2 TRUE inner $2 $1 'x' = AND filter => T0 $0 project T2 $1 $0 'x' = AND filter TRUE inner
T0 T1 $0 $2 = left $3 ISNULL filter => none
T0 T1 $0 $2 = left $1 $3 < filter => none
T0 T1 $0 $2 = left $1 1 > filter => T0 $1 1 > filter T1 $0 $2 = left
T0 T1 $0 $2 = left 1 2 = filter => T0 1 2 = filter T1 $0 $2 = left
T0 T1 $0 $2 = left $3 ISNULL $0 1 > AND $1 $3 < AND filter => T0 $0 1 > filter T1 $0 $2 = left $3 ISNULL $1 $3 < AND filter
T0 T1 $0 $2 = left $3 ISNULL TRUE AND filter => T0 T1 $0 $2 = left $3 ISNULL filter
T0 T1 $0 $2 = left TRUE filter => T0 T1 $0 $2 = left
T0 T1 $0 $2 = inner $0 project $0 1 > filter => none
T0 T1 $0 $2 = inner => none";

const FILTER_AGGREGATE_TRANSPOSE: &str =
    "T0 #1 COUNT aggregate $0 1 > filter => T0 $1 1 > filter #1 COUNT aggregate
T0 #1 COUNT aggregate $1 1 > filter => none
T0 #1 COUNT aggregate $1 5 < $0 1 > AND filter => T0 $1 1 > filter #1 COUNT aggregate $1 5 < filter
T0 #1 COUNT aggregate $0 $1 = filter => none
T0 #1 #0 COUNT SUM:0 aggregate $0 $1 < $2 $3 < AND filter => T0 $1 $0 < filter #1 #0 COUNT SUM:0 aggregate $2 $3 < filter
T0 #1 COUNT aggregate 1 2 = filter => T0 1 2 = filter #1 COUNT aggregate
T0 #1 aggregate TRUE filter => T0 #1 aggregate
T0 #1 COUNT aggregate $1 1 > TRUE AND filter => T0 #1 COUNT aggregate $1 1 > filter
T0 COUNT aggregate $0 1 > filter => none
T0 COUNT aggregate 1 2 = filter => none
T0 #0 aggregate $0 project $0 1 > filter => none";

#[test]
fn filters_of_filters(rt: HostRuntime) -> Result<(), Fail> {
    let wrong = first_wrong(rt.alloc(), &FilterMerge::new(), FILTER_MERGE)?;
    assert_eq!(rt; wrong, "");
    Ok(())
}

#[test]
fn filters_of_projects(rt: HostRuntime) -> Result<(), Fail> {
    let rule = FilterProjectTranspose::new();
    let wrong = first_wrong(rt.alloc(), &rule, FILTER_PROJECT_TRANSPOSE)?;
    assert_eq!(rt; wrong, "");
    Ok(())
}

#[test]
fn filters_of_joins(rt: HostRuntime) -> Result<(), Fail> {
    let wrong = first_wrong(rt.alloc(), &FilterIntoJoin::new(), FILTER_INTO_JOIN)?;
    assert_eq!(rt; wrong, "");
    Ok(())
}

#[test]
fn filters_of_aggregates(rt: HostRuntime) -> Result<(), Fail> {
    let rule = FilterAggregateTranspose::new();
    let wrong = first_wrong(rt.alloc(), &rule, FILTER_AGGREGATE_TRANSPOSE)?;
    assert_eq!(rt; wrong, "");
    Ok(())
}
