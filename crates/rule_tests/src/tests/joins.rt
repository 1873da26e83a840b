//! What the rules of joins make.
use crate::tests::run::first_wrong;
use rules_join::{JoinAssociate, JoinCommute};
use std::test::Fail;

const JOIN_COMMUTE: &str =
    "T0 $0 project T1 $1 project $0 $1 = inner => T1 $1 project T0 $0 project $1 $0 = inner $1 $0 project
T0 T1 $0 $2 = inner => T1 T0 $2 $0 = inner $2 $3 $0 $1 project
T0 T0 $1 $3 < inner => T0 T0 $3 $1 < inner $2 $3 $0 $1 project
T0 $0 project T2 TRUE inner => T2 T0 $0 project TRUE inner $2 $0 $1 project
T0 T1 1 2 = inner => T1 T0 1 2 = inner $2 $3 $0 $1 project
T0 T1 $0 $2 = TRUE AND inner => T1 T0 $2 $0 = TRUE AND inner $2 $3 $0 $1 project
T0 T2 $0 1 + NEGATE $1 < $3 NOT $2 'x' = OR ISNULL AND inner => T2 T0 $2 1 + NEGATE $3 < $1 NOT $0 'x' = OR ISNULL AND inner $2 $3 $0 $1 project
T0 T1 $0 $2 = inner T2 $1 3 > $4 'x' = AND inner => T2 T0 T1 $0 $2 = inner $3 3 > $0 'x' = AND inner $2 $3 $4 $5 $0 $1 project
integer text empty T1 $0 $2 = inner => T1 integer text empty $2 $0 = inner $2 $3 $0 $1 project
H0 H1 $0 3 > $4 AND inner => H1 H0 $2 3 > $1 AND inner $2 $3 $4 $0 $1 project
H1 T0 $1 $2 2 > OR inner => T0 H1 $3 $0 2 > OR inner $2 $3 $0 $1 project
H2 T1 TRUE inner => none
T0 T1 $0 $2 = left => none
T0 T1 $0 $4 = inner => none
T0 T1 $0 inner => none
T0 T1 $0 $2 = inner $0 1 > filter => none
T0 => none";

const JOIN_ASSOCIATE: &str =
    "T0 T1 $0 $2 = inner T1 $2 $4 = inner => T0 T1 T1 $0 $2 = inner $0 $2 = inner
T0 T1 $0 $2 = $1 1 > AND $3 2 < AND 1 2 = AND inner T1 $2 $4 = $1 $5 < AND $5 3 > AND $0 $3 < AND 3 4 = AND inner => T0 T1 T1 $1 2 < $0 $2 = AND $3 3 > AND inner $0 $2 = $1 1 > AND 1 2 = AND $1 $5 < AND $0 $3 < AND 3 4 = AND inner
T0 T1 $3 2 < inner T1 $0 $4 = inner => T0 T1 T1 $1 2 < inner $0 $4 = inner
T0 T1 $0 $2 = inner T1 $5 2 < inner => T0 T1 T1 $3 2 < inner $0 $2 = inner
T0 T1 TRUE inner T1 $2 $4 = inner => T0 T1 T1 $0 $2 = inner TRUE inner
T0 T1 $0 $2 = TRUE AND inner T1 TRUE $2 $4 = AND inner => T0 T1 T1 $0 $2 = inner $0 $2 = inner
T0 T1 $0 $2 = inner T1 $2 $4 = $3 $5 < OR inner => T0 T1 T1 $0 $2 = $1 $3 < OR inner $0 $2 = inner
T0 $0 project T2 TRUE inner T2 $1 $3 = $2 $4 OR AND $0 3 > AND inner => T0 $0 project T2 T2 $0 $2 = $1 $3 OR AND inner $0 3 > inner
T0 T1 $0 $2 = inner T1 $2 $4 = inner T1 $4 $6 = inner => T0 T1 $0 $2 = inner T1 T1 $0 $2 = inner $2 $4 = inner
H0 H1 $0 1 > inner H1 $3 $5 = inner => H0 H1 H1 $0 $2 = inner $0 1 > inner
T0 H0 $1 1 > inner H1 $4 3 < $6 AND inner => T0 H0 H1 $2 3 < $4 AND inner $1 1 > inner
H0 T1 $3 4 > inner => none
H2 T1 TRUE inner T1 $2 3 > inner => none
T0 T1 1 2 = inner T1 $0 $4 = inner => none
T0 T1 $0 $2 = inner T1 $0 $4 = inner => none
T0 T1 TRUE inner T1 TRUE inner => none
T0 T1 $0 $2 = inner T1 $2 $4 = $0 $4 = OR inner => none
T0 T1 $0 $2 = inner T1 $2 $4 = left => none
T0 T1 $0 $2 = left T1 $2 $4 = inner => none
T0 T1 $0 $2 = left T1 $2 $4 = left => none
T0 T1 T1 $0 $2 = inner $2 $4 = inner => none
T0 T1 $0 $2 = inner T1 $2 $6 = inner => none
T0 T1 $0 $4 = inner T1 $2 $4 = inner => none
T0 T1 $0 $2 = inner $2 1 > filter T1 $2 $4 = inner => none
T0 => none";

#[test]
fn joins_commuted(rt: HostRuntime) -> Result<(), Fail> {
    let wrong = first_wrong(rt.alloc(), &JoinCommute::new(), JOIN_COMMUTE)?;
    assert_eq!(rt; wrong, "");
    Ok(())
}

#[test]
fn joins_associated(rt: HostRuntime) -> Result<(), Fail> {
    let wrong = first_wrong(rt.alloc(), &JoinAssociate::new(), JOIN_ASSOCIATE)?;
    assert_eq!(rt; wrong, "");
    Ok(())
}
