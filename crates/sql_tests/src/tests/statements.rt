//! What `validate` says of statements that are no SELECT.
use crate::tests::run::first_wrong;
use std::test::Fail;

const INSERTS: &str = "INSERT INTO D VALUES (1, 'x'), (2) => BadRow row 2 column 0
INSERT INTO D VALUES ('x', 'x') => BadRow row 1 column 1
INSERT INTO D VALUES (1, 2) => BadRow row 1 column 2
INSERT INTO D VALUES (2147483648, 2) => BadRow row 1 column 1
INSERT INTO D VALUES (2147483647, '') => insert 6
INSERT INTO S.D VALUES (-2147483648, NULL) => insert 6
INSERT INTO D VALUES (0, ''), (NULL, '') => BadRow row 2 column 1
INSERT INTO Z VALUES (1) => UnknownTable name Z";

const OTHERS: &str = "REFRESH TABLE T => NotRefreshable
REFRESH TABLE C => refresh 7
REFRESH TABLE Z.C => UnknownTable name Z.C
CREATE TILE ON S.L () => UnknownLattice name S.L
DROP TILE ON T (T.A) => UnknownLattice name T
CHOOSE TILES ON L LIMIT 3 => UnknownLattice name L
EXPLAIN PLAN FOR SELECT * FROM T GROUP BY A => NotGrouped place 4
EXPLAIN MEMO FOR SELECT DISTINCT * FROM T GROUP BY A => NotGrouped place 5
EXPLAIN PLAN FOR SELECT X FROM C => plan
EXPLAIN MEMO FOR SELECT X FROM C => memo
EXPLAIN PLAN FOR SELECT A FROM C => UnknownColumn name A";

#[test]
fn statements(rt: HostRuntime) -> Result<(), Fail> {
    for table in [INSERTS, OTHERS] {
        let wrong = first_wrong(rt.alloc(), table)?;
        assert_eq!(rt; wrong, "");
    }
    Ok(())
}
