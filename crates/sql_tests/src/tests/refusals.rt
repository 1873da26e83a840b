//! Why a SELECT is refused: each cause with its place, and both sides of each limit.
use crate::tests::run::first_wrong;
use std::test::Fail;

const TABLES: &str = "SELECT Z FROM T, X.Y => UnknownTable name X.Y
SELECT Z FROM T, T B, T C, T D, T E, T F, T G, T H => UnknownColumn name Z
SELECT H.A FROM T, T B, T C, T D, T E, T F, T G, T H => select
SELECT Z FROM T, T B, T C, T D, T E, T F, T G, T H, T I => TooManyTables limit 8";

const NAMES: &str = "SELECT 1 FROM T X, U X WHERE Z = 1 => UnknownColumn name Z
SELECT 1 FROM T X, U X WHERE B = 1 => Ambiguous name X
SELECT A FROM T, T => Ambiguous name A
SELECT T.A FROM T, T => Ambiguous name T.A
SELECT 1 FROM T, T WHERE T.A = 1 => Ambiguous name T
SELECT B FROM T, U => Ambiguous name B
SELECT T.B FROM T, U => select
SELECT B FROM T JOIN U USING (B) => select
SELECT U.B FROM T JOIN U USING (B) => select
SELECT 1 FROM T JOIN U USING (A) => UnknownColumn name A
SELECT 1 FROM T, U JOIN T X USING (B) => Ambiguous name B
SELECT 1 FROM T JOIN U ON T.A = X.A JOIN T X ON TRUE => UnknownColumn name X.A
SELECT 1 FROM T, U JOIN R ON T.A = R.K => select
SELECT A FROM T GROUP BY T.Z => UnknownColumn name T.Z
SELECT A FROM T ORDER BY T.Z => UnknownColumn name T.Z";

const KINDS: &str = "SELECT 1 FROM T JOIN V USING (B) => TypeClash place 8
SELECT 1 FROM T JOIN U ON A => TypeClash place 7
SELECT COUNT(*) FROM T HAVING A => TypeClash place 8
SELECT SUM(C) FROM U => TypeClash place 1
SELECT MIN(C) FROM U => select
SELECT MIN(C) + 1 FROM U => TypeClash place 5";

const AGGREGATES: &str = "SELECT A FROM T WHERE COUNT(*) = 1 => AggregateMisplaced place 5
SELECT 1 FROM T JOIN U ON COUNT(*) = 1 => AggregateMisplaced place 7
SELECT SUM(MAX(A)) FROM T => AggregateMisplaced place 3
SELECT A FROM T WHERE COUNT(*) => TypeClash place 5";

const GROUPS: &str = "SELECT A FROM T HAVING COUNT(*) > 0 => NotGrouped place 1
SELECT B AS A FROM T GROUP BY A => NotGrouped place 1
SELECT SUM(B), A + 1 FROM T GROUP BY A, A => select
SELECT A FROM T GROUP BY T.A HAVING B > 0 => NotGrouped place 10
SELECT * FROM T GROUP BY A => NotGrouped place 1
SELECT DISTINCT * FROM T GROUP BY A => NotGrouped place 2
SELECT * FROM T GROUP BY A, B => select";

const KEYS: &str = "SELECT A FROM T ORDER BY 0 => OrderKey place 6
SELECT A FROM T ORDER BY 1 => select
SELECT A FROM T ORDER BY 1, 2 => OrderKey place 8
SELECT A, B AS A FROM T ORDER BY A => OrderKey place 10
SELECT A FROM T ORDER BY T.B => OrderKey place 6
SELECT A AS X FROM T ORDER BY T.A => select
SELECT * FROM T ORDER BY T.B, B => select
SELECT A + 1 AS X FROM T ORDER BY X DESC NULLS LAST => select";

const SIZES: &str = "SELECT 1 / COUNT(*) FROM T => MayNotFit place 2 lo 0 hi 1048576
SELECT 1 / (COUNT(*) + 1) FROM T => select
SELECT SUM(V * V) FROM P => select
SELECT SUM(V * V) FROM P JOIN Q ON V = K => MayNotFit place 1 lo -100000000000000000000000000000000000000 hi 100000000000000000000000000000000000000
SELECT SUM(V * V) FROM P JOIN R ON V > K WHERE V = K => MayNotFit place 1 lo -100000000000000000000000000000000000000 hi 100000000000000000000000000000000000000
SELECT SUM(V * V) FROM P JOIN R ON V = K => select
SELECT SUM(V * V) FROM P LEFT JOIN R ON TRUE AND K = V => select
SELECT 1 / SUM(V) FROM P => MayNotFit place 2 lo -9223372036854775808 hi 9223372036854775807";

#[test]
fn refusals(rt: HostRuntime) -> Result<(), Fail> {
    for table in [TABLES, NAMES, KINDS, AGGREGATES, GROUPS, KEYS, SIZES] {
        let wrong = first_wrong(rt.alloc(), table)?;
        assert_eq!(rt; wrong, "");
    }
    Ok(())
}
