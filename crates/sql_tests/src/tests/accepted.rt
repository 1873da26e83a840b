//! What an accepted SELECT has.
use crate::tests::run::first_wrong;
use std::test::Fail;

// The numbers of its tables; the places of the columns that it refers to; its columns with kind, interval and NULL where it may stand.
const SELECTS: &str =
    "SELECT * FROM T => select tables 0 columns: A integer -2147483648 2147483647 NULL, B integer -2147483648 2147483647 NULL
SELECT X, COUNT(B) AS N, D.A FROM C LEFT JOIN D ON B = X WHERE X > '' GROUP BY D.A, X ORDER BY N, D.A => select tables 7 6 columns 0 2 1 2 0 0 1 0 1: X text NULL, N integer 0 1099511627776, A integer -2147483648 2147483647 NULL
SELECT A + 1, COUNT(*), 'x' AS Y, A IS NULL FROM T GROUP BY A => select tables 0 columns 0 0 0: EXPR$0 integer -2147483647 2147483648 NULL, EXPR$1 integer 0 1048576, Y text, EXPR$3 boolean
SELECT * FROM T LEFT JOIN U USING (B) => select tables 0 1 columns: A integer -2147483648 2147483647 NULL, B integer -2147483648 2147483647 NULL, C text NULL
SELECT COUNT(*) AS N FROM P JOIN R ON V = K => select tables 3 5 columns 0 1: N integer 0 1
SELECT SUM(K) AS N FROM P LEFT JOIN Q ON V < K => select tables 3 4 columns 1 0 1: N integer -4294967296 4294967294 NULL";

#[test]
fn what_accepted_selects_have(rt: HostRuntime) -> Result<(), Fail> {
    let wrong = first_wrong(rt.alloc(), SELECTS)?;
    assert_eq!(rt; wrong, "");
    Ok(())
}
