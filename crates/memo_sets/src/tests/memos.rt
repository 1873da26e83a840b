//! What memos become, and what is answered.
use crate::tests::steps::first_wrong;
use std::test::Fail;

// Among them: a filter over a scan and over a project of it, where the scan and the project then become one set, in which the project
// stands over the set itself; four numbers gone at once; a number gone into one that goes; types that meet.
const STEPS: &str = "s => 0 | 0:s | 10/9 | 0 | 1
sf sf => 1 1 | 0:s 1:0f | 10/9 10/9 | 0 1 | 2
usj => 2 | 0:u 1:s 2:01j | 3/20 10/9 30/20 | 0 1 2 | 3
sf spf => 1 3 | 0:s 1:0f 2:0p 3:2f | 10/9 10/9 10/9 10/9 | 0 1 2 3 | 4
sf spf 2=0 => 1 3 merged 02 | 0:s 1:0f 0:0p | 10/9 10/9 - - | 0 1 0 1 | 4
sf 0=s 1=1pp => 1 known 0 added 1 | 0:s 1:0f 2:1p 1:2p | 10/9 10/9 10/9 | 0 1 2 | 4
sf 1=1p => 1 added 1 | 0:s 1:0f 1:1p | 10/9 10/9 | 0 1 | 3
sfff spfff 4=0 => 3 7 merged 04 | 0:s 1:0f 2:1f 3:2f 0:0p | 10/9 10/9 10/9 10/9 - - - - | 0 1 2 3 0 1 2 3 | 8
s u 1=s => 0 1 merged 01 | 0:s 0:u | 3/9 - | 0 0 | 2
s u up 2=1 0=1 => 0 1 2 merged 12 merged 01 | 0:s 0:u 0:0p | 3/9 - - | 0 0 0 | 3";

const NEARLY_FULL: &str = "sf => full | | | | 1023
s u s => 0 full 0 | 0:s | 10/9 | 0 | 1024
s 0=0 0=0p => 0 known 0 full | 0:s | 10/9 | 0 | 1024";

#[test]
fn memos(rt: HostRuntime) -> Result<(), Fail> {
    let wrong = first_wrong(rt.alloc(), 0, STEPS)?;
    assert_eq!(rt; wrong, "");
    Ok(())
}

#[test]
fn memos_that_are_nearly_full(rt: HostRuntime) -> Result<(), Fail> {
    let wrong = first_wrong(rt.alloc(), 1023, NEARLY_FULL)?;
    assert_eq!(rt; wrong, "");
    Ok(())
}
