// Sheets in whole runs: each fault, what was drawn before it, and the times at their limits.
use crate::reports::cases;
use std::test::*;

// Each fault of a sheet; what stands before it was drawn, and what stands behind it is dropped.
#[test]
fn faults(rt: HostRuntime) -> Result<(), Fail> {
    cases(
        &rt,
        rt.alloc(),
        "# 11 mark
         SV a -
         FO 0 1
         MP 0
           ES 1000 0 a -
           EV 2 5 0 1 -
           IN DL
           EV 2 5 0 2 -
         ---
         0 R 0 1 5 - 0
         refused 3 26 11
         playhead 0 kept 0

         # 11 cut
         SV a -
         FO 0 1
         MP 0
           ES 1000 0 a -
           EV 2 5 0 1 -
           IN 0x4556000000000000000000000000000000000000
         ---
         0 R 0 1 5 - 0
         refused 3 26 11
         playhead 0 kept 0

         # 11 cut before 6
         SV a -
         FO 0 1
         MP 0
           IN 0x45530000000000000000000000000100
         ---
         refused 3 26 11
         playhead 0 kept 0

         # 6
         SV a -
         FO 0 1
         MP 0
           ES 0 0 a -
         MP 0
           ES 10000001 0 a -
         MP 0
           ES 1000 0 a -
           EV 0 5 0 0 -
           ES 4294967295 0 zz -
         ---
         refused 3 26 6
         refused 4 26 6
         0 R 0 - 5 - 0
         refused 5 26 6
         playhead 0 kept 0

         # 12
         SV a -
         FO 0 1
         MP 0
           EV 8 5 0 0 -
         MP 0
           ES 1000 0 a -
         MP 0
           EV 0 5 0 0 -
         ---
         refused 3 26 12
         refused 5 26 12
         playhead 0 kept 0

         # 13
         SV a -
         FO 0 1
         MP 0
           ES 1000 0 a -
           EV 8 5 0 0 -
         MP 0
           ES 1000 0 a -
           EV 128 5 0 0 -
         MP 0
           ES 1000 0 a -
           EV 2 5 1 1 -
         MP 0
           ES 1000 0 a -
           EV 1 5 1 1 -
         MP 0
           ES 1000 0 a -
           EV 0 5 0 0 -
         ---
         refused 3 26 13
         refused 4 26 13
         refused 5 26 13
         refused 6 26 13
         0 R 0 - 5 - 0
         playhead 0 kept 0

         # 9
         SV a -
         FO 0 1
         MP 0
           ES 1000 500 a -
           EV 0 500 0 0 -
           EV 0 499 0 0 -
           EV 0 501 0 0 -
         ---
         0 R 0 - 0 - 0
         refused 3 26 9
         playhead 0 kept 0

         # 14
         SV a -
         FO 0 1
         MP 0
           ES 1000 0 a -
           EV 4 5 0 0 aGk=
           EV 0 5 0 0 aGl=
           EV 4 5 0 0 aGl=
         ---
         0 R 0 - 5 - 4
         0 R 0 - 5 - 4
         refused 3 26 14
         playhead 0 kept 0",
    )
}

// An event with many faults has the first in the order 12, 13, 9, 10, 14.
#[test]
fn fault_order(rt: HostRuntime) -> Result<(), Fail> {
    cases(
        &rt,
        rt.alloc(),
        "# order
         SV a -
         FO 0 1
         MP 0
           EV 12 1 0 0 !
         MP 0
           ES 1 2 a -
           EV 12 1 0 0 !
         MP 0
           ES 1 2 a -
           EV 4 1 0 0 !
         MP 0
           ES 1 2 a -
           EV 4 4000000003 0 0 !
         MP 0
           ES 1 2 a -
           EV 4 4000000002 0 0 !
         ---
         refused 3 26 12
         refused 4 26 13
         refused 5 26 9
         refused 6 26 10
         refused 7 26 14
         playhead 0 kept 0",
    )
}

// Starts and known durations reach the latest time, and one millisecond more is 10.
#[test]
fn latest(rt: HostRuntime) -> Result<(), Fail> {
    cases(
        &rt,
        rt.alloc(),
        "# starts
         SV a -
         FO 0 1
         MP 0
           ES 1 0 a -
           EV 0 4000000000 0 0 -
         MP 0
           ES 1000 0 a -
           EV 0 4000000000000 0 0 -
           EV 0 4000000000001 0 0 -
         MP 0
           ES 1000 1 a -
           EV 0 4000000000001 0 0 -
         ---
         0 R 0 - 4000000000000 - 0
         0 R 0 - 4000000000000 - 0
         refused 4 26 10
         0 R 0 - 4000000000000 - 0
         playhead 0 kept 0

         # durations
         SV a -
         FO 0 1
         MP 0
           ES 1 0 a -
           EV 1 0 4000000000 0 -
           EV 1 0 4000000001 0 -
         MP 0
           ES 1000 0 a -
           EV 1 0 4294967295 0 -
           EV 3 7 0 4294967295 -
         ---
         0 R 0 - 0 4000000000000 0
         refused 3 26 10
         0 R 0 - 0 4294967295 0
         0 R 0 4294967295 7 0 0
         playhead 0 kept 0

         # rounded
         SV a -
         FO 0 1
         MP 0
           ES 3 1 a -
           EV 1 3 2 0 -
         MP 0
           ES 10000000 0 a -
           EV 1 9999 10000 0 -
         MP 0
           ES 90000 0 a -
           EV 1 1001 45 0 -
         ---
         0 R 0 - 666 666 0
         0 R 0 - 0 1 0
         0 R 0 - 11 0 0
         playhead 0 kept 0",
    )
}

// A period start is added to starts and arrivals; a sum past the latest time is 10, also for a stream that is not listed, and an empty sheet has no sum.
#[test]
fn periods(rt: HostRuntime) -> Result<(), Fail> {
    cases(
        &rt,
        rt.alloc(),
        "# periods
         SV a -
         FO 0 1
         MP 4000000000000
           ES 1000 0 a -
           EV 0 0 0 0 -
           EV 0 1 0 0 -
         MP 4000000000001
         MP 4000000000001
           ES 1000 0 a -
         MP 4000000000001
           ES 1000 0 a -
           EV 0 0 0 0 -
         MP 4000000000000
           ES 1000 0 zz -
           EV 0 1 0 0 -
         MP 18446744073709551615
           ES 1000 0 a -
           EV 8 1 0 0 -
         MP 18446744073709551615
           ES 1000 0 a -
           EV 1 4000000000000 9 0 -
         ---
         0 R 0 - 4000000000000 - 0
         refused 3 26 10
         refused 6 26 10
         refused 7 26 10
         refused 8 26 13
         refused 9 26 10
         playhead 0 kept 0",
    )
}

// The length that is told is that of the text as it stands, up to what a length can say.
#[test]
fn messages(rt: HostRuntime) -> Result<(), Fail> {
    cases(
        &rt,
        rt.alloc(),
        "# messages
         SV a -
         FO 0 1
         MP 0
           ES 1000 0 a -
           EV 4 0 0 0 Zm9vYg==
           EV 0 0 0 0 Zm9vY
           EVL 4 0 60000
         ---
         0 R 0 - 0 - 8
         0 R 0 - 0 - 5
         0 R 0 - 0 - 60000
         playhead 0 kept 0",
    )
}
