// Segments in whole runs: each number of making and reading, and the times that they give.
use crate::reports::cases;
use std::test::*;

// The times of a segment: 6, then 9, then 10; each before any box is read.
#[test]
fn making(rt: HostRuntime) -> Result<(), Fail> {
    cases(
        &rt,
        rt.alloc(),
        "# making
         SV a -
         FO 0 1
         SG 0 0 1 0 0 0
           IN x
         SG 0 0 1 1 0 0
           IN x
         SG 0 0 1 10000001 0 1
           IN x
         SG 0 0 1 1 0 10000001
         SG 0 0 1 1 0 10000000
           IN x
         SG 0 4000000001 0 1 0 1
           IN x
         SG 0 4000000000 0 1 0 1
           IN x
         SG 0 0 0 1 18446744073709551615 1
         ---
         refused 3 6
         refused 4 6
         refused 5 6
         refused 6 6
         refused 7 9
         refused 8 10
         refused 9 26 7
         playhead 0 kept 0",
    )
}

// Boxes of other types and of later versions are stepped over; sizes of 8 bytes, and a box to the end.
#[test]
fn boxes(rt: HostRuntime) -> Result<(), Fail> {
    cases(
        &rt,
        rt.alloc(),
        "# stepped over
         SV a -
         FO 0 1
         SG 0 5000 1000 1000 2000 1000
           BOX free -
           BOX moof 12345
           E0 a - 1000 500 250 7 ok
           BOX emsg 0x02000000
           BOX emsg 0xff00000072657374
           E1 1000 9000 250 8 a - yes
         ---
         0 R 0 7 4500 250 2
         0 R 0 8 7000 250 3
         playhead 0 kept 0

         # long size
         SV a -
         FO 0 1
         SG 0 5000 1000 1000 2000 1000
           IN 0x00000001656d7367000000000000002800000000610000000003e800000000000000010000000221
           IN 0x00000001667265650000000000000010
           E0 a - 1000 500 250 7 ok
         ---
         0 R 0 2 4000 1 1
         0 R 0 7 4500 250 2
         playhead 0 kept 0

         # to the end
         SV a -
         FO 0 1
         SG 0 5000 1000 1000 2000 1000
           E0 a - 1000 500 250 7 ok
           IN 0x0000000066726565
           IN 0xffffffff
         ---
         0 R 0 7 4500 250 2
         playhead 0 kept 0

         # emsg to the end
         SV a -
         FO 0 1
         SG 0 5000 1000 1000 2000 1000
           IN 0x00000000656d736700000000610000000003e8000000000000000100000002
           E0 a - 1000 500 250 7 ok
         ---
         0 R 0 2 4000 1 33
         playhead 0 kept 0",
    )
}

// 7: a head that is cut, a size below its head, a size past the segment; for every type, and what was drawn before it stays.
#[test]
fn heads(rt: HostRuntime) -> Result<(), Fail> {
    cases(
        &rt,
        rt.alloc(),
        "# heads
         SV a -
         FO 0 1
         SG 0 5000 1000 1000 2000 1000
           E0 a - 1000 500 250 7 ok
           IN 0x00000008667265
         SG 0 5000 1000 1000 2000 1000
           IN 0x0000000766726565
         SG 0 5000 1000 1000 2000 1000
           IN 0x0000000966726565
         SG 0 5000 1000 1000 2000 1000
           IN 0x000000016672656500000000000000
         SG 0 5000 1000 1000 2000 1000
           IN 0x0000000166726565000000000000000f
         SG 0 5000 1000 1000 2000 1000
           IN 0x00000001667265650000000000000011
         SG 0 5000 1000 1000 2000 1000
           IN 0x0000000166726565ffffffffffffffff
         SG 0 5000 1000 1000 2000 1000
           IN 0xffffffff656d7367
         SG 0 5000 1000 1000 2000 1000
           IN x
           E0 a - 1000 500 250 7 ok
         ---
         0 R 0 7 4500 250 2
         refused 3 26 7
         refused 4 26 7
         refused 5 26 7
         refused 6 26 7
         refused 7 26 7
         refused 8 26 7
         refused 9 26 7
         refused 10 26 7
         refused 11 26 7
         playhead 0 kept 0",
    )
}

// 8: an emsg too short for its version, strings that are not closed in it, numbers that do not fit.
#[test]
fn fields(rt: HostRuntime) -> Result<(), Fail> {
    cases(
        &rt,
        rt.alloc(),
        "# fields
         SV a -
         FO 0 1
         SG 0 5000 1000 1000 2000 1000
           BOX emsg -
         SG 0 5000 1000 1000 2000 1000
           BOX emsg 0x020000
         SG 0 5000 1000 1000 2000 1000
           BOX emsg 0x00000000
         SG 0 5000 1000 1000 2000 1000
           BOX emsg 0x0000000061
         SG 0 5000 1000 1000 2000 1000
           BOX emsg 0x00000000610076
         SG 0 5000 1000 1000 2000 1000
           BOX emsg 0x00000000610000000000000000000000000000000000
         SG 0 5000 1000 1000 2000 1000
           BOX emsg 0x0100000000000000000000000000000000000000000000
         SG 0 5000 1000 1000 2000 1000
           BOX emsg 0x01000000000000000000000000000000000000000000000061
         SG 0 5000 1000 1000 2000 1000
           BOX emsg 0x010000000000000000000000000000000000000000000000610076
         ---
         refused 3 26 8
         refused 4 26 8
         refused 5 26 8
         refused 6 26 8
         refused 7 26 8
         refused 8 26 8
         refused 9 26 8
         refused 10 26 8
         refused 11 26 8
         playhead 0 kept 0",
    )
}

// 6, 10, 9 and 10 of emsg boxes, in this order.
#[test]
fn numbers(rt: HostRuntime) -> Result<(), Fail> {
    cases(
        &rt,
        rt.alloc(),
        "# version 0
         SV a -
         FO 0 1
         SG 0 5000 1000 1000 2000 1000
           E0 a - 0 4294967295 4294967295 1 -
         SG 0 5000 1000 1000 2000 1000
           E0 zz - 10000001 0 0 1 -
         SG 0 5000 1000 1000 2000 1000
           E0 a - 1 4000000001 0 1 -
         SG 0 5000 1000 1000 2000 1000
           E0 a - 1 0 4000000001 1 -
         SG 0 5000 1000 1000 2000 1000
           E0 a - 1 4000000000 0 1 -
         SG 0 5000 1000 1000 2000 1000
           E0 a - 1 3999999996 4000000000 1 -
         SG 0 5000 1000 1000 2000 1000
           E0 a - 1 0 4294967295 1 -
         SG 0 5000 1000 1000 2000 1000
           E0 a - 1000 0 4294967294 1 -
         ---
         refused 3 26 6
         refused 4 26 6
         refused 5 26 10
         refused 6 26 10
         refused 7 26 10
         0 R 0 1 4000000000000 4000000000000 0
         0 R 0 1 4000 - 0
         0 R 0 1 4000 4294967294 0
         playhead 0 kept 0

         # version 1
         SV a -
         FO 0 1
         SG 0 5000 1000 1000 2000 1000
           E1 0 0 0 1 a - -
         SG 0 5000 1000 1000 2000 1000
           E1 1000 4000000000001 0 1 a - -
         SG 0 5000 1000 1000 2000 1000
           E1 1 0 4000000001 1 a - -
         SG 0 5000 1000 1000 2000 1000
           E1 1000 1999 0 1 a - -
         SG 0 5000 1000 1000 2000 1000
           E1 1000 2000 0 1 a - -
         SG 0 5000 1000 1000 2000 1000
           E1 1000 4000000000000 0 1 a - -
         SG 0 0 0 1 18446744073709551615 1
           E1 1000 4000000000000 0 1 a - -
         SG 0 0 0 1 0 1
           E1 1000 4000000000000 0 1 a - -
         ---
         refused 3 26 6
         refused 4 26 10
         refused 5 26 10
         refused 6 26 9
         0 R 0 1 0 0 0
         0 R 0 1 3999999998000 0 0
         refused 9 26 9
         0 R 0 1 4000000000000 0 0
         playhead 0 kept 0",
    )
}

// Each fraction is rounded down by itself before it is added or subtracted.
#[test]
fn fractions(rt: HostRuntime) -> Result<(), Fail> {
    cases(
        &rt,
        rt.alloc(),
        "# fractions
         SV a -
         FO 0 1
         SG 0 180000 90000 90000 0 1
           E0 a - 1000 500 0 1 -
         SG 0 0 0 90000 0 1
           E1 90000 1001 0 2 a - -
         SG 0 1 0 3 0 1
           E0 a - 3 2 2 3 -
         SG 0 0 0 3 1 3
           E1 3 2 1 4 a - -
         SG 1000 1 0 3 1 3
           E1 3 2 1 5 a - -
         ---
         0 R 0 1 1500 0 0
         0 R 0 2 11 0 0
         0 R 0 3 999 666 0
         0 R 0 4 333 333 0
         0 R 0 5 1333 333 0
         playhead 0 kept 0",
    )
}

// The sum of a period start and an arrival may pass the latest time where that of the start does not, and is 10.
#[test]
fn arrivals(rt: HostRuntime) -> Result<(), Fail> {
    cases(
        &rt,
        rt.alloc(),
        "# arrivals
         SV a -
         FO 0 1
         SG 3999999996000 5000 1000 1000 2000 1000
           E1 1000 2000 0 1 a - -
         SG 3999999996001 5000 1000 1000 2000 1000
           E1 1000 2000 0 1 a - -
         SG 3999999996001 5000 1000 1000 2000 1000
           E0 zz - 1000 0 0 1 -
         SG 3999999996000 5000 1000 1000 2000 1000
           E0 a - 1000 0 0 1 -
           E0 a - 1000 1 0 1 -
         ---
         0 R 0 1 3999999996000 0 0
         refused 4 26 10
         refused 5 26 10
         0 R 0 1 4000000000000 0 0
         refused 6 26 10
         playhead 0 kept 0",
    )
}
