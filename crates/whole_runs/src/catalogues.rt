// Run sheets whose catalogue is refused, and those whose catalogue is full.
use crate::reports::cases;
use std::test::*;

// Streams are numbered as they are listed; a pair is another one when either part differs.
#[test]
fn listed(rt: HostRuntime) -> Result<(), Fail> {
    cases(
        &rt,
        rt.alloc(),
        "# nothing
         RAW -
         ---
         playhead 0 kept 0

         # three
         SV a -
         SV a v
         SV b -
         FO 2 2
         FO 3 2
         ---
         refused 5 16
         playhead 0 kept 0

         # parted otherwise
         SV ab c
         SV a bc
         FO 1 1
         ---
         playhead 0 kept 0",
    )
}

// A cut record is 1 before any string of it is judged, and ends the reading.
#[test]
fn cut(rt: HostRuntime) -> Result<(), Fail> {
    cases(
        &rt,
        rt.alloc(),
        "# behind its mark
         SV a -
         RAW SV
         ---
         refused 2 1
         playhead 0 kept 0

         # between its lengths
         RAW 0x535601
         ---
         refused 1 1
         playhead 0 kept 0

         # in its value
         RAW 0x5356030275726e76
         ---
         refused 1 1
         playhead 0 kept 0

         # with an empty scheme
         RAW 0x53560001
         ---
         refused 1 1
         playhead 0 kept 0",
    )
}

// An empty scheme, or a 0 byte in a string, is 2, also where the pair was listed before.
#[test]
fn bad_strings(rt: HostRuntime) -> Result<(), Fail> {
    cases(
        &rt,
        rt.alloc(),
        "# no scheme
         SV - v
         FO 0 2
         PL 5
         ---
         refused 1 2
         playhead 0 kept 0

         # a 0 byte in the scheme
         SV a -
         SV 0x6100 -
         ---
         refused 2 2
         playhead 0 kept 0

         # a 0 byte in the value
         SV a -
         SV b 1
         SV c 0x0076
         ---
         refused 3 2
         playhead 0 kept 0",
    )
}

// A pair that is listed twice is 3; what stands behind it is not performed.
#[test]
fn twice(rt: HostRuntime) -> Result<(), Fail> {
    cases(
        &rt,
        rt.alloc(),
        "# twice
         SV a -
         SV b 1
         SV a -
         FO 0 2
         PL 5000
         ---
         refused 3 3
         playhead 0 kept 0",
    )
}

// 32 streams are listed, and a 33rd is 4; but a cut one is 1, a bad one 2 and a listed one 3.
#[test]
fn full(rt: HostRuntime) -> Result<(), Fail> {
    cases(
        &rt,
        rt.alloc(),
        "# 32
         SVS 32
         FO 31 2
         FO 32 2
         ---
         refused 34 16
         playhead 0 kept 0

         # 33
         SVS 33
         PL 5
         ---
         refused 33 4
         playhead 0 kept 0

         # 32 and a listed one
         SVS 32
         SV F -
         ---
         refused 33 3
         playhead 0 kept 0

         # 32 and a bad one
         SVS 32
         SV 0x00 -
         ---
         refused 33 2
         playhead 0 kept 0

         # 32 and a cut one
         SVS 32
         RAW 0x53560100
         ---
         refused 33 1
         playhead 0 kept 0",
    )
}
