// What each command is refused for; a refusal of these ends nothing and changes nothing.
use crate::reports::cases;
use std::test::*;

// Follow: 16, then 17, then 18.
#[test]
fn follows(rt: HostRuntime) -> Result<(), Fail> {
    cases(
        &rt,
        rt.alloc(),
        "# follow
         SV a -
         FO 1 3
         FO 0 0
         FO 0 3
         FO 0 255
         FO 0 2
         FO 0 3
         FO 0 2
         FO 0 1
         FO 255 1
         ---
         refused 2 16
         refused 3 17
         refused 4 17
         refused 5 17
         refused 7 17
         refused 8 18
         refused 9 18
         refused 10 16
         playhead 0 kept 0

         # no streams
         FO 0 2
         LV 0
         ---
         refused 1 16
         refused 2 16
         playhead 0 kept 0",
    )
}

// Leave: 16, then 19.
#[test]
fn leaves(rt: HostRuntime) -> Result<(), Fail> {
    cases(
        &rt,
        rt.alloc(),
        "# leave
         SV a -
         SV b 1
         LV 2
         LV 0
         FO 0 2
         LV 1
         LV 0
         LV 0
         FO 0 2
         ---
         refused 3 16
         refused 4 19
         refused 6 19
         refused 8 19
         playhead 0 kept 0",
    )
}

// Play: 20 past the latest time, 21 behind the playhead; a play to the playhead is fine.
#[test]
fn plays(rt: HostRuntime) -> Result<(), Fail> {
    cases(
        &rt,
        rt.alloc(),
        "# play
         PL 4000000000001
         PL 1000
         PL 999
         PL 1000
         PL 18446744073709551615
         PL 4000000000000
         PL 4000000000000
         PL 3999999999999
         ---
         refused 1 20
         refused 3 21
         refused 5 20
         refused 8 21
         playhead 4000000000000 kept 0",
    )
}

// Seek: 20 past the latest time; behind the playhead is fine.
#[test]
fn seeks(rt: HostRuntime) -> Result<(), Fail> {
    cases(
        &rt,
        rt.alloc(),
        "# seek
         SK 4000000000001
         SK 4000000000000
         SK 18446744073709551615
         SK 3
         ---
         refused 1 20
         refused 3 20
         playhead 3 kept 0",
    )
}

// Evict: 25 where the range runs backward; an empty range and times past the latest are fine.
#[test]
fn evicts(rt: HostRuntime) -> Result<(), Fail> {
    cases(
        &rt,
        rt.alloc(),
        "# evict
         SV a -
         FO 0 2
         MP 0
           ES 1000 0 a -
           EV 0 100 0 0 -
         EX 9 3
         EX 0 0
         EX 1 18446744073709551615
         EX 18446744073709551615 0
         ---
         refused 4 25
         refused 7 25
         playhead 0 kept 1",
    )
}
