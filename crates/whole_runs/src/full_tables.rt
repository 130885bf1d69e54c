// Tables and the list when nearly full and full: 64 kept events, 256 ids, 256 dispatches.
use crate::reports::cases;
use std::test::*;

// 64 events are kept; the next is 22. What is passed, a repeat or told at once is not refused, and a place that is given back is used again.
#[test]
fn events(rt: HostRuntime) -> Result<(), Fail> {
    cases(
        &rt,
        rt.alloc(),
        "# 64
         SV a -
         FO 0 2
         MP 0
           ES 1000 0 a -
           EVS 63 2 1000 1 1
         MP 0
           ES 1000 0 a -
           EV 2 1063 0 64 -
         MP 0
           ES 1000 0 a -
           EV 2 5000 0 65 -
           EV 2 0 0 66 -
         MP 0
           ES 1000 0 a -
           EV 0 5000 0 0 -
         MP 0
           ES 1000 0 a -
           EV 2 5000 0 1 -
           ES 1000 0 b 1
           EV 2 5000 0 1 -
           ES 1000 0 a -
           EV 0 0 0 0 -
         PL 1000
         MP 0
           ES 1000 0 a -
           EV 2 5000 0 67 -
           EV 2 5000 0 68 -
         ---
         refused 5 22
         refused 6 22
         0 S 0 - 0 - 0
         1000 S 0 1 1000 - 0
         refused 9 22
         playhead 1000 kept 64

         # evicted
         SV a -
         FO 0 2
         MP 0
           ES 1000 0 a -
           EVS 32 2 1000 1 1
         MP 500
           ES 1000 0 a -
           EVS 33 2 1000 101 1
         EX 0 0
         EX 500 501
         MP 500
           ES 1000 0 a -
           EVS 33 2 1000 101 1
         ---
         refused 4 22
         refused 7 22
         playhead 0 kept 64

         # left
         SV a -
         SV b 1
         FO 0 2
         FO 1 2
         MP 0
           ES 1000 0 a -
           EVS 32 2 1000 1 1
           ES 1000 0 b 1
           EVS 32 2 1000 1 1
         MP 0
           ES 1000 0 b 1
           EV 2 9 0 99 -
         LV 0
         MP 0
           ES 1000 0 b 1
           EV 2 9 0 99 -
         ---
         refused 6 22
         playhead 0 kept 33

         # over
         SV a -
         FO 0 2
         MP 0
           ES 1000 0 a -
           EVS 64 2 1000 1 1
         SK 100
         MP 0
           ES 1000 0 a -
           EV 3 50 10 90 -
           EV 3 50 50 91 -
           EV 3 101 0 92 -
         ---
         100 S 0 91 50 50 0
         refused 5 22
         playhead 100 kept 64",
    )
}

// Used ids and the ids of kept events are 256 at most; the next is 23, to keep and to tell, but not without an id, nor where it repeats.
#[test]
fn ids(rt: HostRuntime) -> Result<(), Fail> {
    cases(
        &rt,
        rt.alloc(),
        "# 256
         SV a -
         FO 0 2
         MP 0
           ES 1000 0 a -
           EVS 193 2 0 1 0
         MP 0
           ES 1000 0 a -
           EVS 63 2 1000 1001 1
         MP 0
           ES 1000 0 a -
           EV 2 2000 0 5000 -
         MP 0
           ES 1000 0 a -
           EV 2 0 0 5000 -
         MP 0
           ES 1000 0 a -
           EV 2 0 0 193 -
           EV 2 0 0 1063 -
           EV 0 0 0 0 -
           EV 0 2000 0 0 -
         MP 0
           ES 1000 0 a -
           EV 2 2000 0 5000 -
         ---
         ROW 193 1 0 S 0 # 0 - 0
         refused 5 23
         refused 6 23
         0 S 0 - 0 - 0
         refused 8 22
         playhead 0 kept 64

         # 255 and one
         SV a -
         FO 0 2
         MP 0
           ES 1000 0 a -
           EVS 255 2 0 1 0
         MP 0
           ES 1000 0 a -
           EV 2 0 0 256 -
         MP 0
           ES 1000 0 a -
           EV 2 0 0 257 -
         MP 0
           ES 1000 0 a -
           EV 0 0 0 0 -
         MP 0
           ES 1000 0 a -
           EV 2 9 0 257 -
         MP 0
           ES 1000 0 a -
           EV 0 9 0 0 -
         PL 99
         MP 0
           ES 1000 0 a -
           EV 2 0 0 256 -
         ---
         ROW 256 1 0 S 0 # 0 - 0
         refused 5 23
         refused 6 24
         refused 7 23
         playhead 8 kept 1

         # events first
         SV a -
         FO 0 2
         MP 0
           ES 1000 0 a -
           EVS 192 2 0 1 0
           EVS 64 2 1000 1001 1
         MP 0
           ES 1000 0 a -
           EV 2 2000 0 5000 -
         MP 0
           ES 1000 0 a -
           EV 2 0 0 5000 -
         ---
         ROW 192 1 0 S 0 # 0 - 0
         refused 4 22
         refused 5 23
         playhead 0 kept 64

         # given back
         SV a -
         FO 0 2
         MP 0
           ES 1000 0 a -
           EVS 200 2 0 1 0
           EVS 57 2 1000 1001 1
         EX 0 1
         MP 0
           ES 1000 0 a -
           EV 2 0 0 7000 -
           EV 2 9 0 7001 -
           EV 2 0 0 1 -
         LV 0
         FO 0 2
         MP 0
           ES 1000 0 a -
           EV 2 0 0 1 -
         ---
         ROW 200 1 0 S 0 # 0 - 0
         refused 3 23
         0 S 0 7000 0 - 0
         0 S 0 1 0 - 0
         playhead 0 kept 0

         # on receive
         SV a -
         SV b 1
         FO 0 2
         FO 1 1
         MP 0
           ES 1000 0 a -
           EVS 193 2 0 1 0
           EVS 63 2 1000 1001 1
         MP 0
           ES 1000 0 b 1
           EV 2 0 0 5 -
         MP 0
           ES 1000 0 a -
           EV 2 5 0 9999 -
         ---
         ROW 193 1 0 S 0 # 0 - 0
         0 R 1 5 0 - 0
         refused 7 23
         playhead 0 kept 63",
    )
}

// 256 dispatches are told in a whole run; then a draw and a seek are 24, and a play halts without a word.
#[test]
fn list(rt: HostRuntime) -> Result<(), Fail> {
    cases(
        &rt,
        rt.alloc(),
        "# 256
         SV a -
         SV b 1
         FO 0 2
         FO 1 1
         MP 0
           ES 1000 0 a -
           EV 2 1000 0 1 -
         MP 0
           ES 1000 0 b 1
           EVS 255 2 0 1 0
         MP 0
           ES 1000 0 b 1
           EV 2 0 0 256 -
         MP 0
           ES 1000 0 b 1
           EV 2 0 0 257 -
         MP 0
           ES 1000 0 a -
           EV 2 0 0 2 -
         PL 999
         PL 1000
         SK 1000
         SK 999
         LV 1
         FO 1 1
         MP 0
           ES 1000 0 b 1
           EV 2 0 0 258 -
         MP 0
           ES 1000 0 a -
           EV 2 2000 0 3 -
         ---
         ROW 256 1 0 R 1 # 0 - 0
         refused 8 24
         refused 9 24
         refused 12 24
         refused 16 24
         playhead 999 kept 2

         # a group that does not fit
         SV a -
         SV b 1
         FO 0 2
         FO 1 1
         MP 0
           ES 1000 0 b 1
           EVS 254 2 0 1 0
         MP 0
           ES 1000 0 a -
           EV 2 2000 0 1 -
           EV 2 3000 0 2 -
           EV 3 3000 0 3 -
         PL 5000
         PL 5000
         SK 3000
         SK 3001
         PL 5000
         ---
         ROW 254 1 0 R 1 # 0 - 0
         2000 S 0 1 2000 - 0
         refused 9 24
         3001 S 0 2 3000 - 0
         playhead 5000 kept 1

         # a group that fits
         SV a -
         SV b 1
         FO 0 2
         FO 1 1
         MP 0
           ES 1000 0 b 1
           EVS 253 2 0 1 0
         MP 0
           ES 1000 0 a -
           EV 2 2000 0 1 -
           EV 2 2000 0 2 -
           EV 3 3000 0 3 -
           EV 3 4000 0 4 -
         PL 3999
         PL 5000
         ---
         ROW 253 1 0 R 1 # 0 - 0
         2000 S 0 1 2000 - 0
         2000 S 0 2 2000 - 0
         3000 S 0 3 3000 0 0
         playhead 3999 kept 1

         # halted at the first millisecond
         SV a -
         SV b 1
         FO 0 2
         FO 1 1
         MP 0
           ES 1000 0 b 1
           EVS 256 2 0 1 0
         MP 0
           ES 1000 0 a -
           EV 2 1 0 1 -
         PL 9
         PL 0
         ---
         ROW 256 1 0 R 1 # 0 - 0
         playhead 0 kept 1",
    )
}
