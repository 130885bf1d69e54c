// What is told in whole runs, and when.
use crate::reports::cases;
use std::test::*;

// Streams that are not followed, not listed or left are passed; on receive tells all at the playhead, again and again.
#[test]
fn modes(rt: HostRuntime) -> Result<(), Fail> {
    cases(
        &rt,
        rt.alloc(),
        "# passed
         SV a -
         SV b 1
         MP 0
           ES 1000 0 a -
           EV 0 0 0 0 -
         FO 0 2
         MP 0
           ES 1000 0 b 1
           EV 0 0 0 0 -
           ES 1000 0 b -
           EV 0 0 0 0 -
           ES 1000 0 a 1
           EV 0 0 0 0 -
         LV 0
         MP 0
           ES 1000 0 a -
           EV 0 0 0 0 -
         ---
         playhead 0 kept 0

         # on receive
         SV a -
         FO 0 1
         SK 1000
         MP 0
           ES 1000 0 a -
           EV 3 0 10 1 -
           EV 3 0 10 1 -
           EV 2 9000 0 1 -
           EV 0 1000 0 0 -
         PL 9999
         ---
         1000 R 0 1 0 10 0
         1000 R 0 1 0 10 0
         1000 R 0 1 9000 - 0
         1000 R 0 - 1000 - 0
         playhead 9999 kept 0

         # side by side
         SV a -
         SV b 1
         FO 0 2
         FO 1 1
         MP 0
           ES 1000 0 a -
           EV 3 500 5 1 -
           ES 1000 0 b 1
           EV 3 500 5 1 -
         PL 600
         MP 0
           ES 1000 0 b 1
           EV 3 500 5 1 -
           ES 1000 0 a -
           EV 3 500 500 1 -
         ---
         0 R 1 1 500 5 0
         500 S 0 1 500 5 0
         600 R 1 1 500 5 0
         playhead 600 kept 0",
    )
}

// On start the playhead parts what is over, what is told at once and what is kept.
#[test]
fn starts(rt: HostRuntime) -> Result<(), Fail> {
    cases(
        &rt,
        rt.alloc(),
        "# starts
         SV a -
         FO 0 2
         PL 1000
         MP 0
           ES 1000 0 a -
           EV 3 500 499 1 -
           EV 3 500 500 2 -
           EV 3 1000 0 3 -
           EV 3 1001 0 4 -
           EV 2 0 0 5 -
           EV 3 500 500 2 -
           EV 2 2000 0 4 -
           EV 3 0 999 2 -
         PL 1000
         PL 1001
         ---
         1000 S 0 2 500 500 0
         1000 S 0 3 1000 0 0
         1000 S 0 5 0 - 0
         1001 S 0 4 1001 0 0
         playhead 1001 kept 0

         # at zero
         SV a -
         FO 0 2
         MP 0
           ES 1000 0 a -
           EV 1 0 0 0 -
           EV 1 1 0 0 -
         PL 0
         ---
         0 S 0 - 0 0 0
         playhead 0 kept 1

         # at the latest time
         SV a -
         FO 0 2
         MP 0
           ES 1000 0 a -
           EV 2 4000000000000 0 9 -
           EV 3 4000000000000 5 8 -
           EV 2 5 0 7 -
         PL 4000000000000
         MP 0
           ES 1000 0 a -
           EV 1 5 10 0 -
           EV 1 5 3000000000 0 -
         SK 0
         ---
         5 S 0 7 5 - 0
         4000000000000 S 0 9 4000000000000 - 0
         4000000000000 S 0 8 4000000000000 5 0
         playhead 0 kept 0",
    )
}

// An id repeats in its own stream alone, and an event without an id never repeats.
#[test]
fn ids(rt: HostRuntime) -> Result<(), Fail> {
    cases(
        &rt,
        rt.alloc(),
        "# ids
         SV a -
         SV b 1
         FO 0 2
         FO 1 2
         MP 0
           ES 1000 0 a -
           EV 2 0 0 1 -
           ES 1000 0 b 1
           EV 2 0 0 1 -
           EV 2 0 0 1 -
           ES 1000 0 a -
           EV 0 0 0 0 -
           EV 0 0 0 0 -
           EV 0 9 0 0 -
           EV 0 9 0 0 -
           EV 2 9 0 0 -
           EV 2 9 0 0 -
           EV 2 9 0 4294967295 -
         PL 9
         ---
         0 S 0 1 0 - 0
         0 S 1 1 0 - 0
         0 S 0 - 0 - 0
         0 S 0 - 0 - 0
         9 S 0 - 9 - 0
         9 S 0 - 9 - 0
         9 S 0 0 9 - 0
         9 S 0 4294967295 9 - 0
         playhead 9 kept 0",
    )
}

// Kept events are told by start, then by arrival, then as they were drawn.
#[test]
fn order(rt: HostRuntime) -> Result<(), Fail> {
    cases(
        &rt,
        rt.alloc(),
        "# order
         SV a -
         FO 0 2
         MP 200
           ES 1000 0 a -
           EV 2 2800 0 1 -
           EV 2 2300 0 2 -
         MP 100
           ES 1000 0 a -
           EV 2 2900 0 9 -
           EV 2 2900 0 3 -
         SG 0 150 0 1000 0 1
           E0 a - 1000 2850 0 5 -
           E1 1000 2500 0 4 a - -
         PL 5000
         ---
         2500 S 0 4 2500 0 0
         2500 S 0 2 2500 - 0
         3000 S 0 9 3000 - 0
         3000 S 0 3 3000 - 0
         3000 S 0 5 3000 0 0
         3000 S 0 1 3000 - 0
         playhead 5000 kept 0",
    )
}

// A seek tells what is active where it lands, from the start to the end; what lies behind stays kept.
#[test]
fn seeks(rt: HostRuntime) -> Result<(), Fail> {
    cases(
        &rt,
        rt.alloc(),
        "# edges
         SV a -
         FO 0 2
         MP 0
           ES 1000 0 a -
           EV 3 3000 500 1 -
           EV 2 6000 0 2 -
         SK 3501
         SK 2999
         SK 3500
         SK 5999
         SK 6000
         SK 0
         ---
         3500 S 0 1 3000 500 0
         6000 S 0 2 6000 - 0
         playhead 0 kept 0

         # behind
         SV a -
         FO 0 2
         MP 0
           ES 1000 0 a -
           EV 3 3000 0 1 -
         SK 5000
         PL 9000
         MP 0
           ES 1000 0 a -
           EV 3 3000 0 1 -
         SK 3000
         MP 0
           ES 1000 0 a -
           EV 3 3000 0 1 -
         ---
         3000 S 0 1 3000 0 0
         playhead 3000 kept 0

         # many
         SV a -
         FO 0 2
         MP 0
           ES 1000 0 a -
           EV 3 3000 900 1 -
           EV 3 2000 500 2 -
           EV 2 1000 0 3 -
           EV 3 2900 99 4 -
           EV 3 3001 1 5 -
         SK 3000
         PL 3001
         ---
         3000 S 0 3 1000 - 0
         3000 S 0 1 3000 900 0
         3001 S 0 5 3001 1 0
         playhead 3001 kept 2",
    )
}

// Leaving a stream forgets its kept events and its used ids, and those of no other.
#[test]
fn leaves(rt: HostRuntime) -> Result<(), Fail> {
    cases(
        &rt,
        rt.alloc(),
        "# leaves
         SV a -
         SV b 1
         FO 0 2
         FO 1 2
         MP 0
           ES 1000 0 a -
           EV 2 0 0 1 -
           EV 2 500 0 2 -
           ES 1000 0 b 1
           EV 2 500 0 2 -
           EV 2 0 0 1 -
         LV 0
         MP 0
           ES 1000 0 a -
           EV 2 0 0 1 -
         FO 0 2
         MP 0
           ES 1000 0 a -
           EV 2 0 0 1 -
           ES 1000 0 b 1
           EV 2 0 0 1 -
           EV 2 500 0 2 -
         PL 1000
         ---
         0 S 0 1 0 - 0
         0 S 1 1 0 - 0
         0 S 0 1 0 - 0
         500 S 1 2 500 - 0
         playhead 1000 kept 0

         # another mode
         SV a -
         FO 0 2
         MP 0
           ES 1000 0 a -
           EV 2 0 0 1 -
           EV 2 9 0 2 -
         LV 0
         FO 0 1
         MP 0
           ES 1000 0 a -
           EV 2 0 0 1 -
         PL 10
         LV 0
         FO 0 2
         MP 0
           ES 1000 0 a -
           EV 2 0 0 1 -
         ---
         0 S 0 1 0 - 0
         0 R 0 1 0 - 0
         10 S 0 1 0 - 0
         playhead 10 kept 0",
    )
}

// Evicting takes what arrived from the one time on and before the other; used ids stay, and the ids of what was evicted do not.
#[test]
fn evicts(rt: HostRuntime) -> Result<(), Fail> {
    cases(
        &rt,
        rt.alloc(),
        "# evicts
         SV a -
         FO 0 2
         MP 0
           ES 1000 0 a -
           EV 2 0 0 9 -
         MP 100
           ES 1000 0 a -
           EV 2 400 0 1 -
         MP 200
           ES 1000 0 a -
           EV 2 300 0 2 -
         EX 0 100
         EX 101 200
         EX 201 900
         EX 100 101
         MP 0
           ES 1000 0 a -
           EV 2 0 0 9 -
           EV 2 600 0 1 -
           EV 2 600 0 2 -
         PL 1000
         ---
         0 S 0 9 0 - 0
         500 S 0 2 500 - 0
         600 S 0 1 600 - 0
         playhead 1000 kept 0",
    )
}
