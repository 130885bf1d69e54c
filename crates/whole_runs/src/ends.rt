// Where the reading of a run sheet ends, and how records are counted.
use crate::reports::cases;
use std::test::*;

// 65,536 bytes are read, and one more is 5, whatever they are.
#[test]
fn lengths(rt: HostRuntime) -> Result<(), Fail> {
    cases(
        &rt,
        rt.alloc(),
        "# 65,536 and a cut record
         SV a -
         FO 0 2
         MP 0
           ES 1000 0 a -
           EVL 4 1000 65472
         RAW 0x4558000000
         ---
         refused 4 30
         playhead 0 kept 1

         # longest
         SV a -
         FO 0 2
         MP 0
           ES 1000 0 a -
           EVL 0 1000 65467
         PL 2000
         ---
         1000 S 0 - 1000 - 65467
         playhead 2000 kept 0

         # one too many
         SV a -
         FO 0 2
         MP 0
           ES 1000 0 a -
           EVL 0 1000 65468
         PL 2000
         ---
         refused 0 5
         playhead 0 kept 0

         # 65,536 zeros
         ZEROS 65536
         ---
         refused 1 30
         playhead 0 kept 0

         # 65,537 zeros
         ZEROS 65537
         ---
         refused 0 5
         playhead 0 kept 0",
    )
}

// An unknown mark is 30, and a lone last byte too; marks of sheets and logs are not known here.
#[test]
fn marks(rt: HostRuntime) -> Result<(), Fail> {
    cases(
        &rt,
        rt.alloc(),
        "# unknown
         RAW XX
         ---
         refused 1 30
         playhead 0 kept 0

         # small letters
         SV a -
         RAW 0x666f0002
         ---
         refused 2 30
         playhead 0 kept 0

         # a lone S
         RAW S
         ---
         refused 1 30
         playhead 0 kept 0

         # a lone S behind a stream
         SV a -
         RAW S
         ---
         refused 2 30
         playhead 0 kept 0

         # a lone byte behind a command
         SV a -
         FO 0 2
         RAW P
         ---
         refused 3 30
         playhead 0 kept 0

         # a mark of a sheet
         SV a -
         FO 0 2
         RAW 0x4553000003e80000000000000000010061
         ---
         refused 3 30
         playhead 0 kept 0",
    )
}

// A stream that is listed behind a command is 30 as soon as its mark is seen.
#[test]
fn late_streams(rt: HostRuntime) -> Result<(), Fail> {
    cases(
        &rt,
        rt.alloc(),
        "# whole
         SV a -
         FO 0 2
         SV b 1
         PL 9
         ---
         refused 3 30
         playhead 0 kept 0

         # cut
         SV a -
         FO 0 2
         RAW SV
         ---
         refused 3 30
         playhead 0 kept 0

         # bad
         PL 7
         SV - -
         ---
         refused 2 30
         playhead 7 kept 0",
    )
}

// What was done before the end stays done, and what stands behind it is not performed.
#[test]
fn stops(rt: HostRuntime) -> Result<(), Fail> {
    cases(
        &rt,
        rt.alloc(),
        "# told before
         SV a -
         FO 0 2
         MP 0
           ES 1000 0 a -
           EV 3 100 5 1 -
           EV 3 300 5 2 -
         PL 200
         RAW ??
         PL 400
         ---
         100 S 0 1 100 5 0
         refused 5 30
         playhead 200 kept 1

         # refused before
         SV a -
         LV 0
         RAW 0x0000
         LV 0
         ---
         refused 2 19
         refused 3 30
         playhead 0 kept 0",
    )
}

// A cut record is 30 before any field of it is judged, and a cut sheet or segment draws nothing.
#[test]
fn cut_first(rt: HostRuntime) -> Result<(), Fail> {
    cases(
        &rt,
        rt.alloc(),
        "# follow
         SV a -
         RAW 0x464f09
         ---
         refused 2 30
         playhead 0 kept 0

         # play
         SV a -
         RAW 0x504cffffffffffffff
         ---
         refused 2 30
         playhead 0 kept 0

         # evict
         RAW 0x4558ff0000000000000000000000000000
         ---
         refused 1 30
         playhead 0 kept 0

         # sheet
         SV a -
         FO 0 2
         RAW 0x4d50000000000000000000274553000003e80000000000000000010061455600000000000000000000000000000000000000
         ---
         refused 3 30
         playhead 0 kept 0

         # segment
         SV a -
         RAW 0x5347000000000000000000000000000000000000000000000001000000000000000000000000000000000001
         ---
         refused 2 30
         playhead 0 kept 0",
    )
}

// Every record counts, also those of the catalogue and those that are refused; counts go past a byte and past two.
#[test]
fn counted(rt: HostRuntime) -> Result<(), Fail> {
    cases(
        &rt,
        rt.alloc(),
        "# 300 plays
         SV a -
         PLS 300
         LV 0
         ---
         refused 302 19
         playhead 300 kept 0

         # 6,500 plays
         PLS 6500
         LV 0
         LV 0
         ---
         refused 6501 16
         refused 6502 16
         playhead 6500 kept 0",
    )
}
