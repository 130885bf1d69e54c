// What the two players show, beside what the rules give.
use crate::steps::{event, in_stream, told, unused};
use crate::twins::{Outcome, SEGMENT_FIRST, SHEET_FIRST, on_list, on_log, set_aside};
use event::{Dispatch, Event, Trigger};
use std::process::Abort;
use std::test::Fail;

// Every record that was drawn is accounted for once.
fn balanced(rt: &impl Abort, outcome: Outcome) {
    let tally = outcome.tally;
    let mut sum = outcome.kept;
    for n in [
        tally.passed,
        tally.over,
        tally.repeats,
        tally.dispatched,
        tally.evicted,
        tally.left,
    ] {
        sum = sum.saturating_add(n);
    }
    assert!(rt; tally.drawn == 12 && sum == 12);
}

// What both sinks were told: one event on receive, and three at their starts.
fn expected() -> [Dispatch; 5] {
    let received = in_stream(Some(1), event(Some(5), 7000, None));
    let mut both: Event = event(Some(7), 2000, Some(500));
    both.message.length = 2;
    let told = [
        told(0, Trigger::Receive, received),
        told(1000, Trigger::Start, event(Some(1), 1000, Some(100))),
        told(2000, Trigger::Start, both),
        told(3000, Trigger::Start, event(Some(2), 3000, None)),
        unused(),
    ];
    set_aside(told)
}

#[test]
fn stops_change_nothing(rt: HostRuntime) -> Result<(), Fail> {
    let whole = on_list(SHEET_FIRST)?;
    let stopped = on_log(SEGMENT_FIRST)?;
    assert!(rt; whole.playhead == 3999 && stopped.playhead == 3999);
    assert!(rt; whole.kept == 2 && stopped.kept == 2);
    assert!(rt; whole.count <= 5);
    assert!(rt; whole.count == 4 && stopped.count == 4);
    assert!(rt; whole.place == 51 && stopped.place == 89);
    assert!(rt; whole.told == expected());
    assert!(rt; stopped.told == expected());
    assert_eq!(rt; whole.tally, stopped.tally);
    balanced(&rt, whole);
    balanced(&rt, stopped);
    Ok(())
}
