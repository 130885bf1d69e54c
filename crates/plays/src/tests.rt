// What the calls on a player answer, and what the sink is told.
use crate::scripts::{AMPLE, Places, script};
use crate::steps::{Call, Said, arrived, event, in_stream, told};
use event::{Mode, Time, Trigger};
use player::{Drawn, Kept, Tables, UsedId};
use std::process::Abort;
use std::test::Fail;

// The first call of most lists: stream 0 is followed on start.
const FOLLOWED: (Call, Said) = (Call::Follow(0, Mode::OnStart), Said::Done);

const PASSED: Said = Said::Drew(Drawn::Passed);

const SENT: Said = Said::Drew(Drawn::Dispatched);

const OVER: Said = Said::Drew(Drawn::Over);

const REPEAT: Said = Said::Drew(Drawn::Repeat);

const KEPT: Said = Said::Drew(Drawn::Kept);

// An event that runs between two playheads is told at its start, and so is one of duration 0.
#[test]
fn play_short(rt: HostRuntime) -> Result<(), Fail> {
    let short = event(Some(1), 1200, Some(100));
    let flash = event(Some(2), 1500, Some(0));
    let open = event(Some(3), 2000, None);
    let steps = [
        FOLLOWED,
        (Call::Draw(open), KEPT),
        (Call::Draw(flash), KEPT),
        (Call::Draw(short), KEPT),
        (Call::Play(1000), Said::Reached(0, 1000)),
        (Call::Play(1999), Said::Reached(2, 1999)),
        (Call::Play(2000), Said::Reached(1, 2000)),
        (Call::Play(2000), Said::Reached(0, 2000)),
    ];
    let expected = [
        told(1200, Trigger::Start, short),
        told(1500, Trigger::Start, flash),
        told(2000, Trigger::Start, open),
    ];
    script(&rt, AMPLE, &steps, &expected)
}

// Events of one start that do not fit halt the play one millisecond before that start.
#[test]
fn play_halts(rt: HostRuntime) -> Result<(), Fail> {
    let first = event(Some(1), 2000, None);
    let second = event(Some(2), 3000, None);
    let third = event(Some(3), 3000, None);
    let steps = [
        FOLLOWED,
        (Call::Draw(second), KEPT),
        (Call::Draw(third), KEPT),
        (Call::Draw(first), KEPT),
        (Call::Play(5000), Said::Reached(1, 2999)),
        (Call::Play(5000), Said::Reached(0, 2999)),
    ];
    let two = Places {
        events: 8,
        ids: 8,
        dispatches: 2,
    };
    script(&rt, two, &steps, &[told(2000, Trigger::Start, first)])
}

// As many free places as one start needs let the play go on.
#[test]
fn play_fits(rt: HostRuntime) -> Result<(), Fail> {
    let first = event(Some(1), 3000, None);
    let second = event(Some(2), 3000, Some(0));
    let steps = [
        FOLLOWED,
        (Call::Draw(first), KEPT),
        (Call::Draw(second), KEPT),
        (Call::Play(5000), Said::Reached(2, 5000)),
        (Call::Play(6000), Said::Reached(0, 6000)),
    ];
    let two = Places {
        events: 2,
        ids: 2,
        dispatches: 2,
    };
    let expected = [
        told(3000, Trigger::Start, first),
        told(3000, Trigger::Start, second),
    ];
    script(&rt, two, &steps, &expected)
}

// Events of one start are told by arrival, and then as they were drawn.
#[test]
fn order(rt: HostRuntime) -> Result<(), Fail> {
    let late = arrived(200, event(Some(1), 3000, None));
    let early = arrived(100, event(Some(9), 3000, None));
    let next = arrived(100, event(Some(2), 3000, None));
    let steps = [
        FOLLOWED,
        (Call::Draw(late), KEPT),
        (Call::Draw(early), KEPT),
        (Call::Draw(next), KEPT),
        (Call::Seek(4000), Said::Count(3)),
    ];
    let expected = [
        told(4000, Trigger::Start, early),
        told(4000, Trigger::Start, next),
        told(4000, Trigger::Start, late),
    ];
    script(&rt, AMPLE, &steps, &expected)
}

// A play past the latest time, or behind the playhead, is refused.
#[test]
fn play_refused(rt: HostRuntime) -> Result<(), Fail> {
    let steps = [
        (Call::Play(Time::LATEST + 1), Said::Refused(20)),
        (Call::Play(1000), Said::Reached(0, 1000)),
        (Call::Play(999), Said::Refused(21)),
        (Call::Play(Time::LATEST), Said::Reached(0, Time::LATEST)),
    ];
    script(&rt, AMPLE, &steps, &[])
}

// A seek tells what is active where it lands: from the start to the end, and not one millisecond outside.
#[test]
fn seek_edges(rt: HostRuntime) -> Result<(), Fail> {
    let half = event(Some(1), 3000, Some(500));
    let open = event(Some(2), 6000, None);
    let steps = [
        FOLLOWED,
        (Call::Draw(half), KEPT),
        (Call::Draw(open), KEPT),
        (Call::Seek(3501), Said::Count(0)),
        (Call::Seek(2999), Said::Count(0)),
        (Call::Seek(3500), Said::Count(1)),
        (Call::Seek(5999), Said::Count(0)),
        (Call::Seek(6000), Said::Count(1)),
        (Call::Seek(0), Said::Count(0)),
        (Call::Seek(Time::LATEST + 1), Said::Refused(20)),
    ];
    let expected = [
        told(3500, Trigger::Start, half),
        told(6000, Trigger::Start, open),
    ];
    script(&rt, AMPLE, &steps, &expected)
}

// A kept event behind the playhead stays kept, and is told by a seek back onto its start.
#[test]
fn seek_back(rt: HostRuntime) -> Result<(), Fail> {
    let flash = event(Some(1), 3000, Some(0));
    let steps = [
        FOLLOWED,
        (Call::Draw(flash), KEPT),
        (Call::Seek(5000), Said::Count(0)),
        (Call::Play(9000), Said::Reached(0, 9000)),
        (Call::Draw(flash), OVER),
        (Call::Seek(3000), Said::Count(1)),
        (Call::Draw(flash), REPEAT),
    ];
    script(&rt, AMPLE, &steps, &[told(3000, Trigger::Start, flash)])
}

// A record with no stream, one outside the catalogue, and one that is not followed are passed.
#[test]
fn draw_passed(rt: HostRuntime) -> Result<(), Fail> {
    let any = event(Some(1), 0, None);
    let steps = [
        FOLLOWED,
        (Call::Draw(in_stream(None, any)), PASSED),
        (Call::Draw(in_stream(Some(2), any)), PASSED),
        (Call::Draw(in_stream(Some(1), any)), PASSED),
        (Call::DrawEnd, Said::Drew(Drawn::End)),
        (Call::DrawFault, Said::Refused(26)),
    ];
    script(&rt, AMPLE, &steps, &[])
}

// On receive an event is told at the playhead, whether it has ended, was told before or lies ahead, and takes no id place.
#[test]
fn draw_on_receive(rt: HostRuntime) -> Result<(), Fail> {
    let ended = event(Some(1), 0, Some(10));
    let ahead = event(Some(2), 9000, None);
    let steps = [
        (Call::Follow(0, Mode::OnReceive), Said::Done),
        (Call::Seek(1000), Said::Count(0)),
        (Call::Draw(ended), SENT),
        (Call::Draw(ended), SENT),
        (Call::Draw(ahead), SENT),
    ];
    let expected = [
        told(1000, Trigger::Receive, ended),
        told(1000, Trigger::Receive, ended),
        told(1000, Trigger::Receive, ahead),
    ];
    let one = Places {
        events: 1,
        ids: 1,
        dispatches: 3,
    };
    script(&rt, one, &steps, &expected)
}

// On start, the playhead parts what is over, what is told at once and what is kept.
#[test]
fn draw_on_start(rt: HostRuntime) -> Result<(), Fail> {
    let ending = event(Some(2), 500, Some(500));
    let starting = event(Some(3), 1000, Some(0));
    let steps = [
        FOLLOWED,
        (Call::Play(1000), Said::Reached(0, 1000)),
        (Call::Draw(event(Some(1), 500, Some(499))), OVER),
        (Call::Draw(ending), SENT),
        (Call::Draw(starting), SENT),
        (Call::Draw(event(Some(4), 1001, Some(0))), KEPT),
        (Call::Draw(ending), REPEAT),
        (Call::Draw(event(Some(4), 1000, None)), REPEAT),
        (Call::Draw(event(Some(2), 0, Some(999))), OVER),
    ];
    let expected = [
        told(1000, Trigger::Start, ending),
        told(1000, Trigger::Start, starting),
    ];
    script(&rt, AMPLE, &steps, &expected)
}

// An id repeats in its own stream alone, and a record without an id never repeats.
#[test]
fn ids(rt: HostRuntime) -> Result<(), Fail> {
    let one = event(Some(1), 0, None);
    let other = in_stream(Some(1), one);
    let bare = event(None, 0, None);
    let ahead = event(None, 500, None);
    let steps = [
        FOLLOWED,
        (Call::Follow(1, Mode::OnStart), Said::Done),
        (Call::Draw(one), SENT),
        (Call::Draw(other), SENT),
        (Call::Draw(other), REPEAT),
        (Call::Draw(bare), SENT),
        (Call::Draw(bare), SENT),
        (Call::Draw(ahead), KEPT),
        (Call::Draw(ahead), KEPT),
    ];
    let expected = [
        told(0, Trigger::Start, one),
        told(0, Trigger::Start, other),
        told(0, Trigger::Start, bare),
        told(0, Trigger::Start, bare),
    ];
    script(&rt, AMPLE, &steps, &expected)
}

// A full event table refuses what is to be kept, and nothing else.
#[test]
fn events_full(rt: HostRuntime) -> Result<(), Fail> {
    let active = event(None, 0, None);
    let steps = [
        FOLLOWED,
        (Call::Draw(event(Some(1), 500, None)), KEPT),
        (Call::Draw(event(Some(2), 500, None)), Said::Refused(22)),
        (Call::Draw(event(None, 500, None)), Said::Refused(22)),
        (Call::Draw(event(Some(1), 500, None)), REPEAT),
        (Call::Draw(in_stream(Some(1), active)), PASSED),
        (Call::Draw(active), SENT),
        (Call::Draw(active), Said::Refused(24)),
        (Call::Seek(100), Said::Count(0)),
        (Call::Draw(event(Some(2), 99, Some(0))), OVER),
    ];
    let one = Places {
        events: 1,
        ids: 1,
        dispatches: 1,
    };
    script(&rt, one, &steps, &[told(0, Trigger::Start, active)])
}

// Used ids and the ids of kept events share the places for ids.
#[test]
fn ids_full(rt: HostRuntime) -> Result<(), Fail> {
    let active = event(Some(1), 0, None);
    let steps = [
        FOLLOWED,
        (Call::Draw(active), SENT),
        (Call::Draw(event(Some(2), 500, None)), KEPT),
        (Call::Draw(event(Some(3), 500, None)), Said::Refused(23)),
        (Call::Draw(event(Some(3), 0, None)), Said::Refused(23)),
        (Call::Draw(event(None, 500, None)), KEPT),
        (Call::Draw(event(None, 0, None)), Said::Refused(24)),
        (Call::Draw(active), REPEAT),
    ];
    let two = Places {
        events: 3,
        ids: 2,
        dispatches: 1,
    };
    script(&rt, two, &steps, &[told(0, Trigger::Start, active)])
}

// A sink with too few free places refuses a draw and a seek, and halts a play.
#[test]
fn sink_full(rt: HostRuntime) -> Result<(), Fail> {
    let active = event(Some(1), 0, None);
    let steps = [
        FOLLOWED,
        (Call::Follow(1, Mode::OnReceive), Said::Done),
        (Call::Draw(active), SENT),
        (Call::Draw(event(Some(2), 0, None)), Said::Refused(24)),
        (Call::Draw(in_stream(Some(1), active)), Said::Refused(24)),
        (Call::Draw(event(Some(3), 500, Some(9))), KEPT),
        (Call::Seek(509), Said::Refused(24)),
        (Call::Play(509), Said::Reached(0, 499)),
        (Call::Seek(510), Said::Count(0)),
    ];
    let one = Places {
        events: 2,
        ids: 8,
        dispatches: 1,
    };
    script(&rt, one, &steps, &[told(0, Trigger::Start, active)])
}

// Following takes a stream of the catalogue, a mode that is not off, and a stream that is not followed.
#[test]
fn follow_refused(rt: HostRuntime) -> Result<(), Fail> {
    let steps = [
        (Call::Follow(2, Mode::Off), Said::Refused(16)),
        (Call::Follow(0, Mode::Off), Said::Refused(17)),
        FOLLOWED,
        (Call::Follow(0, Mode::Off), Said::Refused(17)),
        (Call::Follow(0, Mode::OnReceive), Said::Refused(18)),
        (Call::Leave(2), Said::Refused(16)),
        (Call::Leave(1), Said::Refused(19)),
        (Call::Leave(0), Said::Count(0)),
        (Call::Leave(0), Said::Refused(19)),
    ];
    script(&rt, AMPLE, &steps, &[])
}

// Leaving a stream forgets its kept events and its used ids, and those of no other.
#[test]
fn leave_forgets(rt: HostRuntime) -> Result<(), Fail> {
    let active = event(Some(1), 0, None);
    let ahead = event(Some(2), 500, None);
    let other = in_stream(Some(1), ahead);
    let steps = [
        FOLLOWED,
        (Call::Follow(1, Mode::OnStart), Said::Done),
        (Call::Draw(active), SENT),
        (Call::Draw(ahead), KEPT),
        (Call::Draw(other), KEPT),
        (Call::Leave(0), Said::Count(1)),
        (Call::Draw(active), PASSED),
        FOLLOWED,
        (Call::Draw(active), SENT),
        (Call::Draw(other), REPEAT),
    ];
    let expected = [
        told(0, Trigger::Start, active),
        told(0, Trigger::Start, active),
    ];
    script(&rt, AMPLE, &steps, &expected)
}

// Evicting removes what arrived from the one time on and before the other; used ids stay.
#[test]
fn evict_range(rt: HostRuntime) -> Result<(), Fail> {
    let active = arrived(200, event(Some(9), 0, None));
    let ahead = event(Some(1), 500, None);
    let steps = [
        FOLLOWED,
        (Call::Draw(active), SENT),
        (Call::Draw(arrived(100, ahead)), KEPT),
        (Call::Evict(5, 4), Said::Refused(25)),
        (Call::Evict(100, 100), Said::Count(0)),
        (Call::Evict(0, 100), Said::Count(0)),
        (Call::Evict(101, 900), Said::Count(0)),
        (Call::Evict(100, 101), Said::Count(1)),
        (Call::Draw(active), REPEAT),
        (Call::Draw(ahead), KEPT),
    ];
    script(&rt, AMPLE, &steps, &[told(0, Trigger::Start, active)])
}

// Evicting and leaving give back the id places of what they remove.
#[test]
fn places_given_back(rt: HostRuntime) -> Result<(), Fail> {
    let first = arrived(100, event(Some(1), 500, None));
    let second = arrived(200, event(Some(2), 500, None));
    let third = arrived(299, event(Some(3), 500, None));
    let steps = [
        FOLLOWED,
        (Call::Draw(first), KEPT),
        (Call::Draw(second), KEPT),
        (Call::Draw(third), Said::Refused(23)),
        (Call::Evict(100, 200), Said::Count(1)),
        (Call::Draw(third), KEPT),
        (Call::Draw(first), Said::Refused(23)),
        (Call::Evict(200, 300), Said::Count(2)),
        (Call::Draw(first), KEPT),
        (Call::Draw(second), KEPT),
        (Call::Leave(0), Said::Count(2)),
        FOLLOWED,
        (Call::Draw(third), KEPT),
        (Call::Draw(first), KEPT),
    ];
    let two = Places {
        events: 8,
        ids: 2,
        dispatches: 1,
    };
    script(&rt, two, &steps, &[])
}

// A play that halts before the first millisecond stays at 0.
#[test]
fn halt_at_zero(rt: HostRuntime) -> Result<(), Fail> {
    let now = event(Some(1), 0, Some(0));
    let steps = [
        FOLLOWED,
        (Call::Draw(now), SENT),
        (Call::Draw(event(Some(2), 1, None)), KEPT),
        (Call::Play(5), Said::Reached(0, 0)),
        (Call::Play(0), Said::Reached(0, 0)),
    ];
    let one = Places {
        events: 1,
        ids: 2,
        dispatches: 1,
    };
    script(&rt, one, &steps, &[told(0, Trigger::Start, now)])
}

// At the latest time a start is told, an unknown duration still runs, and an end may lie beyond.
#[test]
fn latest(rt: HostRuntime) -> Result<(), Fail> {
    let open = event(Some(1), 1, None);
    let last = event(Some(2), Time::LATEST, Some(Time::LATEST));
    let steps = [
        FOLLOWED,
        (Call::Draw(last), KEPT),
        (Call::Draw(open), KEPT),
        (Call::Seek(Time::LATEST - 1), Said::Count(1)),
        (Call::Play(Time::LATEST), Said::Reached(1, Time::LATEST)),
        (Call::Draw(last), REPEAT),
    ];
    let expected = [
        told(Time::LATEST - 1, Trigger::Start, open),
        told(Time::LATEST, Trigger::Start, last),
    ];
    script(&rt, AMPLE, &steps, &expected)
}

// Whether tables of these sizes are taken; else they are refused with 15.
fn sizes(rt: &impl Abort, events: usize, ids: usize) -> Result<bool, Fail> {
    let mut kept = [Kept::EMPTY; 257];
    let mut used = [UsedId::EMPTY; 1025];
    assert!(rt; events <= 257 && ids <= 1025);
    match Tables::new(&mut kept[0..events], &mut used[0..ids]) {
        Ok(_) => Ok(true),
        Err(refusal) => {
            assert!(rt; refusal.number() == 15);
            Ok(false)
        }
    }
}

// Tables have 1 to 256 places for events and 1 to 1,024 for ids.
#[test]
fn table_sizes(rt: HostRuntime) -> Result<(), Fail> {
    assert!(rt; sizes(&rt, 1, 1)?);
    assert!(rt; sizes(&rt, 256, 1024)?);
    assert!(rt; !sizes(&rt, 0, 1)?);
    assert!(rt; !sizes(&rt, 1, 0)?);
    assert!(rt; !sizes(&rt, 257, 1)?);
    assert!(rt; !sizes(&rt, 1, 1025)?);
    Ok(())
}
