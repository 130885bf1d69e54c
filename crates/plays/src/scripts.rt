// A list of calls, made on a fresh player one after the other.
use crate::steps::{Call, Said, perform, unused};
use event::{Dispatch, StreamCount};
use player::{Kept, Player, Tables, UsedId};
use sink::RecordList;
use std::process::Abort;
use std::test::Fail;

// How many places there are for events, for ids and for dispatches.
#[derive(Clone, Copy)]
pub(crate) struct Places {
    pub(crate) events: usize,
    pub(crate) ids: usize,
    pub(crate) dispatches: usize,
}

// More places than any of these lists takes.
pub(crate) const AMPLE: Places = Places {
    events: 8,
    ids: 8,
    dispatches: 8,
};

// What a player and its list show: the playhead, how many events are kept, and the dispatches that were told.
#[derive(Clone, Copy, PartialEq, Eq)]
struct Shown {
    playhead: u64,
    kept: usize,
    told: [Option<Dispatch>; 8],
}

// A player and the list that it tells.
#[derive(Drop)]
struct Stage<'a> {
    player: Player<'a>,
    list: RecordList<'a>,
}

impl<'a> Stage<'a> {
    // What the player and the list show now.
    fn shown(&self, rt: &impl Abort) -> Shown {
        let mut told = [None; 8];
        assert!(rt; self.list.told().len() <= 8);
        for (slot, dispatch) in told.iter_mut().zip(self.list.told()) {
            *slot = Some(*dispatch);
        }
        Shown {
            playhead: self.player.playhead().ms(),
            kept: self.player.kept_count(),
            told,
        }
    }

    // Makes a call, compares what it says, and sees that a refusal changes nothing.
    fn step(&mut self, rt: &impl Abort, call: Call, said: Said) {
        let before = self.shown(rt);
        let answer = perform(&mut self.player, call, &mut self.list);
        assert_eq!(rt; answer, said);
        if let Said::Refused(_) = answer {
            assert!(rt; self.shown(rt) == before);
        }
    }
}

// Makes the calls on a player with two streams, and compares what each says and what the list was told in all.
pub(crate) fn script(
    rt: &impl Abort,
    places: Places,
    steps: &[(Call, Said)],
    expected: &[Dispatch],
) -> Result<(), Fail> {
    let mut kept = [Kept::EMPTY; 8];
    let mut used = [UsedId::EMPTY; 8];
    let mut slots = [unused(); 8];
    assert!(rt; places.events <= 8 && places.ids <= 8 && places.dispatches <= 8);
    let tables = Tables::new(&mut kept[0..places.events], &mut used[0..places.ids])?;
    let mut stage = Stage {
        player: Player::new(tables, StreamCount::at_most(2)),
        list: RecordList::new(&mut slots[0..places.dispatches]),
    };
    for (call, said) in steps {
        stage.step(rt, *call, *said);
    }
    assert!(rt; stage.list.told() == expected);
    Ok(())
}
