// The same calls on two players: one tells a record list and plays whole, the other tells a byte log and plays in stops.
use crate::steps::{Call, Said, arrived, event, in_stream, perform, unused};
use event::{Dispatch, Feed, Mode, Refusal, Sink, StreamCount};
use layers::Period;
use player::{Drawn, Kept, Player, Tables, UsedId};
use reader::{Catalogue, SegmentReader, SheetReader, Stretch, Times, Timing};
use sink::{ByteLog, RecordList, read_log};

// How many records were drawn, and what became of them.
#[derive(Clone, Copy, Default, PartialEq, Eq, Debug)]
pub(crate) struct Tally {
    pub(crate) drawn: usize,
    pub(crate) passed: usize,
    pub(crate) over: usize,
    pub(crate) repeats: usize,
    pub(crate) dispatched: usize,
    pub(crate) evicted: usize,
    pub(crate) left: usize,
}

impl Tally {
    // Counts a draw.
    fn count_draw(&mut self, drawn: Drawn) {
        match drawn {
            Drawn::End => return,
            Drawn::Passed => self.passed = self.passed.saturating_add(1),
            Drawn::Dispatched => self.dispatched = self.dispatched.saturating_add(1),
            Drawn::Over => self.over = self.over.saturating_add(1),
            Drawn::Repeat => self.repeats = self.repeats.saturating_add(1),
            Drawn::Kept => {}
        }
        self.drawn = self.drawn.saturating_add(1);
    }

    // Counts what a call did.
    fn count(&mut self, call: Call, said: Said) {
        match (call, said) {
            (_, Said::Drew(drawn)) => self.count_draw(drawn),
            (_, Said::Reached(n, _)) | (Call::Seek(_), Said::Count(n)) => {
                self.dispatched = self.dispatched.saturating_add(n);
            }
            (Call::Leave(_), Said::Count(n)) => self.left = self.left.saturating_add(n),
            (Call::Evict(_, _), Said::Count(n)) => self.evicted = self.evicted.saturating_add(n),
            _ => {}
        }
    }
}

// A media buffer with two streams at its front, and where its sheet and its segment begin.
#[derive(Clone, Copy)]
pub(crate) struct Source<'a> {
    pub(crate) media: &'a [u8],
    pub(crate) sheet: usize,
    pub(crate) segment: usize,
}

// An event by manifest, and then the same event by segment.
pub(crate) const SHEET_FIRST: Source = Source {
    media: b"SV\x01\x01aASV\x01\x01bBES\x00\x00\x03\xe8\x00\x00\x00\x00\x00\x00\x00\x00\x01\x01aAEV\x03\x00\x00\x00\x00\x00\x00\x03\xe8\x00\x00\x01\xf4\x00\x00\x00\x07\x00\x02hi\x00\x00\x00\x26emsg\x01\x00\x00\x00\x00\x00\x03\xe8\x00\x00\x00\x00\x00\x00\x03\xe8\x00\x00\x01\xf4\x00\x00\x00\x07a\x00A\x00hi",
    sheet: 12,
    segment: 53,
};

// The same with the segment first.
pub(crate) const SEGMENT_FIRST: Source = Source {
    media: b"SV\x01\x01aASV\x01\x01bB\x00\x00\x00\x26emsg\x01\x00\x00\x00\x00\x00\x03\xe8\x00\x00\x00\x00\x00\x00\x03\xe8\x00\x00\x01\xf4\x00\x00\x00\x07a\x00A\x00hiES\x00\x00\x03\xe8\x00\x00\x00\x00\x00\x00\x00\x00\x01\x01aAEV\x03\x00\x00\x00\x00\x00\x00\x03\xe8\x00\x00\x01\xf4\x00\x00\x00\x07\x00\x02hi",
    sheet: 50,
    segment: 12,
};

// What a player and its sink show at the end: the dispatches have their message places set aside, and `place` is the third one's.
#[derive(Clone, Copy)]
pub(crate) struct Outcome {
    pub(crate) playhead: u64,
    pub(crate) kept: usize,
    pub(crate) count: usize,
    pub(crate) place: u32,
    pub(crate) told: [Dispatch; 5],
    pub(crate) tally: Tally,
}

// A player and its sink, how many stops each play makes, and what became of the records so far.
#[derive(Drop)]
struct Playing<'t, 's, S> {
    player: Player<'t>,
    sink: &'s mut S,
    stops: u64,
    tally: Tally,
}

impl<'t, 's, S: Sink> Playing<'t, 's, S> {
    // Makes a call.
    fn perform(&mut self, call: Call) -> Said {
        perform(&mut self.player, call, self.sink)
    }

    // Plays to a time, after the stops an eighth of the way apart.
    fn play(&mut self, to: u64) -> Said {
        let from = self.player.playhead().ms();
        let eighth = to.saturating_sub(from) / 8;
        let mut sum = 0usize;
        for n in 0..self.stops {
            let stop = from.saturating_add(eighth.saturating_mul(n));
            if let Said::Reached(told, _) = self.perform(Call::Play(stop)) {
                sum = sum.saturating_add(told);
            }
        }
        match self.perform(Call::Play(to)) {
            Said::Reached(told, playhead) => Said::Reached(sum.saturating_add(told), playhead),
            other => other,
        }
    }

    // Makes the calls, and counts what they did.
    fn make_all(&mut self, calls: &[Call]) {
        for call in calls {
            let said = match *call {
                Call::Play(to) => self.play(to),
                other => self.perform(other),
            };
            self.tally.count(*call, said);
        }
    }

    // Draws from a feed four times, which is past its end, and counts what became of its records.
    fn draw_feed<F: Feed>(&mut self, feed: &mut F) {
        for _ in 0..4 {
            if let Ok(drawn) = self.player.draw(feed, self.sink) {
                self.tally.count_draw(drawn);
            }
        }
    }

    // Draws the same event from the sheet and from the segment, in a period that starts at 1000.
    fn draw_both(&mut self, source: Source) -> Result<(), Refusal> {
        let catalogue = Catalogue::read(Stretch::new(source.media, 0, 12)?)?;
        let sheet = Stretch::new(source.media, source.sheet, source.sheet.saturating_add(41))?;
        let segment = Stretch::new(
            source.media,
            source.segment,
            source.segment.saturating_add(38),
        )?;
        let timing = Timing::new(Times {
            earliest: 0,
            offset: 0,
            media_ticks: 1000,
            inband: 0,
            inband_ticks: 1000,
        })?;
        let mut first = Period::new(SheetReader::new(sheet, &catalogue), 1000);
        let mut second = Period::new(SegmentReader::new(segment, timing, &catalogue), 1000);
        self.draw_feed(&mut first);
        self.draw_feed(&mut second);
        Ok(())
    }

    // A jump back, behind which an id that was told comes again, and a play that the sink's last place does not let through.
    fn run(&mut self, source: Source) -> Result<(), Refusal> {
        let follows = [
            Call::Follow(0, Mode::OnStart),
            Call::Follow(1, Mode::OnReceive),
        ];
        self.make_all(&follows);
        self.draw_both(source)?;
        let other = in_stream(Some(1), event(Some(5), 7000, None));
        let first = event(Some(1), 1000, Some(100));
        let early = [
            Call::Draw(first),
            Call::Draw(event(Some(2), 3000, None)),
            Call::Draw(in_stream(None, first)),
            Call::Draw(other),
            Call::Play(2500),
            Call::Seek(500),
            Call::Draw(first),
            Call::Draw(event(Some(3), 100, Some(10))),
            Call::Play(2900),
        ];
        self.make_all(&early);
        let late = [
            Call::Leave(1),
            Call::Follow(1, Mode::OnStart),
            Call::Draw(other),
            Call::Draw(event(Some(4), 4000, None)),
            Call::Draw(event(Some(6), 4000, None)),
            Call::Draw(arrived(60, event(Some(8), 9000, None))),
            Call::Evict(60, 61),
            Call::Leave(1),
            Call::Play(8000),
        ];
        self.make_all(&late);
        Ok(())
    }
}

// The dispatches with their message places set aside.
pub(crate) fn set_aside(mut told: [Dispatch; 5]) -> [Dispatch; 5] {
    for dispatch in told.iter_mut() {
        dispatch.message.place = 0;
    }
    told
}

impl Outcome {
    // What a player with so many stops shows, before its sink is read.
    fn of<S: Sink>(source: Source, stops: u64, sink: &mut S) -> Result<Outcome, Refusal> {
        let mut kept = [Kept::EMPTY; 8];
        let mut used = [UsedId::EMPTY; 8];
        let tables = Tables::new(&mut kept, &mut used)?;
        let mut playing = Playing {
            player: Player::new(tables, StreamCount::at_most(2)),
            sink,
            stops,
            tally: Tally::default(),
        };
        playing.run(source)?;
        Ok(Outcome {
            playhead: playing.player.playhead().ms(),
            kept: playing.player.kept_count(),
            count: 0,
            place: 0,
            told: [unused(); 5],
            tally: playing.tally,
        })
    }

    // The same with these dispatches.
    fn telling(self, count: usize, told: [Dispatch; 5]) -> Outcome {
        Outcome {
            count,
            place: told[2].message.place,
            told: set_aside(told),
            ..self
        }
    }
}

// Plays whole, and tells a record list of five slots.
pub(crate) fn on_list(source: Source) -> Result<Outcome, Refusal> {
    let mut slots = [unused(); 5];
    let mut list = RecordList::new(&mut slots);
    let outcome = Outcome::of(source, 0, &mut list)?;
    let mut told = [unused(); 5];
    for (slot, dispatch) in told.iter_mut().zip(list.told()) {
        *slot = *dispatch;
    }
    Ok(outcome.telling(list.told().len(), told))
}

// Plays in stops, and tells a byte log with room for five records and 39 bytes more.
pub(crate) fn on_log(source: Source) -> Result<Outcome, Refusal> {
    let mut bytes = [0u8; 239];
    let mut log = ByteLog::new(&mut bytes);
    let outcome = Outcome::of(source, 8, &mut log)?;
    let mut told = [unused(); 5];
    let count = read_log(log.used(), &mut told)?;
    Ok(outcome.telling(count, told))
}
