// The lines of a run, one by one.
ghost use Rattle.std.specs.Prelude.{◌≡◌, ◌<◌, ◌≤◌, true, false, List, [], ◌∷◌, length, MatchOption};
ghost use Rattle.std.specs.Result.{result_ok};
ghost use Rattle.std.specs.Iterator.{MakesProgress, YieldsFirst, item_count};
ghost use Rattle.player.specs.Players.{state};
ghost use Rattle.sink.specs.Lists.{held_in};
ghost use Rattle.run.specs.Lines.{closing};
ghost use Rattle.run.specs.Openings.{Whole, coming, outcome};
ghost use Rattle.run.specs.Runs.{NextTold, ending, holding, idle, left, pending, playing, to_come, to_read};
ghost use Rattle.lines.specs.declared.lines.Line.TheVariants as line;
ghost use Rattle.run.specs.declared.runs.Stage.TheVariants as stage;

use super::{Run, Stage};
use crate::openings::Opening;
use event::Dispatch;
use lines::Line;
use player::Player;
use sink::RecordList;

impl<'a, 't, 'p> Run<'a, 't, 'p> {
    // A run that has reported nothing, behind the opening of its run sheet.
    pub fn new(
        opening: Opening<'a>,
        player: &'p mut Player<'t>,
        list: &'p mut RecordList<'t>,
    ) -> Run<'a, 't, 'p>
        ensures whole { Whole opening.entry (state player.old) (held_in list.old) (left result) }
        ensures ending { ending result ≡ outcome (result_ok opening.entry.script) (state player.old) (held_in list.old) }
        ensures lines { left result ≡ line.First ∷ coming opening.entry (state player.old) (held_in list.old) }
    {
        let shown = list.told().len();
        Run {
            script: opening.script.ok(),
            player,
            list,
            shown,
            count: opening.count,
            done: opening.script.map(|_| ()),
            stage: Stage::First,
        }
    }

    // How many dispatches the list was told.
    fn told(&self) -> usize
        ensures { result ≡ length (holding self.now).told }
    {
        self.list.told().len()
    }

    // Whether nothing is left to report of what was performed, and there is more to read.
    fn is_idle(&self) -> bool
        ensures { result ≡ idle self.now }
    {
        self.script.is_some() && self.done.is_ok() && self.told() <= self.shown
    }

    // Performs commands until there is something to report, or nothing to read.
    fn read_on(&mut self)
        ensures lines { pending self.new ≡ pending self.old }
        ensures ending { to_come self.new ≡ to_come self.old }
        ensures stage { self.new.stage ≡ self.old.stage }
        ensures idle { idle self.new ≡ false }
    {
        while self.is_idle() {
            self.step();
        }
    }

    // Performs the next command.
    fn step(&mut self)
        requires { idle self.old ≡ true }
        ensures lines { pending self.new ≡ pending self.old }
        ensures ending { to_come self.new ≡ to_come self.old }
        ensures stage { self.new.stage ≡ self.old.stage }
        ensures less { to_read self.new < to_read self.old }
    {
        self.shown = self.told();
        let Some(mut script) = self.script else {
            return;
        };
        self.script = None;
        if let Some(next) = script.sheet.next() {
            self.count = script.sheet.records_read();
            match next {
                Err(refusal) => self.done = Err(refusal),
                Ok(command) => {
                    self.done = script.perform(command, self.player, self.list);
                    self.script = Some(script);
                }
            }
        }
    }

    // The dispatch that is to be reported next, if there is one.
    fn next_told(&self) -> Option<Dispatch>
        ensures { MatchOption result (length (holding self.now).told ≤ self.now.shown) (NextTold (holding self.now).told self.now.shown) }
    {
        self.list.told().get(self.shown).copied()
    }

    // The last line.
    fn last_line(&self) -> Line
        ensures { result ∷ [] ≡ closing (playing self.now) }
    {
        Line::Last {
            playhead: self.player.playhead().ms(),
            kept: self.player.kept_count(),
        }
    }

    // Reports a dispatch, or else a refusal, or else how far the player came.
    fn report(&mut self) -> Line
        requires middle { self.old.stage ≡ stage.Middle }
        requires busy { idle self.old ≡ false }
        ensures lines { left self.old ≡ result ∷ left self.new }
        ensures ending { ending self.new ≡ ending self.old }
    {
        if let Some(dispatch) = self.next_told() {
            self.shown += 1;
            return Line::Cue(dispatch);
        }
        match self.done {
            Err(refusal) => {
                self.done = Ok(());
                Line::refused(self.count, refusal)
            }
            Ok(()) => {
                self.stage = Stage::Ended;
                self.last_line()
            }
        }
    }
}

impl<'a, 't, 'p> Iterator for Run<'a, 't, 'p> {
    type Item = Line;

    ghost next_gives = { YieldsFirst left };

    ghost remaining = { item_count left };

    // The next line, unless the last one was reported.
    fn next(&mut self) -> Option<Line>
        ensures steps { YieldsFirst left self.old result self.new }
        ensures goes { MakesProgress (λ _. Unit {0}) (item_count left) self.old result self.new }
        ensures ending { ending self.new ≡ ending self.old }
        ensures cases { MatchOption result ((left self.old ≡ []) × (self.new ≡ self.old)) (λ l. left self.old ≡ l ∷ left self.new) }
    {
        match self.stage {
            Stage::First => {
                self.stage = Stage::Middle;
                Some(Line::First)
            }
            Stage::Middle => {
                self.read_on();
                Some(self.report())
            }
            Stage::Ended => None,
        }
    }
}
