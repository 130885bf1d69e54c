// What a command does.
ghost use Rattle.std.specs.Prelude.{◌≡◌};
ghost use Rattle.event.specs.Numbers.{answer};
ghost use Rattle.catalogue.specs.Catalogues.{listed};
ghost use Rattle.player.specs.Players.{state};
ghost use Rattle.effects.specs.Effects.{draws_all, performs};

use catalogue::Catalogue;
use event::{Feed, Refusal, Sink};
use layers::Period;
use media::Stretch;
use player::{Drawn, Player};
use runsheet::Command;
use segment::{SegmentReader, Timing};
use sheet::SheetReader;

// Draws from a feed until its clean end or a refusal.
pub fn draw_all<F: Feed, S: Sink>(
    player: &mut Player,
    feed: &mut F,
    sink: &mut S,
) -> Result<(), Refusal>
    ensures { (answer result, state player.new, S.held sink.new) ≡ draws_all (F.coming feed.old).records (F.coming feed.old).ending (state player.old) (S.held sink.old) }
{
    while player.draw(feed, sink)? != Drawn::End {}
    Ok(())
}

// Does what a command asks for, over the media buffer that its sheet stands in.
pub fn perform<'a, 'c, S: Sink>(
    command: Command,
    media: &'a [u8],
    catalogue: &'c Catalogue<'a>,
    player: &mut Player,
    sink: &mut S,
) -> Result<(), Refusal>
    ensures { (answer result, state player.new, S.held sink.new) ≡ performs command media.now (listed catalogue.now) (state player.old) (S.held sink.old) }
{
    match command {
        Command::Follow { stream, mode } => player.follow(stream, mode),
        Command::Leave { stream } => {
            player.leave(stream)?;
            Ok(())
        }
        Command::Play { to } => {
            player.play(to, sink)?;
            Ok(())
        }
        Command::Seek { to } => {
            player.seek(to, sink)?;
            Ok(())
        }
        Command::Evict { from, to } => {
            player.evict(from, to)?;
            Ok(())
        }
        Command::DrawSheet { start, from, to } => {
            let stretch = Stretch::new(media, from, to)?;
            let mut feed = Period::new(SheetReader::new(stretch, catalogue), start);
            draw_all(player, &mut feed, sink)
        }
        Command::DrawSegment {
            start,
            times,
            from,
            to,
        } => {
            let stretch = Stretch::new(media, from, to)?;
            let timing = Timing::new(times)?;
            let mut feed = Period::new(SegmentReader::new(stretch, timing, catalogue), start);
            draw_all(player, &mut feed, sink)
        }
    }
}
