// Making a segment's timing, and the starts that it gives.
ghost use Rattle.std.specs.Prelude.{◌≡◌};
ghost use Rattle.event.specs.Numbers.{answer};
ghost use Rattle.segment.specs.Timings.{start_of, timing};

use super::{Timing, Version};
use event::{Defect, Refusal, Time};
use media::{Times, Timescale};

impl Timing {
    // The timing of a segment whose times count so.
    pub fn new(times: Times) -> Result<Timing, Refusal>
        ensures { answer result ≡ timing times }
    {
        let media = Timescale::new(times.media_ticks).ok_or(Defect::Timescale)?;
        let inband = Timescale::new(times.inband_ticks).ok_or(Defect::Timescale)?;
        let ticks = times
            .earliest
            .checked_sub(times.offset)
            .ok_or(Defect::BelowZero)?;
        let arrival = media.time(ticks).ok_or(Defect::PastLatest)?;
        Ok(Timing {
            arrival,
            inband: inband.time(times.inband),
        })
    }

    // When the segment arrives.
    pub(crate) fn arrival(self) -> Time
        ensures { result ≡ self.arrival }
    {
        self.arrival
    }

    // The start of an event whose box gives a time.
    pub(crate) fn start(self, version: Version, time: Time) -> Result<Time, Defect>
        ensures { result ≡ start_of self version time.ms }
    {
        match version {
            Version::Zero => self.arrival.plus(time.ms()).ok_or(Defect::PastLatest),
            Version::One => {
                let inband = self.inband.ok_or(Defect::BelowZero)?;
                let ms = time.ms().checked_sub(inband.ms()).ok_or(Defect::BelowZero)?;
                Time::new(ms).ok_or(Defect::PastLatest)
            }
        }
    }
}
