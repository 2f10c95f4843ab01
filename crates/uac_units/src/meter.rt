// What every meter does, boxed or not.

ghost use Rattle.std.specs.Prelude.{◌≡◌, ◌≤◌, length};
ghost use Rattle.uac_units.specs.Hearing.{Reading, after_hearing};
ghost use Rattle.uac_units.specs.SampleRows.{HaveTicks, after_hearing_all, frames_of};

use crate::row::Row;
use crate::row_frames::read_frame;
use arrayvec::ArrayVec;
use uac_pcm::Frame;

/// What a meter keeps: the greatest sample, the samples at full scale, or the sum, each without its sign.
#[derive(Clone, Copy, Debug, PartialEq, Eq)]
pub enum MeterKind {
    Peak,
    Clipped,
    Sum,
}

/// A meter that hears the frames of a terminal.
pub trait Meter: Drop {
    ghost reading_of: { Self → Reading };

    /// The meter's kind.
    fn kind(&self) -> MeterKind
        ensures { result ≡ (reading_of self.now).kind };

    /// What the meter holds.
    fn value(&self) -> u64
        ensures { result ≡ (reading_of self.now).value };

    /// Hears a frame by the rule of the meter's kind. A value that would pass the greatest u64 stays there.
    fn hear(&mut self, frame: &Frame)
        ensures { reading_of self.new ≡ after_hearing frame.now.items (reading_of self.old) };

    /// Hears the frames of so many ticks, one after the other. They stand in a row for each channel.
    fn hear_rows(&mut self, ticks: usize, rows: &[Row])
        requires few { length rows.now ≤ 32 }
        requires given { HaveTicks ticks rows.now }
        ensures { reading_of self.new ≡ after_hearing_all (frames_of ticks rows.now) (reading_of self.old) }
    {
        let mut frame: Frame = ArrayVec::new();
        for tick in 0..ticks {
            read_frame(rows, tick, &mut frame);
            self.hear(&frame);
        }
    }
}
