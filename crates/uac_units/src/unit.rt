// What every unit does, boxed or not.

ghost use Rattle.std.specs.Prelude.{◌≡◌, ◌+◌, ◌^◌, ◌<◌, ◌≤◌, length};
ghost use Rattle.uac_units.specs.declared.jobs.UnitKind.{UnitKind};
ghost use Rattle.uac_units.specs.Rendering.{FitsKind, job_samples};
ghost use Rattle.uac_units.specs.SampleRows.{AreRenderedRows, HaveTicks, frame_at, row_lengths};

use crate::jobs::{Job, Pins, UnitKind};
use crate::row::Row;
use crate::row_frames::{read_frame, write_frame};
use crate::steps::Steps;
use arrayvec::ArrayVec;
use uac_pcm::Frame;

/// A unit of the signal graph.
pub trait Unit: Drop {
    ghost kind_of: { Self → UnitKind };

    /// The unit's kind.
    fn kind(&self) -> UnitKind
        ensures { result ≡ kind_of self.now };

    /// Makes `out` the samples of the unit's kind for this job over these inputs, and counts one render.
    fn render(&self, job: &Job, pins: &Pins, out: &mut Frame, steps: &mut Steps)
        requires fits { FitsKind (kind_of self.now) job.now pins.now.items }
        requires room { steps.old + 1 < 2 ^ 64 }
        ensures samples { out.new.items ≡ job_samples (kind_of self.now) job.now pins.now.items }
        ensures counted { steps.new ≡ steps.old + 1 };

    /// Renders a job at each of so many ticks, one after the other, over the inputs of each, and counts as many renders. The inputs and
    /// `out` have a row for each channel. A unit that can do no better renders tick by tick.
    fn render_rows(
        &self,
        job: &Job,
        ticks: usize,
        inputs: &[Row],
        out: &mut [Row],
        steps: &mut Steps,
    )
        requires fits { FitsKind (kind_of self.now) job.now (frame_at 0 inputs.now) }
        requires few { length inputs.now ≤ 256 }
        requires given { HaveTicks ticks inputs.now }
        requires sized { length out.old ≡ job.now.outputs }
        requires taken { HaveTicks ticks out.old }
        requires room { steps.old + ticks < 2 ^ 64 }
        ensures samples { AreRenderedRows (kind_of self.now) job.now ticks inputs.now out.new }
        ensures lengths { row_lengths out.new ≡ row_lengths out.old }
        ensures counted { steps.new ≡ steps.old + ticks }
    {
        let mut pins: Pins = ArrayVec::new();
        let mut frame: Frame = ArrayVec::new();
        for tick in 0..ticks {
            read_frame(inputs, tick, &mut pins);
            self.render(job, &pins, &mut frame, steps);
            write_frame(out, tick, frame.as_slice());
        }
    }
}
