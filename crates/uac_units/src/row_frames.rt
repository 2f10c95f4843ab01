// The frame of one tick, read from rows and written to them.

ghost use Rattle.std.specs.Prelude.{◌≡◌, ◌≢◌, ◌<◌, ◌≤◌, ◌+◌, ℕ, IfOk, length, pos, replicate};
ghost use Rattle.uac_units.specs.SampleRows.{HaveTicks, frame_at, row_lengths};

use crate::plain_rows::pass_rows;
use crate::row::Row;
use arrayvec::ArrayVec;
use std::alloc::{AllocError, Global};

/// Makes `frame` that of a tick.
pub fn read_frame<const MOST: usize>(rows: &[Row], tick: usize, frame: &mut ArrayVec<i32, MOST>)
    requires few { length rows.now ≤ MOST }
    requires inside { HaveTicks (tick + 1) rows.now }
    ensures { frame.new.items ≡ frame_at tick rows.now }
{
    frame.clear();
    for row in rows {
        frame.push(row.sample(tick));
    }
}

/// Puts a frame at a tick. What stands at the others stays.
pub fn write_frame(rows: &mut [Row], tick: usize, frame: &[i32])
    requires sized { length frame.now ≡ length rows.old }
    requires inside { HaveTicks (tick + 1) rows.old }
    ensures here { frame_at tick rows.new ≡ frame.now }
    ensures others { (other : ℕ) → other ≢ tick → frame_at other rows.new ≡ frame_at other rows.old }
    ensures lengths { row_lengths rows.new ≡ row_lengths rows.old }
{
    for channel in 0..rows.len() {
        rows[channel].set(tick, frame[channel]);
    }
}

/// Puts one frame at each of so many ticks.
pub fn hold_frame(rows: &mut [Row], ticks: usize, frame: &[i32])
    requires sized { length frame.now ≡ length rows.old }
    requires inside { HaveTicks ticks rows.old }
    ensures frames { (tick : ℕ) → tick < ticks → frame_at tick rows.new ≡ frame.now }
    ensures lengths { row_lengths rows.new ≡ row_lengths rows.old }
{
    for channel in 0..rows.len() {
        rows[channel].fill(ticks, frame[channel]);
    }
}

/// Puts silence at each of so many ticks.
pub fn hush_rows(rows: &mut [Row], ticks: usize)
    requires { HaveTicks ticks rows.old }
    ensures frames { (tick : ℕ) → tick < ticks → frame_at tick rows.new ≡ replicate (length rows.old) (pos 0) }
    ensures lengths { row_lengths rows.new ≡ row_lengths rows.old }
{
    for channel in 0..rows.len() {
        rows[channel].fill(ticks, 0);
    }
}

/// Puts the frames of so many ticks into as many other rows.
pub fn copy_rows(rows: &[Row], ticks: usize, out: &mut [Row])
    requires sized { length rows.now ≡ length out.old }
    requires given { HaveTicks ticks rows.now }
    requires taken { HaveTicks ticks out.old }
    ensures frames { (tick : ℕ) → tick < ticks → frame_at tick out.new ≡ frame_at tick rows.now }
    ensures lengths { row_lengths out.new ≡ row_lengths out.old }
{
    pass_rows(ticks, rows, 0, out);
}

/// So many rows of silence, for so many ticks.
pub fn silent_rows(alloc: Global, channels: usize, ticks: usize) -> Result<Vec<Row>, AllocError>
    ensures { IfOk result (λ rows. rows.items ≡ replicate channels (replicate ticks (pos 0))) }
{
    let mut rows = Vec::new(alloc);
    for _each in 0..channels {
        let row = Row::silent(alloc, ticks)?;
        rows.push(row)?;
    }
    Ok(rows)
}
