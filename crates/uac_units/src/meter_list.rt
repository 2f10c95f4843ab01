// All meters together.

ghost use Rattle.std.specs.Prelude.{◌≡◌, ◌<◌, ◌≤◌, length, map, slice_get, Some};
ghost use Rattle.uac_units.specs.Hearing.{after_hearing};
ghost use Rattle.uac_units.specs.MeterReadings.{readings, readings_of};
ghost use Rattle.uac_units.specs.SampleRows.{HaveTicks, after_hearing_all, frames_of};

use crate::meter::{Meter, MeterKind};
use crate::row::Row;
use uac_pcm::Frame;

/// The meters that hear what a device plays, in a fixed order.
#[derive(Drop)]
pub struct Meters {
    list: Vec<Box<dyn Meter>>,
}

impl Meters {
    /// Takes the meters in the order of the list.
    pub fn new(list: Vec<Box<dyn Meter>>) -> Meters
        ensures { readings (λ v x. (⟦<dyn Meter as Meter>⟧ v).reading_of x) result
            ≡ readings_of (λ v x. (⟦<dyn Meter as Meter>⟧ v).reading_of x) list.items }
    {
        Meters { list }
    }

    /// How many meters there are.
    pub fn len(&self) -> usize
        ensures { result ≡ length (readings (λ v x. (⟦<dyn Meter as Meter>⟧ v).reading_of x) self.now) }
    {
        self.list.len()
    }

    /// The kind of the meter at that place.
    pub fn kind(&self, at: usize) -> MeterKind
        requires { at < length (readings (λ v x. (⟦<dyn Meter as Meter>⟧ v).reading_of x) self.now) }
        ensures { slice_get (map (λ r. r.kind) (readings (λ v x. (⟦<dyn Meter as Meter>⟧ v).reading_of x) self.now)) at
            ≡ Some result }
    {
        kind_of(&self.list[at])
    }

    /// The value of the meter at that place.
    pub fn value(&self, at: usize) -> u64
        requires { at < length (readings (λ v x. (⟦<dyn Meter as Meter>⟧ v).reading_of x) self.now) }
        ensures { slice_get (map (λ r. r.value) (readings (λ v x. (⟦<dyn Meter as Meter>⟧ v).reading_of x) self.now)) at
            ≡ Some result }
    {
        value_of(&self.list[at])
    }

    /// Lets every meter hear the frame.
    pub fn hear(&mut self, frame: &Frame)
        ensures { readings (λ v x. (⟦<dyn Meter as Meter>⟧ v).reading_of x) self.new
            ≡ map (after_hearing frame.now.items) (readings (λ v x. (⟦<dyn Meter as Meter>⟧ v).reading_of x) self.old) }
    {
        let list = self.list.as_mut_slice();
        for at in 0..list.len() {
            hear_one(&mut list[at], frame);
        }
    }

    /// Lets every meter hear the frames of so many ticks, one after the other.
    pub fn hear_rows(&mut self, ticks: usize, rows: &[Row])
        requires few { length rows.now ≤ 32 }
        requires given { HaveTicks ticks rows.now }
        ensures { readings (λ v x. (⟦<dyn Meter as Meter>⟧ v).reading_of x) self.new
            ≡ map (after_hearing_all (frames_of ticks rows.now)) (readings (λ v x. (⟦<dyn Meter as Meter>⟧ v).reading_of x) self.old) }
    {
        let list = self.list.as_mut_slice();
        for at in 0..list.len() {
            hear_rows_by_one(&mut list[at], ticks, rows);
        }
    }
}

/// The kind of one meter.
fn kind_of(meter: &Box<dyn Meter>) -> MeterKind
    ensures { result ≡ ((⟦<dyn Meter as Meter>⟧ meter.now.vtable).reading_of meter.now.value).kind }
{
    meter.kind()
}

/// The value of one meter.
fn value_of(meter: &Box<dyn Meter>) -> u64
    ensures { result ≡ ((⟦<dyn Meter as Meter>⟧ meter.now.vtable).reading_of meter.now.value).value }
{
    meter.value()
}

/// Lets one meter hear the frame.
fn hear_one(meter: &mut Box<dyn Meter>, frame: &Frame)
    ensures { (⟦<dyn Meter as Meter>⟧ meter.new.vtable).reading_of meter.new.value
        ≡ after_hearing frame.now.items ((⟦<dyn Meter as Meter>⟧ meter.old.vtable).reading_of meter.old.value) }
{
    meter.hear(frame);
}

/// Lets one meter hear the frames of so many ticks.
fn hear_rows_by_one(meter: &mut Box<dyn Meter>, ticks: usize, rows: &[Row])
    requires few { length rows.now ≤ 32 }
    requires given { HaveTicks ticks rows.now }
    ensures { (⟦<dyn Meter as Meter>⟧ meter.new.vtable).reading_of meter.new.value
        ≡ after_hearing_all (frames_of ticks rows.now) ((⟦<dyn Meter as Meter>⟧ meter.old.vtable).reading_of meter.old.value) }
{
    meter.hear_rows(ticks, rows);
}
