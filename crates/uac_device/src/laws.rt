// Laws of devices. Each function does nothing: its contract is the law.
ghost use Rattle.std.specs.Prelude.{◌≡◌, ◌+◌, ℕ, List};
ghost use Rattle.uac_store.specs.StoreControls.{IsStoreOf};
ghost use Rattle.uac_units.specs.Hearing.{Reading};
ghost use Rattle.uac_device.specs.DeviceWorld.{DeviceWorld, after_frames, heard_of, met_of, renders_of};
ghost use Rattle.uac_device.specs.DeviceTicks.{AreHeld, Tones, after_tick_times, before_tick, heard_at, met_at, readings_after, world_after};

use crate::device::Device;

/// A device's controls are those of its function, and each has a value that it takes.
pub fn controls_are_stored(device: &Device)
    ensures { IsStoreOf device.now.function.entities device.now.controls }
{
    let _store = &device.store;
}

/// After each of several ticks of a domain the device's world has the parts that are worked out from the world before the first of them:
/// its streams, and what its terminals gave and played last.
pub fn ticks_go_part_by_part()
    ensures world { (domain : ℕ) (tones : Tones) (t : ℕ) (w : DeviceWorld) → after_tick_times domain tones t w ≡ world_after domain tones t w }
    ensures met { (domain : ℕ) (tones : Tones) (t : ℕ) (w : DeviceWorld) → AreHeld w
        → met_of domain (before_tick domain tones t w) ≡ met_at domain t w }
    ensures renders { (domain : ℕ) (tones : Tones) (t : ℕ) (w : DeviceWorld)
        → renders_of domain (before_tick domain tones t w) ≡ renders_of domain w }
    ensures heard { (domain : ℕ) (tones : Tones) (t : ℕ) (w : DeviceWorld)
        → heard_of domain (after_tick_times domain tones (t + 1) w) ≡ heard_at domain tones w t }
    ensures readings { (domain : ℕ) (tones : Tones) (t : ℕ) (w : DeviceWorld) (readings : List Reading)
        → readings_after domain tones w (t + 1) readings
        ≡ after_frames (heard_of domain (after_tick_times domain tones (t + 1) w)) (readings_after domain tones w t readings) }
{}
