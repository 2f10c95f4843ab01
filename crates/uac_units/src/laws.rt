// What a user of units and meters may rely on. Each function does nothing: its contract is the law.

ghost use Rattle.std.specs.Prelude.{◌≡◌, ℕ, ◌+◌, ◌^◌, ◌<◌, ◌≤◌, ℤ, pos, List, [], length, slice_index_or};
ghost use Rattle.std.specs.List.{All};
ghost use Rattle.uac_units.specs.Hearing.{Reading, after_hearing, value_after_hearing};
ghost use Rattle.uac_units.specs.Rendering.{by_frames, in_a_row, pins_sample, job_samples, set_by, unit_sample};
ghost use Rattle.uac_units.specs.declared.meter.MeterKind.{MeterKind};
ghost use Rattle.uac_units.specs.declared.jobs.Job.{Job};
ghost use Rattle.uac_units.specs.declared.jobs.UnitKind.{UnitKind};
ghost use Rattle.uac_units.specs.declared.jobs.UnitKind.TheVariants.{Mixer, Selector, Feature, Effect};

/// A unit renders one sample for each output channel.
pub fn each_output_has_its_sample()
    ensures length { (kind : UnitKind) (job : Job) (pins : List ℤ) → length (job_samples kind job pins) ≡ job.outputs }
    ensures sample { (kind : UnitKind) (job : Job) (pins : List ℤ) (channel : ℕ) → channel < job.outputs
        → slice_index_or (job_samples kind job pins) channel (pos 0) ≡ pins_sample kind job pins channel }
{}

/// The pins in a row give what the sources' frames give, pin by pin.
pub fn pins_are_the_sources()
    ensures mixer { (job : Job) (sources : List (List ℤ)) (channel : ℕ)
        → pins_sample Mixer job (in_a_row sources) channel ≡ unit_sample Mixer (set_by job) (by_frames sources) channel }
    ensures selector { (job : Job) (sources : List (List ℤ)) (channel : ℕ) → All (λ frame. length frame ≡ job.outputs) sources
        → job.pin < length sources → channel < job.outputs
        → pins_sample Selector job (in_a_row sources) channel ≡ unit_sample Selector (set_by job) (by_frames sources) channel }
    ensures feature { (job : Job) (sources : List (List ℤ)) (channel : ℕ) → channel < length (slice_index_or sources 0 [])
        → pins_sample Feature job (in_a_row sources) channel ≡ unit_sample Feature (set_by job) (by_frames sources) channel }
    ensures effect { (job : Job) (sources : List (List ℤ)) (channel : ℕ) → channel < length (slice_index_or sources 0 [])
        → pins_sample Effect job (in_a_row sources) channel ≡ unit_sample Effect (set_by job) (by_frames sources) channel }
{}

/// A meter's value never falls, and stays a number of 64 bits.
pub fn meters_never_fall()
    ensures rises { (kind : MeterKind) (value : ℕ) (frame : List ℤ) → value < 2 ^ 64 → value ≤ value_after_hearing kind value frame }
    ensures fits { (kind : MeterKind) (value : ℕ) (frame : List ℤ) → value_after_hearing kind value frame < 2 ^ 64 }
{}

/// A meter shows the same whichever of two frames it hears first.
pub fn frames_are_heard_in_any_order()
    ensures { (frame other : List ℤ) (reading : Reading)
        → after_hearing frame (after_hearing other reading) ≡ after_hearing other (after_hearing frame reading) }
{}
