// Laws of streams. Each function does nothing: its contract is the law.
ghost use Rattle.std.specs.Prelude.{◌≡◌, ◌+◌, ℕ, ℤ, List};
ghost use Rattle.uac_flow.specs.FlowStreams.{InStream, OutStream, after_taking, is_dry, is_full, next_taken};
ghost use Rattle.uac_flow.specs.FlowTicks.{IsHeld, in_after_ticks, is_dry_at, is_full_at, next_taken_at, out_after_ticks, with_frames};

/// What several ticks make of a stream to the device: the first takes none of its frames, each takes one while there is one, and by its
/// level alone it is found dry.
pub fn streams_to_the_device_go_by_level()
    ensures none { (o : OutStream) → out_after_ticks 0 o ≡ o }
    ensures more { (t : ℕ) (o : OutStream) → out_after_ticks (t + 1) o ≡ after_taking (out_after_ticks t o) }
    ensures next { (t : ℕ) (o : OutStream) → next_taken (out_after_ticks t o) ≡ next_taken_at t o }
    ensures dry { (t : ℕ) (o : OutStream) → is_dry (out_after_ticks t o) ≡ is_dry_at t o }
{}

/// What several ticks make of a stream from the device: it has their frames up to its room, and by its level alone it is found full.
pub fn streams_from_the_device_go_by_level()
    ensures frames { (frames : ℕ → List ℤ) (t : ℕ) (i : InStream) → IsHeld i → in_after_ticks frames t i ≡ with_frames frames t i }
    ensures full { (frames : ℕ → List ℤ) (t : ℕ) (i : InStream) → IsHeld i → is_full (in_after_ticks frames t i) ≡ is_full_at t i }
{}
