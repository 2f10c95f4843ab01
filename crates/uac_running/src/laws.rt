// Laws of running devices. Each function does nothing: its contract is the law.
ghost use Rattle.std.specs.Prelude.{◌≡◌, ◌<◌, ◌+◌, ◌*◌, ◌^◌, ℕ};
ghost use Rattle.uac_pcm.specs.Tones.{tone_frame};
ghost use Rattle.uac_units.specs.Hearing.{at_most_u64};
ghost use Rattle.uac_device.specs.DeviceWorld.{renders_of};
ghost use Rattle.uac_device.specs.declared.jacks.Jack.{Jack};
ghost use Rattle.uac_running.specs.Events.{next_frame, tick_times};
ghost use Rattle.uac_running.specs.EventTicks.{jack_after, renders_after, ticks_told};
ghost use Rattle.uac_running.specs.RunningWorld.{RunningWorld};

/// So many ticks of a domain, one after the other, say and make what is worked out of them part by part.
pub fn ticks_go_part_by_part()
    ensures { (n domain : ℕ) (r : RunningWorld) → tick_times n domain r ≡ ticks_told domain n r }
{}

/// A jack of a domain gives, tick by tick, the frames of its tone from its place on.
pub fn jacks_give_their_tones()
    ensures { (domain t : ℕ) (j : Jack) → j.domain ≡ domain → j.place < 2 ^ 64
        → next_frame (jack_after domain t j) ≡ tone_frame j.channels j.tone (at_most_u64 (j.place + t)) }
{}

/// Each tick counts the same renders.
pub fn renders_rise_by_ticks()
    ensures { (domain t : ℕ) (r : RunningWorld) → r.renders < 2 ^ 64
        → renders_after domain t r ≡ at_most_u64 (r.renders + t * renders_of domain r.device) }
{}
