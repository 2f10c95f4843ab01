// What a listener may rely on. Each function does nothing: its contract is the law.

ghost use Rattle.std.specs.Prelude.{◌≡◌, ℕ, ◌+◌, ◌*◌, ◌^◌, ◌<◌, ◌≤◌, Some};
ghost use Rattle.std.specs.Prelude.{ℤ, pos, negsuc, neg_ℤ, ◌+ℤ◌, ◌-ℤ◌, ◌*ℤ◌, ◌≤ℤ◌, ◌<ℤ◌, unsigned_abs, FitsSigned};
ghost use Rattle.std.specs.Int.{w32};
ghost use Rattle.uac_gain.specs.Gain.{decibel_gain, raised_gain, half_below, half_above, gain_of, product_floor, scaled_sample};
ghost use Rattle.uac_gain.specs.Gain.{nearest_in_32_bits, unity};

/// A gain of 0 decibels changes no sample of 32 bits.
pub fn unity_changes_nothing()
    ensures gain { gain_of (pos 0) ≡ Some unity }
    ensures sample { (sample : ℤ) → FitsSigned w32 sample → scaled_sample sample unity ≡ sample }
{}

/// A lesser gain never makes a sample larger in size, and no gain up to 2^30 makes it larger than it was.
pub fn lesser_gain_is_no_louder()
    ensures lesser { (sample : ℤ) (less more : ℕ) → less ≤ more
        → unsigned_abs (scaled_sample sample less) ≤ unsigned_abs (scaled_sample sample more) }
    ensures whole { (sample : ℤ) (gain : ℕ) → gain ≤ 2 ^ 30
        → unsigned_abs (scaled_sample sample gain) ≤ unsigned_abs sample }
{}

/// Scaling keeps the order of samples.
pub fn scaling_keeps_the_order()
    ensures { (lower upper : ℤ) (gain : ℕ) → lower ≤ℤ upper → scaled_sample lower gain ≤ℤ scaled_sample upper gain }
{}

/// Scaling never turns a sample's sign: what isn't negative stays so, and what is negative stays at -1 or below, as the
/// floor says, unless the gain is 0.
pub fn scaling_keeps_the_sign()
    ensures above { (size gain : ℕ) → pos 0 ≤ℤ scaled_sample (pos size) gain }
    ensures below { (size gain : ℕ) → 0 < gain → scaled_sample (negsuc size) gain ≤ℤ negsuc 0 }
    ensures silent { (sample : ℤ) → scaled_sample sample 0 ≡ pos 0 }
{}

/// Before it is clamped to 32 bits, the scaled sample is the true product rounded towards minus infinity: the product lies
/// from it to less than one above.
pub fn scaling_rounds_down()
    ensures from { (sample : ℤ) (gain : ℕ)
        → (product_floor sample gain *ℤ pos (2 ^ 30)) ≤ℤ (sample *ℤ pos gain) }
    ensures below { (sample : ℤ) (gain : ℕ)
        → (sample *ℤ pos gain) <ℤ ((product_floor sample gain +ℤ pos 1) *ℤ pos (2 ^ 30)) }
{}

/// A scaled sample has 32 bits, and is exact wherever that suffices.
pub fn scaling_saturates()
    ensures fits { (sample : ℤ) (gain : ℕ) → FitsSigned w32 (scaled_sample sample gain) }
    ensures exact { (sample : ℤ) (gain : ℕ) → FitsSigned w32 (product_floor sample gain)
        → scaled_sample sample gain ≡ product_floor sample gain }
{}

/// The volumes that have a gain: whole decibels from -96 to 12, halves from -31.5 to 11.5, and silence.
pub fn each_decibel_has_its_gain()
    ensures down { (decibels : ℕ) → decibels ≤ 96
        → gain_of (neg_ℤ (pos (256 * decibels))) ≡ Some (decibel_gain decibels) }
    ensures half_down { (decibels : ℕ) → decibels ≤ 31
        → gain_of (neg_ℤ (pos (256 * decibels + 128))) ≡ Some (half_below (decibel_gain decibels)) }
    ensures up { (decibels : ℕ) → decibels ≤ 12 → gain_of (pos (256 * decibels)) ≡ Some (raised_gain decibels) }
    ensures half_up { (decibels : ℕ) → decibels ≤ 11
        → gain_of (pos (256 * decibels + 128)) ≡ Some (half_above (raised_gain decibels)) }
    ensures silence { gain_of (negsuc 32767) ≡ Some 0 }
{}

/// Every gain has 32 bits, a louder volume has a greater gain, and only silence has the gain 0.
pub fn gains_rise_strictly()
    ensures fits { (volume : ℤ) (gain : ℕ) → gain_of volume ≡ Some gain → gain < 2 ^ 32 }
    ensures rises { (less more : ℤ) (low high : ℕ) → less <ℤ more
        → gain_of less ≡ Some low → gain_of more ≡ Some high → low < high }
    ensures audible { (volume : ℤ) → gain_of volume ≡ Some 0 → volume ≡ negsuc 32767 }
{}

/// A lesser volume never makes a sample larger in size.
pub fn lesser_volume_is_no_louder()
    ensures { (sample less more : ℤ) (low high : ℕ) → less ≤ℤ more
        → gain_of less ≡ Some low → gain_of more ≡ Some high
        → unsigned_abs (scaled_sample sample low) ≤ unsigned_abs (scaled_sample sample high) }
{}

/// Saturation gives a number of 32 bits, and none lies nearer.
pub fn saturation_is_nearest()
    ensures fits { (sum : ℤ) → FitsSigned w32 (nearest_in_32_bits sum) }
    ensures nearest { (sum other : ℤ) → FitsSigned w32 other
        → unsigned_abs (sum -ℤ nearest_in_32_bits sum) ≤ unsigned_abs (sum -ℤ other) }
{}
