// What holds of streams.
ghost use Rattle.std.specs.Prelude.{◌≡◌, ◌≤◌, ◌*◌, ℕ, Some};
ghost use Rattle.uac_pcm.specs.Frames.{IsFormat};
ghost use Rattle.uac_topology.specs.Function.{FunctionFields};
ghost use Rattle.uac_topology.specs.Topology.{IsSoundFunction};
ghost use Rattle.uac_alt.specs.AltStreams.{StreamFields, stream_of};

/// A stream of a sound function has the numbers of a format: 1 to 32 channels, subslots of 1 to 4 bytes, and bits that a subslot holds.
#[tactic(auto, using(crate::proofs::FormedLemmas::stream_format))]
pub fn streams_have_formats()
    ensures { (function : FunctionFields) (rate interface number : ℕ) (s : StreamFields) → IsSoundFunction function
        → stream_of function rate interface number ≡ Some s → IsFormat s.channels s.subslot s.bits }
{}

/// A packet of a sound function's stream has at most the 3072 bytes that an endpoint of high speed carries in a microframe, and room for
/// the most frames that its rate gives in a service interval.
#[tactic(auto, using(crate::proofs::AltStreamsPacketLemmas::few_bytes, crate::proofs::AltStreamsPacketLemmas::interval_fits))]
pub fn packets_fit()
    ensures bytes { (function : FunctionFields) (rate interface number : ℕ) (s : StreamFields) → IsSoundFunction function
        → stream_of function rate interface number ≡ Some s → s.most * (s.channels * s.subslot) ≤ 3072 }
    ensures interval { (function : FunctionFields) (rate interface number : ℕ) (s : StreamFields) → IsSoundFunction function
        → stream_of function rate interface number ≡ Some s → s.service * s.nominal.hi ≤ s.most }
{}
