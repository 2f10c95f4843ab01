// What holds of samples, subslots and frames whatever a program does with them.
ghost use Rattle.std.specs.Prelude.{◌≡◌, ℕ, ◌<◌, ◌≤◌, ◌*◌, ◌++◌, ℤ, List, length, slice_get, slice_index_or, Some, map, FitsSigned};
ghost use Rattle.std.specs.Int.{w32};
ghost use Rattle.std.specs.List.{All};
ghost use Rattle.uac_pcm.specs.Frames.{IsFormat, bytes_of_frame, frame_of_bytes};
ghost use Rattle.uac_pcm.specs.Packets.{IsFrame, bytes_of_frames, bytes_of_frame_at, whole_frames, frames_of_bytes};
ghost use Rattle.uac_pcm.specs.Subslots.{cut_to, subslot_of, sample_of_subslot};

/// Reading the subslot of a sample gives the sample, cut to the resolution; and a sample that was cut stays as it is.
pub fn subslot_is_read_back()
    ensures read { (size resolution : ℕ) (sample : ℤ) → 1 ≤ size → size ≤ 4 → 1 ≤ resolution → resolution ≤ 8 * size → FitsSigned w32 sample
        → sample_of_subslot size resolution (subslot_of size resolution sample) ≡ cut_to resolution sample }
    ensures once { (resolution : ℕ) (sample : ℤ) → cut_to resolution (cut_to resolution sample) ≡ cut_to resolution sample }
{}

/// Reading the bytes of a frame, whatever stands after them, gives its samples, each cut; and there are as many bytes as
/// the samples' subslots have.
pub fn frame_is_read_back()
    ensures read { (count size resolution : ℕ) (samples : List ℤ) (rest : List ℕ)
        → IsFormat count size resolution → length samples ≡ count → All (FitsSigned w32) samples
        → frame_of_bytes count size resolution (bytes_of_frame size resolution samples ++ rest) ≡ map (cut_to resolution) samples }
    ensures bytes { (size resolution : ℕ) (samples : List ℤ) → length (bytes_of_frame size resolution samples) ≡ length samples * size }
{}

/// Frames of a format that are packed one after the other are read back, each sample cut, also where bytes that make no frame stand
/// after them; as many are whole. Each has the same number of bytes, its own stand at its number, and two rows are packed row after row.
pub fn frames_are_read_back()
    ensures read { (count size resolution : ℕ) (frames : List (List ℤ)) (rest : List ℕ)
        → IsFormat count size resolution → All (IsFrame count) frames → length rest < count * size
        → frames_of_bytes count size resolution (bytes_of_frames size resolution frames ++ rest) ≡ map (map (cut_to resolution)) frames }
    ensures whole { (count size resolution : ℕ) (frames : List (List ℤ)) (rest : List ℕ)
        → All (λ samples. length samples ≡ count) frames → length rest < count * size
        → whole_frames count size (bytes_of_frames size resolution frames ++ rest) ≡ length frames }
    ensures bytes { (count size resolution : ℕ) (frames : List (List ℤ)) → All (λ samples. length samples ≡ count) frames
        → length (bytes_of_frames size resolution frames) ≡ length frames * (count * size) }
    ensures numbered { (count size resolution number : ℕ) (frames : List (List ℤ)) (any : List ℤ)
        → All (λ samples. length samples ≡ count) frames → number < length frames
        → bytes_of_frame_at count size number (bytes_of_frames size resolution frames)
        ≡ bytes_of_frame size resolution (slice_index_or frames number any) }
    ensures rows { (size resolution : ℕ) (frames more : List (List ℤ))
        → bytes_of_frames size resolution (frames ++ more)
        ≡ bytes_of_frames size resolution frames ++ bytes_of_frames size resolution more }
{}

/// Bytes have as many frames as stand whole in them, each with a sample for each channel; the frame of a number is read from its own bytes.
pub fn unpacked_frames_are_whole()
    ensures frames { (count size resolution : ℕ) (bytes : List ℕ)
        → length (frames_of_bytes count size resolution bytes) ≡ whole_frames count size bytes }
    ensures numbered { (count size resolution number : ℕ) (bytes : List ℕ) → number < whole_frames count size bytes
        → slice_get (frames_of_bytes count size resolution bytes) number
        ≡ Some (frame_of_bytes count size resolution (bytes_of_frame_at count size number bytes)) }
    ensures channels { (count size resolution : ℕ) (bytes : List ℕ)
        → All (λ samples. length samples ≡ count) (frames_of_bytes count size resolution bytes) }
{}
