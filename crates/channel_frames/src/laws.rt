ghost use Rattle.std.specs.Prelude.{◌≡◌, ◌≢◌, ◌↔◌, ℕ, List, [], ◌++◌, ◌≤◌, All, flat_map, length};
ghost use Rattle.channel_frames.specs.Frames.{front, frame_of, IsBytes, Whole, Part, Faulty, Fault, IsBegun, Says};
ghost use Rattle.channel_frames.specs.Streams.{Turn, Leads, Splits, after, behind_all, fed, frames, frames_from, given, placed, read_on, resumed};

use crate::framing::LONGEST;

/// A whole frame in front is read, whatever follows it.
pub fn whole_frames_are_read()
    ensures { (body rest : List ℕ) → length body ≤ LONGEST → front (frame_of body ++ rest) ≡ Whole body rest }
{}

/// Nothing else is read.
pub fn only_frames_are_read()
    ensures { (bytes body rest : List ℕ) → IsBytes bytes → front bytes ≡ Whole body rest
        → (bytes ≡ frame_of body ++ rest) × (length body ≤ LONGEST) }
{}

/// The bytes of a frame without its last ones are less than a frame, and no fault.
pub fn fronts_of_frames_are_parts()
    ensures { (body given missing : List ℕ) → length body ≤ LONGEST → frame_of body ≡ given ++ missing → missing ≢ []
        → front given ≡ Part }
{}

/// Less than a frame is in front exactly where a frame is begun. Once its length and its flag are there, the bytes are
/// those of a frame without its last ones.
pub fn parts_are_begun_frames()
    ensures begun { (bytes : List ℕ) → IsBytes bytes → front bytes ≡ Part ↔ IsBegun bytes }
    ensures front_of_a_frame { (bytes : List ℕ) → IsBytes bytes → front bytes ≡ Part → 5 ≤ length bytes
        → (body missing : List ℕ) × (length body ≤ LONGEST) × (missing ≢ []) × (frame_of body ≡ bytes ++ missing) }
{}

/// A fault is in front exactly where the bytes have what it says: a length above the limit, else a flag that is not 0,
/// else another byte than the flusher behind the data. It stands at the first byte, at the flag, at that byte.
pub fn faults_say_what_is_there()
    ensures { (bytes : List ℕ) (fault : Fault) (place : ℕ) → IsBytes bytes → front bytes ≡ Faulty fault place ↔ Says fault place bytes }
{}

/// Bytes with a fault in front keep it however they go on, and begin no frame.
pub fn faults_stay()
    ensures stay { (bytes more : List ℕ) (fault : Fault) (place : ℕ) → front bytes ≡ Faulty fault place
        → front (bytes ++ more) ≡ Faulty fault place }
    ensures begin_no_frame { (bytes more body rest : List ℕ) (fault : Fault) (place : ℕ) → front bytes ≡ Faulty fault place
        → length body ≤ LONGEST → bytes ++ more ≡ frame_of body ++ rest → ⊥ }
{}

/// The frames of a stream are the frame in front and those of the bytes behind it, to the first part or fault.
pub fn frames_are_read_in_order()
    ensures { (at : ℕ) (bytes : List ℕ) → frames_from at bytes ≡ read_on frames_from at bytes (front bytes) }
{}

/// Frames one behind the other are read as they stand, whatever follows them.
pub fn all_frames_are_read()
    ensures { (at : ℕ) (bodies : List (List ℕ)) (tail : List ℕ) → All (λ body. length body ≤ LONGEST) bodies
        → frames_from at (flat_map frame_of bodies ++ tail) ≡ after (placed at bodies) (frames_from (behind_all at bodies) tail) }
{}

/// Each stream is whole frames one behind the other, and then a tail with no whole frame in front.
pub fn streams_are_frames()
    ensures { (bytes : List ℕ) → IsBytes bytes → (bodies : List (List ℕ)) × (tail : List ℕ) × Splits bytes bodies tail }
{}

/// More bytes behind a stream change no frame of it: a frame that is begun goes on, and behind a fault nothing is read.
pub fn more_bytes_go_on()
    ensures { (bytes more : List ℕ) → frames (bytes ++ more) ≡ after (frames bytes).0 (resumed (frames bytes).1 more) }
{}

/// However the stream is cut into pieces and whenever frames are taken: the frames that were given and those of the
/// bytes that wait are the frames of all bytes that were fed.
pub fn cutting_does_not_matter()
    ensures { (turns : List Turn) (waiting : List ℕ) → Leads [] turns waiting
        → frames (fed turns) ≡ after (placed 0 (given turns)) (frames_from (behind_all 0 (given turns)) waiting) }
{}
