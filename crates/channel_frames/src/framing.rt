ghost use Rattle.std.specs.Prelude.{◌≡◌, ◌≤◌, ◌++◌, length, OnOk, OnErr, IfErr};
ghost use Rattle.channel_frames.specs.Frames.{frame_of, Refuses};

use crate::fault::FrameFault;

/// The greatest length of a frame's data, in bytes.
pub const LONGEST: usize = 67_108_864;

/// The bytes of a frame before its data: four of the length, and the flag.
pub(crate) const HEADER: usize = 5;

/// The flag of data that is not compressed.
pub(crate) const PLAIN: u8 = 0;

/// The flag of data that is compressed.
pub(crate) const COMPRESSED: u8 = 1;

/// The last byte of each frame.
pub(crate) const FLUSHER: u8 = 0x0a;

/// Appends the frame of this data. F1 where the data are longer than [`LONGEST`]. After an error `out` is as it was.
#[tactic(auto, unfolding(crate::specs::Frames::frame_of))]
pub fn frame(body: &[u8], out: &mut Vec<u8>) -> Result<(), FrameFault>
    ensures ok { OnOk result (out.new.items ≡ out.old.items ++ frame_of body.now) }
    ensures fits { OnOk result (length body.now ≤ LONGEST) }
    ensures err { OnErr result (out.new.items ≡ out.old.items) }
    ensures cause { IfErr result (Refuses (length body.now)) }
{
    if body.len() > LONGEST {
        return Err(FrameFault::F1(body.len() as u64));
    }
    let [a, b, c, d] = (body.len() as u32).to_be_bytes();
    let header = [a, b, c, d, PLAIN];
    out.reserve(HEADER + body.len() + 1)?;
    out.extend_from_slice(&header)?;
    out.extend_from_slice(body)?;
    out.extend_from_slice(&[FLUSHER])?;
    Ok(())
}
