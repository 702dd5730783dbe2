ghost use Rattle.std.specs.Prelude.{◌≡◌, ◌<◌, [], ◌++◌, OnOk, OnErr, IfErr, IsOkUnless};
ghost use Rattle.channel_frames.specs.Frames.{front, Judges, Reads};
ghost use Rattle.channel_frames.specs.Streams.{frames, left};

use crate::fault::FrameFault;
use crate::framing::{COMPRESSED, FLUSHER, HEADER, LONGEST, PLAIN};
use std::alloc::Global;
use std::marker::Model;

/// Takes a stream apart into frames, in whatever pieces it comes. Contracts see it as the bytes that were fed and that
/// no given frame has taken.
#[derive(Drop)]
pub struct Deframer {
    stored: Vec<u8>,
    /// How many of the stored bytes are taken.
    start: usize,
}

impl Model for Deframer {
    ghost use Rattle.std.specs.Prelude.{ℕ, List, drop, ◌≤◌, vec_len};

    ghost Value = { List ℕ };

    ghost view = { λ d. drop d.start d.stored.items };

    ghost invariant = { λ d. d.start ≤ vec_len d.stored };
}

impl Deframer {
    /// One to which nothing was fed.
    pub fn new(alloc: Global) -> Deframer
        ensures { result ≡ [] }
    {
        Deframer {
            stored: Vec::new(alloc),
            start: 0,
        }
    }

    /// Takes the next piece of the stream. Where there is no memory, nothing is taken.
    pub fn feed(&mut self, piece: &[u8]) -> Result<(), FrameFault>
        ensures ok { OnOk result (self.new ≡ self.old ++ piece.now) }
        ensures err { OnErr result (self.new ≡ self.old) }
        ensures only_memory { IsOkUnless result FrameFault.NoMemory }
    {
        self.stored.extend_from_slice(piece)?;
        Ok(())
    }

    /// The data of the frame in front, which is taken, or None where no whole frame is there yet. F1 to F4 where no
    /// frame can be in front: then, as without memory, nothing is taken, so the next call answers the same.
    pub fn next(&mut self, alloc: Global) -> Result<Option<Vec<u8>>, FrameFault>
        ensures { Reads (λ body. body.items) (front self.old) result self.old self.new }
    {
        let waiting = &self.stored[self.start..];
        let Some(length) = body_length(waiting)? else {
            return Ok(None);
        };
        let body = Vec::from_slice(alloc, &waiting[HEADER..HEADER + length])?;
        self.start += HEADER + length + 1;
        self.forget_taken();
        Ok(Some(body))
    }

    /// Says whether the stream may end here. F5 where bytes of a frame that is begun are left behind the whole frames.
    /// Where a fault stands there, it is `next` that tells it.
    pub fn finish(&self) -> Result<(), FrameFault>
        ensures ends { OnOk result (left (frames self.now).1 ≡ 0) }
        ensures cut { IfErr result (λ e. (0 < left (frames self.now).1) × (e ≡ FrameFault.F5 (left (frames self.now).1))) }
    {
        let mut rest = &self.stored[self.start..];
        'frames: loop {
            match body_length(rest) {
                Ok(Some(length)) => rest = &rest[HEADER + length + 1..],
                Ok(None) => break,
                Err(_) => return Ok(()),
            }
        }
        if rest.is_empty() {
            return Ok(());
        }
        Err(FrameFault::F5(rest.len() as u64))
    }

    // Moves what waits to the front once that is no longer than what was taken: so each byte fed is moved at most once
    // on average, and the taken bytes hold no more memory than those that wait.
    fn forget_taken(&mut self)
        ensures { self.new ≡ self.old }
    {
        let waiting = self.stored.len() - self.start;
        if waiting <= self.start {
            self.stored.copy_within(self.start.., 0);
            self.stored.truncate(waiting);
            self.start = 0;
        }
    }
}

// The length of the data of the frame in front, or None where no whole frame is there yet.
fn body_length(waiting: &[u8]) -> Result<Option<usize>, FrameFault>
    ensures { Judges result waiting.now }
{
    if waiting.len() < HEADER {
        return Ok(None);
    }
    let length = u32::from_be_bytes([waiting[0], waiting[1], waiting[2], waiting[3]]) as usize;
    if length > LONGEST {
        return Err(FrameFault::F1(length as u64));
    }
    let flag = waiting[4];
    if flag == COMPRESSED {
        return Err(FrameFault::F2);
    }
    if flag != PLAIN {
        return Err(FrameFault::F3(flag));
    }
    let rest = &waiting[HEADER..];
    if rest.len() <= length {
        return Ok(None);
    }
    let last = rest[length];
    if last != FLUSHER {
        return Err(FrameFault::F4(last));
    }
    Ok(Some(length))
}
