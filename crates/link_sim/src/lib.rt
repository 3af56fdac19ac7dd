//! The lossy link of a replay: every frame that was sent, so that any of them may be delivered at
//! any time, again and again, or never.
//!
//! A contract sees a `Link` as the frames that were sent, each with its moment, the end that it
//! goes to, its bytes and its line, and as the number of frames that were handed out in order.
//! Frames are numbered from 1 in the order in which they were sent. Only `create` and `send` take
//! memory.
//!
//! A frame is live for fewer than `LIFE` ticks, and stays in the link after that. Which frames are
//! delivered, and what their bytes spell, is left to others.
#![tactic(auto)]

ghost use Rattle.std.specs.Prelude.{◌≡◌, ◌+◌, ◌<◌, [], ◌∷◌, ◌++◌, length, IfOk, OnErr, OnOk};
ghost use Rattle.link_sim.specs.LinkFrames.{LinkFrames, frame_at, sent_on, next_number, next_handed};
ghost use Rattle.link_sim.specs.Got.{found_of, found_at};

pub use cl_types::frame::End;
pub use cl_types::items::NoMemory;
use cl_types::limits::LIFE;
use std::alloc::{AllocError, Global};
use std::marker::Model;

/// What stands under the number of a frame at a moment.
#[derive(Clone, Copy, Debug, PartialEq, Eq)]
pub enum Got<'a> {
    /// The frame was sent fewer than `LIFE` ticks ago: its bytes, where it goes, and the line on
    /// which it was sent.
    Live {
        bytes: &'a [u8],
        end: End,
        line: u32,
    },
    /// The frame was sent `LIFE` ticks ago or earlier, at the moment `sent`.
    Expired {
        sent: u64,
    },
    /// No frame has this number.
    Absent,
}

// A frame that was sent, with its bytes at `from..to` of the bytes of all frames.
#[derive(Clone, Copy)]
struct StoredFrame {
    moment: u64,
    end: End,
    line: u32,
    from: usize,
    to: usize,
}

/// A link, and every frame that was sent over it.
#[derive(Drop)]
pub struct Link {
    frames: Vec<StoredFrame>,
    // The bytes of all frames, one frame after the other.
    bytes: Vec<u8>,
    handed_out: u32,
}

impl Model for Link {
    ghost use Rattle.link_sim.specs.LinkFrames.{LinkFrames};

    ghost Value = { LinkFrames };

    ghost use Rattle.link_sim.specs.Fields.{link_frames, IsSound};

    ghost view = { λ link. link_frames link.frames.items link.bytes.items link.handed_out };

    ghost invariant = { λ link. IsSound link.frames.items link.bytes.items link.handed_out };
}

impl Link {
    /// A link over which nothing was sent.
    pub fn create(alloc: Global) -> Result<Link, NoMemory>
        ensures { IfOk result (λ link. link ≡ record { frames = []; handed_out = 0 }) }
    {
        Ok(Link {
            frames: Vec::new(alloc),
            bytes: Vec::new(alloc),
            handed_out: 0,
        })
    }

    /// Sends the bytes to an end at the moment `now`, in ticks, on a line, and gives the number of
    /// the frame. Where there is no memory for it, nothing is sent.
    pub fn send(&mut self, now: u64, end: End, bytes: &[u8], line: u32) -> Result<u32, NoMemory>
        requires { length self.old.frames < 4294967295 }
        ensures number { IfOk result (λ number. number ≡ length self.old.frames + 1) }
        ensures sent { OnOk result (self.new ≡ sent_on self.old
            (record { moment = now; end = end; bytes = bytes.now; line = line })) }
        ensures unchanged { OnErr result (self.new ≡ self.old) }
    {
        let from = self.bytes.len();
        self.bytes.extend_from_slice(bytes)?;
        let frame = StoredFrame {
            moment: now,
            end,
            line,
            from,
            to: self.bytes.len(),
        };
        if self.frames.push(frame).is_err() {
            self.bytes.truncate(from);
            return Err(NoMemory);
        }
        Ok(self.frames.len() as u32)
    }

    /// What stands under the number `frame` at the moment `now`, in ticks.
    pub fn get(&self, now: u64, frame: u32) -> Got<'_>
        ensures { found_of result ≡ found_at now (frame_at self.now frame) }
    {
        if frame == 0 || self.frames.len() < frame as usize {
            return Got::Absent;
        }
        let at = self.frames[frame as usize - 1];
        if now.saturating_sub(at.moment) >= LIFE {
            return Got::Expired { sent: at.moment };
        }
        Got::Live {
            bytes: &self.bytes[at.from..at.to],
            end: at.end,
            line: at.line,
        }
    }

    /// Hands out the least number that it has not handed out before. `None` comes exactly where
    /// every frame that was sent is handed out.
    pub fn next(&mut self) -> Option<u32>
        ensures number { result ≡ next_number self.old }
        ensures handed { self.new ≡ next_handed self.old }
    {
        if self.handed_out as usize == self.frames.len() {
            return None;
        }
        self.handed_out += 1;
        Some(self.handed_out)
    }
}
