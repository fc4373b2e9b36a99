// The region, and which of its frames are out.
ghost use Rattle.std.specs.Prelude.{◌≡◌, ℕ, ◌<◌, slice_index, vec_len, IfOk};

use crate::region::Region;
use no_memory::NoMemory;
use std::alloc::{AllocError, Global};
use std::marker::Model;

/// A frame that is out: its number in its pool, from 0. One that is dropped and not given back stays out for good, so that its
/// pool has one fewer to take from then on.
#[derive(Drop)]
pub struct Frame {
    number: u32,
}

impl Model for Frame {
    ghost use Rattle.std.specs.Prelude.{ℕ};

    ghost Value = { ℕ };

    ghost view = { λ f. f.number };
}

// The numbers from 0 on, so many of them.
fn rising(alloc: Global, count: u32) -> Result<Vec<u32>, AllocError>
    ensures count { IfOk result (λ v. vec_len v ≡ count) }
    ensures each { IfOk result (λ v. (k : ℕ) → k < count → slice_index v.items k ≡ k) }
{
    (0..count).collect(alloc)
}

/// Frames of one length, side by side in one region. `order` has the frames' numbers, those that are out first, and
/// `place` says where each stands there.
#[derive(Drop)]
pub struct Pool {
    region: Region,
    size: u32,
    order: Vec<u32>,
    place: Vec<u32>,
    out: u32,
}

impl Model for Pool {
    ghost use Rattle.frame_pool.specs.Frames.{Frames, frames_code};

    ghost Value = { Frames };

    ghost coded = { frames_code };

    ghost use Rattle.frame_pool.specs.Inside.{frames_of, IsPool};

    ghost view = { frames_of };

    ghost invariant = { IsPool };
}

impl Pool {
    ghost use Rattle.std.specs.Prelude.{◌≡◌, ℕ, ◌≤◌, ◌<◌, ◌↔◌, Some, None, IfOk, IsNone, IfSome, IsSome, IsTrue, length};
    ghost use Rattle.std.specs.FinMap as map;
    ghost use Rattle.std.specs.Borrow.{sem};
    ghost use Rattle.profile_limits.specs.Limits.{most_frames};
    ghost use Rattle.frame_pool.specs.Frames.{Takes, AllOut, after_give, IsOut};
    ghost use Rattle.frame_pool.specs.Lending.{LendsFrame};

    /// A pool of so many frames of so many bytes each, all of them in it. Takes all the memory that it will need.
    pub fn new(alloc: Global, frames: u32, size: u32) -> Result<Pool, NoMemory>
        requires frames { (1 ≤ frames) × (frames ≤ most_frames) }
        requires size { (1 ≤ size) × (size ≤ 4096) }
        ensures { IfOk result (λ p. p ≡ record { count = frames; size = size; out = map.empty }) }
    {
        let region = Region::zeros(alloc, frames as usize * size as usize)?;
        let order = rising(alloc, frames)?;
        let place = rising(alloc, frames)?;
        Ok(Pool {
            region,
            size,
            order,
            place,
            out: 0,
        })
    }

    /// A frame that wasn't out. Nothing is promised of its bytes but how many they are: write before you read.
    pub fn take(&mut self) -> Option<Frame>
        ensures none { IsNone result ↔ AllOut self.old }
        ensures same { IsNone result → self.new ≡ self.old }
        ensures taken { IfSome result (Takes self.old self.new) }
    {
        if self.out as usize == self.order.len() {
            return None;
        }
        let number = self.order[self.out as usize];
        self.out += 1;
        Some(Frame { number })
    }

    /// The frame goes back.
    pub fn give(&mut self, frame: Frame)
        requires { IsOut self.old frame }
        ensures { self.new ≡ after_give self.old frame }
    {
        let last = self.out as usize - 1;
        let at = self.place[frame.number as usize] as usize;
        let moved = self.order[last];
        self.order.swap(at, last);
        self.place.swap(frame.number as usize, moved as usize);
        self.out -= 1;
    }

    /// The length of each frame, in bytes.
    pub fn size(&self) -> u32
        ensures { result ≡ self.now.size }
    {
        self.size
    }

    /// Whether the frame is out in this pool. A frame is its number, so one that another pool lent counts as the frame of that
    /// number here: keep frames with their pool.
    pub fn is_out(&self, frame: &Frame) -> bool
        ensures { result ≡ map.contains_key self.now.out frame.now }
    {
        let number = frame.number as usize;
        if number >= self.place.len() {
            return false;
        }
        self.place[number] < self.out
    }

    /// The frame's bytes.
    pub fn bytes(&self, frame: &Frame) -> &[u8]
        requires { IsOut self.now frame.now }
        ensures bytes { map.get self.now.out frame.now ≡ Some result.now }
        ensures whole { length result.now ≡ self.now.size }
    {
        let size = self.size as usize;
        self.region.part(frame.number as usize * size, size)
    }

    /// The frame's bytes, to be written. Those of all other frames stay.
    pub fn bytes_mut(&mut self, frame: &Frame) -> &mut [u8]
        requires { IsOut self.old frame.now }
        ensures* written { sem 𝓛 (LendsFrame self.entry frame.now result) }
        ensures bytes { map.get self.old.out frame.now ≡ Some result.now }
        ensures whole { length result.now ≡ self.old.size }
    {
        let size = self.size as usize;
        self.region.part_mut(frame.number as usize * size, size)
    }
}
