ghost use Rattle.std.specs.Prelude.{◌≡◌, ◌*◌, ◌/◌, ◌%◌, ◌<◌, ◌≤◌, true, length};
ghost use Rattle.gfs2_layout.specs.Device.{IsBlockSize};
ghost use Rattle.image_journals.specs.Sizes.{is_block_size};

use glock_names::{Group, LockName, State, View};

/// The blocks of an image in memory: a view that has every one of them, and neither locks nor groups.
#[derive(Clone, Copy)]
pub(crate) struct ImageBlocks<'a> {
    pub size: u32,
    pub count: u64,
    pub bytes: &'a [u8],
    ghost four: { is_block_size size ≡ true },
    ghost least: { 512 ≤ size },
    ghost most: { size ≤ 4096 },
    ghost whole: { count * size ≡ length bytes.now },
    ghost counted: { count ≡ length bytes.now / size },
}

impl<'a> ImageBlocks<'a> {
    /// The blocks, of so many bytes each, that the bytes are.
    #[tactic(auto, using(crate::proofs::Sizes::sizes))]
    pub fn of(size: u32, bytes: &'a [u8]) -> ImageBlocks<'a>
        requires size { IsBlockSize size }
        requires whole { length bytes.now % size ≡ 0 }
        ensures size { result.size ≡ size }
        ensures count { result.count ≡ length bytes.now / size }
        ensures bytes { result.bytes.now ≡ bytes.now }
    {
        ImageBlocks {
            size,
            count: (bytes.len() / size as usize) as u64,
            bytes,
        }
    }
}

impl View for ImageBlocks<'_> {
    ghost use Rattle.image_journals.specs.Blocks.{seen_of};

    ghost seen = { seen_of };

    fn state(&self, _lock: LockName) -> State {
        State::Un
    }

    fn block(&self, block: u64) -> Option<&[u8]> {
        if block >= self.count {
            return None;
        }
        let size = self.size as usize;
        let at = block as usize * size;
        Some(&self.bytes[at..at + size])
    }

    fn groups(&self) -> &[Group] {
        &[]
    }

    fn root(&self) -> u64 {
        0
    }

    fn block_size(&self) -> u32 {
        self.size
    }
}
