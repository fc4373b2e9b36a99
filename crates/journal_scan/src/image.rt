use file_tree::Content;

/// A journal that was read whole: the bytes of its blocks, from place 0 on.
#[derive(Drop)]
pub struct JournalImage {
    /// The size of a block in bytes, one of the four of the format.
    pub block_size: u32,
    /// How many places it has.
    pub length: u32,
    pub bytes: Content,
}

impl JournalImage {
    ghost use Rattle.std.specs.Prelude.{◌≡◌, ◌<◌, length};
    ghost use Rattle.journal_scan.specs.Images.{IsImage, ring_of};

    /// The block at a place.
    pub fn block(&self, place: u32) -> &[u8]
        requires image { IsImage self.now }
        requires inside { place < self.now.length }
        ensures block { result.now ≡ (ring_of self.now).at place }
        ensures size { length result.now ≡ self.now.block_size }
    {
        let at = place as usize * self.block_size as usize;
        let bytes = self.bytes.bytes();
        &bytes[at..at + self.block_size as usize]
    }
}
