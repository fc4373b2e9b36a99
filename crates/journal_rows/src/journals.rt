// Journals as their lines lay them out.
use std::alloc::Global;

/// A journal on its way: the size of its blocks, how many places it has, and their bytes.
#[derive(Drop)]
pub(crate) struct Laid {
    pub size: u32,
    pub places: u32,
    pub bytes: Vec<u8>,
}

fn digit(byte: u8) -> Option<u8> {
    match byte {
        b'0'..=b'9' => Some(byte - b'0'),
        b'a'..=b'f' => Some(byte - b'a' + 10),
        _ => None,
    }
}

// The byte that two digits write.
fn byte_of(pair: &[u8]) -> Option<u8> {
    if pair.len() != 2 {
        return None;
    }
    let high = digit(pair[0])?;
    let low = digit(pair[1])?;
    Some((high << 4) | low)
}

impl Laid {
    pub(crate) fn new(alloc: Global) -> Laid {
        Laid {
            size: 0,
            places: 0,
            bytes: Vec::new(alloc),
        }
    }

    // Begins a journal of zeros.
    fn begin(&mut self, alloc: Global, size: u32, places: u32) -> Option<()> {
        if size > 4096 || places > 512 {
            return None;
        }
        self.size = size;
        self.places = places;
        self.bytes = Vec::with_capacity(alloc, size as usize * places as usize).ok()?;
        self.bytes.resize(size as usize * places as usize, 0).ok()
    }

    // Puts bytes, in hexadecimal, over those from a place and an offset in its block on.
    fn put(&mut self, place: u32, offset: u32, digits: &str) -> Option<()> {
        let start = u64::from(place)
            .checked_mul(u64::from(self.size))?
            .checked_add(u64::from(offset))?;
        let mut at = start as usize;
        for pair in digits.as_bytes().chunks(2) {
            *self.bytes.get_mut(at)? = byte_of(pair)?;
            at = at.checked_add(1)?;
        }
        Some(())
    }

    // Fills the block at a place with one byte.
    fn fill(&mut self, place: u32, byte: u32) -> Option<()> {
        let start = u64::from(place).checked_mul(u64::from(self.size))?;
        let mut at = start as usize;
        for _ in 0..self.size {
            *self.bytes.get_mut(at)? = u8::try_from(byte).ok()?;
            at = at.checked_add(1)?;
        }
        Some(())
    }

    /// Takes a line: `journal SIZE PLACES`, `fill PLACE BYTE`, or `put PLACE OFFSET HEX`. None where it is no such line.
    pub(crate) fn take(&mut self, alloc: Global, line: &str) -> Option<()> {
        let mut words = line.split(' ');
        let word = words.next()?;
        let first = words.next()?.parse::<u32>().ok()?;
        let second = words.next()?.parse::<u32>().ok()?;
        if word == "journal" {
            self.begin(alloc, first, second)
        } else if word == "fill" {
            self.fill(first, second)
        } else if word == "put" {
            self.put(first, second, words.next()?)
        } else {
            None
        }
    }
}
