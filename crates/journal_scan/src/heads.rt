ghost use Rattle.std.specs.Prelude.{◌≡◌, ◌+◌, ◌-◌, ◌^◌, ◌<◌, None, Some, Ok, Err, MatchOption};
ghost use Rattle.log_layout.specs.Journal.{accepted as accepted_at, better as better_of, head_in};
ghost use Rattle.journal_scan.specs.Images.{IsImage, ring_of};

use crate::fault::ScanFault;
use crate::image::JournalImage;
use log_layout::{LogHeader, accepted, best_headers_go_on, better};

/// The search for a journal's head, block by block from place 0 on, as whoever reads the disk has them. It keeps one header
/// and takes no memory.
#[derive(Clone, Copy, Debug, PartialEq, Eq)]
pub struct HeadSearch {
    /// The place whose block comes next.
    pub place: u32,
    /// The best of the headers so far.
    pub best: Option<LogHeader>,
}

impl HeadSearch {
    pub fn new() -> HeadSearch
        ensures { result ≡ record { place = 0; best = None } }
    {
        HeadSearch {
            place: 0,
            best: None,
        }
    }

    /// Takes the block at the next place. It computes two checksums of it where it begins like a log header.
    pub fn take(&mut self, block: &[u8])
        requires { self.old.place < 2 ^ 32 - 1 }
        ensures { self.new ≡ record { place = self.old.place + 1; best = better_of self.old.best (accepted_at self.old.place block.now) } }
    {
        self.best = better(self.best, accepted(self.place, block));
        self.place += 1;
    }
}

/// The head of a journal: the accepted header of highest sequence, of several that in the least place. It looks at each place
/// once and takes no memory.
pub fn find_head(j: &JournalImage) -> Result<LogHeader, ScanFault>
    requires { IsImage j.now }
    ensures { MatchOption (head_in (ring_of j.now)) (result ≡ Err ScanFault.NoHeader) (λ head. result ≡ Ok head) }
{
    best_headers_go_on();
    let mut search = HeadSearch::new();
    for place in 0..j.length {
        search.take(j.block(place));
    }
    match search.best {
        Some(head) => Ok(head),
        None => Err(ScanFault::NoHeader),
    }
}
