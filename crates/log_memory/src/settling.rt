// Barriers: live blocks that were on their way are home.
ghost use Rattle.std.specs.Prelude.{◌≡◌, ◌<◌, ℕ, Some, slice_get};
ghost use Rattle.std.specs.FinMap as table;
ghost use Rattle.log_tables.specs.Versions.Way.{Flying};
ghost use Rattle.log_values.specs.Log.{Entry};
ghost use Rattle.log_values.specs.Flushing.{settled_way};
ghost use Rattle.log_memory.specs.Rows.{is_flying};

use crate::log::Log;
use log_tables::{Tables, Whereabouts};

fn flies(tables: &Tables, place: usize) -> bool
    requires { place < table.len tables.now.live }
    ensures { (e : ℕ × Entry) → slice_get (table.entries tables.now.live) place ≡ Some e → result ≡ is_flying e.1.way }
{
    match tables.live_whereabouts(place) {
        Whereabouts::Flying => true,
        Whereabouts::Home => false,
        Whereabouts::Away => false,
    }
}

// The block in this row is home, if it was on its way.
fn settle_row(log: &mut Log, place: usize)
    requires { place < table.len log.old.live }
    ensures { (e : ℕ × Entry) → slice_get (table.entries log.old.live) place ≡ Some e
        → log.new ≡ record log.old { live = table.insert log.old.live e.0 (record e.1 { way = settled_way e.1.way }) } }
{
    if flies(&log.tables, place) {
        let block = log.tables.live_block(place);
        log.tables.rest(block);
    }
}

impl Log {
    ghost use Rattle.log_values.specs.Homing.{Settles};

    /// A barrier was made: the live blocks that were on their way home are there. It goes over all live blocks.
    pub fn settle(&mut self)
        ensures { Settles self.old self.new }
    {
        for place in 0..self.tables.live_len() {
            settle_row(self, place);
        }
    }
}
