// The numbers of a change are those of their types.
ghost use Rattle.std.specs.Prelude.{◌<◌, ◌^◌};
ghost use Rattle.std.specs.List.{All};
ghost use Rattle.drafts.specs.declared.change.Written.{Written as WrittenBlock};
ghost use Rattle.log_widths.specs.Widths.{AreBytes, HasChangeWidths};

use drafts::{Change, Written};

// The loop does nothing, but its reads tell that bytes are below 256.
fn have_bytes(bytes: &[u8])
    ensures { AreBytes bytes.now }
{
    for byte in bytes {
        let _byte = *byte;
    }
}

fn have_numbers(blocks: &[u64])
    ensures { All (λ b. b < 2 ^ 64) blocks.now }
{
    for block in blocks {
        let _block = *block;
    }
}

fn have_widths(blocks: &[Written])
    ensures numbers { All (λ (w : WrittenBlock). w.block < 2 ^ 64) blocks.now }
    ensures bytes { All (λ (w : WrittenBlock). AreBytes w.bytes) blocks.now }
{
    for written in blocks {
        let _block = written.block;
        have_bytes(written.bytes.bytes());
    }
}

/// The numbers of a change fit in the fields of a journal, as those of their types do. It changes nothing: it reads each byte.
pub fn has_change_widths(change: &Change)
    ensures { HasChangeWidths change.now }
{
    have_widths(&change.blocks);
    have_numbers(&change.freed);
}
