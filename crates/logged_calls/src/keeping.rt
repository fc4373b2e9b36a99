// What a call changes, put into the view.
ghost use Rattle.std.specs.Prelude.{ℕ, ◌≡◌, OnOk, length};
ghost use Rattle.std.specs.FinMap as table;
ghost use Rattle.std.specs.List.{AllByRecursion};
ghost use Rattle.drafts.specs.declared.change.Written.{Written as WrittenBlock};
ghost use Rattle.image_changes.specs.Does.{IsFormed};
ghost use Rattle.lone_images.specs.Lone.{version_with};
ghost use Rattle.logged_calls.specs.Keeping.{with_blocks, without_blocks};

use drafts::{Change, Written};
use lone_view::LoneView;
use no_memory::NoMemory;

// The view has these blocks no more.
fn forget_all(view: &mut LoneView, blocks: &[u64])
    ensures { view.new ≡ record view.old { blocks = without_blocks view.old.blocks blocks.now } }
{
    for block in blocks {
        view.forget(*block);
    }
}

// The view has these blocks as they are written. It costs a copy of each.
fn keep_all(view: &mut LoneView, blocks: &[Written]) -> Result<(), NoMemory>
    requires whole { AllByRecursion (λ (w : WrittenBlock). length w.bytes ≡ view.old.size) blocks.now }
    ensures kept { OnOk result (view.new ≡ record view.old { blocks = with_blocks view.old.blocks blocks.now }) }
{
    for written in blocks {
        view.keep(written.block, written.bytes.copy()?)?;
    }
    Ok(())
}

/// The view has what a change writes, and not what it frees. It costs a copy of each block that is written.
pub(crate) fn keep_change(view: &mut LoneView, change: &Change) -> Result<(), NoMemory>
    requires form { IsFormed change.now }
    requires whole { AllByRecursion (λ (w : WrittenBlock). length w.bytes ≡ view.old.size) change.now.blocks.items }
    ensures kept { OnOk result ((b : ℕ) → table.get view.new.blocks b ≡ version_with change.now (table.get view.old.blocks) b) }
    ensures others { OnOk result (view.new ≡ record view.old { blocks = view.new.blocks }) }
{
    forget_all(view, &change.freed);
    keep_all(view, &change.blocks)
}
