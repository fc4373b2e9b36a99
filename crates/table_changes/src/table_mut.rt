// A table in its directory's blocks that changes in a draft.
use crate::changing::PointerTableMut;
use crate::finding::find_runs;
use crate::growing::doubled_blocks;
use crate::putting::are_of_table;
use crate::reading::{doubled_table, see_below};
use crate::setting::set_runs;
use dinode_tree::read_dinode;
use drafts::Draft;
use glock_names::{CallFault, Step, View};
use linear_dirs::lock_of;
use nested_drafts::put_blocks;
use std::alloc::Global;
use std::collections::VecDeque;
use table_files::TreeTable;

impl PointerTableMut for TreeTable {
    fn set<V: View>(
        &mut self,
        alloc: Global,
        draft: &mut Draft<'_, V>,
        from: u32,
        count: u32,
        leaf: u64,
    ) -> Result<Step<()>, CallFault> {
        let runs = match find_runs(alloc, &*draft, *self, from as usize, count as usize)? {
            Step::Is(runs) => runs,
            Step::NeedBlock(missing) => return Ok(Step::NeedBlock(missing)),
        };
        set_runs(draft, *self, &runs, leaf)?;
        Ok(Step::Is(()))
    }

    fn double<V: View>(
        &mut self,
        alloc: Global,
        draft: &mut Draft<'_, V>,
        room: &mut VecDeque<u64>,
    ) -> Result<Step<bool>, CallFault> {
        let _size = draft.block_size();
        let dinode = match read_dinode(&*draft, self.directory)? {
            Step::Is(dinode) => dinode,
            Step::NeedBlock(missing) => return Ok(Step::NeedBlock(missing)),
        };
        let below = match see_below(alloc, &*draft, self.directory)? {
            Step::Is(below) => below,
            Step::NeedBlock(missing) => return Ok(Step::NeedBlock(missing)),
        };
        let bytes = match doubled_table(alloc, &*draft, *self, dinode.height)? {
            Step::Is(bytes) => bytes,
            Step::NeedBlock(missing) => return Ok(Step::NeedBlock(missing)),
        };
        let mut left = room.clone()?;
        let Some(blocks) = doubled_blocks(alloc, &*draft, *self, &dinode, &bytes, &mut left)? else {
            return Ok(Step::Is(false));
        };
        let mut taken = room.clone()?;
        let rest = taken.split_off(room.len().saturating_sub(left.len()))?;
        if !are_of_table(&blocks, self.directory, &below, &taken) {
            return Ok(Step::Is(false));
        }
        put_blocks(draft, lock_of(self.directory), &blocks)?;
        *room = rest;
        self.depth += 1;
        Ok(Step::Is(true))
    }
}
