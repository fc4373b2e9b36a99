//! The lines of a tree, as `show` prints them: depth first, with names in rising order.
#![tactic(auto)]

ghost use Rattle.std.specs.Prelude.{◌≡◌, ◌+◌, ◌*◌, ◌<◌, ◌≤◌, ◌++◌, ◌∷◌, [], length, OnOk};
ghost use Rattle.file_tree.specs.Tree.{node_count};
ghost use Rattle.show_text.specs.Show.{tree_lines};
ghost use Rattle.tree_lines.specs.Left.{lines_left, work_left};

use file_tree::{Name, NoMemory, Tree};
use show_text::{append_dir, append_file};
use std::alloc::Global;

/// A directory whose line stands there, and the place from which on the lines of its names are to come.
#[derive(Clone, Copy)]
struct Open<'a> {
    tree: &'a Tree,
    place: usize,
}

/// Puts the lines of a tree at the end of a text: one for each file and directory, however deep and however long its path.
/// It goes over the tree once, and takes memory for the lines, and for each directory on the way down and its name.
pub fn append_tree(alloc: Global, text: &mut Vec<u8>, tree: &Tree) -> Result<(), NoMemory>
    ensures { OnOk result (text.new.items ≡ text.old.items ++ tree_lines [] tree.now) }
{
    let mut names = Vec::new(alloc);
    let mut stack = Vec::new(alloc);
    append_node(alloc, text, &names, &mut stack, tree)?;
    while let Some(dir) = stack.pop() {
        append_next(alloc, text, &mut names, &mut stack, dir)?;
    }
    Ok(())
}

// Puts the line of what stands at the path of these names. A directory is opened below those that are.
fn append_node<'a>(
    alloc: Global,
    text: &mut Vec<u8>,
    names: &[Name],
    stack: &mut Vec<Open<'a>>,
    tree: &'a Tree,
) -> Result<(), NoMemory>
    requires { length names.now ≡ length stack.old.items }
    ensures lines { OnOk result (text.new.items ++ lines_left [] stack.new.items names.now ≡ text.old.items ++ (tree_lines names.now tree.now ++ lines_left [] stack.old.items names.now)) }
    ensures count { OnOk result (length stack.new.items ≤ length names.now + 1) }
    ensures work { OnOk result (work_left stack.new.items < work_left stack.old.items + 2 * node_count tree.now) }
{
    match tree.content() {
        Some(content) => append_file(alloc, text, names, content.bytes()),
        None => {
            append_dir(text, names)?;
            stack.push(Open { tree, place: 0 })?;
            Ok(())
        }
    }
}

// Puts the line of the next name of a directory, which stood below these; where none is left it stays closed.
fn append_next<'a>(
    alloc: Global,
    text: &mut Vec<u8>,
    names: &mut Vec<Name>,
    stack: &mut Vec<Open<'a>>,
    dir: Open<'a>,
) -> Result<(), NoMemory>
    requires { length stack.old.items ≤ length names.old.items }
    ensures lines { OnOk result (text.new.items ++ lines_left [] stack.new.items names.new.items ≡ text.old.items ++ lines_left [] (stack.old.items ++ dir.entry ∷ []) names.old.items) }
    ensures count { OnOk result (length stack.new.items ≤ length names.new.items + 1) }
    ensures work { OnOk result (work_left stack.new.items < work_left (stack.old.items ++ dir.entry ∷ [])) }
{
    names.truncate(stack.len());
    if dir.place >= dir.tree.entry_count() {
        return Ok(());
    }
    let Some((name, below)) = dir.tree.entry(dir.place) else {
        unreachable!()
    };
    stack.push(Open {
        tree: dir.tree,
        place: dir.place + 1,
    })?;
    names.push(name.copy()?)?;
    append_node(alloc, text, names, stack, below)
}
