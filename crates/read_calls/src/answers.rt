// What a call that reads answers of the inode at its path's end.
ghost use Rattle.std.specs.Prelude.{ℕ, ◌≡◌, ◌<◌, [], List, IfOk, OnOk, true};
ghost use Rattle.file_tree.specs.Tree.{all_put};
ghost use Rattle.gfs2_layout.specs.Holding.{Holding};
ghost use Rattle.gfs2_layout.specs.Inode.{dinode_in, is_hashed_in};
ghost use Rattle.glock_names.specs.Steps.{IfDamaged};
ghost use Rattle.glock_names.specs.Views.{HasBlock, IsOfView};
ghost use Rattle.dinode_tree.specs.Shown.{IsShown};
ghost use Rattle.read_calls.specs.Reading.{IsReading, IsRangeOf, IsStatOf, IsListOf, IsAnswerOf, IsAskedRange, IsAskedRecords, IsAskedCount, IsAsked, IsShownFor, IsSpaceless};
ghost use Rattle.path_walks.specs.DirectoryShown.{IsLinearDirectory};
ghost use Rattle.path_walks.specs.DirectoryShown as dirs;
ghost use Rattle.linear_dirs.specs.Shown.{IsLinearIn};
ghost use Rattle.path_walks.specs.Walks.{IsWrongAt};

use dinode_tree::read_range;
use file_tree::{Call, Content, Kind, Name, NameList, Reply};
use glock_names::{CallFault, LockName, Missing, State, Step, View};
use no_memory::NoMemory;
use path_walks::{Place, counted_leaves, names};
use std::alloc::Global;

/// What a call that reads finds at its path's end.
#[derive(Drop)]
pub(crate) enum Read {
    /// The call's reply.
    Reply(Reply),
    /// This block isn't in the view.
    NeedBlock(Missing),
    /// This lock isn't held so strongly.
    NeedLock { lock: LockName, state: State },
}

// The names in byte order.
fn in_order(alloc: Global, names: Vec<Name>) -> Result<NameList, NoMemory>
    ensures { IfOk result (λ list. list ≡ all_put [] names.items) }
{
    let mut list = NameList::new(Vec::new(alloc));
    for name in names {
        list.put(name)?;
    }
    Ok(list)
}

// Reads a range of a file.
fn read_file<V: View>(
    alloc: Global,
    view: &V,
    place: &Place,
    at: u64,
    count: u32,
) -> Result<Read, CallFault>
    requires there { HasBlock (V.seen view.now) place.now.inode }
    requires dinode { (h : Holding) → IsShown (V.seen view.now) place.now.inode h → place.now.dinode ≡ dinode_in h }
    ensures read { (h : Holding) → IsShown (V.seen view.now) place.now.inode h → IfOk result (IsRangeOf (V.seen view.now) h at count) }
    ensures asked { IfOk result (IsAskedRange (V.seen view.now) place.now.inode at count) }
    ensures spaceless { IfOk result IsSpaceless }
    ensures damaged { IfDamaged result (IsWrongAt (V.seen view.now) place.now.inode) }
    ensures kept { IfDamaged result (IsOfView (V.seen view.now)) }
{
    if place.dinode.is_directory() {
        return Ok(Read::Reply(Reply::IsDir));
    }
    match read_range(alloc, view, place.inode, at, count)? {
        Step::Is(bytes) => Ok(Read::Reply(Reply::Bytes(Content::new(bytes)))),
        Step::NeedBlock(missing) => Ok(Read::NeedBlock(missing)),
    }
}

// The rule that a linear directory breaks whose dinode counts fewer records than `.` and `..`: one of these is missing in it, or it has more
// records than are counted.
fn rule_of_few<V: View>(view: &V, dir: u64) -> Result<u16, CallFault>
    requires there { HasBlock (V.seen view.now) dir }
    requires plain { IsLinearIn (V.seen view.now) dir }
    requires linear { (h : Holding) → IsShown (V.seen view.now) dir h → IsLinearDirectory h }
    requires few { (h : Holding) → IsShown (V.seen view.now) dir h → (dinode_in h).entries < 2 }
    ensures rule { IfOk result (λ rule. IsWrongAt (V.seen view.now) dir rule dir) }
    ensures damaged { IfDamaged result (IsWrongAt (V.seen view.now) dir) }
    ensures kept { IfDamaged result (IsOfView (V.seen view.now)) }
{
    let Step::Is(dot) = linear_dirs::look(view, dir, b".".as_slice())? else {
        unreachable!()
    };
    if dot.is_none() {
        return Ok(10);
    }
    let Step::Is(dots) = linear_dirs::look(view, dir, b"..".as_slice())? else {
        unreachable!()
    };
    if dots.is_none() {
        return Ok(10);
    }
    Ok(12)
}

// What is wrong with a hashed directory whose dinode counts fewer records than `.` and `..`: its leaves have others than are counted, or one of the two
// is missing in them; or a block that is needed to tell.
fn few_in_leaves<V: View>(alloc: Global, view: &V, dir: u64) -> Result<Read, CallFault>
    requires there { HasBlock (V.seen view.now) dir }
    requires hashed { (h : Holding) → IsShown (V.seen view.now) dir h → is_hashed_in h ≡ true }
    requires few { (h : Holding) → IsShown (V.seen view.now) dir h → (dinode_in h).entries < 2 }
    ensures read { (h : Holding) → IsShown (V.seen view.now) dir h → IfOk result (IsStatOf h) }
    ensures asked { IfOk result (IsAskedCount (V.seen view.now) dir) }
    ensures spaceless { IfOk result IsSpaceless }
    ensures damaged { IfDamaged result (IsWrongAt (V.seen view.now) dir) }
    ensures kept { IfDamaged result (IsOfView (V.seen view.now)) }
{
    match counted_leaves(alloc, view, dir)? {
        Step::Is(_leaves) => Err(CallFault::Damaged {
            block: dir,
            rule: 10,
        }),
        Step::NeedBlock(missing) => Ok(Read::NeedBlock(missing)),
    }
}

// A file's size, or how many names a directory has: `.` and `..` are counted in its dinode too.
fn stat<V: View>(alloc: Global, view: &V, place: &Place) -> Result<Read, CallFault>
    requires there { HasBlock (V.seen view.now) place.now.inode }
    requires dinode { (h : Holding) → IsShown (V.seen view.now) place.now.inode h → place.now.dinode ≡ dinode_in h }
    ensures read { (h : Holding) → IsShown (V.seen view.now) place.now.inode h → IfOk result (IsStatOf h) }
    ensures asked { IfOk result (IsAskedCount (V.seen view.now) place.now.inode) }
    ensures spaceless { IfOk result IsSpaceless }
    ensures damaged { IfDamaged result (IsWrongAt (V.seen view.now) place.now.inode) }
    ensures kept { IfDamaged result (IsOfView (V.seen view.now)) }
{
    if !place.dinode.is_directory() {
        return Ok(Read::Reply(Reply::Stat(Kind::File, place.dinode.size)));
    }
    if let Some(count) = place.dinode.entries.checked_sub(2) {
        return Ok(Read::Reply(Reply::Stat(Kind::Dir, u64::from(count))));
    }
    if place.dinode.flags / 2 % 2 == 1 {
        return few_in_leaves(alloc, view, place.inode);
    }
    let rule = rule_of_few(view, place.inode)?;
    Err(CallFault::Damaged {
        block: place.inode,
        rule,
    })
}

// Lists the names of a directory.
fn list<V: View>(alloc: Global, view: &V, place: &Place) -> Result<Read, CallFault>
    requires there { HasBlock (V.seen view.now) place.now.inode }
    requires dinode { (h : Holding) → IsShown (V.seen view.now) place.now.inode h → place.now.dinode ≡ dinode_in h }
    ensures read { (h : Holding) → dirs.IsShown (V.seen view.now) place.now.inode h → IfOk result (IsListOf h) }
    ensures asked { IfOk result (IsAskedRecords (V.seen view.now) place.now.inode) }
    ensures spaceless { IfOk result IsSpaceless }
    ensures damaged { IfDamaged result (IsWrongAt (V.seen view.now) place.now.inode) }
    ensures kept { IfDamaged result (IsOfView (V.seen view.now)) }
{
    if !place.dinode.is_directory() {
        return Ok(Read::Reply(Reply::NotDir));
    }
    match names(alloc, view, place.inode)? {
        Step::Is(names) => Ok(Read::Reply(Reply::Names(in_order(alloc, names)?))),
        Step::NeedBlock(missing) => Ok(Read::NeedBlock(missing)),
    }
}

/// The answer of a call that reads, of the inode at its path's end.
pub(crate) fn answer_at<V: View>(
    alloc: Global,
    view: &V,
    call: &Call,
    place: &Place,
) -> Result<Read, CallFault>
    requires reading { IsReading call.now }
    requires there { HasBlock (V.seen view.now) place.now.inode }
    requires dinode { (h : Holding) → IsShown (V.seen view.now) place.now.inode h → place.now.dinode ≡ dinode_in h }
    ensures read { (h : Holding) → IsShownFor (V.seen view.now) place.now.inode call.now h → IfOk result (IsAnswerOf (V.seen view.now) h call.now) }
    ensures asked { IfOk result (IsAsked (V.seen view.now) place.now.inode call.now) }
    ensures spaceless { IfOk result IsSpaceless }
    ensures damaged { IfDamaged result (IsWrongAt (V.seen view.now) place.now.inode) }
    ensures kept { IfDamaged result (IsOfView (V.seen view.now)) }
{
    match call {
        Call::Read(_, at, count) | Call::Dread(_, at, count) => {
            read_file(alloc, view, place, *at, *count)
        }
        Call::Stat(_) => stat(alloc, view, place),
        Call::List(_) => list(alloc, view, place),
        _ => unreachable!(),
    }
}
