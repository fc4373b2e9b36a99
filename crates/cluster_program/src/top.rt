ghost use Rattle.std.specs.Prelude.{◌≡◌, ◌≢◌, ◌≤◌, ℕ, List, [], IfOk, Option, map, string_bytes};
ghost use Rattle.shared_disk.specs.Disk.{IsIdle};
ghost use Rattle.shared_disk.specs.Disk.{ReadsOnly};
ghost use Rattle.script_lang.specs.Grammar.{nothing};
ghost use Rattle.gfs2_layout.specs.Device.{IsBlockSize};
ghost use Rattle.run_reports.specs.Outputs.{outputs};
ghost use Rattle.cluster_program.specs.World.{inputs};
ghost use Rattle.cluster_program.specs.Course.{AsksToReplay, AsksToRun, Course, Shows};
ghost use Rattle.run_reports.specs.Report.{IsSinkFault};
ghost use Rattle.cluster_program.specs.Command.{Ends, FaultHasCause, IsComplete};
ghost use Rattle.run_reports.specs.OneNode.{IsOfOneNode};
ghost use Rattle.cluster_program.specs.Dirty.{IsDirtyCount};
ghost use Rattle.cluster_program.specs.Runs.{own_of};

use crate::image::make_image;
use crate::replay::replay_script;
use crate::run::mount_and_run;
use crate::script::read_script;
use crate::show::show_image;
use crate::words::{Task, read_task};
use run_reports::{Listing, Status, report, runs_are_of_one_node};
use script_lang::Script;
use shared_disk::SharedDisk;
use std::alloc::Global;
use std::sync::Wait;
use std::thread::Threads;
use stream_io::{Gate, Sink, Source};
use trace_text::TraceItem;

/// How a command ended, and the disk that it was given.
#[derive(Drop)]
pub struct Ended<D> {
    pub status: Status,
    pub disk: D,
}

// A command that was carried out: what it lists, the script that it ran, without anything in it where it ran none, the lines that it
// shows, its end, and how many journals it left not clean, where all was done.
#[derive(Drop)]
struct Carried {
    listing: Listing,
    script: Script,
    lines: Vec<u8>,
    own: Status,
    dirty: u64,
}

fn no_script(alloc: Global) -> Script
    ensures { result ≡ nothing }
{
    Script {
        nodes: 0,
        clients: Vec::new(alloc),
        armed: Vec::new(alloc),
        lines: Vec::new(alloc),
    }
}

// The end of a command that ran no script, and shows nothing.
fn without_script(alloc: Global, own: Status) -> Carried
    ensures listing { result.listing ≡ Listing.Clients }
    ensures script { result.script ≡ nothing }
    ensures lines { result.lines.items ≡ [] }
    ensures own { result.own ≡ own }
{
    Carried {
        listing: Listing::Clients,
        script: no_script(alloc),
        lines: Vec::new(alloc),
        own,
        dirty: 0,
    }
}

// The end of one that ran this script, with so many journals that it left not clean, or so.
fn carried_run(alloc: Global, listing: Listing, script: Script, run: Result<u64, Status>) -> Carried
    ensures listing { result.listing ≡ listing }
    ensures script { result.script ≡ script }
    ensures lines { result.lines.items ≡ [] }
    ensures own { result.own ≡ own_of run }
    ensures dirty { IfOk run (λ dirty. result.dirty ≡ dirty) }
{
    let (own, dirty) = match run {
        Ok(dirty) => (Status::Done, dirty),
        Err(own) => (own, 0),
    };
    Carried {
        listing,
        script,
        lines: Vec::new(alloc),
        own,
        dirty,
    }
}

// Shows what is on the image.
fn show<D: SharedDisk>(alloc: Global, disk: &mut D) -> Carried
    requires size { IsBlockSize (D.state disk.old).size }
    requires idle { IsIdle (D.state disk.old) }
    ensures listing { result.listing ≡ Listing.Clients }
    ensures script { result.script ≡ nothing }
    ensures shows { Shows (D.state disk.old) (D.faults disk.old) (D.faults disk.new) result.lines.items result.own }
    ensures reads { ReadsOnly (D.state disk.old) (D.state disk.new) (D.list disk.old) (D.list disk.new) (D.faults disk.old) (D.faults disk.new) }
    ensures own { IsSinkFault result.own → ⊥ }
{
    match show_image(alloc, disk) {
        Ok(lines) => Carried {
            listing: Listing::Clients,
            script: no_script(alloc),
            lines,
            own: Status::Done,
            dirty: 0,
        },
        Err(own) => without_script(alloc, own),
    }
}

// Reads a script and runs it, with this time of its changes, in seconds. The items go behind `items`, which is empty.
fn read_and_run<D: SharedDisk, S: Source>(
    alloc: Global,
    disk: &mut D,
    source: &mut S,
    time: u64,
    items: &mut Vec<TraceItem>,
) -> Carried
    requires size { IsBlockSize (D.state disk.old).size }
    requires idle { IsIdle (D.state disk.old) }
    requires none { items.old.items ≡ [] }
    ensures course { (words : List (List ℕ)) → (asks : AsksToRun (D.state disk.old).size words) → time ≡ asks.run.time → Course words
        (inputs (D.state disk.old) (D.list disk.old) (D.faults disk.old) (S.left source.old) (S.faults source.old))
        (inputs (D.state disk.new) (D.list disk.new) (D.faults disk.new) (S.left source.new) (S.faults source.new))
        result.listing result.script items.new.items result.lines.items result.own }
    ensures own { IsSinkFault result.own → ⊥ }
    ensures one { IsOfOneNode result.script items.new.items }
    ensures counted { result.own ≡ Status.Done → items.new.items ≢ [] → IsDirtyCount (D.state disk.old) (D.state disk.new) result.script items.new.items result.dirty }
    ensures later { ((j : ℕ) → D.faults disk.old j ≤ D.faults disk.new j) × (S.faults source.old ≤ S.faults source.new) }
{
    runs_are_of_one_node();
    let script = match read_script(alloc, source) {
        Ok(script) => script,
        Err(own) => return without_script(alloc, own),
    };
    let run = mount_and_run(alloc, disk, &script, time, items);
    carried_run(alloc, Listing::Clients, script, run)
}

// Replays the journals of the image. The items go behind `items`, which is empty.
fn replay<D: SharedDisk>(alloc: Global, disk: &mut D, items: &mut Vec<TraceItem>) -> Carried
    requires size { IsBlockSize (D.state disk.old).size }
    requires idle { IsIdle (D.state disk.old) }
    requires none { items.old.items ≡ [] }
    ensures course { (words : List (List ℕ)) (left : Option (List ℕ)) (failed : ℕ) → AsksToReplay (D.state disk.old).size words → Course words
        (inputs (D.state disk.old) (D.list disk.old) (D.faults disk.old) left failed) (inputs (D.state disk.new) (D.list disk.new) (D.faults disk.new) left failed)
        result.listing result.script items.new.items result.lines.items result.own }
    ensures own { IsSinkFault result.own → ⊥ }
    ensures one { IsOfOneNode result.script items.new.items }
    ensures counted { result.own ≡ Status.Done → items.new.items ≢ [] → IsDirtyCount (D.state disk.old) (D.state disk.new) result.script items.new.items result.dirty }
    ensures later { (j : ℕ) → D.faults disk.old j ≤ D.faults disk.new j }
{
    runs_are_of_one_node();
    let script = match replay_script(alloc) {
        Ok(script) => script,
        Err(_) => return without_script(alloc, Status::NoMemory),
    };
    let run = mount_and_run(alloc, disk, &script, 0, items);
    carried_run(alloc, Listing::Journals, script, run)
}

// Carries a command out. The items go behind `items`, which is empty.
fn carry_out<D: SharedDisk, S: Source>(
    alloc: Global,
    words: &[String],
    disk: &mut D,
    source: &mut S,
    items: &mut Vec<TraceItem>,
) -> Carried
    requires size { IsBlockSize (D.state disk.old).size }
    requires idle { IsIdle (D.state disk.old) }
    requires none { items.old.items ≡ [] }
    ensures course { Course (map string_bytes words.now)
        (inputs (D.state disk.old) (D.list disk.old) (D.faults disk.old) (S.left source.old) (S.faults source.old))
        (inputs (D.state disk.new) (D.list disk.new) (D.faults disk.new) (S.left source.new) (S.faults source.new))
        result.listing result.script items.new.items result.lines.items result.own }
    ensures own { IsSinkFault result.own → ⊥ }
    ensures one { IsOfOneNode result.script items.new.items }
    ensures counted { result.own ≡ Status.Done → items.new.items ≢ [] → IsDirtyCount (D.state disk.old) (D.state disk.new) result.script items.new.items result.dirty }
    ensures later { ((j : ℕ) → D.faults disk.old j ≤ D.faults disk.new j) × (S.faults source.old ≤ S.faults source.new) }
{
    runs_are_of_one_node();
    match read_task(words, disk.block_size()) {
        Ok(Task::Make(words)) => {
            let own = make_image(alloc, disk, &words);
            without_script(alloc, own)
        }
        Ok(Task::Show) => show(alloc, disk),
        Ok(Task::Replay) => replay(alloc, disk, items),
        Ok(Task::Run { time }) => read_and_run(alloc, disk, source, time, items),
        Err(own) => without_script(alloc, own),
    }
}

/// Carries out the command that these words are, on this disk, and writes its trace and its output. Today four commands are
/// built. `mkfs` makes an image: it reads each block, and writes those that are not yet as they are to be. `show` mounts the
/// image, tells its journals and the tree for which it stands with what they say in place, and writes nothing; it costs a read of each block of the system
/// files, of each place of a journal that isn't clean, and then of each block of the device, and memory for these, its tree and its lines. `replay` mounts the image,
/// and puts home what its journals say; it costs what mounting costs, a read of each place of a journal that isn't clean and a write of each block that goes home.
/// `run` reads a script from `script`, does what `replay` does, runs the script on the image with a log in memory, crashes included, and tells each client's replies; it costs what a replay
/// costs, memory for the script, the items, the log and the blocks that its calls need, a read of each of these, two writes of each block that a flush takes, one of them home, with the barriers of the flushes,
/// and a pass over the items for each client; where the node stopped a read of each place of its journal, and then of each journal. It waits for nobody.
pub fn gfs2run_alone<D: SharedDisk, S: Source, O: Sink, T: Sink>(
    alloc: Global,
    words: &[String],
    disk: D,
    script: &mut S,
    out: &mut O,
    trace: &mut T,
) -> Ended<D>
    requires size { IsBlockSize (D.state disk).size }
    requires idle { IsIdle (D.state disk) }
    ensures ends { Ends (map string_bytes words.now)
        (inputs (D.state disk) (D.list disk) (D.faults disk) (S.left script.old) (S.faults script.old))
        (inputs (D.state result.disk) (D.list result.disk) (D.faults result.disk) (S.left script.new) (S.faults script.new))
        (outputs (T.contents trace.old) (T.faults trace.old) (O.contents out.old) (O.faults out.old))
        (outputs (T.contents trace.new) (T.faults trace.new) (O.contents out.new) (O.faults out.new))
        result.status }
    ensures fault { FaultHasCause
        (inputs (D.state disk) (D.list disk) (D.faults disk) (S.left script.old) (S.faults script.old))
        (inputs (D.state result.disk) (D.list result.disk) (D.faults result.disk) (S.left script.new) (S.faults script.new))
        (outputs (T.contents trace.old) (T.faults trace.old) (O.contents out.old) (O.faults out.old))
        (outputs (T.contents trace.new) (T.faults trace.new) (O.contents out.new) (O.faults out.new))
        result.status }
    ensures complete { IsComplete (map string_bytes words.now)
        (inputs (D.state disk) (D.list disk) (D.faults disk) (S.left script.old) (S.faults script.old))
        (inputs (D.state result.disk) (D.list result.disk) (D.faults result.disk) (S.left script.new) (S.faults script.new))
        (outputs (T.contents trace.old) (T.faults trace.old) (O.contents out.old) (O.faults out.old))
        (outputs (T.contents trace.new) (T.faults trace.new) (O.contents out.new) (O.faults out.new))
        result.status }
{
    let mut disk = disk;
    let mut items = Vec::new(alloc);
    let Carried {
        listing,
        script,
        lines,
        own,
        dirty,
    } = carry_out(alloc, words, &mut disk, script, &mut items);
    let status = report(
        alloc, trace, out, listing, &script, &items, lines, own, dirty,
    );
    Ended { status, disk }
}

/// The same for every command, on threads where it has several workers. Today no command has: each is carried out
/// as `gfs2run_alone` does it, and nobody waits at the gate.
pub fn gfs2run<
    R: Threads + Wait + Sync,
    D: SharedDisk + Send,
    S: Source,
    O: Sink,
    T: Sink,
    G: Gate + Sync,
>(
    _rt: &R,
    alloc: Global,
    words: &[String],
    disk: D,
    script: &mut S,
    out: &mut O,
    trace: &mut T,
    _gate: &G,
) -> Ended<D>
    requires size { IsBlockSize (D.state disk).size }
    requires idle { IsIdle (D.state disk) }
    ensures ends { Ends (map string_bytes words.now)
        (inputs (D.state disk) (D.list disk) (D.faults disk) (S.left script.old) (S.faults script.old))
        (inputs (D.state result.disk) (D.list result.disk) (D.faults result.disk) (S.left script.new) (S.faults script.new))
        (outputs (T.contents trace.old) (T.faults trace.old) (O.contents out.old) (O.faults out.old))
        (outputs (T.contents trace.new) (T.faults trace.new) (O.contents out.new) (O.faults out.new))
        result.status }
    ensures fault { FaultHasCause
        (inputs (D.state disk) (D.list disk) (D.faults disk) (S.left script.old) (S.faults script.old))
        (inputs (D.state result.disk) (D.list result.disk) (D.faults result.disk) (S.left script.new) (S.faults script.new))
        (outputs (T.contents trace.old) (T.faults trace.old) (O.contents out.old) (O.faults out.old))
        (outputs (T.contents trace.new) (T.faults trace.new) (O.contents out.new) (O.faults out.new))
        result.status }
    ensures complete { IsComplete (map string_bytes words.now)
        (inputs (D.state disk) (D.list disk) (D.faults disk) (S.left script.old) (S.faults script.old))
        (inputs (D.state result.disk) (D.list result.disk) (D.faults result.disk) (S.left script.new) (S.faults script.new))
        (outputs (T.contents trace.old) (T.faults trace.old) (O.contents out.old) (O.faults out.old))
        (outputs (T.contents trace.new) (T.faults trace.new) (O.contents out.new) (O.faults out.new))
        result.status }
{
    gfs2run_alone(alloc, words, disk, script, out, trace)
}
