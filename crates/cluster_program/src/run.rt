ghost use Rattle.std.specs.Prelude.{◌≡◌, ◌≤◌, ℕ, List, [], IfErr, IfOk, IsTrue, MatchResult, Option, false};
ghost use Rattle.std.specs.List.{AllByRecursion};
ghost use Rattle.kept_profiles.specs.Laws.{IsLineOfScript};
ghost use Rattle.run_rules.specs.History.{NoneStopped};
ghost use Rattle.shared_disk.specs.Disk.{IsIdle, ReadsOnly};
ghost use Rattle.gfs2_layout.specs.Device.{IsBlockSize};
ghost use Rattle.script_lang.specs.OneNode.{IsOneNode};
ghost use Rattle.script_lang.specs.WellFormed.{IsWellFormed};
ghost use Rattle.run_reports.specs.OneNode.{IsOfOneNode};
ghost use Rattle.cluster_program.specs.Dirty.{IsDirtyCount, IsUnreadHead, dirty_on};
ghost use Rattle.cluster_program.specs.Mounting.{ArePlaced};
ghost use Rattle.cluster_program.specs.Runs.{Runs, first_line as first_line_of, own_of};
ghost use Rattle.cluster_program.specs.World.{inputs};

use crate::beginning::{Prepared, prepare};
use crate::dirty::{count_dirty, has_stopped};
use crate::end_status::status_of_end;
use command_words::DEFAULT_FRAMES;
use damage_laws::{
    calls_tell_broken_blocks, needs_out_of_the_device_tell_broken_blocks,
    views_may_be_read_from_mounted_images,
};
use image_model::clean_images_stay;
use image_mount::JournalMap;
use image_recovery::{
    a_replay_leaves_its_image, what_a_replay_leaves_is_of_the_profile, what_a_replay_leaves_mounts,
    what_a_replay_leaves_stands,
};
use kept_profiles::{
    mounted_journals_serve, nothing_is_written, run_alone, runs_are_legal, runs_are_told, runs_end,
    runs_keep_the_profile, runs_meet_no_damage, runs_rest, runs_see_their_damage, runs_stand,
    runs_tell_their_replays,
};
use lone_scripts::{runs_of_one_node_follow, whole_runs_answer_all};
use run_reports::{Status, runs_are_of_one_node};
use script_lang::Script;
use shared_disk::SharedDisk;
use std::alloc::Global;
use trace_text::TraceItem;

// The number in the script's text of the first line that is run: above it stand that of the nodes, the clients', and those of crashes at writes.
fn first_line(script: &Script) -> u32
    requires { IsWellFormed script.now }
    ensures { result ≡ first_line_of script.now }
{
    2 + script.clients.len() as u32 + script.armed.len() as u32
}

// How many journals a run that came to its end left not clean: none, where no node stopped.
fn left_dirty<D: SharedDisk>(
    alloc: Global,
    disk: &mut D,
    journals: &[JournalMap],
    items: &[TraceItem],
) -> Result<u64, Status>
    requires size { IsBlockSize (D.state disk.old).size }
    requires free { (D.state disk.old).is_fenced 0 ≡ false }
    requires placed { ArePlaced (D.state disk.old).count journals.now }
    ensures none { NoneStopped items.now → MatchResult result (λ dirty. dirty ≡ 0) (λ own. ⊥) }
    ensures stopped { (NoneStopped items.now → ⊥) → MatchResult result (λ dirty. IsTrue (D.state disk.old).tells → dirty ≡ dirty_on (D.state disk.old) journals.now)
        (IsUnreadHead journals.now (D.faults disk.old 0) (D.faults disk.new 0)) }
    ensures reads { ReadsOnly (D.state disk.old) (D.state disk.new) (D.list disk.old) (D.list disk.new) (D.faults disk.old) (D.faults disk.new) }
{
    if !has_stopped(items) {
        return Ok(0);
    }
    count_dirty(alloc, disk, journals)
}

/// Mounts the image, replays its journals, and runs a script on it; `time` is that of its changes, in seconds. The items go behind `items`, which is empty. How many journals it left not clean, or why not all was done.
pub(crate) fn mount_and_run<D: SharedDisk>(
    alloc: Global,
    disk: &mut D,
    script: &Script,
    time: u64,
    items: &mut Vec<TraceItem>,
) -> Result<u64, Status>
    requires idle { IsIdle (D.state disk.old) }
    requires size { IsBlockSize (D.state disk.old).size }
    requires form { IsOneNode script.now }
    requires well { IsWellFormed script.now }
    requires small { AllByRecursion IsLineOfScript script.now.lines }
    requires none { items.old.items ≡ [] }
    ensures runs { (left left_now : Option (List ℕ)) (failed failed_now : ℕ) → Runs (inputs (D.state disk.old) (D.list disk.old) (D.faults disk.old) left failed)
        (inputs (D.state disk.new) (D.list disk.new) (D.faults disk.new) left_now failed_now) script.now time items.new.items (own_of result) }
    ensures counted { IfOk result (λ dirty. IsDirtyCount (D.state disk.old) (D.state disk.new) script.now items.new.items dirty) }
    ensures early { IfErr result (λ own. own ≡ Status.Done → ⊥) }
    ensures of_one { IsOfOneNode script.now items.new.items }
    ensures later { (i : ℕ) → D.faults disk.old i ≤ D.faults disk.new i }
{
    runs_stand();
    runs_are_told();
    runs_are_legal();
    runs_end();
    runs_keep_the_profile();
    runs_rest();
    runs_meet_no_damage();
    nothing_is_written();
    runs_tell_their_replays();
    runs_see_their_damage();
    mounted_journals_serve();
    runs_of_one_node_follow();
    whole_runs_answer_all();
    runs_are_of_one_node();
    a_replay_leaves_its_image();
    what_a_replay_leaves_stands();
    what_a_replay_leaves_is_of_the_profile();
    what_a_replay_leaves_mounts();
    clean_images_stay();
    calls_tell_broken_blocks();
    needs_out_of_the_device_tell_broken_blocks();
    views_may_be_read_from_mounted_images();
    let Prepared {
        view,
        journals,
        plans,
    } = match prepare(alloc, disk) {
        Ok(prepared) => prepared,
        Err(own) => return Err(own),
    };
    match run_alone(
        alloc,
        disk,
        view,
        &journals,
        &plans,
        script,
        time,
        DEFAULT_FRAMES,
        items,
    ) {
        Ok(()) => left_dirty(alloc, disk, &journals, items),
        Err(end) => Err(status_of_end(first_line(script), end)),
    }
}
