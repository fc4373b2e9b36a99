// Laws of the stages.
ghost use Rattle.std.specs.Prelude.{◌≡◌, ◌≤◌, ◌<◌, true, suc};
ghost use Rattle.glock_names.specs.declared.State.{State};
ghost use Rattle.demotion.specs.declared.stages.Stage.{Stage};
ghost use Rattle.demotion.specs.declared.stages.Stage.TheVariants.{Flush, Release};
ghost use Rattle.demotion.specs.declared.stages.Under.{Under};
ghost use Rattle.demotion.specs.Stages.{stage_of, rank, is_unflushed, IsPast, AreDoneBefore, MayGo};

/// A law: the last stage has come only where the lock may go.
pub fn release_is_safe()
    ensures { (held : State) (u : Under) → stage_of held u ≡ Release → MayGo held u }
{}

/// A law: past a stage, what it does is done. Past the flush nothing under the lock is unflushed, past the way home no live
/// block is away, past the barrier none is on its way, past the revokes none is live.
pub fn past_stages_are_done()
    ensures { (past : Stage) (u : Under) → rank past < rank (stage_of State.Ex u) → IsPast past u }
{}

/// A law: where the stages before one are done, it or a later one has come. So a demotion that was cut in a stage is taken up
/// again in that stage, and none that was done before is done again.
pub fn cut_stages_are_taken_up()
    ensures { (stage : Stage) (u : Under) → AreDoneBefore stage u → rank stage ≤ rank (stage_of State.Ex u) }
{}

/// A law: where a stage's work is done too, a later one has come. So there are four works at most before the release, where
/// nothing else changes what is under the lock.
pub fn stages_come_in_order()
    ensures { (stage : Stage) (u : Under) → AreDoneBefore stage u → IsPast stage u → rank stage < rank (stage_of State.Ex u) }
{}

/// A law: a change that isn't flushed comes first, whichever stage the demotion had come to.
pub fn unflushed_comes_first()
    ensures { (u : Under) → is_unflushed u ≡ true → stage_of State.Ex u ≡ Flush }
{}
