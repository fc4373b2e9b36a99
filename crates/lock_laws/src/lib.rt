//! One lock of the lock manager, and its law.
#![tactic(auto)]

ghost use Rattle.lock_laws.specs.Lock.{StepKeeps, StartsSound, ExAlone, NothingHeld};
ghost use Rattle.lock_laws.specs.Mail.{MailIsOfView};

/// A law: every event keeps the invariant of the lock, and so the held states go together.
pub fn a_step_keeps()
    ensures { StepKeeps }
{}

/// A law: the invariant holds at the start.
pub fn a_start_is_sound()
    ensures { StartsSound }
{}

/// A law: where one node holds the lock exclusive, no other holds it.
pub fn exclusive_is_alone()
    ensures { ExAlone }
{}

/// A law: while a slot waits since the start, no node holds the lock and no grant is under way.
pub fn nothing_is_held()
    ensures { NothingHeld }
{}

/// A law: messages of older views are dropped, so the machine's queues are what the present view has, and a new view begins with none.
pub fn mail_is_of_its_view()
    ensures { MailIsOfView }
{}
