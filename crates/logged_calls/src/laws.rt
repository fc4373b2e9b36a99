//! What a log takes on an image that stands for a tree. The functions do nothing: their contracts are the laws.
ghost use Rattle.logged_calls.specs.Laws.{CallsAreLoggable, CallsHaveRoom};

use logged_answers::{answers_can_be_added, answers_have_room};

/// A law: on an image that stands for a tree each call changes what a log takes.
pub fn calls_are_loggable()
    ensures { CallsAreLoggable }
{
    answers_can_be_added();
}

/// A law: on an image of the profile a log of 512 frames is too small for no call of a script.
pub fn calls_have_room()
    ensures { CallsHaveRoom }
{
    answers_have_room();
}
