// Tables of calls, worked out from the rules of glocks.
use glock_machine::Glocks;
use glock_names::{LockName, State, is_below};
use std::test::Fail;

#[test]
fn callbacks_wait_for_pins(rt: HostRuntime) -> Result<(), Fail> {
    let mut glocks = Glocks::new(rt.alloc());
    let inode = LockName { kind: 2, number: 9 };
    let group = LockName { kind: 3, number: 1 };
    for lock in [group, inode] {
        assert!(rt; glocks.want(lock, State::Ex).is_ok());
        assert!(rt; glocks.was_wanted(lock));
        assert!(rt; glocks.state(lock) == State::Un);
        glocks.granted(lock, State::Ex);
    }
    assert!(rt; glocks.was_wanted(inode));
    glocks.pin(inode);
    assert!(rt; glocks.is_pinned(inode) && glocks.next_down().is_none());
    assert!(rt; glocks.was_wanted(inode));
    glocks.callback(inode, State::Sh);
    assert!(rt; glocks.called(inode) == Some(State::Sh) && glocks.called(group).is_none());
    assert!(rt; glocks.was_wanted(group));
    glocks.callback(group, State::Un);
    assert!(rt; glocks.next_down() == Some((group, State::Un)));
    assert!(rt; glocks.was_wanted(inode));
    glocks.unpin(inode);
    assert!(rt; glocks.next_down() == Some((inode, State::Sh)));
    assert!(rt; glocks.next_down_after(inode) == Some((group, State::Un)));
    assert!(rt; glocks.next_down_after(group).is_none());
    for (number, last) in [(7, 7), (5, 7)] {
        assert!(rt; glocks.was_wanted(inode));
        glocks.touch(inode, number);
        assert!(rt; glocks.last_touch(inode) == last && glocks.state(inode) == State::Ex);
    }
    glocks.unmount();
    assert!(rt; glocks.next_down() == Some((inode, State::Un)));
    Ok(())
}

#[test]
fn wants_of_two_calls_stand(rt: HostRuntime) -> Result<(), Fail> {
    let mut glocks = Glocks::new(rt.alloc());
    let file = LockName { kind: 2, number: 9 };
    assert!(rt; glocks.want(file, State::Ex).is_ok() && glocks.want(file, State::Df).is_ok());
    assert!(rt; glocks.may_ask(file, State::Df) && !glocks.may_ask(file, State::Un));
    assert!(rt; glocks.was_wanted(file));
    assert!(rt; glocks.state(file) == State::Un);
    glocks.granted(file, State::Df);
    assert!(rt; glocks.is_wanted(file, State::Ex) && !glocks.is_wanted(file, State::Df));
    assert!(rt; glocks.next_down() == Some((file, State::Un)));
    assert!(rt; glocks.was_wanted(file));
    assert!(rt; !glocks.is_pinned(file));
    assert!(rt; is_below(State::Un, glocks.state(file)));
    glocks.down(file, State::Un);
    // nobody called, so it went down only for a stronger state
    assert!(rt; glocks.may_ask(file, State::Ex) && !glocks.may_ask(file, State::Df));
    assert!(rt; glocks.was_wanted(file));
    glocks.unwant(file, State::Ex);
    assert!(rt; !glocks.is_wanted(file, State::Ex) && glocks.next_down().is_none());
    Ok(())
}
