// Each public call once, with ample memory.
use dlm_holder::Holder;
use dlm_modes::{Mode, ValueBlock, covers};
use glock_names::LockName;

const LOCK: LockName = LockName { kind: 2, number: 9 };

const VALUE: ValueBlock = ValueBlock {
    bytes: [7; 32],
    valid: true,
};

fn asked(holder: &mut Holder, mode: Mode) -> bool {
    holder.wanted(LOCK).is_none() && holder.asked(LOCK, mode).is_ok()
}

fn granted(holder: &mut Holder, mode: Mode) {
    if holder.was_asked(LOCK) {
        holder.granted(LOCK, mode, VALUE);
    }
}

fn down(holder: &mut Holder, mode: Mode) {
    if !holder.was_asked(LOCK) || holder.wanted(LOCK).is_some() {
        return;
    }
    if covers(holder.mode(LOCK), mode) {
        holder.down(LOCK, mode);
    }
}

fn drop_ask(holder: &mut Holder) {
    if holder.was_asked(LOCK) {
        holder.drop_ask(LOCK);
    }
}

#[test]
fn a_lock_is_asked_for_granted_and_lowered(rt: HostRuntime) {
    let mut holder = Holder::new(rt.alloc());
    assert!(rt; !holder.was_asked(LOCK));
    assert!(rt; asked(&mut holder, Mode::Ex));
    assert_eq!(rt; holder.wanted(LOCK), Some(Mode::Ex));
    assert_eq!(rt; holder.mode(LOCK), Mode::Nl);
    assert_eq!(rt; holder.value(LOCK), ValueBlock::new());
    granted(&mut holder, Mode::Ex);
    assert_eq!(rt; holder.wanted(LOCK), None);
    assert_eq!(rt; holder.mode(LOCK), Mode::Ex);
    assert_eq!(rt; holder.value(LOCK), VALUE);
    down(&mut holder, Mode::Pr);
    assert_eq!(rt; holder.mode(LOCK), Mode::Pr);
    assert!(rt; asked(&mut holder, Mode::Ex));
    drop_ask(&mut holder);
    assert_eq!(rt; holder.wanted(LOCK), None);
    assert_eq!(rt; holder.mode(LOCK), Mode::Pr);
    assert_eq!(rt; holder.lock_at(0), Some(LOCK));
    assert_eq!(rt; holder.lock_at(1), None);
}
