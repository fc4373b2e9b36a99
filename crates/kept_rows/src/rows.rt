// The rows, by their first number.
use block_cache::Cache;
use demotion::{Stage, Under, stage_needed};
use frame_pool::{Frame, Pool};
use glock_machine::Glocks;
use glock_names::{LockName, State, is_below};
use revoke_table::Revokes;
use std::alloc::Global;

/// A row's numbers, 0 where it has none.
pub type Row = [u64; 8];

const FRAMES: u32 = 4096;

#[derive(Drop)]
pub struct Kept {
    revokes: Revokes,
    cache: Cache,
    glocks: Glocks,
    pool: Pool,
    frames: Vec<Option<Frame>>,
}

impl Kept {
    pub fn new(alloc: Global) -> Option<Kept> {
        let pool = Pool::new(alloc, FRAMES, FRAMES).ok()?;
        let mut frames = Vec::new(alloc);
        for _ in 0..=FRAMES {
            frames.push(None).ok()?;
        }
        Some(Kept {
            revokes: Revokes::new(alloc),
            cache: Cache::new(alloc),
            glocks: Glocks::new(alloc),
            pool,
            frames,
        })
    }

    /// Whether the row's calls are answered as it says.
    pub fn play(&mut self, row: &Row) -> bool {
        let [what, a, b, c, ..] = *row;
        match what {
            10 => self.revokes.add(a, b).is_ok(),
            11 => self.revokes.cancels(a, b) == (c == 1),
            20..=23 => self.play_cache(row),
            30 | 38 | 39 | 43 => self.play_glocks(row),
            31..=37 | 41 | 42 => play_glock(&mut self.glocks, row),
            40 => stage_is(row),
            50 => self.take_frame(a, b),
            51..=53 => self.play_frame(what, a, byte_of(b)),
            _ => false,
        }
    }

    fn play_cache(&mut self, row: &Row) -> bool {
        let [what, a, b, c, d, e, f, _] = *row;
        match what {
            20 => {
                let bytes = [byte_of(e); 32];
                let length = (f as usize).min(32);
                self.cache
                    .put(lock_of(a, b), c, d == 1, &bytes[..length])
                    .is_ok()
            }
            21 => match self.cache.get(a) {
                Some(bytes) => bytes.len() as u64 == c && bytes.iter().all(|x| *x == byte_of(b)),
                None => c == 0,
            },
            22 => {
                self.cache.drop_lock(lock_of(a, b), c == 1);
                true
            }
            _ => {
                self.cache.drop_block(a);
                true
            }
        }
    }

    fn play_glocks(&mut self, row: &Row) -> bool {
        let [what, a, b, c, d, e, ..] = *row;
        let lock = lock_of(a, b);
        match what {
            30 => self.glocks.want(lock, state_of(c)).is_ok(),
            38 => goes_next(self.glocks.next_down(), a, b, c),
            43 => goes_next(self.glocks.next_down_after(lock), c, d, e),
            _ => {
                self.glocks.unmount();
                true
            }
        }
    }

    fn take_frame(&mut self, slot: u64, taken: u64) -> bool {
        let Some(place) = self.frames.get_mut(slot as usize) else {
            return false;
        };
        match self.pool.take() {
            Some(frame) => {
                *place = Some(frame);
                taken == 1
            }
            None => taken == 0,
        }
    }

    fn play_frame(&mut self, what: u64, slot: u64, byte: u8) -> bool {
        let Some(place) = self.frames.get_mut(slot as usize) else {
            return false;
        };
        let Some(frame) = place.take() else {
            return false;
        };
        if !self.pool.is_out(&frame) {
            return false;
        }
        if what == 53 {
            self.pool.give(frame);
            return true;
        }
        let mut same = true;
        if what == 51 {
            self.pool.bytes_mut(&frame).fill(byte);
        } else {
            same = self.pool.bytes(&frame).iter().all(|x| *x == byte);
        }
        *place = Some(frame);
        same
    }
}

// Whether the lock that goes down is this one, to this state; none where its kind is 0.
fn goes_next(next: Option<(LockName, State)>, kind: u64, number: u64, to: u64) -> bool {
    match next {
        Some((lock, state)) => lock == lock_of(kind, number) && state == state_of(to),
        None => kind == 0,
    }
}

fn play_glock(glocks: &mut Glocks, row: &Row) -> bool {
    let [what, a, b, c, d, ..] = *row;
    let lock = lock_of(a, b);
    if !glocks.was_wanted(lock) {
        return false;
    }
    match what {
        31 => glocks.pin(lock),
        32 => glocks.unpin(lock),
        33 => return grant(glocks, lock, state_of(c)),
        34 => glocks.callback(lock, state_of(c)),
        35 => return lower(glocks, lock, state_of(c)),
        36 => glocks.touch(lock, c),
        41 => glocks.unwant(lock, state_of(c)),
        42 => return glocks.may_ask(lock, state_of(c)) == (d == 1),
        _ => return is_kept(glocks, lock, row),
    }
    true
}

fn grant(glocks: &mut Glocks, lock: LockName, state: State) -> bool {
    if !glocks.was_wanted(lock) || glocks.state(lock) != State::Un || !is_below(State::Un, state) {
        return false;
    }
    glocks.granted(lock, state);
    true
}

fn lower(glocks: &mut Glocks, lock: LockName, to: State) -> bool {
    if !glocks.was_wanted(lock) || glocks.is_pinned(lock) || !is_below(to, glocks.state(lock)) {
        return false;
    }
    glocks.down(lock, to);
    true
}

// Whether what is kept of the lock is as the row says.
fn is_kept(glocks: &Glocks, lock: LockName, row: &Row) -> bool {
    let [_, _, _, held, pinned, touched, wants, called] = *row;
    let is = |state: State, bit: u64| glocks.is_wanted(lock, state) == (wants & bit != 0);
    glocks.state(lock) == state_of(held)
        && glocks.is_pinned(lock) == (pinned == 1)
        && glocks.last_touch(lock) == touched
        && is(State::Sh, 1)
        && is(State::Df, 2)
        && is(State::Ex, 4)
        && called
            == match glocks.called(lock) {
                None => 0,
                Some(State::Un) => 1,
                Some(State::Sh) => 2,
                Some(State::Df) => 3,
                Some(State::Ex) => 4,
            }
}

fn stage_is(row: &Row) -> bool {
    let [_, held, touched, flushed, live, away, flying, stage] = *row;
    let under = Under {
        touched,
        flushed,
        live: live == 1,
        away: away == 1,
        in_flight: flying == 1,
    };
    stage
        == match stage_needed(state_of(held), &under) {
            Stage::Flush => 0,
            Stage::Home => 1,
            Stage::Barrier => 2,
            Stage::Revoke => 3,
            Stage::Release => 4,
        }
}

fn lock_of(kind: u64, number: u64) -> LockName {
    LockName {
        kind: byte_of(kind),
        number,
    }
}

fn byte_of(number: u64) -> u8 {
    u8::try_from(number).unwrap_or(0)
}

fn state_of(number: u64) -> State {
    match number {
        1 => State::Sh,
        2 => State::Df,
        3 => State::Ex,
        _ => State::Un,
    }
}
