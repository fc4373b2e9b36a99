// The stages of one lock, from a change to its release.
use demotion::{Stage, Under, stage_needed};
use glock_names::State;

#[test]
fn the_stages_come_one_by_one(rt: HostRuntime) {
    // touched, flushed, live, away, in flight: what the node has, and the stage
    for (touched, flushed, live, away, in_flight, needed) in [
        (5, 4, false, false, false, Stage::Flush),
        (5, 5, true, true, false, Stage::Home),
        (6, 5, true, true, false, Stage::Flush),
        (6, 6, true, true, true, Stage::Home),
        (6, 6, true, false, true, Stage::Barrier),
        (6, 6, true, false, false, Stage::Revoke),
        (6, 6, false, true, false, Stage::Release),
        (6, 6, false, false, false, Stage::Release),
    ] {
        let under = Under {
            touched,
            flushed,
            live,
            away,
            in_flight,
        };
        assert!(rt;
            stage_needed(State::Ex, &under) == needed,
            "{touched} {flushed} {live} {away} {in_flight}"
        );
        assert!(rt; stage_needed(State::Df, &under) == Stage::Release);
    }
}
