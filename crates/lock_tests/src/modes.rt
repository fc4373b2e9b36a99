// The 36 pairs of modes, as the tables of the DLM's documents have them: a row for each mode that is held, a column for each
// that is asked for, in the order Nl, Cr, Cw, Pr, Pw, Ex.
use dlm_modes::{Mode, compatible, covers};

static MODES: [Mode; 6] = [Mode::Nl, Mode::Cr, Mode::Cw, Mode::Pr, Mode::Pw, Mode::Ex];

static TOGETHER: [[u8; 6]; 6] = [
    [1, 1, 1, 1, 1, 1],
    [1, 1, 1, 1, 1, 0],
    [1, 1, 1, 0, 0, 0],
    [1, 1, 0, 1, 0, 0],
    [1, 1, 0, 0, 0, 0],
    [1, 0, 0, 0, 0, 0],
];

// Whether the row's mode is the column's or above it.
static COVERS: [[u8; 6]; 6] = [
    [1, 0, 0, 0, 0, 0],
    [1, 1, 0, 0, 0, 0],
    [1, 1, 1, 0, 0, 0],
    [1, 1, 0, 1, 0, 0],
    [1, 1, 1, 1, 1, 0],
    [1, 1, 1, 1, 1, 1],
];

#[test]
fn all_pairs_of_modes(rt: HostRuntime) {
    for i in 0..6usize {
        for k in 0..6usize {
            assert!(rt; compatible(MODES[i], MODES[k]) == (TOGETHER[i][k] == 1));
            assert!(rt; covers(MODES[i], MODES[k]) == (COVERS[i][k] == 1));
        }
    }
}
