// Words, and the numbers that they write.
use number_words::number_word;

// A word, the limits, and the number that it writes within them.
const NUMBERS: [(&[u8], u64, u64, Option<u64>); 14] = [
    (b"0", 0, 9, Some(0)),
    (b"9", 0, 9, Some(9)),
    (b"10", 0, 9, None),
    (b"0", 1, 9, None),
    (b"1", 1, 9, Some(1)),
    (b"5", 9, 1, None),
    (b"07", 0, 9, None),
    (b"00", 0, 9, None),
    (b"", 0, 9, None),
    (b"+1", 0, 9, None),
    (b"-1", 0, 9, None),
    (b"1 ", 0, 9, None),
    (b"18446744073709551615", 0, u64::MAX, Some(u64::MAX)),
    (b"18446744073709551616", 0, u64::MAX, None),
];

#[test]
fn numbers_of_words(rt: HostRuntime) {
    for (word, low, high, want) in NUMBERS {
        assert_eq!(rt;
            number_word(word, low, high),
            want,
            "{word:?} from {low} to {high}"
        );
    }
}
