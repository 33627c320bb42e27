use seeded_draw::{Draws, pick, stream, word_at};
use std::test::Fail;

/// The first words that PCG's reference code gives at the state 42 and the stream 54.
const REFERENCE_WORDS: [u64; 6] = [
    0x86b1da1d72062b68,
    0x1304aa46c9853d39,
    0xa3670e9e0dd50358,
    0xf9090e529a7dae00,
    0xc85b9fd837996f2c,
    0x606121f8e3919196,
];

#[test]
fn a_word_at_each_place(rt: HostRuntime) {
    for (k, word) in REFERENCE_WORDS.iter().enumerate() {
        assert_eq!(rt; word_at(42, 54, k as u64), *word);
    }
}

#[test]
fn words_one_after_another(rt: HostRuntime) {
    let mut draws = Draws::new(42, 54);
    let words = [draws.next(), draws.next(), draws.next()];
    assert_eq!(rt;
        words,
        [0x86b1da1d72062b68, 0x1304aa46c9853d39, 0xa3670e9e0dd50358]
    );
}

#[test]
fn words_from_each_place_on(rt: HostRuntime) {
    for k in 0..5 {
        let mut draws = Draws::after(42, 54, k as u64);
        let words = [draws.next(), draws.next()];
        assert_eq!(rt; words, [REFERENCE_WORDS[k], REFERENCE_WORDS[k + 1]]);
    }
}

#[test]
fn streams_and_picks(rt: HostRuntime) {
    assert_eq!(rt; stream(1, 2, 3), 0x1_0000_0002_0000_0003);
    for (word, below, picked) in [
        (0, 3, 0),
        (1 << 63, 3, 1),
        (u64::MAX, 3, 2),
        (u64::MAX, 1, 0),
    ] {
        assert_eq!(rt; pick(word, below), picked);
    }
}
