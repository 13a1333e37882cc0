// Every lamp set at its limits, and the limits of metres of the cab signal.
use lamps::{CabSignal, Lamps};
use rules::aspect::LampSet;

// The numbers of the aspects shown for 0, 1, 2, 3, 4 and very many clear sections.
fn shown(set: LampSet) -> [u8; 6] {
    [0, 1, 2, 3, 4, u32::MAX].map(|clear| set.aspect(clear, 500).number())
}

#[test]
fn lamp_sets_go_by_the_count(rt: HostRuntime) {
    assert_eq!(rt; shown(LampSet::Two), [0, 4, 4, 4, 4, 4]);
    assert_eq!(rt; shown(LampSet::Three), [0, 2, 4, 4, 4, 4]);
    assert_eq!(rt; shown(LampSet::Four), [0, 2, 3, 4, 4, 4]);
    assert_eq!(rt; shown(LampSet::Five), [0, 1, 2, 3, 4, 4]);
}

#[test]
fn cab_signal_goes_by_metres(rt: HostRuntime) {
    for (metres, number) in [
        (0, 1),
        (101, 1),
        (102, 2),
        (211, 2),
        (212, 3),
        (451, 3),
        (452, 4),
        (u32::MAX, 4),
    ] {
        assert_eq!(rt; CabSignal.aspect(1, metres).number(), number);
        assert_eq!(rt; CabSignal.aspect(0, metres).number(), 0);
    }
}
