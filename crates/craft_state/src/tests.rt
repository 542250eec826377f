use super::*;

const NONE: Effects = Effects {
    iq: 0,
    waste: 0,
    innovation: 0,
    veneration: 0,
    strides: 0,
    muscle: 0,
    manipulation: 0,
    combo: Combo::NoCombo,
    perfection: Perfection::Ready,
    first: false,
};

const MOST: Effects = Effects {
    iq: 10,
    waste: 8,
    innovation: 4,
    veneration: 4,
    strides: 3,
    muscle: 5,
    manipulation: 8,
    combo: Combo::Standard,
    perfection: Perfection::Spent,
    first: true,
};

// Each field alone, none and all: 4 bits, 4, 3, 3, 2, 3, 4, 2, 2 and 1, from the lowest.
#[test]
fn packs(rt: HostRuntime) {
    let rows = [
        (NONE, 0x0),
        (Effects { iq: 10, ..NONE }, 0xa),
        (Effects { waste: 8, ..NONE }, 0x80),
        (
            Effects {
                innovation: 4,
                ..NONE
            },
            0x400,
        ),
        (
            Effects {
                veneration: 4,
                ..NONE
            },
            0x2000,
        ),
        (Effects { strides: 3, ..NONE }, 0xc000),
        (Effects { muscle: 5, ..NONE }, 0x50000),
        (
            Effects {
                manipulation: 8,
                ..NONE
            },
            0x400000,
        ),
        (
            Effects {
                combo: Combo::Basic,
                ..NONE
            },
            0x800000,
        ),
        (
            Effects {
                combo: Combo::Standard,
                ..NONE
            },
            0x1000000,
        ),
        (
            Effects {
                perfection: Perfection::On,
                ..NONE
            },
            0x2000000,
        ),
        (
            Effects {
                perfection: Perfection::Spent,
                ..NONE
            },
            0x4000000,
        ),
        (
            Effects {
                first: true,
                ..NONE
            },
            0x8000000,
        ),
        (MOST, 0xd45e48a),
    ];
    for (effects, number) in &rows {
        assert_eq!(rt; effects.pack(), *number);
    }
}
