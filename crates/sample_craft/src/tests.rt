use super::*;

// A sample's number, and then its level, CP, durability, progress, quality and base values.
const SAMPLES: [(u32, [u32; 7]); 13] = [
    (0, [20, 106, 35, 107, 490, 75, 62]),
    (1, [25, 87, 35, 128, 374, 50, 73]),
    (2, [29, 106, 40, 150, 373, 75, 85]),
    (7, [23, 88, 35, 262, 250, 43, 69]),
    (42, [36, 144, 40, 235, 422, 67, 73]),
    (123, [20, 97, 35, 223, 405, 44, 71]),
    (1000, [39, 142, 35, 193, 582, 48, 76]),
    (31337, [39, 116, 30, 278, 493, 65, 84]),
    (65535, [34, 103, 35, 248, 539, 61, 76]),
    (123456, [47, 83, 20, 206, 371, 65, 106]),
    (500000, [25, 108, 30, 128, 449, 66, 91]),
    (999998, [21, 147, 30, 107, 526, 57, 98]),
    (999999, [26, 129, 35, 128, 525, 41, 99]),
];

#[test]
fn draws_each_number(rt: HostRuntime) {
    for (n, wanted) in SAMPLES {
        assert!(rt; n <= 999999);
        let g = settings_of(n);
        let drawn = [
            g.level,
            g.cp,
            g.durability,
            g.progress,
            g.quality,
            g.base_progress,
            g.base_quality,
        ];
        assert_eq!(rt; drawn, wanted, "{n}");
        assert_eq!(rt;
            (g.initial, g.target, g.backload),
            (0, g.quality, false),
            "{n}"
        );
        assert_eq!(rt; g.forbidden, 33554432, "{n}");
    }
}
