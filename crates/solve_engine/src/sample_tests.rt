// The sample crafts from 0 on.
use crate::Status;
use crate::tests::prints;
use std::test::Fail;

// A number, and what is printed for it.
const SAMPLES: [(&str, &str); 51] = [
    (
        "0",
        "sample 0 level 20 cp 106 durability 35 progress 107 quality 490 base 75 62
steps 5 seconds 14 quality 240/490 kept 28
",
    ),
    (
        "1",
        "sample 1 level 25 cp 87 durability 35 progress 128 quality 374 base 50 73
steps 6 seconds 16 quality 246/374 kept 86
",
    ),
    (
        "2",
        "sample 2 level 29 cp 106 durability 40 progress 150 quality 373 base 75 85
steps 6 seconds 16 quality 373/373 kept 157
",
    ),
    (
        "3",
        "sample 3 level 35 cp 87 durability 20 progress 171 quality 371 base 51 85
steps 5 seconds 14 quality 85/371 kept 96
",
    ),
    (
        "4",
        "sample 4 level 39 cp 106 durability 25 progress 193 quality 369 base 67 96
steps 6 seconds 15 quality 300/369 kept 228
",
    ),
    (
        "5",
        "sample 5 level 44 cp 88 durability 25 progress 219 quality 368 base 51 108
steps 6 seconds 17 quality 135/368 kept 176
",
    ),
    (
        "6",
        "sample 6 level 49 cp 106 durability 30 progress 241 quality 366 base 68 119
steps 6 seconds 15 quality 366/366 kept 157
",
    ),
    (
        "7",
        "sample 7 level 23 cp 88 durability 35 progress 262 quality 250 base 43 69
steps 7 seconds 19 quality 0/250 kept 404
",
    ),
    (
        "8",
        "sample 8 level 27 cp 106 durability 40 progress 284 quality 248 base 68 69
steps 7 seconds 18 quality 215/248 kept 411
",
    ),
    (
        "9",
        "sample 9 level 32 cp 88 durability 40 progress 104 quality 247 base 44 81
steps 5 seconds 13 quality 247/247 kept 82
",
    ),
    (
        "10",
        "sample 10 level 37 cp 107 durability 20 progress 126 quality 245 base 60 92
steps 5 seconds 14 quality 218/245 kept 87
",
    ),
    (
        "11",
        "sample 11 level 42 cp 88 durability 25 progress 147 quality 243 base 44 103
steps 5 seconds 13 quality 243/243 kept 32
",
    ),
    (
        "12",
        "sample 12 level 46 cp 107 durability 30 progress 174 quality 241 base 61 104
steps 5 seconds 13 quality 241/241 kept 58
",
    ),
    (
        "13",
        "sample 13 level 21 cp 88 durability 30 progress 195 quality 240 base 77 115
steps 5 seconds 13 quality 240/240 kept 60
",
    ),
    (
        "14",
        "sample 14 level 25 cp 107 durability 35 progress 217 quality 525 base 61 65
steps 6 seconds 16 quality 162/525 kept 98
",
    ),
    (
        "15",
        "sample 15 level 30 cp 89 durability 40 progress 238 quality 523 base 78 77
steps 6 seconds 16 quality 192/523 kept 649
",
    ),
    (
        "16",
        "sample 16 level 35 cp 107 durability 40 progress 260 quality 522 base 62 88
steps 7 seconds 18 quality 275/522 kept 930
",
    ),
    (
        "17",
        "sample 17 level 40 cp 89 durability 20 progress 281 quality 520 base 78 88
steps 5 seconds 13 quality 0/520 kept 309
",
    ),
    (
        "18",
        "sample 18 level 44 cp 141 durability 25 progress 102 quality 518 base 54 100
steps 7 seconds 19 quality 518/518 kept 1108
",
    ),
    (
        "19",
        "sample 19 level 50 cp 89 durability 30 progress 123 quality 516 base 79 111
steps 5 seconds 13 quality 394/516 kept 69
",
    ),
    (
        "20",
        "sample 20 level 23 cp 142 durability 30 progress 150 quality 401 base 54 61
steps 7 seconds 19 quality 235/401 kept 711
",
    ),
    (
        "21",
        "sample 21 level 28 cp 89 durability 35 progress 171 quality 399 base 71 73
steps 6 seconds 16 quality 259/399 kept 119
",
    ),
    (
        "22",
        "sample 22 level 32 cp 142 durability 40 progress 193 quality 397 base 55 73
steps 8 seconds 22 quality 397/397 kept 1122
",
    ),
    (
        "23",
        "sample 23 level 38 cp 89 durability 20 progress 214 quality 396 base 72 84
steps 5 seconds 14 quality 105/396 kept 87
",
    ),
    (
        "24",
        "sample 24 level 42 cp 142 durability 20 progress 236 quality 394 base 47 96
steps 7 seconds 18 quality 240/394 kept 291
",
    ),
    (
        "25",
        "sample 25 level 47 cp 90 durability 25 progress 257 quality 392 base 72 107
steps 5 seconds 13 quality 267/392 kept 27
",
    ),
    (
        "26",
        "sample 26 level 21 cp 142 durability 30 progress 279 quality 276 base 48 107
steps 8 seconds 21 quality 267/276 kept 280
",
    ),
    (
        "27",
        "sample 27 level 26 cp 90 durability 35 progress 104 quality 275 base 64 119
steps 4 seconds 11 quality 275/275 kept 36
",
    ),
    (
        "28",
        "sample 28 level 30 cp 142 durability 35 progress 126 quality 273 base 48 69
steps 6 seconds 16 quality 273/273 kept 71
",
    ),
    (
        "29",
        "sample 29 level 36 cp 90 durability 40 progress 147 quality 271 base 65 80
steps 5 seconds 14 quality 271/271 kept 55
",
    ),
    (
        "30",
        "sample 30 level 40 cp 143 durability 20 progress 169 quality 270 base 40 92
steps 7 seconds 18 quality 230/270 kept 463
",
    ),
    (
        "31",
        "sample 31 level 45 cp 90 durability 25 progress 190 quality 268 base 65 92
steps 5 seconds 13 quality 230/268 kept 31
",
    ),
    (
        "32",
        "sample 32 level 49 cp 143 durability 25 progress 211 quality 266 base 41 103
steps 7 seconds 18 quality 257/266 kept 793
",
    ),
    (
        "33",
        "sample 33 level 24 cp 90 durability 30 progress 233 quality 551 base 57 115
steps 4 seconds 11 quality 0/551 kept 8
",
    ),
    (
        "34",
        "sample 34 level 28 cp 143 durability 35 progress 259 quality 550 base 41 65
steps 9 seconds 24 quality 162/550 kept 2446
",
    ),
    (
        "35",
        "sample 35 level 33 cp 91 durability 35 progress 281 quality 548 base 58 76
steps 6 seconds 16 quality 190/548 kept 53
",
    ),
    (
        "36",
        "sample 36 level 38 cp 143 durability 40 progress 101 quality 546 base 74 77
steps 7 seconds 18 quality 546/546 kept 136
",
    ),
    (
        "37",
        "sample 37 level 42 cp 91 durability 20 progress 123 quality 545 base 58 88
steps 4 seconds 11 quality 110/545 kept 33
",
    ),
    (
        "38",
        "sample 38 level 47 cp 144 durability 25 progress 144 quality 543 base 75 99
steps 7 seconds 19 quality 543/543 kept 172
",
    ),
    (
        "39",
        "sample 39 level 21 cp 91 durability 25 progress 166 quality 427 base 50 111
steps 6 seconds 17 quality 138/427 kept 138
",
    ),
    (
        "40",
        "sample 40 level 26 cp 144 durability 30 progress 187 quality 425 base 75 61
steps 8 seconds 21 quality 277/425 kept 1876
",
    ),
    (
        "41",
        "sample 41 level 30 cp 91 durability 35 progress 214 quality 424 base 51 61
steps 6 seconds 16 quality 152/424 kept 53
",
    ),
    (
        "42",
        "sample 42 level 36 cp 144 durability 40 progress 235 quality 422 base 67 73
steps 8 seconds 22 quality 422/422 kept 691
",
    ),
    (
        "43",
        "sample 43 level 40 cp 126 durability 40 progress 257 quality 420 base 51 84
steps 7 seconds 18 quality 262/420 kept 557
",
    ),
    (
        "44",
        "sample 44 level 45 cp 144 durability 20 progress 278 quality 419 base 68 95
steps 7 seconds 18 quality 237/419 kept 650
",
    ),
    (
        "45",
        "sample 45 level 49 cp 126 durability 25 progress 300 quality 303 base 52 95
steps 8 seconds 21 quality 190/303 kept 968
",
    ),
    (
        "46",
        "sample 46 level 24 cp 144 durability 30 progress 120 quality 301 base 68 107
steps 6 seconds 16 quality 301/301 kept 358
",
    ),
    (
        "47",
        "sample 47 level 28 cp 126 durability 30 progress 142 quality 299 base 44 118
steps 7 seconds 19 quality 295/299 kept 2226
",
    ),
    (
        "48",
        "sample 48 level 33 cp 145 durability 35 progress 168 quality 298 base 69 68
steps 7 seconds 18 quality 298/298 kept 3051
",
    ),
    (
        "49",
        "sample 49 level 38 cp 126 durability 40 progress 190 quality 296 base 44 80
steps 8 seconds 22 quality 285/296 kept 3258
",
    ),
    (
        "50",
        "sample 50 level 43 cp 145 durability 20 progress 211 quality 294 base 61 80
steps 7 seconds 18 quality 285/294 kept 333
",
    ),
];

#[test]
fn sample_crafts(rt: HostRuntime) -> Result<(), Fail> {
    for (number, text) in SAMPLES {
        let words = ["sample", number];
        prints(&rt, &words, b"", (Status::Solved, text, ""))?;
    }
    Ok(())
}
