// Headers that are no `blocks N` with N from 1 to 64.
use super::damage::{Damage, Wanted};
use reader::fault::Layer;

pub const TABLE: &[Damage] = &[
    // other words, too few and too many
    Damage {
        wanted: Wanted {
            number: 4,
            layer: Layer::Word,
            line: 1,
            place: 0,
        },
        before: "",
        lines: ";blocks;block 1;blocks1;Blocks 1;BLOCKS 1;1;1 blocks;b0 0;end r0;blocks 1 1;blocks 65 1",
        after: "|b0 0|end r0|",
    },
    // spaces, tabs and other bytes that do not belong there
    Damage {
        wanted: Wanted {
            number: 4,
            layer: Layer::Word,
            line: 1,
            place: 0,
        },
        before: "",
        lines: " ; blocks 1;blocks 1 ;blocks  1;blocks ;blocks\t1;\tblocks 1;blocks 1\r;blocks 1\0;\0blocks 1;\u{feff}blocks 1;blocks \u{b9};blocks %;blocks\u{a0}1",
        after: "|b0 0|end r0|",
    },
    // words that are no number
    Damage {
        wanted: Wanted {
            number: 4,
            layer: Layer::Word,
            line: 1,
            place: 0,
        },
        before: "",
        lines: "blocks 01;blocks 00;blocks 065;blocks -1;blocks -0;blocks +1;blocks --1;blocks -;blocks N;blocks 1.0;blocks 0x1;blocks 1e1;blocks b1;blocks 0*;blocks -*",
        after: "|b0 0|end r0|",
    },
    // numbers on both sides of the range
    Damage {
        wanted: Wanted {
            number: 5,
            layer: Layer::Word,
            line: 1,
            place: 0,
        },
        before: "",
        lines: "blocks 0;blocks 65;blocks 99;blocks 256;blocks 4294967297;blocks 10000000001;blocks 18446744073709551617;blocks *",
        after: "|b0 0|end r0|",
    },
    // a block more than there can be
    Damage {
        wanted: Wanted {
            number: 5,
            layer: Layer::Word,
            line: 1,
            place: 0,
        },
        before: "",
        lines: "blocks 65",
        after: "|^b63 0|b64 0|",
    },
];
