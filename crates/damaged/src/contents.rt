// Contents lines that are no `bI C` with the block's own number I and C from 0 to 512.
use super::damage::{Damage, Wanted};
use reader::fault::Layer;

pub const TABLE: &[Damage] = &[
    // another block's number, or none
    Damage {
        wanted: Wanted {
            number: 4,
            layer: Layer::Word,
            line: 2,
            place: 9,
        },
        before: "blocks 1|",
        lines: "b1 0;b00 0;b01 0;b-0 0;b 0;B0 0;0 0;r0 0;b64 0;b4294967296 0;b* 0;b1 513",
        after: "|end r0|",
    },
    // other words, too few and too many
    Damage {
        wanted: Wanted {
            number: 4,
            layer: Layer::Word,
            line: 2,
            place: 9,
        },
        before: "blocks 1|",
        lines: ";b0;b00;0;b0 0 0;b0 513 0;blocks 1;end r0",
        after: "|end r0|",
    },
    // spaces, tabs and other bytes that do not belong there
    Damage {
        wanted: Wanted {
            number: 4,
            layer: Layer::Word,
            line: 2,
            place: 9,
        },
        before: "blocks 1|",
        lines: " b0 0;b0 0 ;b0  0;b0 ;b0\t0;b0 0\r;b0 0\0;b0 \u{b2};\u{a0}b0 0;b0 %",
        after: "|end r0|",
    },
    // words that are no number
    Damage {
        wanted: Wanted {
            number: 4,
            layer: Layer::Word,
            line: 2,
            place: 9,
        },
        before: "blocks 1|",
        lines: "b0 00;b0 01;b0 -1;b0 -0;b0 +1;b0 --1;b0 -;b0 C;b0 r0;b0 0x0;b0 0*;b0 -*",
        after: "|end r0|",
    },
    // counts past the range
    Damage {
        wanted: Wanted {
            number: 5,
            layer: Layer::Word,
            line: 2,
            place: 9,
        },
        before: "blocks 1|",
        lines: "b0 513;b0 1024;b0 65536;b0 4294967296;b0 10000000000;b0 18446744073709551616;b0 *",
        after: "|end r0|",
    },
    // a middle and the last contents line
    Damage {
        wanted: Wanted {
            number: 4,
            layer: Layer::Word,
            line: 3,
            place: 14,
        },
        before: "blocks 3|b0 0|",
        lines: "b0 0;b2 0;b01 0;b1;b1 0 0;b1 -0;",
        after: "|b2 0|end r0|end r0|end r0|",
    },
    Damage {
        wanted: Wanted {
            number: 5,
            layer: Layer::Word,
            line: 3,
            place: 16,
        },
        before: "blocks 3|b0 512|",
        lines: "b1 513;b1 9999",
        after: "|b2 0|end r0|end r0|end r0|",
    },
    Damage {
        wanted: Wanted {
            number: 4,
            layer: Layer::Word,
            line: 4,
            place: 19,
        },
        before: "blocks 3|b0 0|b1 0|",
        lines: "b1 0;b3 0;b2 x;end r0",
        after: "|end r0|end r0|end r0|",
    },
    Damage {
        wanted: Wanted {
            number: 5,
            layer: Layer::Word,
            line: 4,
            place: 19,
        },
        before: "blocks 3|b0 0|b1 0|",
        lines: "b2 513",
        after: "|end r0|end r0|end r0|",
    },
    // the last of as many as there can be
    Damage {
        wanted: Wanted {
            number: 4,
            layer: Layer::Word,
            line: 65,
            place: 378,
        },
        before: "blocks 64|^",
        lines: "b64 8;b62 8;b063 8;go b0",
        after: "|$end r0|",
    },
    Damage {
        wanted: Wanted {
            number: 5,
            layer: Layer::Word,
            line: 65,
            place: 378,
        },
        before: "blocks 64|^",
        lines: "b63 513",
        after: "|$end r0|",
    },
];
