// Last nodes that are none, or whose numbers are out of range.
use super::damage::{Damage, Wanted};
use reader::fault::Layer;

pub const TABLE: &[Damage] = &[
    // other names, and middle nodes, whose numbers may be out of range too
    Damage {
        wanted: Wanted {
            number: 4,
            layer: Layer::Word,
            line: 3,
            place: 14,
        },
        before: "blocks 1|b0 0|",
        lines: ";END r0;End r0;ends r0;en r0;goto b0;r0;put r0;set r0 1;set r16 2147483648;mov r0 r16;put r*;b0 0;blocks 1",
        after: "|",
    },
    // too few words and too many
    Damage {
        wanted: Wanted {
            number: 4,
            layer: Layer::Word,
            line: 3,
            place: 14,
        },
        before: "blocks 1|b0 0|",
        lines: "end;end r0 r0;go;go b0 b0;if;if r0;if r0 b0;if r0 b0 b0 b0",
        after: "|",
    },
    // spaces, tabs and other bytes that do not belong there
    Damage {
        wanted: Wanted {
            number: 4,
            layer: Layer::Word,
            line: 3,
            place: 14,
        },
        before: "blocks 1|b0 0|",
        lines: " end r0;end r0 ;end  r0;end ;end\tr0;end r0\t;end r0\r;end r0\0;\0end r0;end r\u{b9};end\u{a0}r0;end r0%;if r0 b0  b0;go b0\r",
        after: "|",
    },
    // words that are no register and no block
    Damage {
        wanted: Wanted {
            number: 4,
            layer: Layer::Word,
            line: 3,
            place: 14,
        },
        before: "blocks 1|b0 0|",
        lines: "end R0;end r;end 0;end b0;end r00;end r-0;end r-1;end r+1;end r0*;go B0;go b;go 0;go r0;go b00;go b01;go b-0;go b0*;if b0 b0 b0;if r0 r0 b0;if r0 b0 0;if r0 b b0;if r00 b0 b0",
        after: "|",
    },
    // the form goes before the range, in whatever order they stand in the line
    Damage {
        wanted: Wanted {
            number: 4,
            layer: Layer::Word,
            line: 3,
            place: 14,
        },
        before: "blocks 1|b0 0|",
        lines: "end r16 r0;go b1 b1;if r16 b x;if r0 b1 b;if r b1 b1;if r16 b1;if r16 b1 b00;if r* b* b",
        after: "|",
    },
    // registers past the range, and blocks that are not there
    Damage {
        wanted: Wanted {
            number: 5,
            layer: Layer::Word,
            line: 3,
            place: 14,
        },
        before: "blocks 1|b0 0|",
        lines: "end r16;end r256;end r4294967296;end r10000000000;end r99999999999999999999;end r*;go b1;go b64;go b256;go b4294967296;go b10000000000;go b*;if r16 b0 b0;if r0 b1 b0;if r0 b0 b1;if r16 b1 b1;if r* b* b*",
        after: "|",
    },
    // the last nodes of the first, a middle and the last of three blocks
    Damage {
        wanted: Wanted {
            number: 4,
            layer: Layer::Word,
            line: 5,
            place: 24,
        },
        before: "blocks 3|b0 0|b1 0|b2 0|",
        lines: "put r0;go;go b00",
        after: "|go b2|end r0|",
    },
    Damage {
        wanted: Wanted {
            number: 5,
            layer: Layer::Word,
            line: 5,
            place: 24,
        },
        before: "blocks 3|b0 0|b1 0|b2 0|",
        lines: "go b3;end r16",
        after: "|go b2|end r0|",
    },
    Damage {
        wanted: Wanted {
            number: 4,
            layer: Layer::Word,
            line: 6,
            place: 30,
        },
        before: "blocks 3|b0 0|b1 0|b2 0|go b1|",
        lines: "put r0;if r0 b2;end",
        after: "|end r0|",
    },
    Damage {
        wanted: Wanted {
            number: 5,
            layer: Layer::Word,
            line: 6,
            place: 30,
        },
        before: "blocks 3|b0 0|b1 0|b2 0|go b1|",
        lines: "go b3;if r0 b2 b3;if r0 b3 b2;end r16",
        after: "|end r0|",
    },
    Damage {
        wanted: Wanted {
            number: 4,
            layer: Layer::Word,
            line: 7,
            place: 36,
        },
        before: "blocks 3|b0 0|b1 0|b2 0|go b1|go b2|",
        lines: ";put r0;end r0 ",
        after: "|",
    },
    Damage {
        wanted: Wanted {
            number: 5,
            layer: Layer::Word,
            line: 7,
            place: 36,
        },
        before: "blocks 3|b0 0|b1 0|b2 0|go b1|go b2|",
        lines: "end r16;go b3",
        after: "|",
    },
    // after 512 middle nodes
    Damage {
        wanted: Wanted {
            number: 4,
            layer: Layer::Word,
            line: 515,
            place: 3600,
        },
        before: "blocks 1|b0 512|~",
        lines: "put r0;end;end r00;",
        after: "|end r0|",
    },
    Damage {
        wanted: Wanted {
            number: 5,
            layer: Layer::Word,
            line: 515,
            place: 3600,
        },
        before: "blocks 1|b0 512|~",
        lines: "end r16;go b1",
        after: "|",
    },
];
