// Middle nodes that are none, or whose numbers are out of range.
use super::damage::{Damage, Wanted};
use reader::fault::Layer;

pub const TABLE: &[Damage] = &[
    // other names, and last nodes, whose numbers may be out of range too
    Damage {
        wanted: Wanted {
            number: 4,
            layer: Layer::Word,
            line: 3,
            place: 14,
        },
        before: "blocks 1|b0 1|",
        lines: ";nop;SET r0 1;Set r0 1;sett r0 1;se r0 1;r0;1;go b0;if r0 b0 b0;end r0;go b1;end r16;if r16 b1 b1;end r*",
        after: "|end r0|",
    },
    // too few words and too many
    Damage {
        wanted: Wanted {
            number: 4,
            layer: Layer::Word,
            line: 3,
            place: 14,
        },
        before: "blocks 1|b0 1|",
        lines: "set;set r0;set r0 1 2;mov r0;mov r0 r1 r2;add r0 r1;add r0 r1 r2 r3;lt r0;get;get r0;get r0 0 0;put;put r0 r1;put r0 end r0",
        after: "|end r0|",
    },
    // spaces, tabs and other bytes that do not belong there
    Damage {
        wanted: Wanted {
            number: 4,
            layer: Layer::Word,
            line: 3,
            place: 14,
        },
        before: "blocks 1|b0 1|",
        lines: " set r0 1;set r0 1 ;set  r0 1;set r0  1;set r0 ;set\tr0 1;set r0\t1;set r0 1\r;set r0 1\0;set\0r0 1;set r0 \u{b2};set r\u{b9} 1;%set r0 1;set r0,1;set r0 1%",
        after: "|end r0|",
    },
    // words that are no register and no slot
    Damage {
        wanted: Wanted {
            number: 4,
            layer: Layer::Word,
            line: 3,
            place: 14,
        },
        before: "blocks 1|b0 1|",
        lines: "set R0 1;set r 1;set 0 1;set b0 1;set r00 1;set r01 1;set r016 1;set r-1 1;set r+1 1;set rr0 1;mov r0 1;mov r0 r;add r0 r1 1;add r0 r1 b1;get r0 r1;get r0 -1;get r0 -0;get r0 00;get r0 015;get r0 0*;put 0;put b0;put r0*",
        after: "|end r0|",
    },
    // words that are no number
    Damage {
        wanted: Wanted {
            number: 4,
            layer: Layer::Word,
            line: 3,
            place: 14,
        },
        before: "blocks 1|b0 1|",
        lines: "set r0 01;set r0 00;set r0 -0;set r0 -00;set r0 -01;set r0 +1;set r0 --1;set r0 -;set r0 1-;set r0 r1;set r0 k;set r0 1.5;set r0 1e3;set r0 0x1;set r0 02147483648;set r0 0*;set r0 -0*;set r0 *-",
        after: "|end r0|",
    },
    // the form goes before the range, in whatever order they stand in the line
    Damage {
        wanted: Wanted {
            number: 4,
            layer: Layer::Word,
            line: 3,
            place: 14,
        },
        before: "blocks 1|b0 1|",
        lines: "set r16 x;set x 2147483648;set r16 -0;set r16;set r16 1 1;set r* -;mov r16 r00;mov r r16;add r16 r16 r16 r16;add r0 r16 r;get r16 -1;get r 16;put r16 r16",
        after: "|end r0|",
    },
    // registers and slots past the range
    Damage {
        wanted: Wanted {
            number: 5,
            layer: Layer::Word,
            line: 3,
            place: 14,
        },
        before: "blocks 1|b0 1|",
        lines: "set r16 1;mov r16 r0;mov r0 r16;add r16 r0 r0;add r0 r16 r0;add r0 r0 r16;sub r0 r0 r99;mul r0 r256 r0;div r0 r0 r4294967296;rem r17 r18 r19;lt r0 r10000000000 r20;eq r100 r0 r0;get r16 0;get r0 16;get r0 256;get r0 4294967296;get r0 10000000000;get r0 *;put r16;put r18446744073709551616;put r*",
        after: "|end r0|",
    },
    // numbers past the range on either side
    Damage {
        wanted: Wanted {
            number: 5,
            layer: Layer::Word,
            line: 3,
            place: 14,
        },
        before: "blocks 1|b0 1|",
        lines: "set r0 2147483648;set r0 -2147483649;set r0 4294967295;set r0 4294967296;set r0 -4294967296;set r0 9999999999;set r0 10000000000;set r0 -10000000000;set r0 18446744073709551616;set r0 *;set r0 -*;set r16 2147483648",
        after: "|end r0|",
    },
    // the second of three middle nodes, and the last
    Damage {
        wanted: Wanted {
            number: 4,
            layer: Layer::Word,
            line: 5,
            place: 28,
        },
        before: "blocks 2|b0 2|b1 1|set r0 1|",
        lines: "go b1;put;put r00;",
        after: "|go b1|put r0|end r0|",
    },
    Damage {
        wanted: Wanted {
            number: 5,
            layer: Layer::Word,
            line: 5,
            place: 28,
        },
        before: "blocks 2|b0 2|b1 1|set r0 1|",
        lines: "put r16;set r0 2147483648",
        after: "|go b1|put r0|end r0|",
    },
    Damage {
        wanted: Wanted {
            number: 4,
            layer: Layer::Word,
            line: 7,
            place: 41,
        },
        before: "blocks 2|b0 2|b1 1|set r0 1|put r0|go b1|",
        lines: "end r0;put;put r00;",
        after: "|end r0|",
    },
    Damage {
        wanted: Wanted {
            number: 5,
            layer: Layer::Word,
            line: 7,
            place: 41,
        },
        before: "blocks 2|b0 2|b1 1|set r0 1|put r0|go b1|",
        lines: "put r16;get r0 16",
        after: "|end r0|",
    },
];
