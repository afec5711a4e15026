// Lines that do not end with a line feed, whatever else is wrong with them.
use super::damage::{Damage, Wanted};
use reader::fault::Layer;

pub const TABLE: &[Damage] = &[
    // the header
    Damage {
        wanted: Wanted {
            number: 3,
            layer: Layer::Line,
            line: 1,
            place: 0,
        },
        before: "",
        lines: ";b;blocks;blocks 1;blocks 1\r;blocks 65;blocks *;\0;%;\r",
        after: "",
    },
    // the first, a middle and the last contents line
    Damage {
        wanted: Wanted {
            number: 3,
            layer: Layer::Line,
            line: 2,
            place: 9,
        },
        before: "blocks 3|",
        lines: ";b0 0;b1 0;b0 513;end r0",
        after: "",
    },
    Damage {
        wanted: Wanted {
            number: 3,
            layer: Layer::Line,
            line: 3,
            place: 16,
        },
        before: "blocks 3|b0 512|",
        lines: ";b1 0;b1 1;b1 513",
        after: "",
    },
    Damage {
        wanted: Wanted {
            number: 3,
            layer: Layer::Line,
            line: 4,
            place: 19,
        },
        before: "blocks 3|b0 0|b1 0|",
        lines: ";b2 0;b2 0\r",
        after: "",
    },
    // the first, a middle and the last middle node of a block
    Damage {
        wanted: Wanted {
            number: 3,
            layer: Layer::Line,
            line: 3,
            place: 14,
        },
        before: "blocks 1|b0 3|",
        lines: ";put r0;put r16;put;end r0",
        after: "",
    },
    Damage {
        wanted: Wanted {
            number: 3,
            layer: Layer::Line,
            line: 4,
            place: 21,
        },
        before: "blocks 1|b0 3|put r0|",
        lines: ";set r0 1;set r0 2147483648",
        after: "",
    },
    Damage {
        wanted: Wanted {
            number: 3,
            layer: Layer::Line,
            line: 5,
            place: 30,
        },
        before: "blocks 1|b0 3|put r0|set r0 1|",
        lines: ";get r0 0",
        after: "",
    },
    // the last nodes of the first, a middle and the last block
    Damage {
        wanted: Wanted {
            number: 3,
            layer: Layer::Line,
            line: 5,
            place: 24,
        },
        before: "blocks 3|b0 0|b1 0|b2 0|",
        lines: ";go b1;go b3;put r0",
        after: "",
    },
    Damage {
        wanted: Wanted {
            number: 3,
            layer: Layer::Line,
            line: 6,
            place: 30,
        },
        before: "blocks 3|b0 0|b1 0|b2 0|go b1|",
        lines: ";if r0 b1 b2;if r0 b1",
        after: "",
    },
    Damage {
        wanted: Wanted {
            number: 3,
            layer: Layer::Line,
            line: 7,
            place: 42,
        },
        before: "blocks 3|b0 0|b1 0|b2 0|go b1|if r0 b1 b2|",
        lines: ";end r0;end r16;end r00;end r0\r",
        after: "",
    },
];
