// Counts that come to more than 512, and texts that go on after their last line.
use super::damage::{Damage, Wanted};
use reader::fault::Layer;

pub const TABLE: &[Damage] = &[
    // the second of several contents lines; what follows is not looked at
    Damage {
        wanted: Wanted {
            number: 6,
            layer: Layer::Contents,
            line: 3,
            place: 16,
        },
        before: "blocks 3|b0 512|",
        lines: "b1 1;b1 512",
        after: "|b7 x|",
    },
    // the last of them
    Damage {
        wanted: Wanted {
            number: 6,
            layer: Layer::Contents,
            line: 4,
            place: 23,
        },
        before: "blocks 3|b0 256|b1 255|",
        lines: "b2 2;b2 512",
        after: "|end r0|",
    },
    Damage {
        wanted: Wanted {
            number: 6,
            layer: Layer::Contents,
            line: 4,
            place: 21,
        },
        before: "blocks 3|b0 1|b1 511|",
        lines: "b2 1",
        after: "|",
    },
    // the last of as many as there can be
    Damage {
        wanted: Wanted {
            number: 6,
            layer: Layer::Contents,
            line: 65,
            place: 378,
        },
        before: "blocks 64|^",
        lines: "b63 9;b63 512",
        after: "|$~end r0|",
    },
    // the form and the range of a contents line go before the sum
    Damage {
        wanted: Wanted {
            number: 4,
            layer: Layer::Word,
            line: 3,
            place: 16,
        },
        before: "blocks 2|b0 512|",
        lines: "b0 1;b1 01;b1 1 1",
        after: "|end r0|",
    },
    Damage {
        wanted: Wanted {
            number: 5,
            layer: Layer::Word,
            line: 3,
            place: 16,
        },
        before: "blocks 2|b0 512|",
        lines: "b1 513",
        after: "|end r0|",
    },
    // text after the last line
    Damage {
        wanted: Wanted {
            number: 7,
            layer: Layer::Contents,
            line: 4,
            place: 21,
        },
        before: "blocks 1|b0 0|end r0|",
        lines: "|; ;x;\0;\r;%;end r0;end r0|;put r0|end r0|;blocks 1|b0 0|end r0|;~",
        after: "",
    },
    Damage {
        wanted: Wanted {
            number: 7,
            layer: Layer::Contents,
            line: 8,
            place: 48,
        },
        before: "blocks 2|b0 1|b1 1|set r0 1|go b1|put r0|end r0|",
        lines: "|;end r0|;b2 0|",
        after: "",
    },
];
