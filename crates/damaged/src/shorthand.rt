// How texts are written in the tables. These characters stand for others:
//
//     |    a line feed
//     %    the byte 255
//     *    400 nines
//     ~    512 times `put r0|`
//     ^    the contents lines of the blocks 0 to 62, with 8 middle nodes each
//     $    the bodies of these blocks
use std::alloc::{AllocError, Global};

const CONTENTS: &[u8] = b"b0 8\nb1 8\nb2 8\nb3 8\nb4 8\nb5 8\nb6 8\nb7 8\nb8 8\nb9 8\n\
b10 8\nb11 8\nb12 8\nb13 8\nb14 8\nb15 8\nb16 8\nb17 8\nb18 8\nb19 8\n\
b20 8\nb21 8\nb22 8\nb23 8\nb24 8\nb25 8\nb26 8\nb27 8\nb28 8\nb29 8\n\
b30 8\nb31 8\nb32 8\nb33 8\nb34 8\nb35 8\nb36 8\nb37 8\nb38 8\nb39 8\n\
b40 8\nb41 8\nb42 8\nb43 8\nb44 8\nb45 8\nb46 8\nb47 8\nb48 8\nb49 8\n\
b50 8\nb51 8\nb52 8\nb53 8\nb54 8\nb55 8\nb56 8\nb57 8\nb58 8\nb59 8\n\
b60 8\nb61 8\nb62 8\n";

const BODY: &[u8] = b"put r0\nput r0\nput r0\nput r0\nput r0\nput r0\nput r0\nput r0\ngo b63\n";

// A part, so many times, after a text. By a loop: the library's `repeat` makes a vector of its own, which is no plainer.
fn repeat(text: &mut Vec<u8>, part: &[u8], count: usize) -> Result<(), AllocError> {
    for _ in 0..count {
        text.extend_from_slice(part)?;
    }
    Ok(())
}

// Adds what a character stands for.
fn spell(text: &mut Vec<u8>, character: u8) -> Result<(), AllocError> {
    match character {
        b'|' => text.extend_from_slice(b"\n"),
        b'%' => text.extend_from_slice(b"\xff"),
        b'*' => repeat(text, b"9", 400),
        b'~' => repeat(text, b"put r0\n", 512),
        b'^' => text.extend_from_slice(CONTENTS),
        b'$' => repeat(text, BODY, 63),
        _ => text.extend_from_slice(&[character]),
    }
}

// Adds the text that shorthand stands for.
pub fn spell_all(text: &mut Vec<u8>, shorthand: &str) -> Result<(), AllocError> {
    for character in shorthand.bytes() {
        spell(text, character)?;
    }
    Ok(())
}

// The text that shorthand stands for.
pub fn spelt(heap: Global, shorthand: &str) -> Result<Vec<u8>, AllocError> {
    let mut text = Vec::new(heap);
    spell_all(&mut text, shorthand)?;
    Ok(text)
}
