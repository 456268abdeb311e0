// An error as the system's words for it, without the number that std puts behind them.
use crate::say;
use std::io::{Error, Stderr, Write};

// Where the words end: before that number, or at the text's end.
fn words(text: &[u8]) -> &[u8] {
    for i in 0..text.len() {
        let rest = &text[i..];
        if rest.starts_with(b" (os error ") || text[i] == 0 {
            return &text[..i];
        }
    }
    text
}

// A line: what failed, a colon and the error's words.
pub(crate) fn tell(stderr: Stderr, what: &[u8], error: Error) {
    let mut text = [0u8; 320];
    let mut room: &mut [u8] = &mut text;
    let _ = write!(room, "{error}");
    say::file(stderr, what, words(&text));
}
