// The system's words for the number of an error.
use crate::room::{ROOM, Room};
use std::fmt::Write;
use std::io::Error;

fn text_of(number: i32) -> Room {
    let e = Error::from_raw_os_error(number);
    let mut t = Room::new();
    let _ = write!(t, ": {e}");
    t
}

// Where the last bracket opens, before which stands a space: the number stands in it. 0: there is none.
fn end_of(bytes: &[u8]) -> usize {
    let mut end = 0;
    for i in 1..bytes.len() {
        if bytes[i] == b'(' {
            end = i - 1;
        }
    }
    end
}

// A colon, the words, and the end of the line; answers how long it is.
pub fn told(out: &mut [u8; ROOM], number: i32) -> usize {
    let t = text_of(number);
    let mut n = end_of(&t.bytes);
    *out = t.bytes;
    if n < ROOM {
        out[n] = b'\n';
        n += 1;
    }
    n
}
