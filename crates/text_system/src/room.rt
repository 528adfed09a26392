// Text that is put together, as far as there is room.
use std::fmt;
use std::fmt::Write;

// The system's words for an error, and the paths of its own files, are far below this.
pub const ROOM: usize = 256;

#[derive(Drop)]
pub struct Room {
    pub bytes: [u8; ROOM],
    length: usize,
}

impl Room {
    pub fn new() -> Room {
        Room {
            bytes: [0; ROOM],
            length: 0,
        }
    }

    fn put(&mut self, b: u8) {
        if self.length < ROOM {
            self.bytes[self.length] = b;
            self.length += 1;
        }
    }

    pub fn as_bytes(&self) -> &[u8] {
        if self.length <= ROOM {
            return &self.bytes[..self.length];
        }
        &self.bytes
    }
}

impl Write for Room {
    fn write_str(&mut self, s: &str) -> fmt::Result {
        for b in s.as_bytes() {
            self.put(*b);
        }
        Ok(())
    }
}
