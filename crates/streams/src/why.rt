// The system's words for an error, without the number that std writes behind them.
use std::fmt;
use std::fmt::Write;
use std::io::Error;

// No message of the C library's is longer, with the number behind it.
const ROOM: usize = 128;

#[derive(Clone, Copy)]
pub struct Words {
    bytes: [u8; ROOM],
    length: usize,
}

impl Words {
    // Those before the number.
    pub fn said(&self) -> &[u8] {
        let bytes = &self.bytes[..];
        let behind = b" (os error ";
        for at in 0..ROOM {
            if at == self.length || bytes[at..].starts_with(behind) {
                return &bytes[..at];
            }
        }
        bytes
    }
}

impl fmt::Write for Words {
    fn write_str(&mut self, s: &str) -> fmt::Result {
        for b in s.as_bytes() {
            if self.length < ROOM {
                self.bytes[self.length] = *b;
                self.length += 1;
            }
        }
        Ok(())
    }
}

pub fn said_of(error: Error) -> Words {
    let mut words = Words {
        bytes: [0; ROOM],
        length: 0,
    };
    let _ = write!(words, "{error}");
    words
}
