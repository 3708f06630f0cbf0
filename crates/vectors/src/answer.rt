// An answer: eighty bytes, of which the first `len` are filled. What does not fit is left out. Numbers go low byte first.
#[derive(Clone, Copy)]
pub struct Answer {
    pub bytes: [u8; 80],
    pub len: usize,
}

impl Answer {
    pub fn new() -> Answer {
        Answer {
            bytes: [0u8; 80],
            len: 0,
        }
    }

    pub fn byte(self, b: u8) -> Answer {
        let at = self.len;
        let mut bytes = self.bytes;
        if at < 80 {
            bytes[at] = b;
            Answer { bytes, len: at + 1 }
        } else {
            self
        }
    }

    // The low byte of a number.
    pub fn low(self, x: u64) -> Answer {
        self.byte((x % 256) as u8)
    }

    pub fn flag(self, b: bool) -> Answer {
        if b { self.byte(1) } else { self.byte(0) }
    }

    pub fn put_u16(self, x: u16) -> Answer {
        self.byte((x % 256) as u8).byte((x / 256) as u8)
    }

    pub fn put_u32(self, x: u32) -> Answer {
        self.put_u16((x % 65536) as u16).put_u16((x / 65536) as u16)
    }

    pub fn put_u64(self, x: u64) -> Answer {
        self.put_u32((x % 4294967296) as u32)
            .put_u32((x / 4294967296) as u32)
    }

    pub fn bytes(self, s: &[u8]) -> Answer {
        let mut a = self;
        for b in s {
            a = a.byte(*b);
        }
        a
    }
}

// A frame behind its length.
pub fn framed(frame: &[u8]) -> Answer {
    Answer::new().low(frame.len() as u64).bytes(frame)
}
