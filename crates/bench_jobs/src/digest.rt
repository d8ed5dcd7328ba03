//! A number that stands for all that was put to it, in order.

use pg_wire::Values;

/// What was put, mixed. Eight bytes are mixed at a time, so that a digest costs little beside the work.
#[derive(Drop)]
pub struct Digest {
    state: u64,
}

impl Digest {
    /// Nothing was put.
    pub fn new() -> Digest {
        Digest {
            state: 0xCBF2_9CE4_8422_2325,
        }
    }

    /// Puts a number.
    pub fn put(&mut self, number: u64) {
        self.state = (self.state.rotate_left(29) ^ number).wrapping_mul(0x9E37_79B9_7F4A_7C15);
    }

    /// Puts bytes, and how many they are. Where there are eight, the last eight are put with the count, so that none is looked at alone.
    pub fn put_bytes(&mut self, bytes: &[u8]) {
        let (words, rest) = bytes.as_chunks::<8>();
        for word in words {
            self.put(u64::from_le_bytes(*word));
        }
        let mut last = bytes.len() as u64;
        match bytes.last_chunk::<8>() {
            Some(word) => last = last.wrapping_add(u64::from_le_bytes(*word)),
            None => {
                for byte in rest {
                    last = (last << 8) | u64::from(*byte);
                }
            }
        }
        self.put(last);
    }

    /// Puts a value, which may be null.
    pub fn put_value(&mut self, value: Option<&[u8]>) {
        match value {
            Some(bytes) => self.put_bytes(bytes),
            None => self.put(u64::MAX),
        }
    }

    /// Puts the values of rows.
    pub fn put_rows(&mut self, rows: &[Values]) {
        for row in rows {
            for value in row.iter() {
                self.put_value(value);
            }
        }
    }

    /// All that was put.
    pub fn finish(&self) -> u64 {
        self.state ^ (self.state >> 32)
    }
}
