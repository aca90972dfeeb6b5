// An order: its bytes in memory of a fixed length.

// The longest order has 4,100 bytes.
pub const MOST: usize = 4100;

#[derive(Clone, Copy)]
pub struct Order {
    bytes: [u8; MOST],
    length: usize,
}

// What does not fit in the memory is left out.
impl Order {
    pub fn new() -> Order {
        Order {
            bytes: [0; MOST],
            length: 0,
        }
    }

    pub fn len(&self) -> usize {
        self.length
    }

    pub fn as_slice(&self) -> &[u8] {
        &self.bytes[..self.length.min(MOST)]
    }

    pub fn push(&mut self, byte: u8) {
        if self.length < MOST {
            self.bytes[self.length] = byte;
            self.length += 1;
        }
    }

    pub fn extend(&mut self, bytes: &[u8]) {
        for byte in bytes {
            self.push(*byte);
        }
    }

    // Cut to the length, or zeros up to it.
    pub fn resize(&mut self, length: usize) {
        self.bytes[self.length.min(MOST)..].fill(0);
        self.length = length.min(MOST);
    }
}
