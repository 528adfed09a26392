// The sum of the bytes that a reading has brought, by which a second reading of them is held to the first; knows no queue.
#![tactic(auto)]

ghost use Rattle.std.specs.Prelude.{◌≤◌};

#[derive(Clone, Copy, PartialEq, Eq)]
pub struct Sum {
    // how many bytes
    pub count: u64,
    // the last sixteen of them, as two words
    pub low: u64,
    pub high: u64,
    // of the whole blocks of sixteen: turned after each, so that their order counts, and what these came to, so that one which is moved by
    // a whole turn counts too
    pub turned: u64,
    pub total: u64,
}

// How many bytes stand before the next whole block, of so many.
fn before_block(count: u64, n: usize) -> usize
    ensures { result ≤ n }
{
    n.min(((16 - count % 16) % 16) as usize)
}

impl Sum {
    pub fn start() -> Sum {
        Sum {
            count: 0,
            low: 0,
            high: 0,
            turned: 0,
            total: 0,
        }
    }

    // Sixteen bytes at once, since a sum byte by byte would be seen in the time of a run.
    fn add_block(&mut self, low: u64, high: u64) {
        self.low = low;
        self.high = high;
        self.turned = self
            .turned
            .rotate_left(23)
            .wrapping_add(low)
            .wrapping_add(high.rotate_left(28));
        self.total = self.total.wrapping_add(self.turned);
    }

    fn add_byte(&mut self, byte: u8) {
        self.count = self.count.wrapping_add(1);
        let low = (self.low >> 8) | (self.high << 56);
        let high = (self.high >> 8) | (u64::from(byte) << 56);
        if self.count % 16 == 0 {
            self.add_block(low, high);
        } else {
            self.low = low;
            self.high = high;
        }
    }

    fn add_each(&mut self, bytes: &[u8]) {
        for b in bytes {
            self.add_byte(*b);
        }
    }

    pub fn add(&mut self, bytes: &[u8]) {
        let (before, rest) = bytes.split_at(before_block(self.count, bytes.len()));
        let (blocks, after) = rest.as_chunks::<16>();
        self.add_each(before);
        for block in blocks {
            let (words, _) = block.as_chunks::<8>();
            self.count = self.count.wrapping_add(16);
            self.add_block(u64::from_le_bytes(words[0]), u64::from_le_bytes(words[1]));
        }
        self.add_each(after);
    }
}
