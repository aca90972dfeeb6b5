// A draft: what an order of the table is written from. oracle/orders/draft.rs does the same.
use crate::order::Order;

// The operands of the six settings, floats by their bits.
#[derive(Clone, Copy)]
pub struct Asked {
    pub amplitude: u64,
    pub level: u8,
    pub max_time: u64,
    pub interval: u64,
    pub dx_level: u8,
    pub skip: u8,
}

// Amplitude, level, max time, interval, dx level and skip.
pub type Settings = (u64, u8, u64, u64, u8, u8);

impl From<Settings> for Asked {
    fn from(settings: Settings) -> Asked {
        let (amplitude, level, max_time, interval, dx_level, skip) = settings;
        Asked {
            amplitude,
            level,
            max_time,
            interval,
            dx_level,
            skip,
        }
    }
}

// The settings; the budget of an advance that stands at an even position, and at an odd one.
#[derive(Clone, Copy)]
pub struct Draft {
    pub asked: Asked,
    pub even: u32,
    pub odd: u32,
}

impl Draft {
    // The bytes of these commands, which stand in parts. 1 to 9: that command. A, B, C: the bytes 00, 0A, FF. D: the switch 2.
    // E, F: advances at every place before 4,090, before 4,095.
    pub fn write(&self, commands: &[&[u8]], order: &mut Order) {
        for command in commands.iter().copied().flatten() {
            self.put(*command, order);
        }
    }

    fn put(&self, command: u8, order: &mut Order) {
        let asked = self.asked;
        match command {
            b'1' => float(1, asked.amplitude, order),
            b'2' => order.extend(&[2, asked.level]),
            b'3' => float(3, asked.max_time, order),
            b'4' => float(4, asked.interval, order),
            b'5' => order.extend(&[5, asked.dx_level]),
            b'6' => order.extend(&[6, asked.skip]),
            b'7' => order.push(7),
            b'8' => self.advance(order),
            b'9' => order.push(9),
            b'A' => order.push(0x00),
            b'B' => order.push(0x0A),
            b'C' => order.push(0xFF),
            b'D' => order.extend(&[6, 2]),
            b'E' => self.advances_before(4090, order),
            b'F' => self.advances_before(4095, order),
            _ => {}
        }
    }

    fn advance(&self, order: &mut Order) {
        let budget = if order.len() % 2 == 0 {
            self.even
        } else {
            self.odd
        };
        order.push(8);
        order.extend(&budget.to_le_bytes());
    }

    // An advance has five bytes.
    fn advances_before(&self, end: usize, order: &mut Order) {
        for _ in 0..end.saturating_sub(order.len()).div_ceil(5) {
            self.advance(order);
        }
    }
}

fn float(command: u8, bits: u64, order: &mut Order) {
    order.push(command);
    order.extend(&bits.to_le_bytes());
}
