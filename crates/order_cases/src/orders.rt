// The orders by number, as in oracle/orders/table.rs.
use crate::carry::Memories;
use crate::digest::with;
use crate::draft::{Asked, Draft};
use crate::lent;
use crate::order::Order;
use crate::table::{F0_5, F1, F20, Row, TWO, WRITTEN};
use std::io;

const GOOD: Draft = Draft {
    asked: Asked {
        amplitude: F20,
        level: 5,
        max_time: F1,
        interval: F0_5,
        dx_level: 0,
        skip: 0,
    },
    even: 3,
    odd: 100,
};

// Commands, and the lengths that their orders are cut to, from one to the other.
const CUT: [(&str, usize, usize); 4] = [
    (TWO, 0, 45),
    ("11", 0, 18),
    ("12345671", 34, 43),
    ("8D89", 0, 14),
];

// The settings in other orders, no advance, eight advances; commands too early, too late and missing.
#[rattlefmt::skip]
const SEQUENCES: [&str; 36] = [
    "2345617889", "3456127889", "4561237889", "5612347889", "6123457889", "6543217889", "5432167889", "4321657889",
    "3216547889", "2165437889", "1654327889", "2143657889", "12345679", "1234567888888889", "654321788889",
    "", "9", "7", "8", "79", "97", "A", "B", "C", "D", "6D", "1234569", "123456799", "123456797", "123456798",
    "123456791A", "12345679A", "12345679B", "12345679C", "12345679D", "1234567",
];

// What prints the orders and carries them out, each as it is made; how many there were so far.
#[derive(Drop)]
struct Orders<'a, P: Print> {
    rt: &'a P,
    memories: &'a mut Memories,
    count: u64,
}

pub fn all<P: Print>(rt: &P, memories: &mut Memories) -> io::Result<()> {
    let mut orders = Orders {
        rt,
        memories,
        count: 0,
    };
    orders.cut()?;
    orders.with_one_more()?;
    orders.with_one_less()?;
    orders.in_sequence()?;
    orders.written()
}

impl<P: Print> Orders<'_, P> {
    fn cut(&mut self) -> io::Result<()> {
        for (commands, least, most) in CUT {
            self.cut_to(commands, least, most)?;
        }
        Ok(())
    }

    fn cut_to(&mut self, commands: &str, least: usize, most: usize) -> io::Result<()> {
        for length in least..=most {
            self.carry_out(GOOD, &[commands.as_bytes()], Some(length))?;
        }
        Ok(())
    }

    // A command or a byte too many: 1 to 9, A to D, each at every place.
    fn with_one_more(&mut self) -> io::Result<()> {
        for command in *b"123456789ABCD" {
            self.with(command)?;
        }
        Ok(())
    }

    fn with(&mut self, command: u8) -> io::Result<()> {
        for place in 0..=TWO.len() {
            let (before, after) = TWO.as_bytes().split_at(place);
            self.carry_out(GOOD, &[before, &[command], after], None)?;
        }
        Ok(())
    }

    // A command left out.
    fn with_one_less(&mut self) -> io::Result<()> {
        for place in 0..TWO.len() {
            let (before, after) = TWO.as_bytes().split_at(place);
            self.carry_out(GOOD, &[before, &after[1..]], None)?;
        }
        Ok(())
    }

    fn in_sequence(&mut self) -> io::Result<()> {
        for commands in SEQUENCES {
            self.carry_out(GOOD, &[commands.as_bytes()], None)?;
        }
        Ok(())
    }

    fn written(&mut self) -> io::Result<()> {
        for row in WRITTEN.iter() {
            self.row(*row)?;
        }
        Ok(())
    }

    fn row(&mut self, row: Row) -> io::Result<()> {
        let (settings, commands, (even, odd), length) = row;
        let asked = Asked::from(settings);
        self.carry_out(Draft { asked, even, odd }, &[commands.as_bytes()], length)
    }

    // Cut to the length, or zeros up to it after the commands.
    fn carry_out(
        &mut self,
        draft: Draft,
        commands: &[&[u8]],
        length: Option<usize>,
    ) -> io::Result<()> {
        let mut order = Order::new();
        draft.write(commands, &mut order);
        if let Some(n) = length {
            order.resize(n);
        }
        self.print(order.as_slice())
    }

    // The order's number, how many bytes it has and their digest; its spelling; the lines of its turns.
    fn print(&mut self, order: &[u8]) -> io::Result<()> {
        let rt = self.rt;
        println!(rt;
            "order {} bytes {} {}",
            self.count,
            order.len(),
            with(1, order)
        )?;
        self.count = self.count.wrapping_add(1);
        lent::line(rt, order)?;
        self.memories.carry_out(rt, order)
    }
}
