// All sequences of one order's six settings: they have one spelling.
use crate::digest::with;
use crate::lent::{Answered, MORE, call};
use crate::order::Order;
use std::io;

const SEQUENCES: usize = 720;

// The floats are NaNs with a payload.
const SETTINGS: [&[u8]; 6] = [
    &[1, 0xBC, 0x9A, 0x78, 0x56, 0x34, 0x12, 0xF9, 0x7F],
    &[2, 7],
    &[3, 0xFA, 0xE9, 0xD8, 0xC7, 0xB6, 0xA5, 0xF4, 0xFF],
    &[4, 0x72, 0x61, 0x50, 0x4F, 0x3E, 0x2D, 0xFB, 0xFF],
    &[5, 3],
    &[6, 1],
];

// 07, advances by 0, 04030201 and 5, 09.
const CALLS: [u8; 17] = [7, 8, 0, 0, 0, 0, 8, 1, 2, 3, 4, 8, 5, 0, 0, 0, 9];

// How many sequences there are, how many bytes each has and a digest of all their bytes; the call for the first, and for how
// many it is the same.
pub fn line(rt: &impl Print) -> io::Result<()> {
    let first = order(0);
    let n = first.len();
    let answered = spelled(first.as_slice());
    let mut digest = 1;
    let mut same = 0u64;
    for k in 0..SEQUENCES {
        let order = order(k);
        digest = with(digest, order.as_slice());
        same = same.wrapping_add(u64::from(spelled(order.as_slice()) == answered));
    }
    print!(rt; "sequences {SEQUENCES} bytes {n} {digest} ")?;
    println!(rt; "spelled {answered} same {same}")
}

fn spelled(order: &[u8]) -> Answered {
    call(order, order.len() + MORE)
}

// The order with its settings in sequence k.
fn order(k: usize) -> Order {
    let mut settings = SETTINGS;
    arrange(&mut settings, k);
    let mut order = Order::new();
    for setting in settings {
        order.extend(setting);
    }
    order.extend(&CALLS);
    order
}

// At each place any of those from there on; k has their numbers.
fn arrange(settings: &mut [&[u8]; 6], k: usize) {
    let mut rest = k;
    for i in 0..6usize {
        settings.swap(i, i + rest % (6 - i));
        rest /= 6 - i;
    }
}
