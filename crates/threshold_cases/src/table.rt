// The searches asked for, as in oracle/threshold/table.rs.
use crate::memories::{STATE, WORK};
use crate::searches::Call::{self, Alone, In};

// The float below the least interval that a level accepts, and the least.
const BELOW_5: f64 = f64::from_bits(0x3F9F07C1F07C1F07);

const LEAST_5: f64 = f64::from_bits(0x3F9F07C1F07C1F08);

const BELOW_6: f64 = f64::from_bits(0x3F8F81F81F81F81F);

const LEAST_6: f64 = f64::from_bits(0x3F8F81F81F81F820);

const BELOW_7: f64 = f64::from_bits(0x3F7FC07F01FC07EF);

const LEAST_7: f64 = f64::from_bits(0x3F7FC07F01FC07F0);

// Units: 2^-32, 2^-36, -2^-36, 2^-40.
const U32: f64 = f64::from_bits(0x3DF0000000000000);

const U36: f64 = f64::from_bits(0x3DB0000000000000);

const NU36: f64 = f64::from_bits(0xBDB0000000000000);

const U40: f64 = f64::from_bits(0x3D70000000000000);

// The largest end; amplitudes in units of 2^-36: A20 is 20; and of 2^-32: B700 is 700.
const LAST: u64 = 1 << 42;

const A20: u64 = 20 << 36;

const A30: u64 = 30 << 36;

const A35: u64 = 35 << 36;

const A40: u64 = 40 << 36;

const A44: u64 = 44 << 36;

const A50: u64 = 50 << 36;

const A52: u64 = 52 << 36;

const A60: u64 = 60 << 36;

const A63: u64 = 63 << 36;

const B20: u64 = 20 << 32;

const B40: u64 = 40 << 32;

const B60: u64 = 60 << 32;

const B200: u64 = 200 << 32;

const B600: u64 = 600 << 32;

const B650: u64 = 650 << 32;

const B673: u64 = 673 << 32;

const B700: u64 = 700 << 32;

const B800: u64 = 800 << 32;

// Amplitude, level, max time, interval, dx level, skip.
pub type Given = (f64, u32, f64, f64, u32, bool);

// Unit; settings; low, high, halvings, budget; the lengths of state and work memory; the call.
pub type Row = (f64, Given, (u64, u64, u32, u32), (usize, usize), Call);

// Which cases show each reason and each number; those from 185 on are of drawn.rt.
// used: 0-14, 18, 21-22, 28, 32, 36, 41-43, 45, 47-49, 126, 131-132, 155, 168-170, 175-191, 198-199, 204, 208, 211,
//   216, 222-224
// adjacent: 15-17, 19-20, 23-25, 46, 122, 124, 171, 173-174, 201, 218, 221
// neither: 27, 29-31, 34-35, 38-40, 44, 197
// 5: 61, 86-91
// 6: 62, 92-97
// 7: 63, 98-101
// 11: 64, 102-113
// 13: 114-121, 123, 125, 127, 156-160, 166-167, 172
// 15: 60, 65-85
// 16, low collapses: 137-143, 149-150, 153, 193
// 16, low is spent: 26, 33, 37, 50-51, 128-130, 144-145, 151, 217
// 16, low is refused with 14: 59, 133-136
// 16, low times out and high times out: 52-58, 146-147, 152, 161-165, 192, 194-196, 200, 202-203, 205-207, 209-210,
//   212-215, 219-220
// 16, low times out and high is spent: 148, 154
// No case shows a middle that is refused or broken, nor an end that is broken: no such amplitude is known.
// A row is numbered by its case; the number before a comment is that of the first row below it.
#[rattlefmt::skip]
pub const WRITTEN: [Row; 185] = [
    // 0. Brackets with 0, 1, 7 and 40 halvings at levels 5, 6 and 7.
    (U36, (0.0, 5, 4.0, 1.0, 5, true), (A20, A40, 0,  1000), (264,   1320), In),
    (U36, (0.0, 5, 4.0, 1.0, 5, true), (A20, A40, 1,  1000), (264,   WORK), In),
    (U36, (0.0, 5, 4.0, 1.0, 5, true), (A20, A40, 7,  1000), (STATE, 1320), In),
    (U36, (0.0, 5, 4.0, 1.0, 5, true), (A20, A40, 40, 1000), (STATE, WORK), In),
    (U36, (0.0, 6, 4.0, 1.0, 5, true), (A20, A40, 0,  1000), (520,   2600), In),
    (U36, (0.0, 6, 4.0, 1.0, 5, true), (A20, A40, 1,  1000), (520,   WORK), In),
    (U36, (0.0, 6, 4.0, 1.0, 5, true), (A20, A40, 7,  1000), (STATE, 2600), In),
    (U36, (0.0, 6, 4.0, 1.0, 5, true), (A20, A40, 40, 1000), (STATE, WORK), In),
    (U36, (0.0, 7, 4.0, 1.0, 5, true), (A20, A35, 0,  1000), (1032,  5160), In),
    (U36, (0.0, 7, 4.0, 1.0, 5, true), (A20, A35, 1,  1000), (1032,  WORK), In),
    (U36, (0.0, 7, 4.0, 1.0, 5, true), (A20, A35, 7,  1000), (STATE, 5160), In),
    (U36, (0.0, 7, 4.0, 1.0, 5, true), (A20, A35, 40, 1000), (STATE, WORK), In),
    // 12. The smallest low end and the largest high end.
    (U36, (0.0, 5, 4.0, 1.0, 5, true), (0, LAST, 40, 1000), (STATE, WORK), In),
    (U36, (0.0, 5, 4.0, 1.0, 5, true), (0, LAST, 39, 1000), (STATE, WORK), In),
    // 14. Ends that differ by 1: no halvings are left, or some are.
    (U36, (0.0, 5, 4.0, 1.0, 5, true), (2443296104161, 2443296104162, 0,  1000), (STATE, WORK), In),
    (U36, (0.0, 5, 4.0, 1.0, 5, true), (2443296104161, 2443296104162, 1,  1000), (STATE, WORK), In),
    (U36, (0.0, 5, 4.0, 1.0, 5, true), (2443296104161, 2443296104162, 40, 1000), (STATE, WORK), In),
    (U36, (0.0, 7, 4.0, 1.0, 5, true), (1755753119590, 1755753119591, 1,  1000), (STATE, WORK), In),
    // 18. Ends that come to differ by 1, with the last halving, before it and long before it.
    (U36,  (0.0, 5, 4.0, 1.0, 5, true), (2443296104160, 2443296104162, 1,  1000), (STATE, WORK), In),
    (U36,  (0.0, 5, 4.0, 1.0, 5, true), (2443296104160, 2443296104162, 2,  1000), (STATE, WORK), In),
    (U36,  (0.0, 5, 4.0, 1.0, 5, true), (2443296103661, 2443296104661, 40, 1000), (STATE, WORK), In),
    (1.0,  (0.0, 5, 4.0, 1.0, 5, true), (20,            40,            3,  1000), (STATE, WORK), In),
    (1.0,  (0.0, 5, 4.0, 1.0, 5, true), (20,            40,            4,  1000), (STATE, WORK), In),
    (1.0,  (0.0, 5, 4.0, 1.0, 5, true), (20,            40,            5,  1000), (STATE, WORK), In),
    (1.0,  (0.0, 7, 4.0, 1.0, 5, true), (0,             35,            40, 1000), (STATE, WORK), In),
    (36.0, (0.0, 5, 4.0, 1.0, 5, true), (0,             1,             1,  1000), (STATE, WORK), In),
    // 26. A middle that is spent: the least budget with which low times out and the one below it; more halvings with more
    // attempts, up to the budget that leaves no middle spent. Halvings that end before the spent middle, and one more.
    (U36, (0.0, 5, 4.0, 1.0, 5, true), (A20, A40, 40, 134), (STATE, WORK), In),
    (U36, (0.0, 5, 4.0, 1.0, 5, true), (A20, A40, 40, 135), (STATE, WORK), In),
    (U36, (0.0, 5, 4.0, 1.0, 5, true), (A20, A40, 11, 135), (STATE, WORK), In),
    (U36, (0.0, 5, 4.0, 1.0, 5, true), (A20, A40, 12, 135), (STATE, WORK), In),
    (U36, (0.0, 5, 4.0, 1.0, 5, true), (A20, A40, 40, 161), (STATE, WORK), In),
    (U36, (0.0, 5, 4.0, 1.0, 5, true), (A20, A40, 40, 173), (STATE, WORK), In),
    (U36, (0.0, 5, 4.0, 1.0, 5, true), (A20, A40, 40, 174), (STATE, WORK), In),
    (U36, (0.0, 6, 4.0, 1.0, 5, true), (A20, A40, 40, 269), (STATE, WORK), In),
    (U36, (0.0, 6, 4.0, 1.0, 5, true), (A20, A40, 40, 270), (STATE, WORK), In),
    (U36, (0.0, 6, 4.0, 1.0, 5, true), (A20, A40, 40, 301), (STATE, WORK), In),
    (U36, (0.0, 6, 4.0, 1.0, 5, true), (A20, A40, 40, 302), (STATE, WORK), In),
    (U36, (0.0, 7, 4.0, 1.0, 5, true), (A20, A35, 40, 538), (STATE, WORK), In),
    (U36, (0.0, 7, 4.0, 1.0, 5, true), (A20, A35, 40, 539), (STATE, WORK), In),
    (U36, (0.0, 7, 4.0, 1.0, 5, true), (A20, A35, 40, 583), (STATE, WORK), In),
    (1.0, (0.0, 7, 4.0, 1.0, 5, true), (20,  200, 40, 600), (STATE, WORK), In),
    (1.0, (0.0, 7, 4.0, 1.0, 5, true), (20,  200, 0,  600), (STATE, WORK), In),
    // 42. Several thresholds between the ends; ends above the first.
    (U36, (0.0, 6, 4.0, 1.0, 5, true), (A20, A63,  40, 2000), (STATE, WORK), In),
    (U36, (0.0, 6, 4.0, 1.0, 5, true), (A44, A63,  8,  2000), (STATE, WORK), In),
    (U32, (0.0, 7, 4.0, 1.0, 5, true), (B40, B200, 4,  2000), (STATE, WORK), In),
    // 45. Other max times: 0 and -infinity, where a run ends with its first step; 0.5 and 1; NaN and infinity, where none is
    // late.
    (U36, (0.0, 5, 0.0,               1.0, 5, true), (0,   A60,  40, 1),    (STATE, WORK), In),
    (U36, (0.0, 5, f64::NEG_INFINITY, 1.0, 5, true), (A50, A60,  40, 1000), (STATE, WORK), In),
    (U32, (0.0, 7, 0.0,               1.0, 5, true), (B20, B600, 40, 1),    (STATE, WORK), In),
    (U36, (0.0, 5, 0.5,               1.0, 5, true), (A20, A40,  20, 1000), (STATE, WORK), In),
    (U36, (0.0, 6, 1.0,               1.0, 5, true), (A20, A40,  20, 1000), (STATE, WORK), In),
    (U36, (0.0, 5, f64::NAN,          1.0, 5, true), (A20, A40,  40, 1000), (STATE, WORK), In),
    (U36, (0.0, 5, f64::INFINITY,     1.0, 5, true), (A20, A40,  40, 1000), (STATE, WORK), In),
    // 52. Units 2^-40, by both calls: amplitudes up to 4, none of which collapses. `search` looks at no unit.
    (U40,      (0.0, 5, 4.0, 1.0, 5, true), (1,   LAST, 40, 1000),     (STATE, WORK), Alone),
    (U40,      (0.0, 5, 4.0, 1.0, 5, true), (1,   LAST, 40, 1000),     (STATE, WORK), In),
    (U40,      (0.0, 7, 4.0, 1.0, 5, true), (0,   LAST, 0,  1000),     (1032,  5160), Alone),
    (U40,      (0.0, 7, 4.0, 1.0, 5, true), (0,   LAST, 0,  1000),     (1032,  5160), In),
    (U40,      (0.0, 5, 4.0, 1.0, 5, true), (A20, A40,  40, 1000),     (STATE, WORK), Alone),
    (f64::NAN, (0.0, 5, 4.0, 1.0, 5, true), (A20, A40,  40, 1000),     (STATE, WORK), Alone),
    (U36,      (0.0, 6, 4.0, 1.0, 5, true), (A20, A40,  7,  1000),     (STATE, WORK), Alone),
    (U40,      (0.0, 5, 4.0, 1.0, 5, true), (A20, A40,  40, u32::MAX), (STATE, WORK), Alone),
    (U40,      (0.0, 5, 4.0, 1.0, 5, true), (A40, A20,  40, 1000),     (STATE, WORK), Alone),
    (U40,      (0.0, 4, 4.0, 1.0, 5, true), (A20, A40,  40, 1000),     (STATE, WORK), Alone),
    (U40,      (0.0, 5, 4.0, 0.0, 5, true), (A20, A40,  40, 1000),     (STATE, WORK), Alone),
    (U40,      (0.0, 5, 4.0, 1.0, 6, true), (A20, A40,  40, 1000),     (STATE, WORK), Alone),
    (U40,      (0.0, 5, 4.0, 1.0, 5, true), (A20, A40,  40, 1000),     (263,   WORK), Alone),
    // 65. Refused with 15: ends and halvings at and beyond their limits.
    (U36, (0.0, 5, 4.0, 1.0, 5, true), (A40,           A40,           40,       1000), (STATE, WORK), In),
    (U36, (0.0, 5, 4.0, 1.0, 5, true), (0,             0,             0,        1000), (STATE, WORK), In),
    (U36, (0.0, 5, 4.0, 1.0, 5, true), (A40,           A20,           40,       1000), (STATE, WORK), In),
    (U36, (0.0, 5, 4.0, 1.0, 5, true), (2443296104162, 2443296104161, 1,        1000), (STATE, WORK), In),
    (U36, (0.0, 5, 4.0, 1.0, 5, true), (A20,           4398046511105, 40,       1000), (STATE, WORK), In),
    (U36, (0.0, 5, 4.0, 1.0, 5, true), (LAST,          4398046511105, 0,        1000), (STATE, WORK), In),
    (U36, (0.0, 5, 4.0, 1.0, 5, true), (A20,           u64::MAX,      40,       1000), (STATE, WORK), In),
    (U36, (0.0, 5, 4.0, 1.0, 5, true), (u64::MAX,      u64::MAX,      0,        1000), (STATE, WORK), In),
    (U36, (0.0, 5, 4.0, 1.0, 5, true), (u64::MAX,      1,             0,        1000), (STATE, WORK), In),
    (U36, (0.0, 5, 4.0, 1.0, 5, true), (A20,           A40,           41,       1000), (STATE, WORK), In),
    (U36, (0.0, 5, 4.0, 1.0, 5, true), (A20,           A40,           u32::MAX, 1000), (STATE, WORK), In),
    (U36, (0.0, 5, 4.0, 1.0, 5, true), (2443296104161, 2443296104162, 41,       1000), (STATE, WORK), In),
    // 77. Refused with 15 before 5, 6, 7, 11, 13 and 16.
    (U36,      (0.0, 4, 4.0, 1.0, 5, true), (A40,  A20,      40, 1000), (STATE, WORK), In),
    (U36,      (0.0, 4, 4.0, 1.0, 5, true), (A20,  A40,      41, 1000), (STATE, WORK), In),
    (U36,      (0.0, 5, 4.0, 0.0, 5, true), (A20,  A20,      40, 1000), (STATE, WORK), In),
    (U36,      (0.0, 5, 4.0, 1.0, 6, true), (A20,  u64::MAX, 40, 1000), (STATE, WORK), In),
    (U36,      (0.0, 5, 4.0, 1.0, 5, true), (A20,  A40,      41, 1000), (263,   1319), In),
    (U36,      (0.0, 5, 4.0, 1.0, 5, true), (A40,  A20,      40, 1000), (0,     0),    In),
    (f64::NAN, (0.0, 5, 4.0, 1.0, 5, true), (A20,  A40,      41, 1000), (STATE, WORK), In),
    (U32,      (0.0, 5, 4.0, 1.0, 5, true), (B800, B700,     40, 1000), (STATE, WORK), In),
    (U36,      (0.0, 5, 4.0, 1.0, 5, true), (A40,  A50,      41, 0),    (STATE, WORK), In),
    // 86. Refused with 5, beside ends whose runs both time out, and beside all faults that come later.
    (U36,      (0.0, 4,        4.0, 1.0, 5, true), (A20, A30, 40, 1000), (STATE, WORK), In),
    (U36,      (0.0, 17,       4.0, 1.0, 5, true), (A20, A30, 40, 1000), (STATE, WORK), In),
    (U36,      (0.0, 0,        4.0, 1.0, 0, true), (A20, A30, 40, 1000), (STATE, WORK), In),
    (U36,      (0.0, 261,      4.0, 1.0, 5, true), (A20, A40, 40, 1000), (STATE, WORK), In),
    (U36,      (0.0, u32::MAX, 4.0, 1.0, 5, true), (A20, A40, 40, 1000), (STATE, WORK), In),
    (f64::NAN, (0.0, 4,        4.0, 0.0, 6, true), (A20, A30, 40, 1000), (263,   1319), In),
    // 92. Refused with 6: also the float below the least interval of each level.
    (U36,      (0.0, 5, 4.0, 0.0,               5, true),  (A20, A30, 40, 1000), (STATE, WORK), In),
    (U36,      (0.0, 5, 4.0, f64::NEG_INFINITY, 5, true),  (A20, A40, 40, 1000), (STATE, WORK), In),
    (U36,      (0.0, 5, 4.0, BELOW_5,           5, true),  (A20, A40, 40, 1000), (STATE, WORK), In),
    (U36,      (0.0, 6, 4.0, BELOW_6,           5, false), (A20, A40, 40, 1000), (STATE, WORK), In),
    (U36,      (0.0, 7, 4.0, BELOW_7,           5, true),  (A20, A40, 40, 1000), (STATE, WORK), In),
    (f64::NAN, (0.0, 5, 4.0, 0.0,               6, true),  (A20, A30, 40, 1000), (263,   1319), In),
    // 98. Refused with 7.
    (U36,      (0.0, 5, 4.0, 1.0, 6,        true),  (A20, A30, 40, 1000), (STATE, WORK), In),
    (U36,      (0.0, 7, 4.0, 1.0, 8,        false), (A20, A40, 40, 1000), (STATE, WORK), In),
    (U36,      (0.0, 5, 4.0, 1.0, u32::MAX, true),  (A20, A40, 40, 1000), (STATE, WORK), In),
    (f64::NAN, (0.0, 5, 4.0, 1.0, 6,        true),  (A20, A30, 40, 1000), (263,   1319), In),
    // 102. Refused with 11: state memory, work memory, both; a level that both are too short for.
    (U36,      (0.0, 5,  4.0, 1.0, 5, true), (A20, A30, 40, 1000), (263,   WORK), In),
    (U36,      (0.0, 5,  4.0, 1.0, 5, true), (A20, A30, 40, 1000), (STATE, 1319), In),
    (U36,      (0.0, 5,  4.0, 1.0, 5, true), (A20, A30, 40, 1000), (0,     0),    In),
    (U36,      (0.0, 5,  4.0, 1.0, 5, true), (A20, A40, 40, 1000), (0,     WORK), In),
    (U36,      (0.0, 5,  4.0, 1.0, 5, true), (A20, A40, 40, 1000), (STATE, 0),    In),
    (U36,      (0.0, 6,  4.0, 1.0, 5, true), (A20, A40, 40, 1000), (519,   2600), In),
    (U36,      (0.0, 6,  4.0, 1.0, 5, true), (A20, A40, 40, 1000), (520,   2599), In),
    (U36,      (0.0, 7,  4.0, 1.0, 5, true), (A20, A35, 40, 1000), (1031,  5160), In),
    (U36,      (0.0, 7,  4.0, 1.0, 5, true), (A20, A35, 40, 1000), (1032,  5159), In),
    (U36,      (0.0, 8,  4.0, 1.0, 5, true), (A20, A40, 40, 1000), (STATE, WORK), In),
    (U36,      (0.0, 16, 4.0, 1.0, 5, true), (A20, A40, 40, 1000), (STATE, WORK), In),
    (f64::NAN, (0.0, 5,  4.0, 1.0, 5, true), (A20, A30, 40, 0),    (263,   1319), In),
    // 114. Refused with 13: at both ends; at high beside a low that collapses, times out, is spent, and is refused with 14.
    // No row has it at low alone: every larger amplitude that was tried has a NaN too.
    (U32, (0.0, 5, 4.0, 1.0, 5, true), (B700, B800, 40, 1000),     (264,   1320), In),
    (U32, (0.0, 6, 4.0, 1.0, 5, true), (B673, B700, 40, 1000),     (520,   2600), In),
    (U32, (0.0, 7, 4.0, 1.0, 5, true), (B673, B700, 40, 1000),     (1032,  5160), In),
    (U32, (0.0, 5, 4.0, 1.0, 5, true), (B60,  B700, 40, 1000),     (STATE, WORK), In),
    (U32, (0.0, 5, 4.0, 1.0, 5, true), (B20,  B700, 40, 1000),     (STATE, WORK), In),
    (U32, (0.0, 6, 4.0, 1.0, 5, true), (B20,  B673, 0,  1000),     (STATE, WORK), In),
    (U32, (0.0, 5, 4.0, 1.0, 5, true), (B20,  B700, 40, 0),        (STATE, WORK), In),
    (U32, (0.0, 5, 4.0, 1.0, 5, true), (B20,  B700, 40, u32::MAX), (STATE, WORK), In),
    // 122. At high the largest amplitude of a level whose initial state holds no NaN, and the next float; low is its 128th
    // part.
    (f64::from_bits(0x3FE4E273E543992E), (0.0, 5, 4.0, 1.0, 5, true), (8, 1024, 40, 1000), (STATE, WORK), In),
    (f64::from_bits(0x3FE4E273E543992F), (0.0, 5, 4.0, 1.0, 5, true), (8, 1024, 40, 1000), (STATE, WORK), In),
    (f64::from_bits(0x3FE5004B631175F5), (0.0, 6, 4.0, 1.0, 5, true), (8, 1024, 40, 1000), (STATE, WORK), In),
    (f64::from_bits(0x3FE5004B631175F6), (0.0, 6, 4.0, 1.0, 5, true), (8, 1024, 40, 1000), (STATE, WORK), In),
    (f64::from_bits(0x3FE5016DCD084AF5), (0.0, 7, 4.0, 1.0, 5, true), (8, 1024, 2,  1000), (STATE, WORK), In),
    (f64::from_bits(0x3FE5016DCD084AF6), (0.0, 7, 4.0, 1.0, 5, true), (8, 1024, 2,  1000), (STATE, WORK), In),
    // 128. Budgets: 0, 1, the largest that a run takes, and larger ones, which only a run ended at its start takes.
    (U36, (0.0, 5, 4.0,               1.0, 5, true), (A20,  A40,  40, 0),          (STATE, WORK), In),
    (U36, (0.0, 5, f64::NEG_INFINITY, 1.0, 5, true), (A20,  A60,  40, 0),          (STATE, WORK), In),
    (U36, (0.0, 5, 4.0,               1.0, 5, true), (A20,  A40,  40, 1),          (STATE, WORK), In),
    (U36, (0.0, 5, 0.0,               1.0, 5, true), (A20,  A60,  7,  1),          (STATE, WORK), In),
    (U36, (0.0, 5, 4.0,               1.0, 5, true), (A20,  A40,  7,  2147483647), (STATE, WORK), In),
    (U36, (0.0, 5, 4.0,               1.0, 5, true), (A20,  A40,  7,  2147483648), (STATE, WORK), In),
    (U36, (0.0, 5, 4.0,               1.0, 5, true), (A20,  A40,  7,  u32::MAX),   (STATE, WORK), In),
    (U36, (0.0, 5, 0.0,               1.0, 5, true), (A20,  A60,  7,  2147483648), (STATE, WORK), In),
    (U32, (0.0, 5, 4.0,               1.0, 5, true), (B20,  B600, 7,  2147483648), (STATE, WORK), In),
    (U32, (0.0, 5, 4.0,               1.0, 5, true), (B600, B650, 7,  2147483647), (STATE, WORK), In),
    (U32, (0.0, 5, 4.0,               1.0, 5, true), (B600, B650, 7,  2147483648), (STATE, WORK), In),
    (U32, (0.0, 5, 4.0,               1.0, 5, true), (B600, B650, 7,  u32::MAX),   (STATE, WORK), In),
    // 140. Refused with 16: low collapses, four times; low is spent; high times out; high is spent; low collapses or is
    // spent, and high times out or is spent; one end of the bracket in place of the other.
    (U36, (0.0, 5, 4.0, 1.0, 5, true), (A40,           A50,           40, 1000), (264,   1320), In),
    (U36, (0.0, 6, 4.0, 1.0, 5, true), (A30,           A40,           40, 1000), (520,   2600), In),
    (U36, (0.0, 7, 4.0, 1.0, 5, true), (A30,           A35,           40, 1000), (1032,  5160), In),
    (U36, (0.0, 5, 4.0, 1.0, 5, true), (4398046511103, LAST,          40, 1000), (STATE, WORK), In),
    (U36, (0.0, 5, 4.0, 1.0, 5, true), (A20,           A40,           0,  100),  (STATE, WORK), In),
    (U36, (0.0, 7, 4.0, 1.0, 5, true), (A44,           A63,           0,  600),  (STATE, WORK), In),
    (U36, (0.0, 5, 4.0, 1.0, 5, true), (A20,           A30,           0,  1000), (STATE, WORK), In),
    (U36, (0.0, 7, 4.0, 1.0, 5, true), (A20,           A40,           40, 2000), (STATE, WORK), In),
    (U36, (0.0, 7, 4.0, 1.0, 5, true), (A20,           A40,           40, 600),  (STATE, WORK), In),
    (U36, (0.0, 7, 4.0, 1.0, 5, true), (A35,           A40,           40, 2000), (STATE, WORK), In),
    (U36, (0.0, 7, 4.0, 1.0, 5, true), (A35,           A40,           40, 600),  (STATE, WORK), In),
    (U36, (0.0, 6, 4.0, 1.0, 5, true), (A44,           A52,           40, 700),  (STATE, WORK), In),
    (U36, (0.0, 5, 4.0, 1.0, 5, true), (A20,           2443296104161, 40, 1000), (STATE, WORK), In),
    (U36, (0.0, 5, 4.0, 1.0, 5, true), (2443296104162, A40,           40, 1000), (STATE, WORK), In),
    // 154. High is spent, and with one attempt more collapses.
    (U36, (0.0, 6, 8.0, 1.0, 5, true), (A20, A60, 2, 1552), (STATE, WORK), In),
    (U36, (0.0, 6, 8.0, 1.0, 5, true), (A20, A60, 2, 1553), (STATE, WORK), In),
    // 156. Units: NaN, infinities, zeros, subnormal, the least normal, huge; low 0 beside them.
    (f64::NAN,                           (0.0, 5, 4.0, 1.0, 5, true), (A20, A40,  40, 1000), (STATE, WORK), In),
    (f64::NAN,                           (0.0, 5, 4.0, 1.0, 5, true), (0,   1,    40, 1000), (STATE, WORK), In),
    (f64::INFINITY,                      (0.0, 5, 4.0, 1.0, 5, true), (1,   2,    40, 1000), (STATE, WORK), In),
    (f64::INFINITY,                      (0.0, 5, 4.0, 1.0, 5, true), (0,   1,    40, 1000), (STATE, WORK), In),
    (f64::NEG_INFINITY,                  (0.0, 7, 4.0, 1.0, 5, true), (0,   1,    40, 1000), (STATE, WORK), In),
    (0.0,                                (0.0, 5, 4.0, 1.0, 5, true), (A20, A40,  40, 1000), (STATE, WORK), In),
    (-0.0,                               (0.0, 5, 4.0, 1.0, 5, true), (0,   LAST, 40, 1000), (STATE, WORK), In),
    (f64::from_bits(0x0000000000000001), (0.0, 5, 4.0, 1.0, 5, true), (A20, LAST, 40, 1000), (STATE, WORK), In),
    (f64::from_bits(0x800FFFFFFFFFFFFF), (0.0, 6, 4.0, 1.0, 5, true), (1,   LAST, 40, 1000), (STATE, WORK), In),
    (f64::from_bits(0x0010000000000000), (0.0, 5, 4.0, 1.0, 5, true), (1,   LAST, 40, 1000), (STATE, WORK), In),
    (f64::MAX,                           (0.0, 5, 4.0, 1.0, 5, true), (0,   1,    40, 1000), (STATE, WORK), In),
    (f64::MAX,                           (0.0, 5, 4.0, 1.0, 5, true), (2,   3,    40, 1000), (STATE, WORK), In),
    // 168. Negative units answer as positive ones do; a unit that is no power of two, 0.1.
    (NU36, (0.0, 5, 4.0, 1.0, 5, true), (A20, A40, 40, 1000), (STATE, WORK), In),
    (NU36, (0.0, 6, 4.0, 1.0, 5, true), (A20, A40, 7,  1000), (STATE, WORK), In),
    (NU36, (0.0, 7, 4.0, 1.0, 5, true), (A20, A35, 7,  1000), (STATE, WORK), In),
    (-1.0, (0.0, 5, 4.0, 1.0, 5, true), (20,  600, 40, 1000), (STATE, WORK), In),
    (-1.0, (0.0, 5, 4.0, 1.0, 5, true), (20,  700, 40, 1000), (STATE, WORK), In),
    (0.1,  (0.0, 5, 4.0, 1.0, 5, true), (200, 400, 40, 1000), (STATE, WORK), In),
    (0.1,  (0.0, 7, 4.0, 1.0, 5, true), (200, 350, 40, 1000), (STATE, WORK), In),
    // 175. The given amplitude and skip are not looked at, and an accepted interval and dx level change nothing: the answers
    // are those of 2, 6 and 10.
    (U36, (f64::NAN,      5, 4.0, 1.0,           5, true),  (A20, A40, 7, 1000), (STATE, WORK), In),
    (U36, (f64::NAN,      5, 4.0, 1.0,           5, false), (A20, A40, 7, 1000), (STATE, WORK), In),
    (U36, (1e300,         5, 4.0, 1.0,           5, true),  (A20, A40, 7, 1000), (STATE, WORK), In),
    (U36, (1e300,         5, 4.0, 1.0,           5, false), (A20, A40, 7, 1000), (STATE, WORK), In),
    (U36, (0.0,           5, 4.0, 1.0,           5, false), (A20, A40, 7, 1000), (264,   1320), In),
    (U36, (-0.0,          5, 4.0, f64::NAN,      0, false), (A20, A40, 7, 1000), (STATE, WORK), In),
    (U36, (0.0,           5, 4.0, LEAST_5,       0, false), (A20, A40, 7, 1000), (STATE, WORK), In),
    (U36, (f64::INFINITY, 6, 4.0, LEAST_6,       6, false), (A20, A40, 7, 1000), (STATE, WORK), In),
    (U36, (f64::NAN,      7, 4.0, LEAST_7,       7, false), (A20, A35, 7, 1000), (1032,  5160), In),
    (U36, (1e300,         7, 4.0, f64::INFINITY, 0, true),  (A20, A35, 7, 1000), (STATE, WORK), In),
];
