// The orders from 279 on, as in oracle/orders/table.rs.

use crate::draft::Settings;

// Floats by their bits: F0_5 is 0.5, N20 is -20.
const F0: u64 = 0x0000000000000000;

const N0: u64 = 0x8000000000000000;

const F0_01: u64 = 0x3F847AE147AE147B;

const F0_02: u64 = 0x3F947AE147AE147B;

const F0_0296875: u64 = 0x3F9E666666666666;

const F0_03: u64 = 0x3F9EB851EB851EB8;

const F0_03125: u64 = 0x3FA0000000000000;

const F0_04: u64 = 0x3FA47AE147AE147B;

const F0_05: u64 = 0x3FA999999999999A;

const F0_059375: u64 = 0x3FAE666666666666;

const F0_1: u64 = 0x3FB999999999999A;

const F0_2: u64 = 0x3FC999999999999A;

const F0_25: u64 = 0x3FD0000000000000;

const F0_3: u64 = 0x3FD3333333333333;

const F0_47: u64 = 0x3FDE147AE147AE14;

pub const F0_5: u64 = 0x3FE0000000000000;

const F0_8: u64 = 0x3FE999999999999A;

pub const F1: u64 = 0x3FF0000000000000;

const N1: u64 = 0xBFF0000000000000;

const F1_7: u64 = 0x3FFB333333333333;

const F2: u64 = 0x4000000000000000;

const F4: u64 = 0x4010000000000000;

const F5: u64 = 0x4014000000000000;

const F6: u64 = 0x4018000000000000;

const F10: u64 = 0x4024000000000000;

pub const F20: u64 = 0x4034000000000000;

const N20: u64 = 0xC034000000000000;

const F30: u64 = 0x403E000000000000;

const F40: u64 = 0x4044000000000000;

const F50: u64 = 0x4049000000000000;

const F60: u64 = 0x404E000000000000;

const F100: u64 = 0x4059000000000000;

const INFINITY: u64 = 0x7FF0000000000000;

const LARGEST: u64 = 0x7FEFFFFFFFFFFFFF;

const MINUS_INFINITY: u64 = 0xFFF0000000000000;

const NAN: u64 = 0x7FF8000000000000;

// One, two, four and eight advances.
const ONE: &str = "123456789";

pub const TWO: &str = "1234567889";

const FOUR: &str = "123456788889";

const EIGHT: &str = "1234567888888889";

// The most steps.
const LAST: u32 = 2147483647;

const MOST: u32 = u32::MAX;

// The settings in the fields' order; the commands, as draft.rt explains them; the budget of an advance that stands at an even
// position, and at an odd one; the length of an order that doesn't end where its commands end.
pub type Row = (Settings, &'static str, (u32, u32), Option<usize>);

#[rattlefmt::skip]
pub const WRITTEN: [Row; 188] = [
    // 279. About 4,096 bytes. The longest good order has 4,095: 812 advances.
    ((F20, 5, F1, F1, 0, 1), "1234567E9",  (0, 1), None),
    ((F20, 5, F1, F1, 0, 1), "1234567E9",  (0, 1), Some(4094)),
    ((F20, 5, F1, F1, 0, 1), "1234567E9",  (0, 1), Some(4096)),
    ((F20, 5, F1, F1, 0, 1), "1234567E9",  (0, 1), Some(4097)),
    ((F20, 5, F1, F1, 0, 1), "1234567E88", (0, 1), Some(4095)),
    ((F20, 5, F1, F1, 0, 1), "1234567E88", (0, 1), Some(4096)),
    ((F20, 5, F1, F1, 0, 1), "1234567E88", (0, 1), Some(4097)),
    ((F20, 5, F1, F1, 0, 1), "1234567F9",  (0, 1), None),
    ((F20, 5, F1, F1, 0, 1), "",           (0, 1), Some(4095)),
    ((F20, 5, F1, F1, 0, 1), "",           (0, 1), Some(4096)),
    ((F20, 5, F1, F1, 0, 1), "",           (0, 1), Some(4097)),
    ((F20, 5, F1, F1, 0, 1), "",           (0, 1), Some(4100)),
    // 291. The switch.
    ((F20, 5, F1, F0_5, 0, 1),   TWO, (3, 100), None),
    ((F20, 5, F1, F0_5, 0, 2),   TWO, (3, 100), None),
    ((F20, 5, F1, F0_5, 0, 128), TWO, (3, 100), None),
    ((F20, 5, F1, F0_5, 0, 255), TWO, (3, 100), None),
    // 295. Refused with 5.
    ((F20, 4,   F1, F0_5, 0,  0), TWO, (3, 100), None),
    ((F20, 17,  F1, F0_5, 0,  0), TWO, (3, 100), None),
    ((F20, 0,   F1, F0_5, 0,  0), TWO, (3, 100), None),
    ((F20, 255, F1, F0_5, 0,  0), TWO, (3, 100), None),
    ((NAN, 4,   F1, F0,   5,  0), TWO, (3, 100), None),
    ((NAN, 17,  F1, F0,   18, 1), TWO, (3, 100), None),
    // 301. Refused with 6: also the float below the least interval, and the least, which is accepted.
    ((F20, 5,  F1,   F0,                 0,  0), TWO, (3, 100), None),
    ((F20, 5,  F1,   N0,                 0,  0), TWO, (3, 100), None),
    ((F20, 5,  F1,   N1,                 0,  1), TWO, (3, 100), None),
    ((F20, 5,  F1,   MINUS_INFINITY,     0,  0), TWO, (3, 100), None),
    ((F20, 5,  F1,   0x0000000000000001, 0,  0), TWO, (3, 100), None),
    ((F20, 5,  F1,   F0_03,              0,  0), TWO, (3, 100), None),
    ((F20, 5,  F1,   0x3F9F07C1F07C1F07, 0,  0), TWO, (3, 100), None),
    ((F20, 5,  F0_2, 0x3F9F07C1F07C1F08, 0,  0), TWO, (3, 100), None),
    ((F20, 6,  F1,   0x3F8F81F81F81F81F, 0,  0), TWO, (3, 100), None),
    ((F20, 6,  F0_2, 0x3F8F81F81F81F820, 0,  0), TWO, (3, 100), None),
    ((F20, 7,  F1,   0x3F7FC07F01FC07EF, 0,  0), TWO, (3, 100), None),
    ((F20, 7,  F0_1, 0x3F7FC07F01FC07F0, 0,  0), TWO, (3, 100), None),
    ((F20, 8,  F1,   0x3F6FE01FE01FE01F, 0,  0), TWO, (3, 100), None),
    ((F20, 16, F1,   0x3EEFFFE0001FFFDF, 17, 1), TWO, (3, 100), None),
    ((NAN, 5,  F1,   F0,                 6,  0), TWO, (3, 100), None),
    // 316. Refused with 7.
    ((F20, 5,  F1, F0_5, 6,   0), TWO, (3, 100), None),
    ((F20, 5,  F1, F0_5, 255, 1), TWO, (3, 100), None),
    ((F20, 7,  F1, F0_5, 8,   0), TWO, (3, 100), None),
    ((F20, 8,  F1, F0_5, 9,   0), TWO, (3, 100), None),
    ((NAN, 16, F1, F0_5, 17,  0), TWO, (3, 100), None),
    // 321. Refused with 11: the program lends for level 7.
    ((F20,                8,  F1, F0_5,               0,  0), TWO, (3, 100), None),
    ((F20,                8,  F1, 0x3F6FE01FE01FE020, 8,  1), TWO, (3, 100), None),
    ((F20,                9,  F1, F0_5,               9,  0), TWO, (3, 100), None),
    ((F20,                12, F1, F0_5,               0,  1), TWO, (3, 100), None),
    ((F20,                16, F1, F0_5,               16, 0), TWO, (3, 100), None),
    ((NAN,                8,  F1, F0_5,               0,  0), TWO, (3, 100), None),
    ((0x4085017E590A6FCA, 8,  F1, F0_5,               0,  0), TWO, (3, 100), None),
    // 328. Refused with 13: the first amplitude of a level whose initial state holds a NaN, and the float below it.
    ((0x4084E273E543992E, 5, F1,  F0_5, 0, 0), TWO, (3, 100), None),
    ((0x4084E273E543992F, 5, F1,  F0_5, 0, 0), TWO, (3, 100), None),
    ((0x4084E273E543992F, 5, F1,  F0_5, 0, 1), TWO, (3, 100), None),
    ((0xC084E273E543992F, 5, F1,  F0_5, 0, 1), TWO, (3, 100), None),
    ((0x4085004B631175F5, 6, F1,  F0_5, 0, 0), TWO, (3, 100), None),
    ((0x4085004B631175F6, 6, F1,  F0_5, 0, 0), TWO, (3, 100), None),
    ((0x4085016DCD084AF5, 7, F1,  F0_5, 0, 0), TWO, (3, 100), None),
    ((0x4085016DCD084AF6, 7, F1,  F0_5, 0, 0), TWO, (3, 100), None),
    ((0x4085016DCD084AF6, 7, F1,  F0_5, 7, 1), TWO, (3, 100), None),
    ((NAN,                5, F1,  F0_5, 0, 0), TWO, (3, 100), None),
    ((NAN,                7, F1,  F0_5, 7, 1), TWO, (3, 100), None),
    ((INFINITY,           5, F1,  F0_5, 0, 0), TWO, (3, 100), None),
    ((MINUS_INFINITY,     6, F1,  F0_5, 0, 0), TWO, (3, 100), None),
    ((LARGEST,            7, F1,  F0_5, 0, 0), TWO, (3, 100), None),
    ((NAN,                5, NAN, NAN,  0, 0), TWO, (3, 100), None),
    // 343. Patterns of bits as amplitude, max time and interval: NaNs, infinities, the least and the largest floats.
    ((0x7FF0000000000001, 5, F1,                 F0_5,               0, 0), TWO, (3, 45), None),
    ((0xFFF8000000000000, 5, F1,                 F0_5,               0, 1), TWO, (3, 45), None),
    ((0xFFFFFFFFFFFFFFFF, 5, F1,                 F0_5,               0, 0), TWO, (3, 45), None),
    ((N0,                 5, F1,                 F0_5,               0, 0), TWO, (3, 45), None),
    ((0x0000000000000001, 5, F1,                 F0_5,               0, 0), TWO, (3, 45), None),
    ((0x8010000000000000, 5, F1,                 F0_5,               0, 1), TWO, (3, 45), None),
    ((F20,                5, 0x7FF0000000000001, F0_5,               0, 0), TWO, (3, 45), None),
    ((F20,                5, 0xFFF8000000000000, F0_5,               0, 1), TWO, (3, 45), None),
    ((F20,                5, 0x7FFFFFFFFFFFFFFF, F0_5,               0, 0), TWO, (3, 45), None),
    ((F20,                5, INFINITY,           F0_5,               0, 1), TWO, (3, 45), None),
    ((F20,                5, MINUS_INFINITY,     F0_5,               0, 0), TWO, (3, 45), None),
    ((F20,                5, LARGEST,            F0_5,               0, 1), TWO, (3, 45), None),
    ((F20,                5, N0,                 F0_5,               0, 0), TWO, (3, 45), None),
    ((F20,                5, 0x0000000000000001, F0_5,               0, 0), TWO, (3, 45), None),
    ((F20,                5, N1,                 F0_5,               0, 1), TWO, (3, 45), None),
    ((F20,                5, F1,                 0x7FF0000000000001, 0, 0), TWO, (3, 45), None),
    ((F20,                5, F1,                 0x7FF0000000000001, 0, 1), TWO, (3, 45), None),
    ((F20,                5, F1,                 0xFFF8000000000000, 0, 0), TWO, (3, 45), None),
    ((F20,                5, F1,                 0xFFFFFFFFFFFFFFFF, 0, 1), TWO, (3, 45), None),
    ((F20,                5, F1,                 NAN,                0, 0), TWO, (3, 45), None),
    ((F20,                5, F1,                 INFINITY,           0, 0), TWO, (3, 45), None),
    ((F20,                5, F1,                 LARGEST,            0, 0), TWO, (3, 45), None),
    ((F20,                5, F1,                 0xFFEFFFFFFFFFFFFF, 0, 0), TWO, (3, 45), None),
    ((F20,                5, F1,                 0x3F9F07C1F07C1F07, 0, 1), TWO, (3, 45), None),
    // 367. Runs. 01's own order, dispersals; neighbouring amplitudes: timeout, collapse.
    ((F0,                 5, F0,   F1,    5, 1), ONE,   (1,    1),    None),
    ((F0,                 5, F0,   F1,    5, 0), EIGHT, (0,    1),    None),
    ((N0,                 5, F0_5, F0_1,  1, 0), FOUR,  (7,    5),    None),
    ((F20,                5, F4,   F0_25, 1, 0), EIGHT, (17,   0),    None),
    ((F20,                5, F4,   F0_25, 1, 0), EIGHT, (17,   31),   None),
    ((F20,                5, F4,   F0_25, 1, 0), ONE,   (LAST, 0),    None),
    ((0x4041C6FE5EF70CA2, 5, F4,   F1,    5, 1), TWO,   (LAST, MOST), None),
    ((0x4041C6FE5EF70CA3, 5, F4,   F1,    5, 1), TWO,   (LAST, MOST), None),
    ((0x40398CB0A7F663FC, 7, F4,   F1,    7, 1), TWO,   (LAST, MOST), None),
    ((0x40398CB0A7F663FD, 7, F4,   F1,    7, 1), TWO,   (LAST, MOST), None),
    ((0x40398CB0A7F663FD, 7, F4,   F0_5,  0, 0), EIGHT, (97,   61),   None),
    // 378. Collapse: max time that time, the float below it, 0.47, which the step before passes; collapse at once.
    ((F40,  5, 0x3FE0266666666665, F1, 2, 0), FOUR, (9,    6),    None),
    ((F40,  5, 0x3FE0266666666664, F1, 2, 0), FOUR, (9,    6),    None),
    ((F40,  5, F0_47,              F1, 2, 0), FOUR, (9,    6),    None),
    ((F60,  5, F4,                 F1, 0, 0), FOUR, (0,    MOST), None),
    ((F100, 6, F4,                 F1, 0, 1), FOUR, (MOST, 0),    None),
    // 383. Broken by an interval NaN that is not skipped; no budget is too large then.
    ((F10, 5, F4, NAN, 0, 0), FOUR, (0,    1),    None),
    ((F10, 7, F4, NAN, 2, 0), FOUR, (LAST, MOST), None),
    ((F10, 6, F4, NAN, 2, 0), FOUR, (MOST, 2),    None),
    ((F10, 5, F4, NAN, 5, 1), FOUR, (40,   30),   None),
    // 387. Budgets refused with 14: too large at once; after a step; then what is left.
    ((F20, 5, F1,       F1,       0, 1), FOUR,  (2147483648, 5),          None),
    ((F20, 5, F1,       F1,       0, 1), FOUR,  (5,          LAST),       None),
    ((F20, 5, F1,       F1,       0, 1), FOUR,  (1,          2147483646), None),
    ((F20, 5, F1,       F0_5,     0, 0), FOUR,  (MOST,       20),         None),
    ((F20, 7, F0_1,     F0_05,    0, 0), EIGHT, (LAST,       4),          None),
    ((F20, 7, F0_1,     F0_05,    0, 0), EIGHT, (4,          LAST),       None),
    ((F10, 5, INFINITY, INFINITY, 2, 0), FOUR,  (2147483648, 30),         None),
    ((F10, 6, NAN,      F0_5,     1, 0), FOUR,  (30,         LAST),       None),
    // 395. Max time: -infinity, the first step's time, the float below it.
    ((F10, 5, MINUS_INFINITY,     F0_03125, 0, 0), FOUR, (1, 1), None),
    ((F5,  5, F0_0296875,         F1,       5, 1), FOUR, (1, 1), None),
    ((F5,  5, 0x3F9E666666666665, F1,       5, 1), FOUR, (1, 1), None),
    // 398. A negative amplitude; a subnormal one; the largest interval.
    ((N20,                5, F2, F0_3,    1, 0), FOUR, (25, 20), None),
    ((0x00001268D0D0D0D0, 6, F1, F0_3,    2, 0), FOUR, (9,  20), None),
    ((F10,                5, F4, LARGEST, 3, 0), FOUR, (3,  4),  None),
    // 401. Every dx level of level 7, a frame or two each.
    ((F10, 7, F0_02, F1,    7, 0), FOUR, (1, 0), None),
    ((F10, 7, F0_02, F0_01, 6, 0), FOUR, (1, 2), None),
    ((F10, 7, F0_02, F0_01, 5, 0), FOUR, (2, 1), None),
    ((F10, 7, F0_05, F0_03, 4, 0), FOUR, (2, 1), None),
    ((F10, 7, F0_05, F0_02, 3, 0), FOUR, (4, 0), None),
    // 406. The interval is the spacing; twice the base step; a late collapse; slow steps near a black hole.
    ((F30, 5, F0_3, F0_03125,  1, 0), FOUR,  (3,  4),  None),
    ((F30, 5, F1,   F0_059375, 0, 0), FOUR,  (15, 18), None),
    ((F30, 6, F6,   F1,        1, 0), EIGHT, (60, 35), None),
    ((F50, 6, F0_5, F0_05,     0, 0), FOUR,  (70, 90), None),
    // 410. An 08 that fills frame memory: once (seven frames of 1,163), twice (27 of 299).
    ((F20, 7, F0_8, F0_1,               7, 0), ONE, (LAST, 0), None),
    ((F20, 5, F1_7, 0x3F9F07C1F07C1F08, 5, 0), ONE, (LAST, 0), None),
    // 412. A budget that is used up where frame memory is full (409 frames of 20) and a frame step comes; a short one.
    ((F20, 7, F4,    0x3F7FC07F01FC07F0, 0, 0), TWO, (819, 2),  None),
    ((F20, 7, F0_04, 0x3F7FC07F01FC07F0, 1, 0), TWO, (3,   20), None),
    // 414. Refused with 14 after frames.
    ((F20, 6, F4, F0_04, 2, 0), TWO, (50, LAST), None),
    // 415. Settings, commands and budgets by the generator of oracle/arguments.rs.
    ((0x402254142BDA3D94, 5, 0x3FE16551D05E7070, 0x3FDB06FA5FFADD77, 2, 0), "5612347889",   (22, 3),  None),
    ((0x402254142BDAB004, 5, 0x3FF2B3E4AE7E4214, 0x3FD1EA94713EC023, 1, 0), "2165437889",   (8,  0),  None),
    ((0x402254142BDB227A, 6, 0x3FFCB52074CD4BF0, 0x3FB1E1B557CE36F2, 2, 0), "3456127889",   (10, 13), None),
    ((0x402254142BDB94E9, 6, 0x3FDAD970EC715728, 0x3FCD3A6799FCC68F, 1, 1), "3216547889",   (20, 10), None),
    ((0x402254142BDC0758, 7, 0x3FF0B798016B5FA6, 0x3FB421C2B4C9291A, 2, 0), "2345617889",   (21, 6),  None),
    ((0x402254142BDC79C7, 7, 0x3FFAB8D3C7BA6982, 0x3FA59E3A03F98751, 1, 0), "5432167889",   (7,  3),  None),
    ((0x402254142BDCEC3E, 5, 0x3FD2E83E3825CD70, 0x3FDE8B1781C0B929, 1, 0), EIGHT,          (9,  0),  None),
    ((0x402254142BDD5EAC, 5, 0x3FED7696A8B0FA70, 0x3FD56EAFC1903EBF, 0, 1), "6543217889",   (19, 13), None),
    ((0x402254142BDDD11C, 6, 0x3FF8BC871AA78714, 0x3FB9059E0AAAD989, 1, 0), "12345679",     (21, 10), None),
    ((0x402254142BDE438A, 7, 0x3FC5EE1707B48780, 0x3F8A47DB6300218D, 0, 0), "5612347889",   (6,  6),  None),
    ((0x402254142BDEB601, 7, 0x3FE97DFD4E8B3594, 0x3FB7BACCCB6FE630, 1, 0), "1654327889",   (8,  3),  None),
    ((0x402254142BDF2870, 5, 0x3FF6C03A6D94A4A6, 0x3FCC28AD2485645B, 0, 1), "4561237889",   (18, 0),  None),
    ((0x402254142BDF9ADF, 5, 0x3FA82EC67C75D040, 0x3FB3DFB402776AB8, 1, 0), "2165437889",   (20, 13), None),
    ((0x402254142BE00D4E, 6, 0x3FE58563F46570B8, 0x3FC9550D359A61BF, 0, 0), "2345617889",   (5,  10), None),
    ((0x402254142BE07FC4, 6, 0x3FF4C3EDC081C238, 0x3FC014C35EC3BE10, 0, 0), "4321657889",   (7,  6),  None),
    ((0x402254142BE0F234, 7, 0x3FFEC52986D0CC14, 0x3F9B88160C1B0522, 2, 1), "654321788889", (17, 3),  None),
    ((0x402254142BE164A2, 7, 0x3FE18CCA9A3FABE0, 0x3FBB53D6E216A346, 0, 0), "5432167889",   (19, 0),  None),
    ((0x402254142BE1D712, 5, 0x3FF2C7A1136EDFCC, 0x3FD19871E29430CA, 2, 0), "12345679",     (4,  13), None),
    ((0x402254142BE24988, 6, 0x3FFCC8DCD9BDE9A6, 0x3FB13AE590AAFC37, 0, 0), "6123457889",   (6,  10), None),
    ((0x402254142BE2BBF7, 6, 0x3FDB285A8033CE08, 0x3FCCE7018F08B30B, 2, 1), "2143657889",   (16, 7),  None),
    ((0x402254142BE32E66, 7, 0x3FF0CB52665BFD5E, 0x3FB3CDB728C154EF, 0, 0), "5612347889",   (18, 3),  None),
    ((0x402254142BE3A0DC, 7, 0x3FFACC8E2CAB073A, 0x3FA4F61F335AFCBE, 2, 0), "2165437889",   (3,  0),  None),
    ((0x402254142BE4134C, 5, 0x3FD3372FCBE84450, 0x3FDE38F4F31629D0, 0, 0), "3456127889",   (5,  13), None),
    ((0x402254142BE485BA, 5, 0x3FED9E0F729235E0, 0x3FD51C8D32E5AF66, 1, 1), "3216547889",   (15, 10), None),
    ((0x402254142BE4F82A, 6, 0x3FF8D0437F9824CC, 0x3FB85ECE43879ECF, 2, 0), "2345617889",   (17, 7),  None),
    ((0x402254142BE56AA0, 6, 0x3FC68BFA2F397530, 0x3F9778EA57695DC6, 1, 0), "5432167889",   (3,  3),  None),
    ((0x402254142BE5DD0F, 7, 0x3FE9A576186C7104, 0x3FB766C13F681206, 2, 0), EIGHT,          (4,  0),  None),
    ((0x402254142BE64F7E, 7, 0x3FF6D3F4D285425E, 0x3FAC283719375927, 1, 1), "6543217889",   (14, 13), None),
    ((0x402254142BE6C1ED, 5, 0x3FAAA6131A898740, 0x3FB29729C7CD2D52, 2, 0), "12345679",     (16, 10), None),
    ((0x402254142BE73464, 5, 0x3FE5ACD8BE46AC28, 0x3FD8A0A883372E02, 1, 0), "5612347889",   (2,  7),  None),
    ((0x402254142BE7A6D2, 6, 0x3FF4D7A825725FF0, 0x3FBF82B6F6644167, 2, 0), "1654327889",   (3,  3),  None),
    ((0x402254142BE81942, 6, 0x3FFED8E5EBC169CC, 0x3FAA0446916DF412, 0, 0), "3456127889",   (13, 0),  None),
    ((0x402254142BE88BB0, 7, 0x3FE1B43F6420E74C, 0x3FBAFFCD3256403A, 1, 1), "2165437889",   (15, 13), None),
    ((0x402254142BE8FE27, 7, 0x3FF2DB5B785F7D82, 0x3FB1AD25A34269AB, 0, 0), "2345617889",   (1,  10), None),
    ((0x402254142BE97096, 5, 0x3FFCDC973EAE875E, 0x3FC053CB848993E1, 1, 0), "4321657889",   (2,  7),  None),
    ((0x402254142BE9E305, 5, 0x3FDB774C13F644E8, 0x3FDC24C3D388AC9D, 0, 0), EIGHT,          (12, 3),  None),
    ((0x402254142BEA5574, 6, 0x3FF0DF0ECB4C9B14, 0x3FC3534FD4A071FD, 1, 1), "5432167889",   (14, 0),  None),
    ((0x402254142BEAC7EA, 6, 0x3FFAE04A919BA4F0, 0x3FB4260BFB939CA1, 0, 0), "12345679",     (0,  13), None),
    ((0x402254142BEB3A5A, 7, 0x3FD386115FAABB30, 0x3FBE98D56CB58C33, 1, 0), "6123457889",   (1,  10), None),
    ((0x402254142BEBACC8, 7, 0x3FEDC5803C737150, 0x3FB5462FB9E926C0, 2, 0), "1654327889",   (11, 7),  None),
    ((0x402254142BEC1F38, 5, 0x3FF8E3FDE488C282, 0x3FC75C02252C9119, 0, 1), "5612347889",   (13, 3),  None),
    ((0x402254142BEC91AE, 5, 0x3FC729CD56BE62F0, 0x3FA48CCA932E7113, 2, 0), "2165437889",   (23, 0),  None),
    ((0x402254142BED041D, 6, 0x3FE9CCEAE24DAC74, 0x3FC6E5442E0EC349, 0, 0), "3456127889",   (1,  13), None),
    ((0x402254142BED768C, 6, 0x3FF6E7B13775E014, 0x3FBB49F85FAB52E6, 2, 0), "4321657889",   (10, 10), None),
    ((0x402254142BEDE902, 7, 0x3FAD1D9FB89D3E00, 0x3F91B5A9371DCBD4, 0, 1), "2345617889",   (12, 7),  None),
    ((0x402254142BEE5B72, 7, 0x3FE5D44D8827E798, 0x3FB8DF39D08FE3D7, 2, 0), "5432167889",   (22, 3),  None),
    ((0x402254142BEECDE0, 5, 0x3FF4EB628A62FDA8, 0x3FCE6438C5CF8E52, 0, 0), EIGHT,          (0,  0),  None),
    ((0x402254142BEF4050, 5, 0x3FFEEC9E50B20782, 0x3FB856D28ADD32F9, 1, 0), "6123457889",   (9,  13), None),
    // 463. NaNs with a payload, quiet and signalling, of either sign, each as amplitude, as max time and as interval.
    ((0x7FF9123456789ABC, 5, 0xFFFB2D3E4F506172, 0x7FF3C1D2E3F40516, 0, 0), "6543217889", (3, 45), None),
    ((0xFFFB2D3E4F506172, 5, 0x7FF3C1D2E3F40516, 0xFFF4A5B6C7D8E9FA, 0, 0), "4261537889", (3, 45), None),
    ((0x7FF3C1D2E3F40516, 5, 0xFFF4A5B6C7D8E9FA, 0x7FF9123456789ABC, 0, 0), "3516247889", (3, 45), None),
    ((0xFFF4A5B6C7D8E9FA, 5, 0x7FF9123456789ABC, 0xFFFB2D3E4F506172, 0, 0), TWO,          (3, 45), None),
];
