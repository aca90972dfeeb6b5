// exp of document 01 ("exp, ours"): specs/Exp.antt writes it down.
ghost use Rattle.std.specs.Prelude.{◌≡◌, map, ◌<◌, All};
ghost use Rattle.std.specs.Bool.{OnTrue};
ghost use Rattle.vectors.specs.Exp.{exp_of, fraction_of};
ghost use Rattle.vectors.specs.ExpInside.{Inside};
ghost use Rattle.vectors.specs.ExpTable.{mantissa_of};

use crate::bits::power_of_two;

pub fn exp(x: f64) -> f64
    ensures { result ≡ exp_of x }
{
    if x.is_nan() {
        return x;
    }
    if x >= 709.0 {
        return f64::INFINITY;
    }
    if x <= -708.0 {
        return 0.0;
    }
    exp_inside(x)
}

// exp of each number, in place.
// Where all are between the limits no number is tested on its way, and the compiler takes two at a time.
pub fn exp_all(values: &mut [f64])
    ensures { values.new ≡ map exp_of values.old }
{
    if all_inside(values) {
        each(values, exp_inside);
    } else {
        each(values, exp);
    }
}

// Whether all are between the limits, with no branch on the way.
fn all_inside(values: &[f64]) -> bool
    ensures { OnTrue result (All Inside values.now) }
{
    let mut all = true;
    for x in values {
        all &= inside(*x);
    }
    all
}

// Whether x is, with no branch. A NaN is not.
fn inside(x: f64) -> bool
    ensures { OnTrue result (Inside x) }
{
    (x < 709.0) & (x > -708.0)
}

// exp of each number, by a function that gives it for all of them.
fn each<F: Fn(f64) -> f64>(values: &mut [f64], exp: F)
    requires callable { All (F.pre exp) values.old }
    requires gives { (x y : _) → F.post exp x y → y ≡ exp_of x }
    ensures { values.new ≡ map exp_of values.old }
{
    for x in values.iter_mut() {
        *x = exp(*x);
    }
}

// 01's a, b and c: the bits 3FF71547652B82FE, 3FE62E42FEE00000 and 3DEA39EF35793C76.
// They stand for 1/ln 2, the high part of ln 2, and what is left of it.
const A: f64 = 1.4426950408889634;

const B: f64 = 0.6931471803691238;

const C: f64 = 1.9082149292705877e-10;

// 3 × 2^51. A sum near it has no room for a fraction, so adding it rounds to the nearest whole number, ties to even.
const SHIFT: f64 = 6755399441055744.0;

// SHIFT's bits, less 2^18. The sum is a whole number from 2^52 to 2^53, so its bits go up with it one by one: less this they are N + 2^18, which is above 0.
const SHIFT_BELOW: u64 = 0x4337FFFFFFFC0000;

// exp between the limits, which asks for no test.
fn exp_inside(x: f64) -> f64
    requires { Inside x }
    ensures { result ≡ exp_of x }
{
    let shifted = x * (256.0 * A) + SHIFT;
    let n = shifted - SHIFT;
    let r = (x - n * (B / 256.0)) - n * (C / 256.0);
    let p = 1.0 + r * (1.0 + r * (1.0 / 2.0 + r * (1.0 / 6.0 + r * (1.0 / 24.0))));
    let i = shifted.to_bits() - SHIFT_BELOW;
    (fraction((i % 256) as usize) * p) * power_of_two(i / 256)
}

// T_j = m / 2^52, for j below 256. m is at least 2^52 and below 2^53, so it is T_j's bits but for the exponent's field, which is 1022 more.
fn fraction(j: usize) -> f64
    requires { j < 256 }
    ensures { result ≡ fraction_of j }
{
    f64::from_bits(mantissa(j) + 0x3FE0000000000000)
}

// The m of T_j.
fn mantissa(j: usize) -> u64
    requires { j < 256 }
    ensures { result ≡ mantissa_of j }
{
    MANTISSAS[j]
}

// Entry j is the largest m with m^256 <= 2^(j + 52 × 256).
static MANTISSAS: [u64; 256] = [
    0x10000000000000,
    0x100B1AFA5ABCBE,
    0x10163DA9FB3335,
    0x102168143B0280,
    0x102C9A3E778060,
    0x1037D42E11BBCC,
    0x104315E86E7F84,
    0x104E5F72F654B1,
    0x1059B0D3158574,
    0x10650A0E3C1F88,
    0x10706B29DDF6DD,
    0x107BD42B72A836,
    0x10874518759BC8,
    0x1092BDF66607DF,
    0x109E3ECAC6F383,
    0x10A9C79B1F3919,
    0x10B5586CF9890F,
    0x10C0F145E46C85,
    0x10CC922B7247F7,
    0x10D83B23395DEB,
    0x10E3EC32D3D1A2,
    0x10EFA55FDFA9C4,
    0x10FB66AFFED31A,
    0x11073028D7233E,
    0x111301D0125B50,
    0x111EDBAB5E2AB5,
    0x112ABDC06C31CB,
    0x1136A814F204AA,
    0x11429AAEA92DDF,
    0x114E95934F312D,
    0x115A98C8A58E51,
    0x1166A45471C3C2,
    0x1172B83C7D517A,
    0x117ED48695BBC0,
    0x118AF9388C8DE9,
    0x11972658375D2F,
    0x11A35BEB6FCB75,
    0x11AF99F8138A1C,
    0x11BBE084045CD3,
    0x11C82F95281C6B,
    0x11D4873168B9AA,
    0x11E0E75EB44026,
    0x11ED5022FCD91C,
    0x11F9C18438CE4C,
    0x12063B88628CD6,
    0x1212BE3578A819,
    0x121F49917DDC96,
    0x122BDDA27912D1,
    0x12387A6E756238,
    0x12451FFB82140A,
    0x1251CE4FB2A63F,
    0x125E85711ECE75,
    0x126B4565E27CDD,
    0x12780E341DDF29,
    0x1284DFE1F56380,
    0x1291BA7591BB6F,
    0x129E9DF51FDEE1,
    0x12AB8A66D10F12,
    0x12B87FD0DAD98F,
    0x12C57E39771B2E,
    0x12D285A6E4030B,
    0x12DF961F641589,
    0x12ECAFA93E2F56,
    0x12F9D24ABD886A,
    0x1306FE0A31B715,
    0x131432EDEEB2FD,
    0x132170FC4CD831,
    0x132EB83BA8EA31,
    0x133C08B26416FF,
    0x13496266E3FA2C,
    0x1356C55F929FF0,
    0x136431A2DE883A,
    0x1371A7373AA9CA,
    0x137F26231E7549,
    0x138CAE6D05D865,
    0x139A401B7140EE,
    0x13A7DB34E59FF6,
    0x13B57FBFEC6CF4,
    0x13C32DC313A8E4,
    0x13D0E544EDE173,
    0x13DEA64C123422,
    0x13EC70DF1C5174,
    0x13FA4504AC801B,
    0x140822C367A024,
    0x14160A21F72E29,
    0x1423FB27094689,
    0x1431F5D950A896,
    0x143FFA3F84B9D4,
    0x144E086061892D,
    0x145C2042A7D231,
    0x146A41ED1D0057,
    0x14786D668B3236,
    0x1486A2B5C13CD0,
    0x1494E1E192AED1,
    0x14A32AF0D7D3DE,
    0x14B17DEA6DB7D6,
    0x14BFDAD5362A27,
    0x14CE41B817C114,
    0x14DCB299FDDD0D,
    0x14EB2D81D8ABFE,
    0x14F9B2769D2CA6,
    0x1508417F4531EE,
    0x1516DAA2CF6641,
    0x15257DE83F4EEE,
    0x15342B569D4F81,
    0x1542E2F4F6AD27,
    0x1551A4CA5D920E,
    0x156070DDE910D1,
    0x156F4736B527DA,
    0x157E27DBE2C4CE,
    0x158D12D497C7FD,
    0x159C0827FF07CB,
    0x15AB07DD485429,
    0x15BA11FBA87A02,
    0x15C9268A5946B7,
    0x15D84590998B92,
    0x15E76F15AD2148,
    0x15F6A320DCEB70,
    0x1605E1B976DC08,
    0x16152AE6CDF6F4,
    0x16247EB03A5584,
    0x1633DD1D1929FD,
    0x16434634CCC31F,
    0x1652B9FEBC8FB6,
    0x16623882552224,
    0x1671C1C70833F5,
    0x168155D44CA973,
    0x1690F4B19E9538,
    0x16A09E667F3BCC,
    0x16B052FA75173E,
    0x16C012750BDABE,
    0x16CFDCDDD47645,
    0x16DFB23C651A2E,
    0x16EF9298593AE4,
    0x16FF7DF9519483,
    0x170F7466F42E87,
    0x171F75E8EC5F73,
    0x172F8286EAD089,
    0x173F9A48A58173,
    0x174FBD35D7CBFD,
    0x175FEB564267C8,
    0x177024B1AB6E09,
    0x1780694FDE5D3F,
    0x1790B938AC1CF6,
    0x17A11473EB0186,
    0x17B17B0976CFDA,
    0x17C1ED0130C132,
    0x17D26A62FF86F0,
    0x17E2F336CF4E62,
    0x17F3878491C490,
    0x180427543E1A11,
    0x1814D2ADD106D9,
    0x182589994CCE12,
    0x18364C1EB941F7,
    0x18471A4623C7AC,
    0x1857F4179F5B20,
    0x1868D99B4492EC,
    0x1879CAD931A436,
    0x188AC7D98A6699,
    0x189BD0A478580F,
    0x18ACE5422AA0DB,
    0x18BE05BAD61778,
    0x18CF3216B5448B,
    0x18E06A5E0866D8,
    0x18F1AE99157736,
    0x1902FED0282C8A,
    0x19145B0B91FFC5,
    0x1925C353AA2FE1,
    0x193737B0CDC5E4,
    0x1948B82B5F98E4,
    0x195A44CBC8520E,
    0x196BDD9A7670B2,
    0x197D829FDE4E4F,
    0x198F33E47A22A2,
    0x19A0F170CA07B9,
    0x19B2BB4D53FE0C,
    0x19C49182A3F090,
    0x19D674194BB8D4,
    0x19E86319E32323,
    0x19FA5E8D07F29D,
    0x1A0C667B5DE564,
    0x1A1E7AED8EB8BB,
    0x1A309BEC4A2D33,
    0x1A42C980460AD7,
    0x1A5503B23E255C,
    0x1A674A8AF46052,
    0x1A799E1330B358,
    0x1A8BFE53C12E58,
    0x1A9E6B5579FDBF,
    0x1AB0E521356EBA,
    0x1AC36BBFD3F379,
    0x1AD5FF3A3C2774,
    0x1AE89F995AD3AD,
    0x1AFB4CE622F2FE,
    0x1B0E07298DB665,
    0x1B20CE6C9A8952,
    0x1B33A2B84F15FA,
    0x1B468415B749B0,
    0x1B59728DE55939,
    0x1B6C6E29F1C52A,
    0x1B7F76F2FB5E46,
    0x1B928CF22749E3,
    0x1BA5B030A10649,
    0x1BB8E0B79A6F1E,
    0x1BCC1E904BC1D2,
    0x1BDF69C3F3A206,
    0x1BF2C25BD71E08,
    0x1C06286141B33C,
    0x1C199BDD85529C,
    0x1C2D1CD9FA652B,
    0x1C40AB5FFFD07A,
    0x1C544778FAFB22,
    0x1C67F12E57D14B,
    0x1C7BA88988C932,
    0x1C8F6D9406E7B5,
    0x1CA3405751C4DA,
    0x1CB720DCEF9069,
    0x1CCB0F2E6D1674,
    0x1CDF0B555DC3F9,
    0x1CF3155B5BAB73,
    0x1D072D4A07897B,
    0x1D1B532B08C968,
    0x1D2F87080D89F1,
    0x1D43C8EACAA1D6,
    0x1D5818DCFBA487,
    0x1D6C76E862E6D3,
    0x1D80E316C98397,
    0x1D955D71FF6075,
    0x1DA9E603DB3285,
    0x1DBE7CD63A8314,
    0x1DD321F301B460,
    0x1DE7D5641C0657,
    0x1DFC97337B9B5E,
    0x1E11676B197D16,
    0x1E264614F5A128,
    0x1E3B333B16EE11,
    0x1E502EE78B3FF6,
    0x1E653924676D75,
    0x1E7A51FBC74C83,
    0x1E8F7977CDB73F,
    0x1EA4AFA2A490D9,
    0x1EB9F4867CCA6E,
    0x1ECF482D8E67F0,
    0x1EE4AAA2188510,
    0x1EFA1BEE615A27,
    0x1F0F9C1CB64129,
    0x1F252B376BBA97,
    0x1F3AC948DD7273,
    0x1F50765B6E4540,
    0x1F6632798844F8,
    0x1F7BFDAD9CBE13,
    0x1F91D802243C88,
    0x1FA7C1819E90D8,
    0x1FBDBA3692D513,
    0x1FD3C22B8F71F1,
    0x1FE9D96B2A23D9,
];
