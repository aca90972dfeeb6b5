// exp, tan and the powers, at chosen arguments and over lists of 256 arguments.
use cases::arguments::{Range, list};
use cases::digest::digest;
use std::io;
use vectors::bits::{bits_of, of_bits};
use vectors::exp::exp;
use vectors::field_vector::{fourth_power, reciprocal, square};
use vectors::tan::tan;

// As in oracle/arguments.rs.
#[rattlefmt::skip]
const SPECIAL: [u64; 36] = [
    0x0000000000000000, 0x8000000000000000, 0x0000000000000001, 0x8000000000000001, 0x000FFFFFFFFFFFFF, 0x800FFFFFFFFFFFFF,
    0x0010000000000000, 0x8010000000000000, 0x0008000000000000, 0x3C90000000000000, 0x3FF0000000000000, 0xBFF0000000000000,
    0x4000000000000000, 0x3FE62E42FEFA39EF, 0x40862800000000FF, 0x4086280000000001, 0x4086280000000000, 0x408627FFFFFFFFFF,
    0x40862E42FEFA39EF, 0xC086200000000001, 0xC086200000000000, 0xC0861FFFFFFFFFFF, 0xC086232BDD7ABCD2, 0xC0874910D52D3051,
    0x3FF921FB54442D17, 0x3FF921FB54442D18, 0x3FF921FB54442D19, 0xBFF921FB54442D18, 0x3FF921FB54442D16, 0x400921FB54442D18,
    0x7FEFFFFFFFFFFFFF, 0xFFEFFFFFFFFFFFFF, 0x7FF0000000000000, 0xFFF0000000000000, 0x7FF8000000000000, 0xFFF8000000000001,
];

// Arguments whose rounded product with 256 × a lies half way between two whole numbers; oracle/vectors/ties.rs finds them.
#[rattlefmt::skip]
const TIES: [u64; 40] = [
    0x3F562E42FEFA39EF, 0xBF562E42FEFA39EF, 0x3F7BB9D3BEB8C86B, 0xBF7BB9D3BEB8C86B, 0x3F88F40B5ED9812D, 0xBF88F40B5ED9812D,
    0x3FD6447141F93429, 0xBFD6447141F93429, 0x3FE6232BDD7ABCD2, 0xBFE6232BDD7ABCD2, 0x3FE6395A2079B70C, 0xBFE6395A2079B70C,
    0x3FF09D26AE7BECE5, 0xBFF09D26AE7BECE5, 0x3FF628B76E3A7B61, 0xBFF628B76E3A7B61, 0x4005ABF335603BDB, 0xC005ABF335603BDB,
    0x40262EF4711231C1, 0xC0262EF4711231C1, 0x403B13D1814C6FA1, 0xC03B13D1814C6FA1, 0x40562E2CD0B73AF5, 0xC0562E2CD0B73AF5,
    0x40662E37E7D8BA72, 0xC0662E37E7D8BA72, 0x40662E4E161BB96C, 0xC0662E4E161BB96C, 0x4070EC3C1FDA878F, 0xC070EC3C1FDA878F,
    0x40762E488A8AF9AE, 0xC0762E488A8AF9AE, 0x4080EC2E42F0A833, 0xC080EC2E42F0A833, 0x40844EA2E7897668, 0xC0844EA2E7897668,
    0x4086157E15E9BE42, 0xC086157E15E9BE42, 0x40861E2DB3A617BF, 0xC0861E2DB3A617BF,
];

pub fn all(rt: &impl Print) -> io::Result<()> {
    specials(rt, "exp", exp)?;
    chunks(rt, "exp patterns", exp, Range::Patterns, 16)?;
    specials(rt, "tan", tan)?;
    chunks(rt, "tan patterns", tan, Range::Patterns, 4)?;
    specials(rt, "square", square)?;
    chunks(rt, "square patterns", square, Range::Patterns, 4)?;
    specials(rt, "fourth", fourth_power)?;
    chunks(rt, "fourth patterns", fourth_power, Range::Patterns, 4)?;
    specials(rt, "reciprocal", reciprocal)?;
    chunks(rt, "reciprocal patterns", reciprocal, Range::Patterns, 4)?;
    chunks(rt, "exp whole range", exp, Range::Exp, 16)?;
    chunks(rt, "exp near zero", exp, Range::NearZero, 16)?;
    chunks(rt, "tan quarter", tan, Range::Quarter, 4)?;
    chunks(rt, "tan beyond", tan, Range::Ten, 4)?;
    ties(rt)
}

// A function that calls one that it is given has to ask that this may be called. Three do; a struct with that fact for a field
// would be no plainer.
fn specials<F: Fn(f64) -> f64>(rt: &impl Print, name: &str, f: F) -> io::Result<()>
    requires { F.IsAlwaysCallable f }
{
    for b in SPECIAL {
        let answer = bits_of(f(of_bits(b)));
        println!(rt; "{name} special {b:016x} {answer:016x}")?;
    }
    Ok(())
}

// The digests of the function over 256 arguments for each seed.
fn chunks<F: Fn(f64) -> f64>(
    rt: &impl Print,
    name: &str,
    f: F,
    range: Range,
    seeds: u64,
) -> io::Result<()>
    requires { F.IsAlwaysCallable f }
{
    let mut values = [0.0; 256];
    for seed in 1..=seeds {
        list(range as u32, seed, &mut values);
        println!(rt; "{name} {seed} {}", digest(&values.map(|x| f(x))))?;
    }
    Ok(())
}

fn ties(rt: &impl Print) -> io::Result<()> {
    for b in TIES {
        tie(rt, b)?;
        tie(rt, b.wrapping_sub(1))?;
        tie(rt, b.wrapping_add(1))?;
    }
    Ok(())
}

fn tie(rt: &impl Print, b: u64) -> io::Result<()> {
    let answer = bits_of(exp(of_bits(b)));
    println!(rt; "exp tie {b:016x} {answer:016x}")
}
