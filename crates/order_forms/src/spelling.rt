// 02, request 2: one spelling for each order.
ghost use Rattle.std.specs.Prelude.{◌+◌, ◌≡◌, ◌≤◌, ◌∷◌, length};
ghost use Rattle.run.specs.WriteLaws.{Wrote};
ghost use Rattle.order_forms.specs.Spelling.{spelled_of, after_spelling, spelling};
ghost use Rattle.order_forms.specs.Writing.{Fits};
ghost use Rattle.order_forms.specs.declared.spelling.SpellError.TheVariants.{Faulty};

use run::order::{Misread, Places, read_order};

// Why an order is not spelled.
#[derive(Clone, Copy, Debug, PartialEq, Eq)]
pub enum SpellError {
    // The order is refused: 1 to 4.
    Faulty(Misread),
    // Less room than the order has bytes: 17.
    NoRoom,
}

impl From<Misread> for SpellError {
    ghost from_gives = { λ misread error. error ≡ Faulty misread };

    fn from(misread: Misread) -> SpellError {
        SpellError::Faulty(misread)
    }
}

// A command byte of document 01 and its operand. Answers where they end.
fn put_command(code: u8, operand: &[u8], out: &mut [u8], at: usize) -> usize
    requires { at + (1 + length operand.now) ≤ length out.old }
    ensures { (result ≡ at + (1 + length operand.now)) × Wrote at (code ∷ operand.now) out.old out.new }
{
    let from = at + 1;
    let end = from + operand.len();
    out[at] = code;
    for (i, byte) in operand.iter().enumerate() {
        out[from + i] = *byte;
    }
    end
}

// The whole order with its settings as 01 to 06.
fn put_order(input: &[u8], p: Places, out: &mut [u8])
    requires { Fits (length input.now) p (length out.old) }
    ensures { Wrote 0 (spelled_of input.now p) out.old out.new }
{
    let n = 5 * p.count;
    let level = put_command(1, &input[p.amplitude..p.amplitude + 8], out, 0);
    let max_time = put_command(2, &input[p.level..p.level + 1], out, level);
    let interval = put_command(3, &input[p.max_time..p.max_time + 8], out, max_time);
    let dx_level = put_command(4, &input[p.interval..p.interval + 8], out, interval);
    let skip = put_command(5, &input[p.dx_level..p.dx_level + 1], out, dx_level);
    let begin = put_command(6, &input[p.skip..p.skip + 1], out, skip);
    put_command(7, &input[p.advances..p.advances + n], out, begin);
    out[begin + 1 + n] = 9;
}

// Writes the order's spelling into lent bytes, from the first on. Answers where it ends.
pub fn spell(input: &[u8], out: &mut [u8]) -> Result<usize, SpellError>
    ensures { after_spelling result out.new ≡ spelling input.now out.old }
{
    let order = read_order(input)?;
    let size = input.len();
    if out.len() < size {
        return Err(SpellError::NoRoom);
    }
    put_order(input, order.places, out);
    Ok(size)
}
