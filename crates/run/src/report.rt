// The lines that the program prints, written into lent bytes. The methods are called where there is room.
ghost use Rattle.std.specs.Prelude.{◌≡◌, ◌+◌, ◌*◌, ◌≤◌, length, nat_le};
ghost use Rattle.run.specs.Report.{outcome_word, mass_text, spaced, frame_line, outcome_line, refusal_line, refusal_at_line, longest, writing, after_writing};
ghost use Rattle.run.specs.Outcome.{meant_by};
ghost use Rattle.run.specs.Written.{Room, Written};

use crate::outcome::Outcome;
use crate::writer::Writer;
use vectors::answer::fits;

// Room for any line that is no frame.
pub(crate) const LONGEST: usize = 64;

// Where the line that was written ends; `None` where there was too little room, and nothing was written.
pub fn write_frame(out: &mut [u8], at: usize, frame: &[f64]) -> Option<usize>
    ensures { after_writing result out.new ≡ writing at (frame_line frame.now) out.old }
{
    if !frame_fits(out.len(), at, frame.len()) {
        return None;
    }
    let mut w = Writer { out, at };
    w.frame(frame);
    Some(w.at)
}

pub fn write_outcome(out: &mut [u8], at: usize, o: Outcome, steps: u32, time: f64) -> Option<usize>
    ensures { after_writing result out.new ≡ writing at (outcome_line (meant_by o) steps time) out.old }
{
    let mut line = [0u8; LONGEST];
    let mut w = Writer {
        out: &mut line,
        at: 0,
    };
    w.outcome(o, steps, time);
    let end = w.at;
    write_text(out, at, &line[..end])
}

// A refusal without a position.
pub fn write_refusal(out: &mut [u8], at: usize, number: u8) -> Option<usize>
    ensures { after_writing result out.new ≡ writing at (refusal_line number) out.old }
{
    let mut line = [0u8; LONGEST];
    let mut w = Writer {
        out: &mut line,
        at: 0,
    };
    w.refusal(number);
    let end = w.at;
    write_text(out, at, &line[..end])
}

pub fn write_refusal_at(out: &mut [u8], at: usize, number: u8, position: usize) -> Option<usize>
    ensures { after_writing result out.new ≡ writing at (refusal_at_line number position) out.old }
{
    let mut line = [0u8; LONGEST];
    let mut w = Writer {
        out: &mut line,
        at: 0,
    };
    w.refusal_at(number, position);
    let end = w.at;
    write_text(out, at, &line[..end])
}

// A whole text, or nothing. Here and above, memory and place are the caller's: a `Writer` is made once there is room.
fn write_text(out: &mut [u8], at: usize, text: &[u8]) -> Option<usize>
    ensures { after_writing result out.new ≡ writing at text.now out.old }
{
    if !fits(out.len(), at, text.len()) {
        return None;
    }
    let mut w = Writer { out, at };
    w.extend(text);
    Some(w.at)
}

// Whether the line of a frame of `count` numbers fits from `at` on in `len` bytes: 17 for each number with its space, 6 for the word and the newline.
fn frame_fits(len: usize, at: usize, count: usize) -> bool
    ensures { result ≡ nat_le (at + (6 + 17 * count)) len }
{
    len >= 6 && count <= (len - 6) / 17 && fits(len, at, 6 + 17 * count)
}

#[tactic(auto, unfolding(crate::specs::Outcome::meant_by, crate::specs::Report::outcome_word, crate::specs::Ascii::bytes_of))]
fn word_of(o: Outcome) -> &'static [u8]
    ensures { (result.now ≡ outcome_word (meant_by o)) × (length result.now ≤ 8) }
{
    match o {
        Outcome::Collapse(_) => b"collapse",
        Outcome::Broken => b"broken",
        Outcome::Timeout => b"timeout",
        Outcome::Spent => b"spent",
    }
}

// Each asks for the room that it may need. Three ask for the same: a writer with that room in its type would be made for each line anew.
impl Writer<'_, u8> {
    pub(crate) fn frame(&mut self, frame: &[f64])
        requires { Room (6 + 17 * length frame.now) self.old }
        ensures { Written (6 + 17 * length frame.now) (frame_line frame.now) self.old self.new }
    {
        self.extend(b"frame");
        for x in frame {
            self.float(*x);
        }
        self.extend(b"\n");
    }

    pub(crate) fn outcome(&mut self, o: Outcome, steps: u32, time: f64)
        requires { Room longest self.old }
        ensures { Written longest (outcome_line (meant_by o) steps time) self.old self.new }
    {
        self.extend(word_of(o));
        self.decimal(steps as u64);
        self.float(time);
        self.mass(o);
        self.extend(b"\n");
    }

    #[tactic(auto, using(crate::specs::Written::wider), unfolding(crate::specs::Outcome::meant_by, crate::specs::Report::mass_text, crate::specs::Report::none_word, crate::specs::Ascii::bytes_of))]
    fn mass(&mut self, o: Outcome)
        requires { Room 17 self.old }
        ensures { Written 17 (spaced (mass_text (meant_by o))) self.old self.new }
    {
        match o {
            Outcome::Collapse(mass) => self.float(mass),
            Outcome::Broken | Outcome::Timeout | Outcome::Spent => self.extend(b" none"),
        }
    }

    pub(crate) fn refusal(&mut self, number: u8)
        requires { Room longest self.old }
        ensures { Written longest (refusal_line number) self.old self.new }
    {
        self.extend(b"refused");
        self.decimal(number as u64);
        self.extend(b"\n");
    }

    pub(crate) fn refusal_at(&mut self, number: u8, position: usize)
        requires { Room longest self.old }
        ensures { Written longest (refusal_at_line number position) self.old self.new }
    {
        self.extend(b"refused");
        self.decimal(number as u64);
        self.decimal(position as u64);
        self.extend(b"\n");
    }
}
