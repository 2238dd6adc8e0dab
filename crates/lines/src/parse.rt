// A line of at most 64 bytes: a word and its numbers.
ghost use Rattle.std.specs.Prelude.{◌≡◌};
ghost use Rattle.std.specs.Str.{bytes_eq};
ghost use Rattle.lines.specs.Lines.{command, line_of};

use crate::Line;
use crate::numbers::read_number;
use arrayvec::ArrayVec;
use machine::Call;

// Whether a field is a word. A function, as `==` takes no slice beside an array such as `b"next"`.
fn is(field: &[u8], word: &[u8]) -> bool
    ensures { result ≡ bytes_eq field.now word.now }
{
    field == word
}

// The word says what the numbers are.
#[tactic(auto, using(crate::proofs::Commands::numbers), unfolding(crate::specs::Lines::command))]
fn command(word: &[u8], numbers: &[u32]) -> Option<Line>
    ensures { result ≡ command word.now numbers.now }
{
    match numbers {
        [] if is(word, b"collect") => Some(Line::Collect),
        [] if is(word, b"census") => Some(Line::Census),
        &[w] if is(word, b"next") => Some(Line::Write(w, Call::Next)),
        &[w] if is(word, b"answer") => Some(Line::Write(w, Call::Answer)),
        &[w, r] if is(word, b"drop") => Some(Line::Write(w, Call::Drop(r))),
        &[w, s] if is(word, b"create") => Some(Line::Write(w, Call::Create(s))),
        &[w, r, s] if is(word, b"copy") => Some(Line::Write(w, Call::Copy(r, s))),
        &[w, p, s] if is(word, b"page") => Some(Line::Write(w, Call::Page(p, s))),
        &[n, g, m] if is(word, b"start") => Some(Line::Start(n, g, m)),
        &[w, r, f, s] if is(word, b"read") => Some(Line::Write(w, Call::Read(r, f, s))),
        &[w, r, f, q] if is(word, b"store") => Some(Line::Write(w, Call::Store(r, f, q))),
        _ => None,
    }
}

pub fn parse_line(s: &[u8]) -> Option<Line>
    ensures { result ≡ line_of s.now }
{
    if 64 < s.len() {
        return None;
    }
    let mut fields = s.split(|b| *b == b'\t');
    let word = fields.next()?;
    // No line has more than four numbers.
    let mut numbers = ArrayVec::<u32, 4>::new();
    for field in fields {
        numbers.try_push(read_number(field)?).ok()?;
    }
    command(word, &numbers)
}
