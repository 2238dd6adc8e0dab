// An output line as it is written. With room for ten digits of each number, 77 bytes hold it: a number and a tab, six numbers parted
// by tabs, the line's end. Not by `write!`: it promises its text where it returns `Ok`, and never that it does.
#![tactic(auto, using(crate::proofs::Digits::std_decimal, std::proofs::Common::append_assoc), unfolding(crate::specs::Output::tabbed, crate::specs::Output::parted, crate::specs::Output::word_text, crate::specs::Output::said_text, crate::specs::Output::said_of, crate::specs::Output::out_line, machine::specs::Answer::said_by, machine::specs::Answer::said_by_census))]

ghost use Rattle.std.specs.Prelude.{◌≡◌, [], ◌∷◌, ◌++◌, ◌≤◌, ◌<◌, ◌+◌, length};
ghost use Rattle.arrayvec.specs.ArrayVec.{array_vec_len};
ghost use Rattle.lines.specs.Numbers.{decimal};
ghost use Rattle.lines.specs.Output.{tabbed, said_of, said_text, out_line};

use crate::Reply;
use arrayvec::{ArrayString, ArrayVec};
use itoa::Buffer;
use machine::{Answer, Refusal};

// The bytes of the longest output line.
pub const LONGEST: usize = 77;

#[derive(Clone, Copy)]
struct OutLine {
    text: ArrayString<LONGEST>,
}

impl OutLine {
    fn new() -> OutLine
        ensures { result.text.bytes ≡ [] }
    {
        OutLine {
            text: ArrayString::new(),
        }
    }

    fn number(&mut self, n: u32)
        requires { length self.old.text.bytes + 10 ≤ 77 }
        ensures text { self.new.text.bytes ≡ self.old.text.bytes ++ decimal n }
        ensures fits { length self.new.text.bytes ≤ length self.old.text.bytes + 10 }
    {
        let mut digits = Buffer::new();
        self.text.push_str(digits.format(n));
    }

    fn tabbed(&mut self, n: u32)
        requires { length self.old.text.bytes + 11 ≤ 77 }
        ensures text { self.new.text.bytes ≡ self.old.text.bytes ++ tabbed n }
        ensures fits { length self.new.text.bytes ≤ length self.old.text.bytes + 11 }
    {
        self.number(n);
        self.text.push('\t');
    }

    fn reply(&mut self, reply: Result<Reply, Refusal>)
        requires { length self.old.text.bytes + 65 ≤ 77 }
        ensures text { self.new.text.bytes ≡ self.old.text.bytes ++ said_text (said_of reply) }
        ensures fits { length self.new.text.bytes ≤ length self.old.text.bytes + 65 }
    {
        match reply {
            Ok(Reply::Answered(answer)) => self.text.push_str(match answer {
                Answer::Done => "done",
                Answer::More => "more",
                Answer::Worked => "worked",
                Answer::Waited => "waited",
            }),
            Ok(Reply::Counted(counts)) => {
                self.tabbed(counts.free.into());
                self.tabbed(counts.white.into());
                self.tabbed(counts.gray.into());
                self.tabbed(counts.black.into());
                self.tabbed(counts.held.into());
                self.number(counts.floating.into());
            }
            Err(refusal) => {
                self.text.push_str("refused ");
                self.number(refusal.number().into());
            }
        }
    }
}

// Appends an output line to output that has room for it.
pub fn put_reply<const N: usize>(
    out: &mut ArrayVec<u8, N>,
    number: u32,
    reply: Result<Reply, Refusal>,
)
    requires { array_vec_len out.old + 77 ≤ N }
    ensures wrote { out.new.items ≡ out.old.items ++ out_line number (said_of reply) }
    ensures upper_bound { array_vec_len out.new ≤ array_vec_len out.old + 77 }
{
    let mut line = OutLine::new();
    line.tabbed(number);
    line.reply(reply);
    line.text.push('\n');
    out.try_extend_from_slice(line.text.as_bytes()).unwrap();
}
