// The player between reads: bytes come in any cut, output lines go into its buffer.
ghost use Rattle.std.specs.Prelude.{◌≡◌, ◌≢◌, ◌+◌, ◌≤◌, ◌<◌, ℕ, List, [], ◌∷◌, ◌++◌, drop, length, All};
ghost use Rattle.player.specs.Play.{output, unended, HasRoom, goes_on, total};
ghost use Rattle.player.specs.Cut.{Begins, Emptied};

use crate::store::OwnStore;
use arrayvec::ArrayVec;
use lines::{LONGEST, parse_line, put_reply};

#[derive(Clone, Drop)]
pub struct Player {
    store: OwnStore,
    // the bytes of the line so far, or 65 of a longer one, which is unreadable
    line: ArrayVec<u8, 65>,
    // output lines that are not written yet
    out: ArrayVec<u8, 65536>,
    // lines answered
    count: u32,
}

impl Player {
    // Before any start.
    pub fn new() -> Player
        ensures { Begins result }
    {
        Player {
            store: OwnStore::new(),
            line: ArrayVec::new(),
            out: ArrayVec::new(),
            count: 0,
        }
    }

    // More bytes of a line: of a longer one 65 are kept.
    #[tactic(auto, using(crate::proofs::Plays::kept))]
    fn keep(&mut self, bytes: &[u8])
        requires { All (λ b. b ≢ 10) bytes.now }
        ensures out { self.new.out ≡ self.old.out }
        ensures text { (rest : List ℕ) → total self.new rest ≡ total self.old (bytes.now ++ rest) }
    {
        let kept = bytes.len().min(self.line.remaining_capacity());
        self.line.try_extend_from_slice(&bytes[..kept]).unwrap();
    }

    // The line is at its end. That there is room is asked of three methods: how full the output is changes with each line, so no type holds it.
    #[tactic(auto, using(crate::proofs::Plays::answered, crate::proofs::Plays::unanswered))]
    fn end_line(&mut self)
        requires { HasRoom self.old }
        ensures line { unended self.new ≡ [] }
        ensures upper_bound { length (output self.new) ≤ length (output self.old) + 77 }
        ensures text { (rest : List ℕ) → total self.new rest ≡ total self.old (10 ∷ rest) }
    {
        let line = parse_line(&self.line);
        self.line.clear();
        if self.goes_on() {
            self.count += 1;
            let reply = self.store.play(line);
            put_reply(&mut self.out, self.count, reply);
        }
    }

    // The bytes of a chunk until a line's end, which is played, or the chunk's: how many there are.
    fn take_line(&mut self, chunk: &[u8]) -> usize
        requires { HasRoom self.old }
        ensures some { 0 < length chunk.now → 0 < result }
        ensures bound { result ≤ length chunk.now }
        ensures text { (rest : List ℕ) → total self.new (drop result chunk.now ++ rest) ≡ total self.old (chunk.now ++ rest) }
    {
        match chunk.iter().position(|b| *b == b'\n') {
            Some(end) => {
                self.keep(&chunk[..end]);
                self.end_line();
                end + 1
            }
            None => {
                self.keep(chunk);
                chunk.len()
            }
        }
    }

    // Plays bytes of a chunk, until it is at its end or the output buffer is nearly full: how many there are.
    pub fn feed(&mut self, chunk: &[u8]) -> usize
        ensures some { HasRoom self.old → 0 < length chunk.now → 0 < result }
        ensures bound { result ≤ length chunk.now }
        ensures text { (rest : List ℕ) → total self.new (drop result chunk.now ++ rest) ≡ total self.old (chunk.now ++ rest) }
    {
        // A place, not a slice that shrinks: the place is the answer.
        let mut next = 0;
        while next < chunk.len() && LONGEST <= self.out.remaining_capacity() {
            next += self.take_line(&chunk[next..]);
        }
        next
    }

    // The text is at its end: bytes after the last line end are a line too.
    #[tactic(auto, using(crate::proofs::Plays::no_line))]
    pub fn finish(&mut self)
        requires { HasRoom self.old }
        ensures line { unended self.new ≡ [] }
        ensures upper_bound { length (output self.new) ≤ length (output self.old) + 77 }
        ensures text { output self.new ≡ total self.old [] }
    {
        if !self.line.is_empty() {
            self.end_line();
        }
    }

    // The output that is not written yet.
    pub fn output(&self) -> &[u8]
        ensures { result.now ≡ output self.now }
    {
        &self.out
    }

    // The output was written.
    pub fn written(&mut self)
        ensures { Emptied self.old self.new }
    {
        self.out.clear();
    }

    // Whether lines may follow: after the last output line there is none.
    pub fn goes_on(&self) -> bool
        ensures { result ≡ goes_on self.now }
    {
        self.count < u32::MAX
    }
}
