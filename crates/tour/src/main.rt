// A small site: one writer makes a cell, drops it, and a whole cycle of the collector takes it back. A line is written for each call:
// who made it, and what it answered. Then the colours, and the most turns that a cycle of this store, and of the largest, takes.
#![tactic(auto)]

use machine::{Answer, Call, Record, Refusal, Row};
use moves::cycle_bound;
use std::io;

// The memory of two cells, one page and one writer.
#[derive(Drop)]
struct Site {
    rec: Record,
    desk: [Row; 1],
    fields: [u16; 8],
    colours: [u8; 2],
}

fn say(rt: &impl Print, who: &str, answer: Result<Answer, Refusal>) -> io::Result<()> {
    match answer {
        Ok(answer) => println!(rt; "{who} {answer}"),
        Err(refusal) => println!(rt; "{who} {refusal}"),
    }
}

impl Site {
    // Memory as it comes: start fills it.
    fn blank() -> Site {
        Site {
            rec: Record::fresh(0, 0, 0),
            desk: [Row::fresh()],
            fields: [0; 8],
            colours: [9; 2],
        }
    }

    fn start(&mut self) -> Result<Answer, Refusal> {
        turn::start(
            2,
            1,
            1,
            &mut self.rec,
            &mut self.desk,
            &mut self.fields,
            &mut self.colours,
        )
    }

    // A turn of writer 0.
    fn writes(&mut self, rt: &impl Print, call: Call) -> io::Result<()> {
        let answer = turn::write(
            &self.rec,
            &mut self.desk,
            &mut self.fields,
            &mut self.colours,
            0,
            call,
        );
        say(rt, "writer", answer)
    }

    // So many turns in which writer 0 goes on with its job.
    fn nexts(&mut self, rt: &impl Print, turns: u64) -> io::Result<()> {
        for _ in 0..turns {
            self.writes(rt, Call::Next)?;
        }
        Ok(())
    }

    // So many turns of the collector.
    fn collects(&mut self, rt: &impl Print, turns: u64) -> io::Result<()> {
        for _ in 0..turns {
            let answer = turn::collect(&mut self.rec, &self.desk, &self.fields, &mut self.colours);
            say(rt, "collector", answer)?;
        }
        Ok(())
    }
}

fn bound(rt: &impl Print, n: u16, g: u16) -> io::Result<()> {
    println!(rt; "at most {} turns", cycle_bound(n, g))
}

fn main(rt: HostRuntime) -> io::Result<()> {
    let mut site = Site::blank();
    if let Err(refusal) = site.start() {
        return println!(rt; "start {refusal}");
    }
    site.writes(&rt, Call::Create(0))?;
    site.nexts(&rt, 2)?;
    site.writes(&rt, Call::Drop(0))?;
    site.collects(&rt, 2)?;
    site.writes(&rt, Call::Answer)?;
    site.collects(&rt, 1)?;
    site.writes(&rt, Call::Answer)?;
    site.collects(&rt, 1)?;
    site.writes(&rt, Call::Answer)?;
    site.nexts(&rt, 9)?;
    site.collects(&rt, 20)?;
    let [page, cell] = site.colours;
    println!(rt; "{} turns, colours {page} {cell}", site.rec.count)?;
    bound(&rt, 2, 1)?;
    bound(&rt, 4096, 16)
}
