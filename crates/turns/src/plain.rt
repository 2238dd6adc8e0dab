// Plain numbers and the machine's types, each made of the other. A number that does not fit its type becomes one that is out of range. Narrow
// numbers go by `try_from`; the types' conversions are functions, since the types are another crate's and take no `From` here.
#![tactic(auto, using(std::proofs::lemmas::Bool::Decides::nat_tests), unfolding(crate::specs::Plain::byte_of, crate::specs::Plain::word_of, crate::specs::Plain::hold_of, crate::specs::Plain::record_of, crate::specs::Plain::plan_of, crate::specs::Plain::look_of, crate::specs::Plain::storing_of, crate::specs::Plain::creating_of, crate::specs::Plain::job_of, crate::specs::Plain::row_of, crate::specs::Plain::plan_number, crate::specs::Plain::look_number, crate::specs::Plain::work_task, crate::specs::Plain::task_of, crate::specs::Plain::words_of, crate::specs::Plain::answer_number, crate::specs::Plain::with_row))]

ghost use Rattle.std.specs.Prelude.{◌≡◌, ◌+◌, ◌<◌, ◌≤◌, ◌++◌, length, take, drop, slice_index_or};
ghost use Rattle.std.specs.Option.{MatchOption};
ghost use Rattle.machine.specs.Store.{fresh_row};
ghost use Rattle.machine.specs.declared.Work.{Work};
ghost use Rattle.turns.specs.Plain.{byte_of, word_of, hold_of, record_of, numbers_of, Standing, plan_of, look_of, outside, storing_of, creating_of, job_of, row_of, desk_of, task_with, work_task, task_of, words_of, with_row, answer_number};

use machine::{Answer, Look, Made, Plan, Record, Refusal, Row, Stored, Work};
use turn::desk::fresh_row;

// A job's words, in their order: C has no enum for a kind and its step.
#[derive(Clone, Copy)]
struct Task {
    kind: u16,
    step: u16,
    cell: u16,
    at: u16,
    fresh: u16,
    old: u16,
}

// A number as a byte.
fn byte_of(x: u32) -> u8
    ensures { result ≡ byte_of x }
{
    u8::try_from(x).unwrap_or(255)
}

// A word as a byte.
pub fn short_of(x: u16) -> u8
    ensures { result ≡ byte_of x }
{
    byte_of(u32::from(x))
}

// A number as a word.
fn word_of(x: u32) -> u16
    ensures { result ≡ word_of x }
{
    u16::try_from(x).unwrap_or(65535)
}

// The same of the hold, where the largest word is none.
fn hold_of(x: u32) -> u16
    ensures { result ≡ hold_of x }
{
    u16::try_from(x).unwrap_or(65534)
}

// The record of nine numbers.
pub fn record_of(numbers: &[u32]) -> Record
    requires { length numbers.now ≡ 9 }
    ensures { result ≡ record_of numbers.now }
{
    let &[n, g, m, stage, place, part, hold, found, count] = numbers else {
        unreachable!()
    };
    Record {
        n: word_of(n),
        g: word_of(g),
        m: word_of(m),
        stage: byte_of(stage),
        place: word_of(place),
        part: byte_of(part),
        hold: hold_of(hold),
        found: byte_of(found),
        count,
    }
}

// All but n, g and m, which a turn never changes.
#[tactic(auto, using(crate::proofs::Making::rest_put))]
pub fn put_rest(numbers: &mut [u32], rec: Record)
    requires { Standing numbers.old rec }
    ensures { numbers.new ≡ numbers_of rec }
{
    // One by one: a call of `copy_from_slice` would make a turn of the collector slower.
    numbers[3] = u32::from(rec.stage);
    numbers[4] = u32::from(rec.place);
    numbers[5] = u32::from(rec.part);
    numbers[6] = u32::from(rec.hold);
    numbers[7] = u32::from(rec.found);
    numbers[8] = rec.count;
}

// The nine numbers are written.
pub fn put_record(numbers: &mut [u32], rec: Record)
    requires { length numbers.old ≡ 9 }
    ensures { numbers.new ≡ numbers_of rec }
{
    numbers[..3].copy_from_slice(&[u32::from(rec.n), u32::from(rec.g), u32::from(rec.m)]);
    put_rest(numbers, rec);
}

// A store's plan, by its number.
fn plan_of(step: u16) -> Option<Plan>
    ensures { MatchOption result (8 ≤ step) (λ p. (step < 8) × (p ≡ plan_of step)) }
{
    match step {
        0 => Some(Plan::FullRead),
        1 => Some(Plan::FullOld),
        2 => Some(Plan::FullNew),
        3 => Some(Plan::FullWrite),
        4 => Some(Plan::TracedRead),
        5 => Some(Plan::TracedOld),
        6 => Some(Plan::TracedWrite),
        7 => Some(Plan::BareWrite),
        _ => None,
    }
}

// What a creation's look decided, by its number.
fn look_of(step: u16) -> Option<Look>
    ensures { MatchOption result (3 ≤ step) (λ l. (step < 3) × (l ≡ look_of step)) }
{
    match step {
        0 => Some(Look::Ahead),
        1 => Some(Look::Keep),
        2 => Some(Look::White),
        _ => None,
    }
}

// A job that is out of range.
fn outside() -> Option<Work>
    ensures { result ≡ outside }
{
    Some(Work::Answering(255))
}

fn storing_of(t: Task) -> Option<Work>
    ensures { result ≡ storing_of t }
{
    let Some(plan) = plan_of(t.step) else {
        return outside();
    };
    let s = Stored {
        cell: t.cell,
        field: short_of(t.at),
        new: t.fresh,
        old: t.old,
    };
    Some(Work::Storing(s, plan))
}

fn creating_of(t: Task) -> Option<Work>
    ensures { result ≡ creating_of t }
{
    let Some(look) = look_of(t.step) else {
        return outside();
    };
    let m = Made {
        slot: short_of(t.at),
        cell: t.cell,
        look,
    };
    Some(Work::Creating(m))
}

// The job of six words.
fn job_of(t: Task) -> Option<Work>
    ensures { result ≡ job_of t }
{
    match t.kind {
        0 => None,
        1 => Some(Work::Answering(short_of(t.step))),
        2 => storing_of(t),
        3 => creating_of(t),
        _ => outside(),
    }
}

// The row in 16 words.
fn row_of(words: &[u16; 16]) -> Row
    ensures { result ≡ row_of words.now }
{
    // Indexes: a pattern `slots @ ..` does not take an array out of an array yet.
    let t = Task {
        kind: words[9],
        step: words[10],
        cell: words[11],
        at: words[12],
        fresh: words[13],
        old: words[14],
    };
    let slots = [
        words[1], words[2], words[3], words[4], words[5], words[6], words[7], words[8],
    ];
    Row {
        status: short_of(words[0]),
        slots,
        job: job_of(t),
    }
}

// Row i, or a fresh one where the desk has no row i.
pub fn row_at(desk: &[u16], i: usize) -> Row
    ensures { result ≡ slice_index_or (desk_of desk.now) i fresh_row }
{
    let (rows, _) = desk.as_chunks::<16>();
    rows.get(i).map_or_else(fresh_row, row_of)
}

fn task_with(kind: u16, step: u16, cell: u16, at: u8, fresh: u16, old: u16) -> Task
    ensures { result ≡ task_with kind step cell at fresh old }
{
    Task {
        kind,
        step,
        cell,
        at: u16::from(at),
        fresh,
        old,
    }
}

fn storing_task(s: Stored, p: Plan) -> Task
    ensures { result ≡ work_task (Work.Storing s p) }
{
    task_with(2, p as u16, s.cell, s.field, s.new, s.old)
}

fn creating_task(m: Made) -> Task
    ensures { result ≡ work_task (Work.Creating m) }
{
    task_with(3, m.look as u16, m.cell, m.slot, 0, 0)
}

fn work_task(w: Work) -> Task
    ensures { result ≡ work_task w }
{
    match w {
        Work::Answering(k) => task_with(1, u16::from(k), 0, 0, 0, 0),
        Work::Storing(s, p) => storing_task(s, p),
        Work::Creating(m) => creating_task(m),
    }
}

// A job's six words.
fn task_of(job: Option<Work>) -> Task
    ensures { result ≡ task_of job }
{
    match job {
        None => task_with(0, 0, 0, 0, 0, 0),
        Some(w) => work_task(w),
    }
}

// A row's 16 words.
fn words_of(row: Row) -> [u16; 16]
    ensures { result ≡ words_of row }
{
    let s = row.slots;
    let t = task_of(row.job);
    [
        u16::from(row.status),
        s[0],
        s[1],
        s[2],
        s[3],
        s[4],
        s[5],
        s[6],
        s[7],
        t.kind,
        t.step,
        t.cell,
        t.at,
        t.fresh,
        t.old,
        0,
    ]
}

// The 16 words from place `at` on are written.
fn copy_words(desk: &mut [u16], at: usize, words: [u16; 16])
    requires { at + 16 ≤ length desk.old }
    ensures { desk.new ≡ take at desk.old ++ words ++ drop (at + 16) desk.old }
{
    // An index: a call of `copy_from_slice` would make a writer's turn a tenth slower.
    for i in 0..16 {
        desk[at + i] = words[i];
    }
}

// Row i is written, where the desk has one.
pub fn put_row(desk: &mut [u16], i: usize, row: Row)
    ensures { desk.new ≡ with_row desk.old i row }
{
    if i < desk.len() / 16 {
        copy_words(desk, i * 16, words_of(row));
    }
}

// An answer's number, as C has it: a refusal's own, below 100, or one from 100 on.
pub fn answer_number(answer: Result<Answer, Refusal>) -> u32
    ensures { result ≡ answer_number answer }
{
    match answer {
        Ok(Answer::Done) => 100,
        Ok(Answer::More) => 101,
        Ok(Answer::Worked) => 102,
        Ok(Answer::Waited) => 103,
        Err(refusal) => refusal.number().into(),
    }
}
