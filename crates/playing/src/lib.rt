// The program's work, for any program: reads, plays and writes.
#![tactic(auto)]

ghost use Rattle.std.specs.Prelude.{◌≡◌, ◌≢◌, ℕ, ◌<◌, ◌≤◌, List, [], ◌++◌, length, IfOk, IfErr, OnOk, OnErr};
ghost use Rattle.std.specs.Bool.{MatchBool};
ghost use Rattle.std.specs.Io.{ReadsAtMost, WritesAtMost};
ghost use Rattle.std.specs.Io.KnownBytes.{Appends, Keeps, ReadConsumes, WriteAppends};
ghost use Rattle.std.specs.IoError.{error_kind};
ghost use Rattle.player.specs.Cut.{Emptied};
ghost use Rattle.player.specs.Play.{output, goes_on, total, played};
ghost use Rattle.playing.specs.Written.{Written, Begins, WrittenInPart, Continues, Finishes, FinishesInPart};

use player::Player;
use std::io;
use std::io::{ErrorKind, Read, Write};
use std::process::ExitCode;

// What ended a play: a read that failed, or a write.
#[derive(Debug, Drop)]
pub enum Broken {
    Reading(io::Error),
    Writing(io::Error),
}

// What a shell tells of a program that SIGPIPE ended: 128 and the signal's number.
const READER_GONE: u8 = 141;

// One write, made again while a signal interrupts it: how many bytes were taken.
fn put_some<W: Write>(writer: &mut W, bytes: &[u8]) -> io::Result<usize>
    ensures bound { WritesAtMost result bytes.now }
    ensures some { IfOk result (λ put. 0 < put) }
    ensures bytes { WriteAppends (W.contents writer.old) (W.contents writer.new) result bytes.now }
    ensures retried { IfErr result (λ e. error_kind e ≢ ErrorKind.Interrupted) }
{
    for _ in 0..u64::MAX {
        match writer.write(bytes) {
            Ok(0) => return Err(io::Error::new(ErrorKind::WriteZero, "nothing was taken")),
            Ok(put) => return Ok(put),
            Err(e) if e.kind() == ErrorKind::Interrupted => {}
            Err(e) => return Err(e),
        }
    }
    Err(io::Error::new(ErrorKind::TimedOut, "each write was interrupted"))
}

// Writes all of these bytes.
fn put_all<W: Write>(writer: &mut W, bytes: &[u8]) -> Result<(), Broken>
    ensures all { OnOk result (Appends (W.contents writer.old) (W.contents writer.new) bytes.now) }
    ensures part { (w : List ℕ) × Appends (W.contents writer.old) (W.contents writer.new) w × Begins bytes.now w }
{
    let mut rest = bytes;
    while !rest.is_empty() {
        let put = put_some(writer, rest).map_err(Broken::Writing)?;
        rest = &rest[put..];
    }
    Ok(())
}

// Writes the player's output, which leaves it, where a write fails too.
fn flush<W: Write>(writer: &mut W, player: &mut Player) -> Result<(), Broken>
    ensures emptied { Emptied player.old player.new }
    ensures all { OnOk result (Appends (W.contents writer.old) (W.contents writer.new) (output player.old)) }
    ensures part { (w : List ℕ) × Appends (W.contents writer.old) (W.contents writer.new) w × Begins (output player.old) w }
{
    let done = put_all(writer, player.output());
    player.written();
    done
}

// Plays all bytes of a chunk, unless a write fails: whether lines may follow.
// Between reads the player's output is empty: a type for that state would be a second `Player`.
fn drain<W: Write>(writer: &mut W, chunk: &[u8], player: &mut Player) -> Result<bool, Broken>
    requires { output player.old ≡ [] }
    ensures empty { output player.new ≡ [] }
    ensures more { IfOk result (λ more. more ≡ goes_on player.new) }
    ensures written { OnOk result (Written (W.contents writer.old) (W.contents writer.new)
        (λ rest. total player.old (chunk.now ++ rest)) (total player.new)) }
    ensures part { OnErr result (WrittenInPart (W.contents writer.old) (W.contents writer.new)
        (λ rest. total player.old (chunk.now ++ rest))) }
{
    let mut rest = chunk;
    while !rest.is_empty() {
        let fed = player.feed(rest);
        flush(writer, player)?;
        rest = &rest[fed..];
    }
    Ok(player.goes_on())
}

// The end of the input: the bytes after the last line end are a line too.
fn close_text<W: Write>(writer: &mut W, player: &mut Player) -> Result<(), Broken>
    requires { output player.old ≡ [] }
    ensures empty { output player.new ≡ [] }
    ensures written { OnOk result (Appends (W.contents writer.old) (W.contents writer.new) (total player.old [])) }
    ensures part { OnErr result (WrittenInPart (W.contents writer.old) (W.contents writer.new) (λ rest. total player.old [])) }
{
    player.finish();
    flush(writer, player)
}

// One read, made again while a signal interrupts it: how many bytes came, 0 at the end of the input.
fn take_some<R: Read>(reader: &mut R, input: &mut [u8]) -> io::Result<usize>
    ensures kept { length input.new ≡ length input.old }
    ensures bound { ReadsAtMost result input.new }
    ensures bytes { ReadConsumes (R.remaining reader.old) (R.remaining reader.new) result input.new }
    ensures retried { IfErr result (λ e. error_kind e ≢ ErrorKind.Interrupted) }
{
    for _ in 0..u64::MAX {
        match reader.read(input) {
            Ok(got) => return Ok(got),
            Err(e) if e.kind() == ErrorKind::Interrupted => {}
            Err(e) => return Err(e),
        }
    }
    Err(io::Error::new(ErrorKind::TimedOut, "each read was interrupted"))
}

// Reads once, and plays what came: whether lines may follow. Where a read fails, the line that it cut is not played.
fn read_some<R: Read, W: Write>(
    reader: &mut R,
    writer: &mut W,
    input: &mut [u8],
    player: &mut Player,
) -> Result<bool, Broken>
    requires empty { output player.old ≡ [] }
    requires room { 0 < length input.old }
    ensures empty { output player.new ≡ [] }
    ensures played { IfOk result (λ more. MatchBool more
        (Continues (R.remaining reader.old) (R.remaining reader.new) (W.contents writer.old) (W.contents writer.new)
        (total player.old) (total player.new))
        (Finishes (R.remaining reader.old) (W.contents writer.old) (W.contents writer.new) (total player.old))) }
    ensures part { OnErr result (FinishesInPart (R.remaining reader.old)
        (W.contents writer.old) (W.contents writer.new) (total player.old)) }
{
    let got = take_some(reader, input).map_err(Broken::Reading)?;
    if got == 0 {
        close_text(writer, player)?;
        return Ok(false);
    }
    drain(writer, &input[..got], player)
}

// Reads, plays and writes until the input ends or the last line is answered. All memory of a run is here, once.
pub fn play_all<R: Read, W: Write>(reader: &mut R, writer: &mut W) -> Result<(), Broken>
    ensures played { OnOk result
        (Finishes (R.remaining reader.old) (W.contents writer.old) (W.contents writer.new) played) }
    ensures part { OnErr result
        (FinishesInPart (R.remaining reader.old) (W.contents writer.old) (W.contents writer.new) played) }
{
    let mut input = [0u8; 65536];
    let mut player = Player::new();
    for _ in 0..u64::MAX {
        if !read_some(reader, writer, &mut input, &mut player)? {
            return Ok(());
        }
    }
    Err(Broken::Reading(io::Error::new(ErrorKind::TimedOut, "the input does not end")))
}

// Plays the text of standard input on the player's own store, and writes an output line for each line. Where the reader of the output goes
// away, the player ends quietly, as any program does.
pub fn play_input<R: Input + Print>(rt: &R) -> Result<ExitCode, Broken> {
    match play_all(&mut rt.reader(), &mut io::writer(rt)) {
        Ok(()) => Ok(ExitCode::SUCCESS),
        Err(Broken::Writing(e)) if e.kind() == ErrorKind::BrokenPipe => Ok(ExitCode::from(
            READER_GONE,
        )),
        Err(broken) => Err(broken),
    }
}
