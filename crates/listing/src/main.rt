// The listing program: lines of minute, body and frame from standard input, and the answer to each on a line of standard output.
// What a line asks for and what is printed are the library's; here are the reads, the writes and the buffers. The only errors are those
// of a read or a write, which end the program: of what was ready then, any part may have gone out.
#![tactic(auto)]

ghost use Rattle.std.specs.Prelude.{◌≡◌, [], ◌++◌, ◌-◌, ◌^◌, ◌≤◌, ◌<◌, length, take, IfOk, OnOk, OnErr, IfSome};
ghost use Rattle.std.specs.Io.KnownBytes.{Appends};
ghost use Rattle.listing.specs.Listing.{Sends, IsTurn};
ghost use Rattle.listing_lines.specs.Held.{held_of};
ghost use Rattle.listing_lines.specs.Stream.{last_of, lines_from, listing_of, held_after, printed_after};

use angles::Sines;
use listing_lines::HeldLine;
use std::io;
use std::io::{Read, Write};

// The bytes that are ready to go out, the first `len`, and room for more behind them.
#[derive(Drop)]
struct Ready {
    bytes: [u8; 65536],
    len: usize,
    ghost few: { len ≤ 65536 },
    ghost room: { length bytes ≡ 65536 },
}

impl Ready {
    fn new() -> Ready
        ensures { result.len ≡ 0 }
    {
        Ready {
            bytes: [0; 65536],
            len: 0,
        }
    }

    // The input goes to the library in parts of 256 bytes. A byte prints at most 147, so a part prints at most 37,632 of the 65,536
    // that there is room for: what is ready goes out where it is more than 27,904.
    fn make_room<W: Write>(&mut self, output: &mut W) -> io::Result<()>
        ensures few { IfOk result (λ _. self.new.len ≤ 27904) }
        ensures sent { OnOk result (Sends (W.contents output.old) (W.contents output.new)
            (take self.old.len self.old.bytes) (take self.new.len self.new.bytes)) }
        ensures kept { self.new.bytes ≡ self.old.bytes }
        ensures unsent { OnErr result (self.new.len ≡ self.old.len) }
    {
        if 27_904 < self.len {
            output.write_all(&self.bytes[..self.len])?;
            self.len = 0;
        }
        Ok(())
    }
}

// A block of the input, part by part.
fn take_block<W: Write>(
    output: &mut W,
    sines: &Sines,
    block: &[u8],
    held: &mut HeldLine,
    ready: &mut Ready,
) -> io::Result<()>
    ensures held { OnOk result (held_of held.new ≡ held_after (held_of held.old) block.now) }
    ensures sent { OnOk result (Sends (W.contents output.old) (W.contents output.new)
        (take ready.old.len ready.old.bytes ++ printed_after (held_of held.old) block.now) (take ready.new.len ready.new.bytes)) }
{
    for part in block.chunks(256) {
        ready.make_room(output)?;
        ready.len = listing_lines::feed(sines, part, held, &mut ready.bytes, ready.len);
    }
    Ok(())
}

// One read, and whether more input may come.
fn read_some<R: Read, W: Write>(
    input: &mut R,
    output: &mut W,
    sines: &Sines,
    held: &mut HeldLine,
    ready: &mut Ready,
) -> io::Result<bool>
    ensures { IfOk result (λ more. IsTurn (R.remaining input.old) (R.remaining input.new)
        (W.contents output.old) (W.contents output.new) (held_of held.old) (held_of held.new)
        (take ready.old.len ready.old.bytes) (take ready.new.len ready.new.bytes) more) }
{
    let mut block = [0u8; 4096];
    let n = input.read(&mut block)?;
    if n == 0 {
        return Ok(false);
    }
    take_block(output, sines, &block[..n], held, ready)?;
    Ok(true)
}

// The last line, where no line end follows it, and all that is still to go out.
fn finish<W: Write>(
    output: &mut W,
    sines: &Sines,
    held: &HeldLine,
    ready: &mut Ready,
) -> io::Result<()>
    ensures { OnOk result (Appends (W.contents output.old) (W.contents output.new)
        (take ready.old.len ready.old.bytes ++ last_of (held_of held.now))) }
{
    ready.make_room(output)?;
    let end = listing_lines::put_last(sines, held.bytes(), &mut ready.bytes, ready.len);
    output.write_all(&ready.bytes[..end])
}

// All of the input, shorter than the count of reads: where no read and no write fails, its lines are printed.
fn run<R: Read, W: Write>(input: &mut R, output: &mut W, sines: &Sines) -> io::Result<()>
    ensures { OnOk result (IfSome (R.remaining input.old) (λ bytes. length bytes < 2 ^ 64 - 1 →
        Appends (W.contents output.old) (W.contents output.new) (lines_from [] bytes))) }
{
    let mut held = HeldLine::new();
    let mut ready = Ready::new();
    // A proved loop has to end, and nothing says that the input does: the reads are counted up to a number that no run reaches.
    for _turn in 0..u64::MAX {
        if !read_some(input, output, sines, &mut held, &mut ready)? {
            break;
        }
    }
    finish(output, sines, &held, &mut ready)
}

// The listing of the input: the header, and a line for each of its lines.
fn list<R: Read, W: Write>(input: &mut R, output: &mut W) -> io::Result<()>
    ensures { OnOk result (IfSome (R.remaining input.old) (λ bytes. length bytes < 2 ^ 64 - 1 →
        Appends (W.contents output.old) (W.contents output.new) (listing_of bytes))) }
{
    output.write_all(b"minute body frame status x y z\n")?;
    run(input, output, &Sines::new())
}

fn main(rt: HostRuntime) -> io::Result<()> {
    list(&mut rt.reader(), &mut io::writer(&rt))
}
