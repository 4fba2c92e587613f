// The lines that the programs print: one for each message, then the closing line or the refusal; and the line of the busiest stretch.
#![tactic(auto)]

ghost use Rattle.std.specs.Prelude.{◌≡◌, ◌++◌, ◌+◌, ◌≤◌, length};
ghost use Rattle.arrayvec.specs.ArrayString.{array_string_len};
ghost use Rattle.wire.specs.Outcome.{answered};
ghost use Rattle.report.specs.Lines.{decimal, letter_of, message_line, closing_line, busiest_line, refusal_line, line_write, line_memory};

use arrayvec::ArrayString;
use busiest::Busiest;
use itoa::Buffer;
use message::Message;
use warnings::{CANCEL, NEW, UPDATE};
use wire::Refusal;

// Room for every line: four numbers of twenty digits and what stands between them are less.
type Line = ArrayString<96>;

// Writes the line of a message to the start of `out` and answers its length.
pub fn message_line(m: Message, out: &mut [u8]) -> Result<usize, Refusal>
    ensures { (answered result ≡ line_write (message_line m) out.old) × (out.new ≡ line_memory (message_line m) out.old) }
{
    let mut line = Line::new();
    put_number(&mut line, u64::from(m.reference), " ");
    line.push_str(letter(m.kind));
    line.push_str(" ");
    put_number(&mut line, u64::from(m.warning), " ");
    put_number(&mut line, u64::from(m.quality), " ");
    put_number(&mut line, u64::from(m.event), "\n");
    write_line(line.as_str(), out)
}

// Writes the closing line to the start of `out` and answers its length.
pub fn closing_line(ticks: u32, messages: u32, out: &mut [u8]) -> Result<usize, Refusal>
    ensures { (answered result ≡ line_write (closing_line ticks messages) out.old) × (out.new ≡ line_memory (closing_line ticks messages) out.old) }
{
    let mut line = Line::new();
    put_number(&mut line, u64::from(ticks), " ticks ");
    put_number(&mut line, u64::from(messages), " messages\n");
    write_line(line.as_str(), out)
}

// Writes the line of the busiest stretch to the start of `out` and answers its length.
pub fn busiest_line(found: Busiest, out: &mut [u8]) -> Result<usize, Refusal>
    ensures { (answered result ≡ line_write (busiest_line found) out.old) × (out.new ≡ line_memory (busiest_line found) out.old) }
{
    let mut line = Line::new();
    put_number(&mut line, found.messages as u64, " messages");
    if let Some(tick) = found.first {
        line.push_str(" from tick ");
        put_number(&mut line, u64::from(tick), "");
    }
    line.push_str("\n");
    write_line(line.as_str(), out)
}

// Writes the line of a refusal to the start of `out` and answers its length. The refusal is a number and no `Refusal`: a public function
// that takes every byte may not take fewer.
pub fn refusal_line(number: u8, out: &mut [u8]) -> Result<usize, Refusal>
    ensures { (answered result ≡ line_write (refusal_line number) out.old) × (out.new ≡ line_memory (refusal_line number) out.old) }
{
    let mut line = Line::new();
    line.push_str("refused ");
    put_number(&mut line, u64::from(number), "\n");
    write_line(line.as_str(), out)
}

// Puts `n` in decimal at the line's end, and `after` behind it. No `write!`: its contract leaves open that it fails where there is room.
fn put_number(line: &mut Line, n: u64, after: &str)
    requires { array_string_len line.old + 20 + length after.now ≤ 96 }
    ensures bytes { line.new.bytes ≡ line.old.bytes ++ decimal n ++ after.now }
    ensures few { array_string_len line.new ≤ array_string_len line.old + 20 + length after.now }
{
    line.push_str(Buffer::new().format(n));
    line.push_str(after);
}

// Writes a line to the start of `out` and answers its length.
fn write_line(line: &str, out: &mut [u8]) -> Result<usize, Refusal>
    ensures { (answered result ≡ line_write line.now out.old) × (out.new ≡ line_memory line.now out.old) }
{
    if out.len() < line.len() {
        return Err(Refusal::OutputRoom);
    }
    out[..line.len()].copy_from_slice(line.as_bytes());
    Ok(line.len())
}

#[tactic(auto, unfolding(crate::specs::Lines::letter_of, crate::specs::Lines::ascii))]
fn letter(kind: u8) -> &'static str
    ensures text { result.now ≡ letter_of kind }
    ensures one { length result.now ≡ 1 }
{
    match kind {
        NEW => "N",
        UPDATE => "U",
        CANCEL => "C",
        _ => "?",
    }
}
