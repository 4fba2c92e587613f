// Reads message records from standard input and prints their busiest stretch of so many ticks as the argument says.
#![tactic(auto)]

ghost use Rattle.std.specs.Prelude.{◌≡◌};
ghost use Rattle.planner.specs.Answers.{Answers};

use std::io::{Read, Write};
use std::process::ExitCode;
use std::{env, io};

// How long the line is, and the program's status: 0 where a stretch was found, 1 where the list or the width is refused.
#[derive(Clone, Copy)]
struct Answer {
    length: usize,
    status: u8,
}

fn main(rt: HostRuntime) -> io::Result<ExitCode> {
    let Some(width) = width(&rt) else {
        rt.eprintln("usage: planner WIDTH < records; WIDTH is a number of ticks, 1 to 10000000")?;
        return Ok(ExitCode::from(2));
    };
    let mut list = Vec::new(rt.alloc());
    rt.stdin().read_to_end(&mut list)?;
    let mut line = [0; 64];
    let Answer { length, status } = put_answer(&list, width, &mut line);
    rt.stdout().write_all(&line[..length])?;
    Ok(ExitCode::from(status))
}

// The width that the only argument names: none where it is no number of 32 bits, or there is another number of arguments.
fn width(rt: &HostRuntime) -> Option<u32> {
    let mut args = env::args(rt).ok()?;
    args.next();
    let (Some(width), None) = (args.next(), args.next()) else {
        return None;
    };
    width.parse().ok()
}

// Writes the line that answers for a list of records and a width to the start of `line`.
fn put_answer(list: &[u8], width: u32, line: &mut [u8; 64]) -> Answer
    ensures { Answers list.now width result line.new }
{
    match busiest::stretch(list, width) {
        Ok(found) => Answer {
            length: report::busiest_line(found, line).unwrap_or(0),
            status: 0,
        },
        Err(refusal) => Answer {
            length: report::refusal_line(u8::from(refusal), line).unwrap_or(0),
            status: 1,
        },
    }
}
