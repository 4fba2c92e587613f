// Reads recorder blocks from standard input and writes the records of the messages that a fresh engine gives to standard output.
#![tactic(auto)]

ghost use Rattle.std.specs.Prelude.{◌≡◌, ◌++◌, IfOk};
ghost use Rattle.records.specs.Records.{Gives};

use engine::Engine;
use std::alloc::AllocError;
use std::io;
use std::io::{Read, Write};
use std::process::ExitCode;
use wire::Refusal;

fn main(rt: HostRuntime) -> io::Result<ExitCode> {
    let mut input = Vec::new(rt.alloc());
    rt.stdin().read_to_end(&mut input)?;
    let mut records = Vec::new(rt.alloc());
    let refusal = put_records(&input, &mut records)?;
    rt.stdout().write_all(&records)?;
    let Some(refusal) = refusal else {
        return Ok(ExitCode::SUCCESS);
    };
    let number = u8::from(refusal);
    eprintln!(rt; "refused {number}")?;
    Ok(ExitCode::FAILURE)
}

// Puts the records of the input's blocks behind those that `records` has, and stops at the first refused block, whose refusal it answers.
fn put_records(input: &[u8], records: &mut Vec<u8>) -> Result<Option<Refusal>, AllocError>
    ensures { IfOk result (λ refusal. Gives input.now records.old.items refusal records.new.items) }
{
    let mut engine = Engine::fresh();
    let mut out = [0; 1600];
    for block in input.chunks(512) {
        let called = engine.block(block, &mut out);
        match called.answer {
            Ok(count) => records.extend_from_slice(&out[..32 * count])?,
            Err(refusal) => return Ok(Some(refusal)),
        }
        engine = called.engine;
    }
    Ok(None)
}
