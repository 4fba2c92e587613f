// The functions that C calls. Each piece of memory goes as a pointer and then its length. An answer that is not negative is a count,
// and a negative one is minus the refusal number.
#![tactic(auto)]

mod receiving;

ghost use Rattle.std.specs.Prelude.{◌≡◌, not, [], ◌∷◌, eqb, ltb, length, ◌≤◌, pos, neg_ℤ};
ghost use Rattle.wire.specs.Outcome.{check, first_fault, number_of, outcome, answered, given_count};
ghost use Rattle.message.specs.Message.{message_read};
ghost use Rattle.block.specs.Block.{block_read, block_read_memory, block_write, block_write_memory};
ghost use Rattle.block.specs.LastSample.{append, append_memory, strike_out, strike_out_memory};
ghost use Rattle.calls.specs.Calls.{sample_call, block_call};
ghost use Rattle.image.specs.Image.{is_image, state_in};
ghost use Rattle.busiest.specs.Busiest.{stretch};
ghost use Rattle.capi.specs.Imaged.{answer_number, check_number, StretchMeets, image_kept, ImageMeets};
ghost use Rattle.capi.specs.ImageDemand.{FreshImaged};

use engine::Engine;
use history::State;
use image::BYTES;
use wire::Refusal;

// Writes the image of an engine that has taken no sample.
#[unsafe(no_mangle)]
pub extern "C" fn yoldrim_fresh(memory: &mut [u8]) -> i32
    ensures { FreshImaged memory.old result memory.new }
{
    if memory.len() != BYTES {
        return minus(Refusal::EngineState);
    }
    let e = Engine::fresh();
    wire::copy_at(memory, 0, &image::save(e.state));
    0
}

// Takes one sample, and answers how many messages were written.
#[unsafe(no_mangle)]
pub extern "C" fn yoldrim_sample(memory: &mut [u8], bytes: &[u8], out: &mut [u8]) -> i32
    ensures { ImageMeets memory.old (sample_call bytes.now out.old) result memory.new out.new }
{
    match lent_state(memory, bytes, 20, out.len(), 64) {
        Ok(state) => {
            let called = Engine { state }.step(bytes, out);
            finish(called.answer, &image::save(called.engine.state), memory)
        }
        Err(refusal) => minus(refusal),
    }
}

// Takes all samples of a block or none, and answers how many messages were written.
#[unsafe(no_mangle)]
pub extern "C" fn yoldrim_block(memory: &mut [u8], bytes: &[u8], out: &mut [u8]) -> i32
    ensures { ImageMeets memory.old (block_call bytes.now out.old) result memory.new out.new }
{
    match lent_state(memory, bytes, 512, out.len(), 1600) {
        Ok(state) => {
            let called = Engine { state }.block(bytes, out);
            finish(called.answer, &image::save(called.engine.state), memory)
        }
        Err(refusal) => minus(refusal),
    }
}

// Copies the samples of a block to the output, and answers how many they are.
#[unsafe(no_mangle)]
pub extern "C" fn yoldrim_block_read(bytes: &[u8], out: &mut [u8]) -> i32
    ensures { (result ≡ answer_number (block_read bytes.now out.old)) × (out.new ≡ block_read_memory bytes.now out.old) }
{
    number(block::read(bytes, out))
}

// Writes the block of these samples, and answers how many they are.
#[unsafe(no_mangle)]
pub extern "C" fn yoldrim_block_write(samples: &[u8], out: &mut [u8]) -> i32
    ensures { (result ≡ answer_number (block_write samples.now out.old)) × (out.new ≡ block_write_memory samples.now out.old) }
{
    number(block::write(samples, out))
}

// Appends a sample to those of the block, and answers how many they are then.
#[unsafe(no_mangle)]
pub extern "C" fn yoldrim_block_append(block: &mut [u8], sample: &[u8]) -> i32
    ensures { (result ≡ answer_number (append block.old sample.now)) × (block.new ≡ append_memory block.old sample.now) }
{
    number(block::append(block, sample))
}

// Strikes the last sample out of those of the block, and answers how many they are then.
#[unsafe(no_mangle)]
pub extern "C" fn yoldrim_block_strike_out(block: &mut [u8]) -> i32
    ensures { (result ≡ answer_number (strike_out block.old)) × (block.new ≡ strike_out_memory block.old) }
{
    number(block::strike_out(block))
}

// Answers 0 for the record of a message, or minus the number that refuses it.
#[unsafe(no_mangle)]
pub extern "C" fn yoldrim_message_check(bytes: &[u8]) -> i32
    ensures { result ≡ check_number (message_read bytes.now) }
{
    match message::read(bytes) {
        Ok(_) => 0,
        Err(refusal) => minus(refusal),
    }
}

// Finds the busiest stretch of `width` ticks in a list of message records, and answers how many messages lie in it. A list may have more
// than a number of 32 bits. Where there are none, `first` stays as it was.
#[unsafe(no_mangle)]
pub extern "C" fn yoldrim_busiest_stretch(list: &[u8], width: u32, first: &mut u32) -> i64
    ensures { StretchMeets (stretch list.now width) first.old result first.new }
{
    match busiest::stretch(list, width) {
        Ok(found) => {
            *first = found.first.unwrap_or(*first);
            found.messages as i64
        }
        Err(refusal) => i64::from(minus(refusal)),
    }
}

// The state in the memory, for a call that takes `size` bytes and needs `needed` bytes of output, where it is lent `room` of them: 1 and
// 2 come before 21.
fn lent_state(
    memory: &[u8],
    bytes: &[u8],
    size: usize,
    room: usize,
    needed: usize,
) -> Result<State, Refusal>
    ensures { answered result ≡ outcome (first_fault (check 1 (not (eqb (length bytes.now) size)) ∷ check 2 (ltb room needed) ∷ check 21 (not (is_image memory.now)) ∷ [])) (state_in memory.now) }
{
    calls::check_lengths(bytes, size, room, needed)?;
    image::load(memory)
}

fn minus(refusal: Refusal) -> i32
    ensures { result ≡ neg_ℤ (pos (number_of refusal)) }
{
    -i32::from(u8::from(refusal))
}

// A function and no `From`: `From` between two types of the library cannot be written here.
fn number(answer: Result<usize, Refusal>) -> i32
    requires { given_count answer ≤ 50 }
    ensures { result ≡ answer_number (answered answer) }
{
    match answer {
        Ok(count) => count as i32,
        Err(refusal) => minus(refusal),
    }
}

// Keeps the image after an accepted call in the memory, and gives the answer as a number.
fn finish(answer: Result<usize, Refusal>, image: &[u8], memory: &mut [u8]) -> i32
    requires { given_count answer ≤ 50 }
    ensures { (result ≡ answer_number (answered answer)) × (memory.new ≡ image_kept (answered answer) image.now memory.old) }
{
    if answer.is_ok() {
        wire::copy_at(memory, 0, image);
    }
    number(answer)
}
