// The functions on a receiver's image, and the one for the driver's lamp.
ghost use Rattle.std.specs.Prelude.{◌≡◌, []};
ghost use Rattle.lamp.specs.Lamp.{lamp_of};
ghost use Rattle.receiver.specs.Calls.{receive_call, show_call};
ghost use Rattle.capi.specs.ReceiverImaged.{lamp_number, lamp_seconds, ReceiverMeets};
ghost use Rattle.capi.specs.ReceiverDemand.{EmptyImaged};

use crate::{finish, minus, number};
use lamp::{Approach, Lamp};
use receiver::Receiver;
use receiver_image::BYTES;
use wire::Refusal;

// Writes the image of a receiver that holds no message.
#[unsafe(no_mangle)]
pub extern "C" fn yoldrim_receiver_empty(memory: &mut [u8]) -> i32
    ensures { EmptyImaged memory.old result memory.new }
{
    if memory.len() != BYTES {
        return minus(Refusal::EngineState);
    }
    wire::copy_at(memory, 0, &receiver_image::save(Receiver::empty()));
    0
}

// Takes the message of a sender, at a tick of the receiver's own clock, and answers 1.
#[unsafe(no_mangle)]
pub extern "C" fn yoldrim_receive(memory: &mut [u8], tick: u32, sender: u32, message: &[u8]) -> i32
    ensures { ReceiverMeets memory.old (receive_call tick sender message.now) result memory.new [] }
{
    match receiver_image::load(memory) {
        Ok(receiver) => {
            let called = receiver.receive(tick, sender, message);
            finish(
                called.answer,
                &receiver_image::save(called.receiver),
                memory,
            )
        }
        Err(refusal) => minus(refusal),
    }
}

// Writes the messages held that are no Cancels, each behind its sender, and answers how many they are.
#[unsafe(no_mangle)]
pub extern "C" fn yoldrim_show(memory: &[u8], out: &mut [u8]) -> i32
    ensures { ReceiverMeets memory.now (show_call out.old) result memory.now out.new }
{
    match receiver_image::load(memory) {
        Ok(receiver) => number(receiver.show(out).answer),
        Err(refusal) => minus(refusal),
    }
}

// What the driver's lamp shows, 0 unknown, 1 standing, or 2 with the seconds.
#[unsafe(no_mangle)]
pub extern "C" fn yoldrim_lamp(gap: f32, speed: f32, seconds: &mut f32) -> i32
    ensures { (result ≡ lamp_number (lamp_of (record { gap = gap; speed = speed }))) × (seconds.new ≡ lamp_seconds (lamp_of (record { gap = gap; speed = speed })) seconds.old) }
{
    match (Approach { gap, speed }).lamp() {
        Lamp::Unknown => 0,
        Lamp::Standing => 1,
        Lamp::Seconds(value) => {
            *seconds = value;
            2
        }
    }
}
