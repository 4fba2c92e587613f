// A receiver as an image of `BYTES` bytes, which its caller keeps between the calls.
#![tactic(auto)]

ghost use Rattle.std.specs.Prelude.{◌≡◌, ◌<◌};
ghost use Rattle.receiver.specs.Calls.{place};
ghost use Rattle.receiver_image.specs.ReceiverImage.{receiver_in, sender_in, arrival_in, message_in, place_bytes, Saved, Loaded};

use message::Message;
use receiver::{Receiver, SENDERS};
use std::array;
use wire::{Refusal, Word};

// The first byte of an image. Every change of what an image holds raises it, so that no image of other software is misread. Three zeros
// behind it bring every number to a place that four divides.
const LAYOUT: u8 = 1;

const LAST_AT: usize = 4;

// The places, one behind the other: in each the sender's number, the arrival and the message's record.
const PLACES_AT: usize = LAST_AT + 4;

const ARRIVAL: usize = 4;

const RECORD: usize = ARRIVAL + 4;

const PLACE: usize = RECORD + 32;

pub const BYTES: usize = PLACES_AT + PLACE * SENDERS;

pub fn save(receiver: Receiver) -> [u8; BYTES]
    ensures { Saved receiver result }
{
    let mut image = [0; BYTES];
    image[0] = LAYOUT;
    wire::copy_at(&mut image, LAST_AT, &receiver.last.to_bytes());
    for k in 0..SENDERS {
        wire::copy_at(&mut image, PLACES_AT + PLACE * k, &place_bytes(receiver, k));
    }
    image
}

pub fn load(image: &[u8]) -> Result<Receiver, Refusal>
    ensures { Loaded image.now result }
{
    let image = image.as_array::<BYTES>().ok_or(Refusal::EngineState)?;
    let receiver = receiver_in(image);
    if save(receiver) == *image {
        Ok(receiver)
    } else {
        Err(Refusal::EngineState)
    }
}

// What is saved of a place.
fn place_bytes(receiver: Receiver, k: usize) -> [u8; PLACE]
    requires { k < 8 }
    ensures { result ≡ place_bytes (place receiver k) }
{
    let mut bytes = [0; PLACE];
    wire::copy_at(&mut bytes, 0, &receiver.senders[k].to_bytes());
    wire::copy_at(&mut bytes, ARRIVAL, &receiver.arrivals[k].to_bytes());
    wire::copy_at(&mut bytes, RECORD, &message::encoded(receiver.messages[k]));
    bytes
}

#[tactic(auto, unfolding(crate::specs::ReceiverImage::receiver_in))]
fn receiver_in(image: &[u8; BYTES]) -> Receiver
    ensures { result ≡ receiver_in image.now }
{
    Receiver {
        last: wire::word_at(image, LAST_AT),
        senders: array::from_fn(|k| sender_in(image, k)),
        arrivals: array::from_fn(|k| arrival_in(image, k)),
        messages: array::from_fn(|k| message_in(image, k)),
    }
}

#[tactic(auto, unfolding(crate::specs::ReceiverImage::sender_in))]
fn sender_in(image: &[u8; BYTES], k: usize) -> u32
    requires { k < 8 }
    ensures { result ≡ sender_in image.now k }
{
    wire::word_at(image, PLACES_AT + PLACE * k)
}

#[tactic(auto, unfolding(crate::specs::ReceiverImage::arrival_in))]
fn arrival_in(image: &[u8; BYTES], k: usize) -> u32
    requires { k < 8 }
    ensures { result ≡ arrival_in image.now k }
{
    wire::word_at(image, PLACES_AT + PLACE * k + ARRIVAL)
}

#[tactic(auto, unfolding(crate::specs::ReceiverImage::message_in))]
fn message_in(image: &[u8; BYTES], k: usize) -> Message
    requires { k < 8 }
    ensures { result ≡ message_in image.now k }
{
    message::fields(&image[PLACES_AT + PLACE * k + RECORD..])
}
