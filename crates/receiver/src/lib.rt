// Warnings from others: a receiver holds one message for each of up to eight senders, and shows those that are no Cancels.
#![tactic(auto)]

mod held;

ghost use Rattle.std.specs.Prelude.{◌≡◌, ◌<◌, [], count_by};
ghost use Rattle.wire.specs.Outcome.{first_fault, fault_of, outcome, answered};
ghost use Rattle.receiver.specs.Held.{received, unlapsed, is_other, arrival_checks, with_message};
ghost use Rattle.receiver.specs.Calls.{place, places, holding, receive_call, show_call, call_fault, Meets};
ghost use Rattle.receiver.specs.Empty.{EmptyReceiver};

use arrayvec::ArrayVec;
use message::Message;
use std::array;
use wire::Refusal;

// How many senders' messages a receiver holds.
pub const SENDERS: usize = 8;

// What is written of a message: its sender's number and its record.
const ENTRY: usize = 36;

// A message that was accepted, its sender, and the receiver's tick at its arrival.
#[derive(Clone, Copy, Default)]
pub struct Received {
    pub sender: u32,
    pub arrival: u32,
    pub message: Message,
}

// Messages, no more than a receiver holds.
type Held = ArrayVec<Received, SENDERS>;

// The message in each place, beside it its sender and its arrival, and the last accepted tick. A place that holds none has zeros: such a
// message has lapsed at every tick. Why it is no array of `Received`: docs/DECISIONS.md, "CR 4".
#[derive(Clone, Copy)]
pub struct Receiver {
    pub last: u32,
    pub senders: [u32; SENDERS],
    pub arrivals: [u32; SENDERS],
    pub messages: [Message; SENDERS],
}

// What a call gives: the receiver after it, and its answer.
#[derive(Clone, Copy)]
pub struct Called {
    pub receiver: Receiver,
    pub answer: Result<usize, Refusal>,
}

impl Receiver {
    // Holds no message.
    pub fn empty() -> Receiver
        ensures { EmptyReceiver result }
    {
        holding(0, &[])
    }

    // Takes the message of a sender, at a tick of the receiver's own clock, and answers 1.
    pub fn receive(self, tick: u32, sender: u32, message: &[u8]) -> Called
        ensures { Meets self (receive_call tick sender message.now) result.receiver result.answer [] }
    {
        match self.check(tick, sender, message) {
            Ok(e) => Called {
                receiver: self.with(e),
                answer: Ok(1),
            },
            Err(refusal) => Called {
                receiver: self,
                answer: Err(refusal),
            },
        }
    }

    // Writes the messages held that are no Cancels, each behind its sender, and answers how many they are.
    pub fn show(self, out: &mut [u8]) -> Called
        ensures { Meets self (show_call out.old) result.receiver result.answer out.new }
    {
        let answer = if out.len() < ENTRY * SENDERS {
            Err(Refusal::OutputRoom)
        } else {
            Ok(held::write_shown(self.held(self.last).as_slice(), out))
        };
        Called {
            receiver: self,
            answer,
        }
    }

    // The message with its sender and its arrival, by checks 13, 14, 31, 32 and 33.
    fn check(self, tick: u32, sender: u32, bytes: &[u8]) -> Result<Received, Refusal>
        ensures { answered result ≡ outcome (call_fault self.last (places self) (receive_call tick sender bytes.now)) (received tick sender bytes.now) }
    {
        let e = Received {
            sender,
            arrival: tick,
            message: message::read(bytes)?,
        };
        self.check_arrival(e)?;
        Ok(e)
    }

    // Checks 31, 32 and 33.
    #[tactic(auto, unfolding(crate::specs::Held::arrival_checks, wire::specs::Outcome::first_fault))]
    fn check_arrival(self, e: Received) -> Result<(), Refusal>
        ensures { fault_of result ≡ first_fault (arrival_checks self.last (unlapsed e.arrival (places self)) e) }
    {
        if e.arrival < self.last {
            return Err(Refusal::TickBelowLast);
        }
        let held = self.held(e.arrival);
        if held::any_keeps_out(held.as_slice(), e) {
            return Err(Refusal::NotNewer);
        }
        if SENDERS <= held::others(held.as_slice(), e) {
            return Err(Refusal::NinthSender);
        }
        Ok(())
    }

    // The messages in the places that have not lapsed at a tick.
    #[tactic(auto, using(std::proofs::lemmas::List::FromFn::filter_of_map_range_with_len_more), unfolding(crate::specs::Calls::places))]
    fn held(self, tick: u32) -> Held
        ensures { result.items ≡ unlapsed tick (places self) }
    {
        let mut held = Held::new();
        for i in 0..SENDERS {
            let x = self.place(i);
            if !x.has_lapsed(tick) {
                held.push(x);
            }
        }
        held
    }

    #[tactic(auto, unfolding(crate::specs::Calls::place))]
    fn place(self, i: usize) -> Received
        requires { i < 8 }
        ensures { result ≡ place self i }
    {
        Received {
            sender: self.senders[i],
            arrival: self.arrivals[i],
            message: self.messages[i],
        }
    }

    // The receiver with a message that no check keeps out.
    fn with(self, e: Received) -> Receiver
        requires { count_by (is_other e) (unlapsed e.arrival (places self)) < 8 }
        ensures { result ≡ holding e.arrival (with_message e (unlapsed e.arrival (places self))) }
    {
        let held = self.held(e.arrival);
        let next = held::with_message(held.as_slice(), e);
        holding(e.arrival, next.as_slice())
    }
}

// The receiver that holds these messages, in turn from the first place on.
#[tactic(auto, unfolding(crate::specs::Calls::holding))]
fn holding(last: u32, held: &[Received]) -> Receiver
    ensures { result ≡ holding last held.now }
{
    Receiver {
        last,
        senders: array::from_fn(|k| held::at(held, k).sender),
        arrivals: array::from_fn(|k| held::at(held, k).arrival),
        messages: array::from_fn(|k| held::at(held, k).message),
    }
}
