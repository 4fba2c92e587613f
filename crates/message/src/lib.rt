// The 32-byte message record: its reader and its writer.
#![tactic(auto)]

ghost use Rattle.std.specs.Prelude.{◌≡◌};
ghost use Rattle.message.specs.Message.{message_of, encode, admits, derived_fit, Found, Written};

use sample::Position;
use warnings::{CANCEL, NEW, WARNINGS};
use wire::{Refusal, Word};

// The record's own numbers; sub cause, cause and direction follow from the warning and the road type.
#[derive(Clone, Copy, Default)]
pub struct Message {
    pub kind: u8,
    pub warning: u8,
    pub quality: u8,
    pub roadtype: u8,
    pub since: u8,
    pub event: u32,
    pub detection: u32,
    pub reference: u32,
    pub position: Position,
    pub heading: u16,
    pub validity: u16,
}

// Put into its callers always: one that reads many records would take twice as long by a call and the message in memory.
#[inline(always)]
pub fn read(bytes: &[u8]) -> Result<Message, Refusal>
    ensures { Found bytes.now result }
{
    let Some(record) = bytes.as_array::<32>() else {
        return Err(Refusal::MessageLength);
    };
    let m = fields(record);
    if is_derived(record) & m.is_admitted() {
        Ok(m)
    } else {
        Err(Refusal::MessageFields)
    }
}

// The fields of a record, whatever their values. Bytes beyond the end count as 0. A function and no From of 32 bytes: it takes bytes of
// any length, and what is public may not take fewer.
pub fn fields(bytes: &[u8]) -> Message
    ensures { result ≡ message_of bytes.now }
{
    Message {
        kind: wire::byte_at(bytes, 0),
        warning: wire::byte_at(bytes, 1),
        quality: wire::byte_at(bytes, 4),
        roadtype: wire::byte_at(bytes, 5),
        since: wire::byte_at(bytes, 7),
        event: wire::word_at(bytes, 8),
        detection: wire::word_at(bytes, 12),
        reference: wire::word_at(bytes, 16),
        position: Position {
            east: wire::word_at(bytes, 20),
            north: wire::word_at(bytes, 24),
        },
        heading: wire::word_at(bytes, 28),
        validity: wire::word_at(bytes, 30),
    }
}

pub fn write(m: Message, out: &mut [u8]) -> Result<usize, Refusal>
    ensures { Written m out.old result out.new }
{
    if out.len() < 32 {
        return Err(Refusal::OutputRoom);
    }
    if !m.is_admitted() {
        return Err(Refusal::MessageFields);
    }
    wire::copy_at(out, 0, &encoded(m));
    Ok(1)
}

// The bytes of a message, whatever its fields. A function and no From: its name says at each caller which bytes they are.
pub fn encoded(m: Message) -> [u8; 32]
    ensures { result ≡ encode m }
{
    let row = warnings::row_of(m.warning);
    let direction = warnings::direction_of(m.roadtype);
    let first = [
        m.kind,
        m.warning,
        row.subcause,
        row.cause,
        m.quality,
        m.roadtype,
        direction,
        m.since,
    ];
    let mut bytes = [0; 32];
    wire::copy_at(&mut bytes, 0, &first);
    wire::copy_at(&mut bytes, 8, &m.event.to_bytes());
    wire::copy_at(&mut bytes, 12, &m.detection.to_bytes());
    wire::copy_at(&mut bytes, 16, &m.reference.to_bytes());
    wire::copy_at(&mut bytes, 20, &m.position.east.to_bytes());
    wire::copy_at(&mut bytes, 24, &m.position.north.to_bytes());
    wire::copy_at(&mut bytes, 28, &m.heading.to_bytes());
    wire::copy_at(&mut bytes, 30, &m.validity.to_bytes());
    bytes
}

impl Message {
    // Whether each field has a value that refusal 14 lets pass. Put into its callers always, as `read` is.
    #[inline(always)]
    #[tactic(auto, unfolding(crate::specs::Message::admits, crate::specs::Message::field_tests, wire::specs::Tests::all_hold, warnings::specs::Warnings::validity_of))]
    pub fn is_admitted(self) -> bool
        ensures { result ≡ admits self }
    {
        let row = warnings::row_of(self.warning);
        (NEW <= self.kind)
            & (self.kind <= row.kinds)
            & (1 <= self.warning)
            & (self.warning <= WARNINGS)
            & (1 <= self.quality)
            & (self.quality <= row.qualities)
            & ((self.roadtype <= 3) | (self.roadtype == 255))
            & (self.since <= 3)
            & (1 <= self.event)
            & (self.event <= 10000000)
            & (self.reference <= 9999999)
            & (self.detection <= self.reference)
            & ((self.kind == CANCEL) | (self.detection == self.reference))
            & !self.position.beyond_limit()
            & (self.heading <= 3601)
            & ((self.validity == row.validityon) | (self.validity == row.validityoff))
    }
}

// Whether sub cause, cause and direction are those of the warning and the road type.
#[tactic(auto, unfolding(crate::specs::Message::derived_fit, wire::specs::Tests::all_hold))]
fn is_derived(s: &[u8; 32]) -> bool
    ensures { result ≡ derived_fit s.now }
{
    let row = warnings::row_of(s[1]);
    let w = warnings::direction_of(s[5]);
    (s[2] == row.subcause) & (s[3] == row.cause) & (s[6] == w)
}
