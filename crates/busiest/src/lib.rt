// The busiest stretch of a list of message records: ticks on end in which the most messages have their reference ticks.
#![tactic(auto)]

ghost use Rattle.std.specs.Prelude.{◌≡◌, ◌≤◌, get_or};
ghost use Rattle.std.specs.List.Sorted.{IsNonDecreasing};
ghost use Rattle.wire.specs.Outcome.{first_fault, fault_of};
ghost use Rattle.busiest.specs.Busiest.{references_of, record_checks};
ghost use Rattle.busiest.specs.InWords.{IsBusiest};
ghost use Rattle.busiest.specs.Promise.{Found};

use wire::Refusal;

// The widest stretch, in ticks.
const WIDEST: u32 = 10000000;

// How many messages lie in the busiest stretch, and its first tick. A list without messages, and no other, has no such tick.
#[derive(Clone, Copy)]
pub struct Busiest {
    pub messages: usize,
    pub first: Option<u32>,
}

// Finds the busiest stretch of `width` ticks in a list of message records.
pub fn stretch(list: &[u8], width: u32) -> Result<Busiest, Refusal>
    ensures { Found list.now width result }
{
    if list.len() % 32 != 0 {
        return Err(Refusal::MessageLength);
    }
    let (records, _) = list.as_chunks::<32>();
    check_records(records)?;
    if width < 1 {
        return Err(Refusal::Width);
    }
    if WIDEST < width {
        return Err(Refusal::Width);
    }
    Ok(busiest_in(records, width))
}

// Check 14 of all records, then check 35: 14 of any record comes before a tick that falls.
fn check_records(records: &[[u8; 32]]) -> Result<(), Refusal>
    ensures { fault_of result ≡ first_fault (record_checks records.now) }
{
    let mut before = 0;
    let mut falls = false;
    for record in records {
        let tick = message::read(record)?.reference;
        falls = falls | (tick < before);
        before = tick;
    }
    if falls {
        return Err(Refusal::ReferenceBelow);
    }
    Ok(())
}

// `messages` is the most so far in one stretch. It grows where the record and the one as many places before it, at `place`, lie in the
// same `width` ticks; else `place` moves on, as the record does. So each record is read twice at most.
fn busiest_in(records: &[[u8; 32]], width: u32) -> Busiest
    requires { IsNonDecreasing (references_of records.now) × (1 ≤ width) }
    ensures { IsBusiest width (references_of records.now) result }
{
    let mut messages = 0;
    let mut first = None;
    let mut place = 0;
    let mut tick = reference_at(records, place);
    for record in records {
        if message::fields(record).reference - tick < width {
            messages += 1;
            first = Some(tick);
        } else {
            place += 1;
            tick = reference_at(records, place);
        }
    }
    Busiest { messages, first }
}

// The reference tick of the record at a place, 0 beyond the last.
fn reference_at(records: &[[u8; 32]], place: usize) -> u32
    ensures { result ≡ get_or (references_of records.now) place 0 }
{
    match records.get(place) {
        Some(bytes) => message::fields(bytes).reference,
        None => 0,
    }
}
