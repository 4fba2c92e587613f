// Messages that are held: each by itself, and as a list.
ghost use Rattle.std.specs.Prelude.{◌≡◌, ◌++◌, ◌+◌, ◌*◌, ◌<◌, ◌≤◌, get_or, length, count_by};
ghost use Rattle.std.specs.List.{filter, list_any};
ghost use Rattle.arrayvec.specs.ArrayVec.{array_vec_len};
ghost use Rattle.wire.specs.Memory.{overlay};
ghost use Rattle.receiver.specs.Held.{has_lapsed, is_newer, keeps_out, is_other, is_beside, with_message, is_shown, entry, entries};
ghost use Rattle.receiver.specs.Calls.{nothing};

use crate::{ENTRY, Held, Received};
use message::Message;
use warnings::CANCEL;
use wire::Word;

// The senders below another, or those above it.
#[derive(Clone, Copy)]
enum Side {
    Lower,
    Higher,
}

impl Received {
    #[tactic(auto, unfolding(crate::specs::Held::has_lapsed))]
    pub(crate) fn has_lapsed(self, tick: u32) -> bool
        ensures { result ≡ has_lapsed tick self }
    {
        10 * u32::from(self.message.validity) <= tick.saturating_sub(self.arrival)
    }

    // Whether this one, which is held, keeps `e` out.
    #[tactic(auto, unfolding(crate::specs::Held::keeps_out))]
    fn keeps_out(self, e: Received) -> bool
        ensures { result ≡ keeps_out e self }
    {
        (self.sender == e.sender) & !is_newer(e.message, self.message)
    }

    #[tactic(auto, unfolding(crate::specs::Held::is_beside))]
    fn is_beside(self, side: Side, sender: u32) -> bool
        ensures { result ≡ is_beside side sender self }
    {
        match side {
            Side::Lower => self.sender < sender,
            Side::Higher => sender < self.sender,
        }
    }

    #[tactic(auto, unfolding(crate::specs::Held::is_shown))]
    fn is_shown(self) -> bool
        ensures { result ≡ is_shown self }
    {
        self.message.kind != CANCEL
    }

    fn entry(self) -> [u8; ENTRY]
        ensures { result ≡ entry self }
    {
        let mut bytes = [0; ENTRY];
        wire::copy_at(&mut bytes, 0, &self.sender.to_bytes());
        wire::copy_at(&mut bytes, 4, &message::encoded(self.message));
        bytes
    }
}

#[tactic(auto, unfolding(crate::specs::Held::is_newer))]
fn is_newer(m: Message, n: Message) -> bool
    ensures { result ≡ is_newer m n }
{
    (n.event < m.event) | ((m.event == n.event) & (n.reference < m.reference))
}

// Whether one of those held keeps `e` out.
pub(crate) fn any_keeps_out(held: &[Received], e: Received) -> bool
    ensures { result ≡ list_any (keeps_out e) held.now }
{
    held.iter().any(|x| x.keeps_out(e))
}

// How many of those held are of other senders than `e`.
#[tactic(auto, unfolding(crate::specs::Held::is_other))]
pub(crate) fn others(held: &[Received], e: Received) -> usize
    ensures { result ≡ count_by (is_other e) held.now }
{
    held.iter().filter(|x| x.sender != e.sender).count()
}

// Those held with `e` between the ones of lower and the ones of higher senders, in the place of an earlier one of its own.
#[tactic(auto, unfolding(crate::specs::Held::with_message))]
pub(crate) fn with_message(held: &[Received], e: Received) -> Held
    requires { count_by (is_other e) held.now < 8 }
    ensures { result.items ≡ with_message e held.now }
{
    let mut next = Held::new();
    push_side(&mut next, held, Side::Lower, e.sender);
    next.push(e);
    push_side(&mut next, held, Side::Higher, e.sender);
    next
}

// Puts the ones on one side of a sender behind those that `next` has.
fn push_side(next: &mut Held, held: &[Received], side: Side, sender: u32)
    requires { array_vec_len next.old + length (filter (is_beside side sender) held.now) ≤ 8 }
    ensures { next.new.items ≡ next.old.items ++ filter (is_beside side sender) held.now }
{
    for x in held {
        if x.is_beside(side, sender) {
            next.push(*x);
        }
    }
}

// The message at a place, nothing beyond the last.
#[tactic(auto, unfolding(crate::specs::Calls::nothing))]
pub(crate) fn at(held: &[Received], k: usize) -> Received
    ensures { result ≡ get_or held.now k nothing }
{
    held.get(k).copied().unwrap_or_default()
}

// Writes those that are no Cancels to the start of `out`, and answers how many they are.
pub(crate) fn write_shown(held: &[Received], out: &mut [u8]) -> usize
    requires { (length held.now ≤ 8) × (288 ≤ length out.old) }
    ensures { (result ≡ length (filter is_shown held.now)) × (out.new ≡ overlay (entries (filter is_shown held.now)) out.old) }
{
    let mut n = 0;
    for x in held {
        if x.is_shown() {
            wire::copy_at(out, ENTRY * n, &x.entry());
            n += 1;
        }
    }
    n
}
