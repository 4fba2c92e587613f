// What every record shares: refusals, little-endian words, and copying into lent memory.
#![tactic(auto)]

ghost use Rattle.std.specs.Prelude.{◌≡◌, ℕ, ◌+◌, ◌^◌, ◌<◌, get_or, replicate};
ghost use Rattle.std.specs.Int.{w32};
ghost use Rattle.std.proofs.Common.{rules, refl, to_z, of_z};
ghost use Rattle.std.proofs.lemmas.Int.{of_z-to_z};
ghost use Rattle.wire.specs.Words.{little, bytes_of, bytes_at, word};
ghost use Rattle.wire.specs.Memory.{splice};
ghost use Rattle.wire.specs.Outcome.{number_of, given_count};

use std::array;

// Why a call is refused. What it counts or finds otherwise is the `Ok` of its result.
#[derive(Clone, Copy, Debug, PartialEq, Eq)]
pub enum Refusal {
    InputLength = 1,
    OutputRoom = 2,
    Speed = 3,
    Gear = 4,
    Happenings = 5,
    Road = 6,
    Heading = 7,
    Position = 8,
    Count = 9,
    NotZero = 10,
    CheckSum = 11,
    FirstTick = 12,
    MessageLength = 13,
    MessageFields = 14,
    EngineState = 21,
    TicksUsedUp = 22,
    TickOutOfTurn = 23,
    TickBelowLast = 31,
    NotNewer = 32,
    NinthSender = 33,
    OnlySample = 34,
    ReferenceBelow = 35,
    Width = 36,
}

impl From<Refusal> for u8 {
    ghost from_gives = { λ r n. n ≡ number_of r };

    fn from(refusal: Refusal) -> u8 {
        refusal as u8
    }
}

// How many records a call wrote, 0 where it is refused.
#[tactic(auto, unfolding(crate::specs::Outcome::given_count))]
pub fn given_count(answer: Result<usize, Refusal>) -> usize
    ensures { result ≡ given_count answer }
{
    answer.unwrap_or(0)
}

// A number that a record holds in `N` bytes, the lowest byte first.
pub trait Word<const N: usize>: Copy {
    // The unsigned number in the bytes of a word, and the word with that number.
    ghost number: { Self → ℕ };

    ghost word_of: { ℕ → Self };

    fn from_bytes(bytes: [u8; N]) -> Self
        ensures { result ≡ word_of (little bytes.entry) };

    fn to_bytes(self) -> [u8; N]
        ensures { result ≡ bytes_of N (number self) };

    // The word with a number of `N` bytes has that number, and no array is longer than `short` says.
    ghost has_number: { (n : ℕ) → n < 256 ^ N → number (word_of n) ≡ n };

    ghost short: { N < 2 ^ 63 };
}

impl Word<2> for u16 {
    ghost number = { λ n. n };

    ghost word_of = { λ n. n };

    ghost has_number = { λ n h. refl };

    ghost short = { Prim.search rules };

    #[tactic(auto, unfolding(crate::specs::Words::little))]
    fn from_bytes(bytes: [u8; 2]) -> u16
        ensures { result ≡ little bytes }
    {
        u16::from_le_bytes(bytes)
    }

    #[tactic(auto, unfolding(crate::specs::Words::bytes_of))]
    fn to_bytes(self) -> [u8; 2] {
        u16::to_le_bytes(self)
    }
}

impl Word<4> for u32 {
    ghost number = { λ n. n };

    ghost word_of = { λ n. n };

    ghost has_number = { λ n h. refl };

    ghost short = { Prim.search rules };

    #[tactic(auto, unfolding(crate::specs::Words::little))]
    fn from_bytes(bytes: [u8; 4]) -> u32
        ensures { result ≡ little bytes }
    {
        u32::from_le_bytes(bytes)
    }

    #[tactic(auto, unfolding(crate::specs::Words::bytes_of))]
    fn to_bytes(self) -> [u8; 4] {
        u32::to_le_bytes(self)
    }
}

// Two's complement.
impl Word<4> for i32 {
    ghost number = { of_z w32 };

    ghost word_of = { to_z w32 };

    ghost has_number = { of_z-to_z w32 };

    ghost short = { Prim.search rules };

    #[tactic(auto, unfolding(crate::specs::Words::little))]
    fn from_bytes(bytes: [u8; 4]) -> i32
        ensures { result ≡ to_z w32 (little bytes) }
    {
        i32::from_le_bytes(bytes)
    }

    #[tactic(auto, unfolding(crate::specs::Words::bytes_of))]
    fn to_bytes(self) -> [u8; 4] {
        i32::to_le_bytes(self)
    }
}

// The byte at place `at`, 0 beyond the end.
pub fn byte_at(bytes: &[u8], at: usize) -> u8
    ensures { result ≡ get_or bytes.now at 0 }
{
    bytes.get(at).copied().unwrap_or(0)
}

// The `N` bytes from place `at` on, 0 beyond the end.
pub fn bytes_at<const N: usize>(bytes: &[u8], at: usize) -> [u8; N]
    ensures { result ≡ bytes_at N bytes.now at }
{
    array::from_fn(|k| byte(bytes, at, k))
}

// The word in the `N` bytes from place `at` on. Bytes beyond the end count as 0.
pub fn word_at<const N: usize, W: Word<N>>(bytes: &[u8], at: usize) -> W
    ensures { result ≡ W.word_of (word N bytes.now at) }
{
    W::from_bytes(bytes_at(bytes, at))
}

// The byte `k` places behind place `at`, 0 beyond the end.
fn byte(bytes: &[u8], at: usize, k: usize) -> u8
    ensures { result ≡ get_or bytes.now (at + k) 0 }
{
    match at.checked_add(k) {
        Some(place) => byte_at(bytes, place),
        None => 0,
    }
}

// Memory that holds zeros. It stands beside `[0; N]` for the places whose proof is not to see all the zeros one by one.
pub fn zeros<const N: usize>() -> [u8; N]
    ensures { result ≡ replicate N 0 }
{
    [0; N]
}

// Copies `bytes` into `out` from place `at` on. Where they do not fit, `out` is left as it is.
pub fn copy_at(out: &mut [u8], at: usize, bytes: &[u8])
    ensures { out.new ≡ splice out.old at bytes.now }
{
    if out.len() < at {
        return;
    }
    if out.len() - at < bytes.len() {
        return;
    }
    let end = at + bytes.len();
    out[at..end].copy_from_slice(bytes);
}
