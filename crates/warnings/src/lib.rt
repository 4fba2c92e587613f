// What is known by a warning's number and by the road: the kinds, the warnings, the table per warning, road type and direction.
#![tactic(auto)]

ghost use Rattle.std.specs.Prelude.{◌≡◌};
ghost use Rattle.warnings.specs.Warnings.{row_of, validity_of, road_type_of, direction_of};

// The kinds of a message, and below its warnings. Both are bytes of the record, which may hold any byte there: the writer answers for
// each, refusal 14, and an enum would be turned into its byte wherever it is used.
pub const NEW: u8 = 1;

pub const UPDATE: u8 = 2;

pub const CANCEL: u8 = 3;

// The warnings, which are the numbers from 1 to the count of them.
pub const STOPPED: u8 = 1;

pub const BROKEN_DOWN: u8 = 2;

pub const POST_CRASH: u8 = 3;

pub const UNRESPONSIVE_DRIVER: u8 = 4;

pub const WARNINGS: u8 = 4;

// The warnings, the highest rank first.
pub const BY_RANK: [u8; WARNINGS as usize] = [
    POST_CRASH,
    UNRESPONSIVE_DRIVER,
    BROKEN_DOWN,
    STOPPED,
];

// What is constant for a warning: for the record and for the sender (a linked cause of 0 is none), its rank, the highest kind and the
// greatest quality that refusal 14 admits, ticks for the engine, and seconds of validity with ignition on and off. No delay is asked of a
// warning that ends without a Cancel.
#[derive(Clone, Copy)]
pub struct Row {
    pub cause: u8,
    pub subcause: u8,
    pub linkedcause: u8,
    pub linkedsubcause: u8,
    pub relevance: u8,
    pub trafficclass: u8,
    pub rank: u8,
    pub kinds: u8,
    pub qualities: u8,
    pub period: u32,
    pub delay: u32,
    pub validityon: u16,
    pub validityoff: u16,
}

const ROWS: [Row; WARNINGS as usize] = [
    Row {
        cause: 94,
        subcause: 0,
        linkedcause: 0,
        linkedsubcause: 0,
        relevance: 4,
        trafficclass: 1,
        rank: 1,
        kinds: CANCEL,
        qualities: 3,
        period: 150,
        delay: 50,
        validityon: 30,
        validityoff: 30,
    },
    Row {
        cause: 94,
        subcause: 2,
        linkedcause: 0,
        linkedsubcause: 0,
        relevance: 4,
        trafficclass: 1,
        rank: 2,
        kinds: CANCEL,
        qualities: 3,
        period: 150,
        delay: 50,
        validityon: 30,
        validityoff: 180,
    },
    Row {
        cause: 94,
        subcause: 3,
        linkedcause: 0,
        linkedsubcause: 0,
        relevance: 4,
        trafficclass: 1,
        rank: 4,
        kinds: CANCEL,
        qualities: 3,
        period: 600,
        delay: 150,
        validityon: 180,
        validityoff: 180,
    },
    Row {
        cause: 99,
        subcause: 8,
        linkedcause: 93,
        linkedsubcause: 3,
        relevance: 4,
        trafficclass: 0,
        rank: 3,
        kinds: UPDATE,
        qualities: 1,
        period: 5,
        delay: 0,
        validityon: 2,
        validityoff: 2,
    },
];

// The table's row of a warning; zeros for a number that is no warning. No Option: the record may hold any byte there, and each caller is
// exact for all of them. Put into its callers always: there a warning that is known leaves one number of the table.
#[inline(always)]
pub fn row_of(warning: u8) -> Row
    ensures { result ≡ row_of warning }
{
    match warning {
        1..=WARNINGS => {
            let i = usize::from(warning - 1);
            ROWS[i]
        }
        _ => Row {
            cause: 0,
            subcause: 0,
            linkedcause: 0,
            linkedsubcause: 0,
            relevance: 0,
            trafficclass: 0,
            rank: 0,
            kinds: 0,
            qualities: 0,
            period: 0,
            delay: 0,
            validityon: 0,
            validityoff: 0,
        },
    }
}

// How long a message stays valid, in seconds; 0 for a number that is no warning.
pub fn validity_of(warning: u8, ignition: bool) -> u16
    ensures { result ≡ validity_of warning ignition }
{
    let row = row_of(warning);
    if ignition {
        row.validityon
    } else {
        row.validityoff
    }
}

// The road type of a road. No Option: 255 is the record's own byte for no road type.
#[tactic(auto, unfolding(crate::specs::Warnings::road_type_of))]
pub fn road_type_of(road: u8) -> u8
    ensures { result ≡ road_type_of road }
{
    match road {
        1 | 3 => 0,
        2 => 1,
        4 | 6 => 2,
        5 => 3,
        _ => 255,
    }
}

#[tactic(auto, unfolding(crate::specs::Warnings::direction_of))]
pub fn direction_of(roadtype: u8) -> u8
    ensures { result ≡ direction_of roadtype }
{
    match roadtype {
        1 | 3 => 1,
        _ => 0,
    }
}
