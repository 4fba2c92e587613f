// What is kept of the messages, with one more.
ghost use Rattle.std.specs.Prelude.{◌≡◌, ◌<◌};
ghost use Rattle.history.specs.State.{logged_notice};

use crate::viewing::counted_from;
use history::Log;
use message::Message;
use warnings::{CANCEL, NEW, POST_CRASH};

// A Cancel leaves no warning standing.
#[tactic(auto, unfolding(history::specs::State::logged_notice, history::specs::State::logged))]
pub(crate) fn logged_notice(l: Log, notice: Option<Message>) -> Log
    requires { l.events < u32.MAX }
    ensures { result ≡ logged_notice l notice }
{
    let Some(m) = notice else {
        return l;
    };
    match m.kind {
        NEW => Log {
            standing: notice,
            started: m.reference,
            origin: m.position,
            counted: counted_from(m.reference, l.lastcancel),
            events: l.events + 1,
            ..l
        },
        CANCEL if m.warning == POST_CRASH => Log {
            standing: None,
            lastcancel: m.reference,
            ..l
        },
        CANCEL => Log {
            standing: None,
            ..l
        },
        _ => Log {
            standing: notice,
            ..l
        },
    }
}
