// The messages of a decision, as records at the start of an output.
ghost use Rattle.std.specs.Prelude.{◌≤◌, length};
ghost use Rattle.history.specs.Rules.{noticed, given_by};
ghost use Rattle.engine.specs.Runs.{Writes};

use history::Decision;
use message::Message;

// Put into its caller always: in a call of its own, each step would first lay a message or none down in memory.
#[inline(always)]
fn put_notice(notice: Option<Message>, out: &mut [u8]) -> usize
    requires { 32 ≤ length out.old }
    ensures { Writes (noticed notice) out.old result out.new }
{
    let Some(m) = notice else {
        return 0;
    };
    out[..32].copy_from_slice(&message::encoded(m));
    1
}

// Answers how many messages were written.
#[tactic(auto, using(calls::proofs::Records::notice_few))]
pub(crate) fn put_decision(decision: Decision, out: &mut [u8]) -> usize
    requires { 64 ≤ length out.old }
    ensures { Writes (given_by decision) out.old result out.new }
{
    let given = put_notice(decision.cancel, out);
    given + put_notice(decision.report, &mut out[32 * given..])
}
