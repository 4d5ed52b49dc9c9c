// What a call answers and the state after it: where a byte leaves the call, and where it is refused.
#![tactic(auto)]

ghost use Rattle.std.specs.Prelude.{◌≡◌};
ghost use Rattle.machine.specs.Calls.{verdict_so};
ghost use Rattle.phase.specs.Phases.{state_at};
ghost use Rattle.call_end.specs.CallEnd.{status_in, end_at, stopped, refused};

use event::Event;
use phase::{Carried, Phase, Stepped};
use types::Error;

// A verdict, once a chunk is spent: the bytes so far end at a field boundary with no sequence open, or within something.
#[derive(Clone, Copy)]
pub enum Status {
    Complete,
    Incomplete,
}

// What a call that isn't refused answers.
#[derive(Clone, Copy)]
pub enum Answer {
    Event(Event),
    Status(Status),
}

// The bytes read of the chunk, the answer or the refusal, and the state after the call. `Fed` has an `IStream` in place of the last two:
// that type's methods need `feed`, and stand above this crate. Why the two are no struct here, `phase::Carried` says.
#[derive(Clone, Copy)]
pub struct CallEnd {
    pub read: usize,
    pub answer: Result<Answer, Error>,
    pub phase: Phase,
    pub carried: Carried,
}

// A call's end.
#[inline(always)]
pub fn ended(read: usize, answer: Result<Answer, Error>, phase: Phase, carried: Carried) -> CallEnd
    ensures { result ≡ end_at read answer phase carried }
{
    CallEnd {
        read,
        answer,
        phase,
        carried,
    }
}

// The verdict of a state that isn't broken: complete where no field is under way and no sequence is open.
#[tactic(auto, using(crate::proofs::Tests::verdict_complete, crate::proofs::Tests::verdict_deep, crate::proofs::Tests::verdict_taken))]
pub fn verdict(phase: Phase, carried: Carried) -> Status
    ensures { result ≡ status_in (verdict_so (state_at carried.depth phase)) }
{
    match phase {
        Phase::Header(a) if a.taken == 0 && carried.depth == 0 => Status::Complete,
        _ => Status::Incomplete,
    }
}

// Where a byte leaves a call that has read n.
#[inline(always)]
pub fn stop(n: usize, s: Option<Stepped>) -> CallEnd
    ensures { result ≡ stopped n s }
{
    match s {
        Some(Stepped::On(phase, carried)) => {
            let status = verdict(phase, carried);
            ended(n, Ok(Answer::Status(status)), phase, carried)
        }
        Some(Stepped::Raised(event, phase, carried)) => ended(
            n,
            Ok(Answer::Event(event)),
            phase,
            carried,
        ),
        None => ended(
            n,
            Err(Error::InvalidMsg),
            Phase::Broken,
            Carried { depth: 0 },
        ),
    }
}

// An unsound state is refused: nothing is read, and it stays as it is.
pub fn unsound(phase: Phase, carried: Carried) -> CallEnd
    ensures { result ≡ refused 1 phase carried }
{
    ended(0, Err(Error::UnsoundReader), phase, carried)
}
