// What a C host calls: the verdict on a message given whole, as a number, its plain copy, how long that is, and how many drains it costs.
// `include/sofab.h` declares them for C.
#![tactic(auto)]

ghost use Rattle.std.specs.Prelude.{◌≡◌, ◌↔◌, true, length};
ghost use Rattle.layout.specs.Limits.{base};
ghost use Rattle.layout.specs.Message.{complete, verdict_of};
ghost use Rattle.layout.specs.Copy.{plain_copy};
ghost use Rattle.turns.specs.Said.{said_of, full};
ghost use Rattle.exports.specs.Exports.{number, result_of, filled, copied, measured, drained};

use copier::{Answer, Copier};
use types::Error;

// An output that is too short, by C's number.
const TOO_SHORT: i64 = -101;

pub fn sofab_verdict(ticket: &[u8]) -> i64
    ensures { result ≡ number (verdict_of base ticket.now) }
{
    codes::number(whole::verdict_of(ticket))
}

// Whether a copier's call ended at its buffer's end.
fn is_full(answer: Result<Answer, Error>) -> bool
    ensures { (result ≡ true) ↔ (said_of answer ≡ full) }
{
    matches!(answer, Ok(Answer::Full))
}

// The copy of a complete message: one call of a fresh copier, the output being its buffer. Where the output has no byte the opening is
// refused, and the copier stands at 0 all the same.
fn copy(ticket: &[u8], out: &mut [u8]) -> i64
    requires { verdict_of base ticket.now ≡ complete }
    ensures { result_of result out.new ≡ filled (plain_copy base ticket.now) out.old }
{
    let opened = Copier::new(out, 0);
    let done = opened.copier.feed(ticket, out);
    if is_full(done.answer) {
        return TOO_SHORT;
    }
    done.copier.writer.offset as i64
}

// The message itself as the copy.
fn block(ticket: &[u8], out: &mut [u8]) -> i64
    ensures { result_of result out.new ≡ filled ticket.now out.old }
{
    let end = emit::put_rest(out, 0, ticket, 0);
    if end < ticket.len() {
        return TOO_SHORT;
    }
    end as i64
}

// Most messages are their own plain copy, and gone over once. No byte is written before the verdict is known.
pub fn sofab_copy(ticket: &[u8], out: &mut [u8]) -> i64
    ensures { result_of result out.new ≡ copied (verdict_of base ticket.now) (plain_copy base ticket.now) out.old }
{
    if own_copy::is_own(ticket) {
        return block(ticket, out);
    }
    if let Some(n) = codes::refusal(whole::verdict_of(ticket)) {
        return n;
    }
    copy(ticket, out)
}

pub fn sofab_length(ticket: &[u8]) -> i64
    ensures { result ≡ measured (verdict_of base ticket.now) (length (plain_copy base ticket.now)) }
{
    codes::length(copy_len::length_of(ticket))
}

pub fn sofab_drains(ticket: &[u8], buffer: usize) -> i64
    ensures { result ≡ drained buffer (verdict_of base ticket.now) (length (plain_copy base ticket.now)) }
{
    codes::drains(drain_count::drains_of(ticket, buffer))
}
