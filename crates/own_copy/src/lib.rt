// Whether a message given whole is its own plain copy, found in one pass.
#![tactic(auto)]

ghost use Rattle.std.specs.Prelude.{◌≡◌, true};
ghost use Rattle.layout.specs.Limits.{base};
ghost use Rattle.layout.specs.Message.{complete, verdict_of};
ghost use Rattle.layout.specs.Copy.{plain_copy};

// Whether a message is whole fields in their shortest form, every sequence closed: then it is complete, and its own plain copy.
pub fn is_own(ticket: &[u8]) -> bool
    ensures { result ≡ true → (verdict_of base ticket.now ≡ complete) × (plain_copy base ticket.now ≡ ticket.now) }
{
    let run = own::fields(ticket, 0);
    run.end == ticket.len() && run.depth == 0
}
