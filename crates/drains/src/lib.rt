// How many drains so many bytes cost over one buffer, drained when "full" is answered and once at the end where bytes are left.
#![tactic(auto)]

ghost use Rattle.std.specs.Prelude.{◌≡◌, ◌≤◌};
ghost use Rattle.drains.specs.Drains.{rounded_up};

#[tactic(auto, using(crate::proofs::Rounding::rounded_ceil))]
pub fn rounded_up(n: usize, b: usize) -> usize
    requires { 1 ≤ b }
    ensures { result ≡ rounded_up n b }
{
    n.div_ceil(b)
}
