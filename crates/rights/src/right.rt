// Whether a client's word has the right to a kind of step.
ghost use Rattle.std.specs.Prelude.{◌≡◌, eqb};
ghost use Rattle.chain.specs.Kinds.{place_in_order};
ghost use Rattle.chain.specs.Rights.{right_in};

use chain::kind::Kind;

// By the constants that callers make rights of, and not by the kind's number: so each of them is proved to be the bit that a step asks for. As divisors
// they are constants of each arm, and no division is left in the code.
#[tactic(auto, using(crate::proofs::RightBits::right_bit))]
pub fn has_right(w: u64, kind: Kind) -> bool
    ensures { result ≡ eqb (right_in (place_in_order kind) w) 1 }
{
    match kind {
        Kind::Name => w / crate::NAME % 2 == 1,
        Kind::Become => w / crate::BECOME % 2 == 1,
        Kind::Abdicate => w / crate::ABDICATE % 2 == 1,
        Kind::Fetch => w / crate::FETCH % 2 == 1,
        Kind::CloseLast => w / crate::CLOSE_LAST % 2 == 1,
        Kind::Finish => w / crate::FINISH % 2 == 1,
        Kind::Create => w / crate::CREATE % 2 == 1,
        Kind::Append => w / crate::APPEND % 2 == 1,
        Kind::Write => w / crate::WRITE % 2 == 1,
        Kind::CloseOwn => w / crate::CLOSE_OWN % 2 == 1,
    }
}
