// References before walls: whether a round, a list of ids, has the reference of each lent pair before the first
// occurrence of its wall prism.
#![tactic(auto)]

ghost use Rattle.std.specs.Prelude.{◌≡◌};
ghost use Rattle.order.specs.Rule.{kept, ordered};
ghost use Rattle.order.specs.Cases.{verdict_of};

// The reference must be sighted before the wall prism.
#[repr(C)]
#[derive(Clone, Copy)]
pub struct Pair {
    pub reference: u32,
    pub wall: u32,
}

// Does the reference occur before the wall prism's first occurrence, if the wall prism occurs? One look at each id of
// the round, up to the first that is one of the two.
pub fn keeps(p: Pair, round: &[u32]) -> bool
    ensures { result ≡ kept p round.now }
{
    for id in round {
        if *id == p.wall {
            return false;
        }
        if *id == p.reference {
            return true;
        }
    }
    true
}

// The place, counted from 0, of the first pair that is not kept in the round; None where every pair is kept.
pub fn references_first(pairs: &[Pair], round: &[u32]) -> Option<usize>
    ensures { verdict_of result ≡ ordered pairs.now round.now }
{
    pairs.iter().position(|p| !keeps(*p, round))
}
