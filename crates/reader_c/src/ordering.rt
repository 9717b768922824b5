// References before walls, for C.
ghost use Rattle.std.specs.Prelude.{◌≡◌};
ghost use Rattle.order.specs.Rule.{ordered};
ghost use Rattle.order.specs.Cases.{verdict_of};
ghost use Rattle.reader_c.specs.OrderAnswer.{order_answer};

use order::Pair;

// 1 and 0 where every pair is kept; otherwise 0 and the place of the first that is not.
#[repr(C)]
#[derive(Clone, Copy)]
pub struct OrderAnswer {
    pub ok: u32,
    pub pair: u64,
}

// The place of the first pair that is not kept, if there is one, as a struct.
pub fn answer(failing: Option<usize>) -> OrderAnswer
    ensures { result ≡ order_answer (verdict_of failing) }
{
    match failing {
        None => OrderAnswer { ok: 1, pair: 0 },
        Some(pair) => OrderAnswer {
            ok: 0,
            pair: pair as u64,
        },
    }
}

// Is every pair kept in the round?
#[unsafe(no_mangle)]
pub extern "C" fn cqdb_references_first(pairs: &[Pair], round: &[u32]) -> OrderAnswer
    ensures { result ≡ order_answer (ordered pairs.now round.now) }
{
    answer(order::references_first(pairs, round))
}
