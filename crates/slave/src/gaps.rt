// A gap's steps. The phase is a number of state's records, which C lends.
ghost use Rattle.std.specs.Prelude.{◌≡◌, true, ◌<◌};
ghost use Rattle.state.specs.Sound.{sound};
ghost use Rattle.slave.specs.Gap.{to_mark, gapped};

use crate::steps;
use state::{LOCKED, Slave};

// How many packets pass before the next mark.
fn to_mark(n: u32, next: u32) -> u32
    requires { next < n }
    ensures { result ≡ to_mark n next }
{
    if next == 0 { 0 } else { n - next }
}

// Counts k missing packets. Of the slave, the count moves, and a waiting notice goes with its mark.
#[tactic(auto, using(crate::proofs::Stepping::next_below), unfolding(crate::specs::Gap::gapped))]
pub(crate) fn pass_gap(s: &mut Slave, k: u16)
    requires { sound s.old ≡ true }
    ensures { s.new ≡ gapped s.old k }
{
    if s.count.phase != LOCKED {
        return;
    }
    let n = u32::from(s.board.n);
    let next = u32::from(s.count.next);
    let missing = u32::from(k);
    let left = to_mark(n, next);
    // `as` is proved to lose nothing
    let after = ((next + missing) % n) as u16;
    let marks = if missing <= left {
        0
    } else {
        s.waiting = state::nothing_waiting();
        1 + (missing - 1 - left) / n
    };
    s.count = steps::labelled(steps::past(s.count, marks), after);
}
