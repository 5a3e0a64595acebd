// What a call leaves to its steps: a sound slave, and an arrival tick of its second. The calls themselves take what C lends: a slave, a packet and a tick.
ghost use Rattle.std.specs.Prelude.{◌≡◌, true, IfOk, MatchOption};
ghost use Rattle.wire.specs.Reply.{number_of, reply_of};
ghost use Rattle.times.specs.Release.{in_second};
ghost use Rattle.state.specs.Profile.{second};
ghost use Rattle.state.specs.Sound.{sound};
ghost use Rattle.slave.specs.Calls.{ready_refusal};

use state::{LOCKED, Slave};
use wire::Refusal;

// It refers to the slave: a slave within it would be copied through memory for each packet.
#[derive(Clone, Copy)]
pub(crate) struct Ready<'a> {
    pub(crate) slave: &'a Slave,
    pub(crate) tick: u32,
    pub(crate) ghost is_sound: { sound slave.now ≡ true },
    pub(crate) ghost is_in_second: { in_second (second slave.now.board.profile) tick ≡ true },
}

// A Ready whose slave is locked: it counts labels, so the steps of packets without a notice, and the mark, are methods of this.
#[derive(Clone, Copy)]
pub(crate) struct Locked<'a> {
    pub(crate) ready: Ready<'a>,
    pub(crate) ghost is_locked: { ready.slave.now.count.phase ≡ 2 },
}

impl<'a> Ready<'a> {
    // 15, then 1 to 3.
    #[tactic(auto, using(judging::proofs::Judging::arrived_tick), unfolding(crate::specs::Calls::ready_refusal))]
    #[inline(always)]
    pub(crate) fn new(s: &'a Slave, p: &[u8], tick: u32) -> Result<Ready<'a>, Refusal>
        ensures refusal { number_of (reply_of result) ≡ ready_refusal s.now p.now tick }
        ensures value { IfOk result (λ r. (r.slave.now ≡ s.now) × (r.tick ≡ tick)) }
    {
        if !state::is_sound(s) {
            return Err(Refusal::StartSettings);
        }
        judging::check_arrival(s.board.profile, p, tick)?;
        Ok(Ready { slave: s, tick })
    }

    // None of a slave that hunts.
    #[inline(always)]
    pub(crate) fn locked(self) -> Option<Locked<'a>>
        ensures { MatchOption result (self.entry.slave.now.count.phase ≡ 2 → ⊥) (λ l. (l.ready.slave.now ≡ self.entry.slave.now) × (l.ready.tick ≡ self.entry.tick)) }
    {
        if self.slave.count.phase == LOCKED {
            Some(Locked { ready: self })
        } else {
            None
        }
    }
}
