// The times of a mark whose notice waits, or how late it is (document 01, "Release"; document 02, Papers 2 and 3). The limits are known to hold: the
// slave is sound, and the arrival tick is one of its second.
ghost use Rattle.std.specs.Prelude.{◌≡◌, true, ◌+◌, ◌<◌, ◌^◌};
ghost use Rattle.times.specs.Answer.{number, times_in, due_in};
ghost use Rattle.times.specs.Release.{wrap, reference, emission, modulation, link_delay, wait, negative, lateness, delay_fits, times_of, due_of};
ghost use Rattle.state.specs.Profile.{second};
ghost use Rattle.slave.specs.Answer.{mark_of};
ghost use Rattle.slave.specs.Step.{release_at};

use crate::MarkPart;
use crate::ready::Locked;
use times::{Due, Periods, Steps, Times, Unit};

// A mark of STS, MD and OD that came at a tick to a site with TAD, in a second of u units.
#[derive(Clone, Copy)]
struct Arrival {
    u: u32,
    sts: u32,
    md: u32,
    od: i16,
    tad: u32,
    tick: u32,
    ghost u_small: { u + u < 2 ^ 32 },
    ghost sts_less: { sts < u },
    ghost md_less: { md < u },
    ghost delay_in_second: { delay_fits u md od ≡ true },
    ghost tad_less: { tad < u },
    ghost tick_less: { tick < u },
}

// A sum of u or more loses u.
#[tactic(auto, unfolding(times::specs::Release::wrap))]
fn wrapped(u: u32, x: u32) -> u32
    ensures { result ≡ wrap u x }
{
    if x < u { x } else { x - u }
}

// How late a mark with this wait is: minus the wait. `as` is proved to lose nothing.
fn lateness(wait: i64) -> u32
    requires late { negative wait ≡ true }
    requires small { lateness wait < 2 ^ 32 }
    ensures { result ≡ lateness wait }
{
    -wait as u32
}

impl Arrival {
    // The reference emission time.
    fn reference(self) -> u32
        ensures { result ≡ reference self.u self.sts self.md }
    {
        wrapped(self.u, self.sts + self.md)
    }

    // The emission time. `as` is proved to lose nothing.
    #[tactic(auto, unfolding(times::specs::Release::delay_fits, times::specs::Whole::within))]
    fn emission(self) -> u32
        ensures { result ≡ emission self.u self.sts self.md self.od }
    {
        let sum = times::delay(self.md, self.od) as u32;
        wrapped(self.u, self.sts + sum)
    }

    // The modulation time. It and the link delay both take one time from another within the second, but document 01 defines the one by cases and the other
    // by a remainder, and each body follows its own.
    #[tactic(auto, unfolding(times::specs::Release::modulation))]
    fn modulation(self) -> u32
        ensures { result ≡ modulation self.u (emission self.u self.sts self.md self.od) self.tad }
    {
        let emission = self.emission();
        if emission < self.tad {
            return emission + self.u - self.tad;
        }
        emission - self.tad
    }

    // How long the mark was under way.
    #[tactic(auto, unfolding(times::specs::Release::link_delay))]
    fn link_delay(self) -> u32
        ensures { result ≡ link_delay self.u self.tick self.sts }
    {
        if self.tick < self.sts {
            return self.tick + self.u - self.sts;
        }
        self.tick - self.sts
    }

    // How long the mark is still to be held: negative where it is late.
    #[tactic(auto, unfolding(times::specs::Release::delay_fits, times::specs::Whole::within))]
    fn wait(self) -> i64
        ensures { result ≡ wait self.md self.od self.tad (link_delay self.u self.tick self.sts) }
    {
        times::delay(self.md, self.od) - i64::from(self.tad) - i64::from(self.link_delay())
    }

    // The times, in plain numbers.
    fn times(self) -> Times<u32>
        ensures { times_in number result ≡ times_of self.u self.sts self.md self.od self.tad self.tick }
    {
        Times {
            reference: self.reference(),
            emission: self.emission(),
            modulation: self.modulation(),
            wait: self.wait(),
        }
    }

    // The times in the unit T, or the lateness.
    #[tactic(auto, using(times::proofs::Formulas::link_less), unfolding(times::specs::Release::due_of, times::specs::Release::delay_fits, times::specs::Whole::within))]
    fn due<T: Unit>(self) -> Due<T>
        ensures { due_in T.count result ≡ due_of self.u self.sts self.md self.od self.tad self.tick }
    {
        let times = self.times();
        if times.wait < 0 {
            return Due::Late(T::of(lateness(times.wait)));
        }
        Due::Released(times.into())
    }
}

// U of a profile, which is a number of the slave's.
#[tactic(auto, unfolding(state::specs::Profile::second))]
fn second_of(profile: u8) -> u32
    ensures { result ≡ second profile }
{
    if profile == Periods::PROFILE {
        Periods::SECOND
    } else {
        Steps::SECOND
    }
}

impl Locked<'_> {
    // The mark on this packet, whose notice waits.
    #[tactic(auto, using(state::proofs::Sound::pending_kept, state::proofs::Profiles::second_small))]
    fn arrival(self) -> Arrival
        requires { self.ready.slave.now.waiting.pending ≡ 1 }
        ensures { due_of result.u result.sts result.md result.od result.tad result.tick ≡ due_of (second self.entry.ready.slave.now.board.profile) self.entry.ready.slave.now.waiting.sts self.entry.ready.slave.now.waiting.md self.entry.ready.slave.now.settings.od self.entry.ready.slave.now.board.tad self.entry.ready.tick }
    {
        let s = self.ready.slave;
        Arrival {
            u: second_of(s.board.profile),
            sts: s.waiting.sts,
            md: s.waiting.md,
            od: s.settings.od,
            tad: s.board.tad,
            tick: self.ready.tick,
        }
    }

    // Its release, in the unit of its profile, a number by which the unit is chosen here. A call of its own: marks are rare, and the registers are for the
    // packets between them.
    #[tactic(auto, using(crate::proofs::Stepping::profile_below), unfolding(crate::specs::Step::release_at))]
    #[inline(never)]
    pub(crate) fn release(self) -> MarkPart
        requires { self.ready.slave.now.waiting.pending ≡ 1 }
        ensures { mark_of result ≡ release_at self.entry.ready.slave.now self.entry.ready.tick }
    {
        let arrival = self.arrival();
        if self.ready.slave.board.profile == Periods::PROFILE {
            MarkPart::A110(arrival.due())
        } else {
            MarkPart::Dvb(arrival.due())
        }
    }
}
