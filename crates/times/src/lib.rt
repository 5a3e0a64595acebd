// The units of time, and what the limits say of them: document 01, "Two clocks", and refusals 3, 11, 13 and 15 where they speak of times.
// What is said of a mark that is due stands here too; it is reckoned in crate `slave`, where the limits are known to hold.
#![tactic(auto)]

ghost use Rattle.std.specs.Prelude.{◌≡◌, ◌≤◌, Bool, ℕ, ℤ, pos, ◌+ℤ◌};
ghost use Rattle.std.proofs.Common.{rules};
ghost use Rattle.wire.specs.Standards.{dvb_second, a110_second};
ghost use Rattle.times.specs.Release.{in_second, delay_fits, delay_fits_a110};
ghost use Rattle.times.specs.Answer.{number, steps, periods, times_in};

// The unit of a profile: the profile's number, U, the units of its second, and its refusal 13, for the profiles do not refuse the same delays.
pub trait Unit: Copy {
    ghost PROFILE: { ℕ };

    ghost SECOND: { ℕ };

    ghost count: { Self → ℕ };

    ghost delay_fits: { Self → ℤ → Self → Bool };

    const PROFILE: u8;

    const SECOND: u32;

    // Not by From: what each gives is said by the trait's count.
    fn of(units: u32) -> Self
        ensures { count result ≡ units };

    fn count(self) -> u32
        ensures { result ≡ count self };

    // Whether MD, OD and TAD pass 13.
    fn delay_fits(self, od: i16, tad: Self) -> bool
        ensures { result ≡ delay_fits self od tad };

    // The profiles are 0 and 1.
    ghost is_profile: { PROFILE ≤ 1 };
}

// A time or a delay of profile 0, in steps of 100 ns.
#[repr(C)]
#[derive(Clone, Copy, PartialEq, Eq, Default)]
pub struct Steps(pub u32);

// A time or a delay of profile 1, in transport stream bit periods.
#[repr(C)]
#[derive(Clone, Copy, PartialEq, Eq, Default)]
pub struct Periods(pub u32);

impl Unit for Steps {
    ghost PROFILE = { 0 };

    ghost SECOND = { dvb_second };

    ghost count = { steps };

    ghost delay_fits = { λ md od tad. delay_fits dvb_second md.0 od };

    const PROFILE: u8 = 0;

    const SECOND: u32 = 10_000_000;

    fn of(units: u32) -> Steps {
        Steps(units)
    }

    fn count(self) -> u32 {
        self.0
    }

    // Profile 0 has no limit of TAD here.
    #[tactic(auto, unfolding(crate::specs::Release::delay_fits, crate::specs::Whole::within))]
    fn delay_fits(self, od: i16, _tad: Steps) -> bool {
        (0..i64::from(Steps::SECOND)).contains(&delay(self.0, od))
    }

    ghost is_profile = { Prim.search rules };
}

impl Unit for Periods {
    ghost PROFILE = { 1 };

    ghost SECOND = { a110_second };

    ghost count = { periods };

    ghost delay_fits = { λ md od tad. delay_fits_a110 a110_second md.0 od tad.0 };

    const PROFILE: u8 = 1;

    const SECOND: u32 = 0x127_E892;

    fn of(units: u32) -> Periods {
        Periods(units)
    }

    fn count(self) -> u32 {
        self.0
    }

    #[tactic(auto, unfolding(crate::specs::Release::delay_fits, crate::specs::Release::delay_fits_a110, crate::specs::Whole::within))]
    fn delay_fits(self, od: i16, tad: Periods) -> bool {
        let delay = delay(self.0, od);
        let second = i64::from(Periods::SECOND);
        (0..second).contains(&delay) && (1..second).contains(&(delay + i64::from(tad.0)))
    }

    ghost is_profile = { Prim.search rules };
}

// MD + OD.
pub fn delay(md: u32, od: i16) -> i64
    ensures { result ≡ pos md +ℤ od }
{
    i64::from(md) + i64::from(od)
}

// What a mark is released with, each in units of T.
#[derive(Clone, Copy)]
pub struct Times<T> {
    pub reference: T,
    pub emission: T,
    pub modulation: T,
    pub wait: i64,
}

// The same numbers, in the unit T.
impl<T: Unit> From<Times<u32>> for Times<T> {
    ghost from_gives = { λ t r. times_in T.count r ≡ times_in number t };

    fn from(t: Times<u32>) -> Times<T> {
        Times {
            reference: T::of(t.reference),
            emission: T::of(t.emission),
            modulation: T::of(t.modulation),
            wait: t.wait,
        }
    }
}

// A mark that is due: late by so much, or released with its times.
#[derive(Clone, Copy)]
pub enum Due<T> {
    Late(T),
    Released(Times<T>),
}

// Whether a tick, STS, MD or TAD is within its second (3, 11, 15).
pub fn in_second<T: Unit>(t: T) -> bool
    ensures { result ≡ in_second T.SECOND (T.count t) }
{
    t.count() < T::SECOND
}
