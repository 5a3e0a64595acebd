// A slave's records, and which of them are sound: the settings of a start, those in force, the count and the waiting notice
// (document 01, "Steps of a slave" and "Saved block").
#![tactic(auto)]

ghost use Rattle.std.specs.Prelude.{◌≡◌};
ghost use Rattle.addressing.specs.Functions.{no_settings};
ghost use Rattle.times.specs.Release.{in_second};
ghost use Rattle.state.specs.Profile.{second, delay_kept, settings_kept};
ghost use Rattle.state.specs.Slave.{nothing, uncounted, cold, hunting};
ghost use Rattle.state.specs.Sound.{frequency_fits, index_fits, waiting_fits, locked_fits, parts_fit, sound};

use addressing::Settings;
use cadence::FRAME_MARKS;
use times::{Periods, Steps, Unit};

// The settings of a start. TAD is in the profile's own unit. The profile is a number, since C lends a slave with any byte there.
#[repr(C)]
#[derive(Clone, Copy, PartialEq, Eq, Default)]
pub struct Board {
    pub profile: u8,
    pub n: u16,
    pub site: u16,
    pub tad: u32,
}

// The numbers of a slave's phase and of a waiting notice, and the index of a mark that is not known. They are bytes that C lends: no enum and no Option
// can stand for them.
pub const COLD: u8 = 0;

pub const HUNTING: u8 = 1;

pub const LOCKED: u8 = 2;

pub const PENDING: u8 = 1;

pub const UNKNOWN_INDEX: u8 = 255;

// The marks passed since the last notice taken are counted up to this number; a hunting slave has it (document 02, Paper 12).
pub const MOST_COASTED: u8 = 255;

// Where the slave stands in the cadence: its phase, 1 where it hunts and 2 where it is locked, the next packet's label, the next mark's index, and the marks
// passed since the last notice taken. Phase and index are numbers, not an enum and an Option, since C lends a slave with any bytes there.
#[repr(C)]
#[derive(Clone, Copy, PartialEq, Eq)]
pub struct Count {
    pub phase: u8,
    pub next: u16,
    pub index: u8,
    pub coasted: u8,
}

// The notice that waits for its mark, in the profile's own unit. Pending is a number beside it, not an Option, since C lends a slave with any bytes there.
#[repr(C)]
#[derive(Clone, Copy, PartialEq, Eq, Default)]
pub struct Waiting {
    pub pending: u8,
    pub sts: u32,
    pub md: u32,
}

// A slave: the settings of its start, those in force, its count and its waiting notice.
#[repr(C)]
#[derive(Clone, Copy, PartialEq, Eq)]
pub struct Slave {
    pub board: Board,
    pub settings: Settings,
    pub count: Count,
    pub waiting: Waiting,
}

// Nothing waits. A name beside the derived default, as addressing::no_settings is.
pub fn nothing_waiting() -> Waiting
    ensures { result ≡ nothing }
{
    Waiting::default()
}

// A count that has not begun.
fn uncounted(phase: u8, coasted: u8) -> Count
    ensures { result ≡ uncounted phase coasted }
{
    Count {
        phase,
        next: 0,
        index: UNKNOWN_INDEX,
        coasted,
    }
}

// A slave of this board and count that was told nothing.
fn untold(board: Board, count: Count) -> Slave
    ensures { result ≡ record { board = board; settings = no_settings; count = count; waiting = nothing } }
{
    Slave {
        board,
        settings: addressing::no_settings(),
        count,
        waiting: nothing_waiting(),
    }
}

// The cold slave: it has no board, and its phase is 0.
pub fn cold_slave() -> Slave
    ensures { result ≡ cold }
{
    untold(Board::default(), uncounted(COLD, 0))
}

// A hunting slave.
pub fn hunting_slave(b: Board) -> Slave
    ensures { result ≡ hunting b }
{
    untold(b, uncounted(HUNTING, MOST_COASTED))
}

// A tick, an STS, an MD or a TAD is within the profile's second. Here and below the profile is a number of the slave's, known when it runs, which chooses
// the unit; a number that is no profile's counts as 0, as in the definitions.
#[tactic(auto, unfolding(crate::specs::Profile::second))]
pub fn in_second(profile: u8, t: u32) -> bool
    ensures { result ≡ in_second (second profile) t }
{
    if profile == Periods::PROFILE {
        times::in_second(Periods(t))
    } else {
        times::in_second(Steps(t))
    }
}

// 13, in the profile's own unit.
#[tactic(auto, unfolding(crate::specs::Profile::delay_kept))]
pub fn delay_kept(b: Board, md: u32, od: i16) -> bool
    ensures { result ≡ delay_kept b md od }
{
    if b.profile == Periods::PROFILE {
        Periods(md).delay_fits(od, Periods(b.tad))
    } else {
        Steps(md).delay_fits(od, Steps(b.tad))
    }
}

// The limits of a start's settings.
#[tactic(auto, unfolding(crate::specs::Profile::settings_kept))]
#[inline(always)]
pub fn settings_kept(b: Board) -> bool
    ensures { result ≡ settings_kept b }
{
    cadence::admits(b.profile, b.n) && b.site != 0 && in_second(b.profile, b.tad)
}

// Signed 24 bits.
#[tactic(auto, unfolding(crate::specs::Sound::frequency_fits))]
fn frequency_fits(z: i32) -> bool
    ensures { result ≡ frequency_fits z }
{
    (-8_388_608..8_388_608).contains(&z)
}

// The next mark's index: unknown, else 0 to 19 in profile 1.
#[tactic(auto, unfolding(crate::specs::Sound::index_fits))]
fn index_fits(profile: u8, index: u8) -> bool
    ensures { result ≡ index_fits profile index }
{
    index == UNKNOWN_INDEX || (profile == Periods::PROFILE && index < FRAME_MARKS)
}

// Nothing, or a pending notice that is in range and satisfies 13.
#[tactic(auto, unfolding(crate::specs::Sound::waiting_fits, crate::specs::Sound::is_nothing))]
fn waiting_fits(s: &Slave) -> bool
    ensures { result ≡ waiting_fits s.now.board s.now.settings.od s.now.waiting }
{
    let b = s.board;
    let w = s.waiting;
    if w.pending == PENDING {
        in_second(b.profile, w.sts)
            && in_second(b.profile, w.md)
            && delay_kept(b, w.md, s.settings.od)
    } else {
        w == nothing_waiting()
    }
}

// A locked slave's parts are in their ranges.
#[tactic(auto, unfolding(crate::specs::Sound::locked_fits))]
fn locked_fits(s: &Slave) -> bool
    ensures { result ≡ locked_fits s.now.board s.now.settings s.now.count s.now.waiting }
{
    frequency_fits(s.settings.frequency)
        && s.count.next < s.board.n
        && index_fits(s.board.profile, s.count.index)
        && waiting_fits(s)
}

// The parts besides the start's settings: a slave that hunts is as its start left it.
#[tactic(auto, unfolding(crate::specs::Sound::parts_fit, crate::specs::Sound::hunting_fits, crate::specs::Sound::is_unset, crate::specs::Sound::is_zero, crate::specs::Sound::is_uncounted, crate::specs::Sound::is_nothing))]
#[inline(always)]
pub fn parts_fit(s: &Slave) -> bool
    ensures { result ≡ parts_fit s.now }
{
    match s.count.phase {
        HUNTING => *s == hunting_slave(s.board),
        LOCKED => locked_fits(s),
        _ => false,
    }
}

// A slave whose parts a saved body may hold. Inlined, so that a packet's call reads each part where it lies.
#[tactic(auto, unfolding(crate::specs::Sound::sound))]
#[inline(always)]
pub fn is_sound(s: &Slave) -> bool
    ensures { result ≡ sound s.now }
{
    settings_kept(s.board) && parts_fit(s)
}
