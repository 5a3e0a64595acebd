// How a packet and a numbers notice are judged (document 01, "Numbers a call can refuse with"): by the start's settings, those in force and the call. Not by
// a slave, whose count and waiting notice no judgement sees.
#![tactic(auto)]

ghost use Rattle.std.specs.Prelude.{◌≡◌, ◌||◌, eqb, ltb};
ghost use Rattle.wire.specs.Reply.{reply, reply_of};
ghost use Rattle.judging.specs.Judgement.{judgement_of, taken_of};
ghost use Rattle.judging.specs.Judge.{arrival_refusal, carries, taken_refusal, limited, mip_taken, judge_mip, judge_arrived, judge_given};

use addressing::Settings;
use cadence::FRAME_MARKS;
use state::{Board, UNKNOWN_INDEX};
use times::{Periods, Steps, Unit};
use wire::Refusal;

// What a numbers notice carries: profile 1 alone has it. The index is the next mark's, 255 for unknown: a number, since C lends it with any byte there.
#[repr(C)]
#[derive(Clone, Copy)]
pub struct Numbers {
    pub pointer: u16,
    pub sts: Periods,
    pub md: Periods,
    pub od: i16,
    pub index: u8,
}

// What a notice that is taken gives, in the profile's own unit. The index enters the slave's count, and is a number as it is there.
#[derive(Clone, Copy)]
pub struct Taken {
    pub pointer: u16,
    pub index: u8,
    pub settings: Settings,
    pub sts: u32,
    pub md: u32,
}

// 1, 2 and 3, of any packet with its arrival tick. The profile is the slave's number, which C lends; the reader has 1 and 2 too, in its own order.
#[tactic(auto, unfolding(crate::specs::Judge::arrival_refusal))]
pub fn check_arrival(profile: u8, p: &[u8], tick: u32) -> Result<(), Refusal>
    ensures { reply_of result ≡ reply (arrival_refusal profile p.now tick) tt }
{
    if p.len() != wire::PACKET_LENGTH {
        return Err(Refusal::NotAPacket);
    }
    if p[0] != wire::SYNC_BYTE {
        return Err(Refusal::SyncByte);
    }
    if !state::in_second(profile, tick) {
        return Err(Refusal::Tick);
    }
    Ok(())
}

// Whether the packet carries a notice for a slave of this profile, which is the slave's number, as above.
#[tactic(auto, unfolding(crate::specs::Judge::carries))]
fn carries(profile: u8, p: &[u8]) -> bool
    ensures { result ≡ carries profile p.now }
{
    profile == Steps::PROFILE && notice::packet_identifier(p) == wire::MIP_PID
}

// The next mark's index is 0 to 19, or unknown, in a notice of either profile; a slave of profile 0 has none.
fn index_allowed(index: u8) -> bool
    ensures { result ≡ (eqb index 255 || ltb index 20) }
{
    index == UNKNOWN_INDEX || index < FRAME_MARKS
}

// 11, 12 and 13, of a notice that is otherwise right.
#[tactic(auto, unfolding(crate::specs::Judge::taken_refusal))]
#[inline(always)]
fn check_taken(b: Board, t: Taken) -> Result<(), Refusal>
    ensures { reply_of result ≡ reply (taken_refusal b t) tt }
{
    if !state::in_second(b.profile, t.sts) || !state::in_second(b.profile, t.md) {
        return Err(Refusal::Times);
    }
    if t.pointer >= b.n || !index_allowed(t.index) {
        return Err(Refusal::PointerOrIndex);
    }
    if !state::delay_kept(b, t.md, t.settings.od) {
        return Err(Refusal::Delay);
    }
    Ok(())
}

// A notice that is otherwise right: 11 to 13 ignore it, else it is taken.
#[tactic(auto, unfolding(crate::specs::Judge::limited))]
#[inline(always)]
fn limited(b: Board, t: Taken) -> Result<Taken, Refusal>
    ensures { taken_of result ≡ limited b t }
{
    check_taken(b, t)?;
    Ok(t)
}

// What a MIP gives.
#[inline(always)]
fn mip_taken(p: &[u8], settings: Settings) -> Taken
    ensures { result ≡ mip_taken p.now settings }
{
    Taken {
        pointer: notice::pointer(p),
        index: UNKNOWN_INDEX,
        settings,
        sts: notice::synchronization_time_stamp(p).0,
        md: notice::maximum_delay(p).0,
    }
}

// A MIP: 6 to 8, 26 and 9, then one walk of its addressing field for its form and what it sets, then 11 to 13.
#[tactic(auto, unfolding(crate::specs::Judge::judge_mip))]
#[inline(always)]
fn judge_mip(b: Board, t: Settings, p: &[u8], limit: usize) -> Result<Taken, Refusal>
    ensures { taken_of result ≡ judge_mip b t p.now limit }
{
    notice::check_section(p, limit)?;
    let settings = addressing::settings_of(notice::addressing_part(p), b.site, t)?;
    limited(b, mip_taken(p, settings))
}

// A packet that arrived right: none where it carries no notice, and an error where a number of C ignores its notice, which is read with this limit. 4 comes
// before the PID.
#[tactic(auto, unfolding(crate::specs::Judge::judge_arrived))]
#[inline(always)]
pub fn judge_arrived(
    b: Board,
    t: Settings,
    p: &[u8],
    limit: usize,
) -> Result<Option<Taken>, Refusal>
    ensures { judgement_of result ≡ judge_arrived b t p.now limit }
{
    if notice::error_indicator(p) != 0 {
        return Err(Refusal::ErrorIndicator);
    }
    if carries(b.profile, p) {
        return Ok(Some(judge_mip(b, t, p, limit)?));
    }
    Ok(None)
}

// A numbers notice whose packet arrived right. Frequency and power stay as they are.
#[tactic(auto, unfolding(crate::specs::Judge::judge_given))]
pub fn judge_given(b: Board, t: Settings, p: &[u8], x: Numbers) -> Result<Taken, Refusal>
    ensures { taken_of result ≡ judge_given b t p.now x }
{
    if notice::error_indicator(p) != 0 {
        return Err(Refusal::ErrorIndicator);
    }
    limited(
        b,
        Taken {
            pointer: x.pointer,
            index: x.index,
            settings: Settings { od: x.od, ..t },
            sts: x.sts.0,
            md: x.md.0,
        },
    )
}
