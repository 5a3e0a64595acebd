// The slave: it follows the cadence, takes notices and places marks in time (document 01, "Steps of a slave"). Its phase and its profile are numbers of
// state's records, which C lends.
#![tactic(auto)]

ghost use Rattle.std.specs.Prelude.{◌≡◌, Ok};
ghost use Rattle.wire.specs.Reply.{Reply, refused, given, refusal_number, reply_of};
ghost use Rattle.state.specs.Slave.{cold};
ghost use Rattle.slave.specs.Answer.{absent, Report, Leaves, left, report_of, answer_of, stepped_of};
ghost use Rattle.slave.specs.Step.{unheard_report};
ghost use Rattle.slave.specs.Calls.{step_of, start_of, packet_of, numbers_of, gap_of};
ghost use Rattle.judging.specs.Judge.{judge_arrived, judge_given};
ghost use Rattle.slave.specs.Ways.{kept_of, moved_of, refused_by, lost_by, way_of};

use addressing::Settings;
use judging::Numbers;
use ready::Ready;
use state::{Board, Count, Slave, Waiting};
use times::{Due, Periods, Steps, Unit};
use wire::Refusal;

// The notice's part of a reply.
#[derive(Clone, Copy)]
pub enum NoticePart {
    Absent,
    Taken,
    Slip,
    Ignored(Refusal),
}

// The mark's part of a reply. Of a mark that is due the times, or the lateness, are in its profile's unit.
#[derive(Clone, Copy)]
pub enum MarkPart {
    Unmarked,
    Untimed,
    Dvb(Due<Steps>),
    A110(Due<Periods>),
}

// The report on a packet that is not refused: a counted one, or an empty one, which has nothing in it.
#[derive(Clone, Copy)]
pub struct Counted {
    pub label: Option<u16>,
    pub notice: NoticePart,
    pub turn: bool,
    pub mark: MarkPart,
    pub place: Option<u16>,
}

// The reply to a packet or a numbers notice, in a caller's form: made of the report on a packet, or of what refuses the call.
pub trait Answer {
    ghost says: { Self → Reply Report → Type 0 };

    fn counted(report: Counted) -> Self
        ensures { says result (given (report_of report)) };

    fn refused(refusal: Refusal) -> Self
        ensures { says result (refused (refusal_number refusal)) };
}

impl Answer for Result<Counted, Refusal> {
    ghost says = { λ a r. answer_of a ≡ r };

    fn counted(report: Counted) -> Result<Counted, Refusal> {
        Ok(report)
    }

    fn refused(refusal: Refusal) -> Result<Counted, Refusal> {
        Err(refusal)
    }
}

// What a call by value leaves and replies.
#[derive(Clone, Copy)]
pub struct Left<T> {
    pub slave: Slave,
    pub reply: Result<T, Refusal>,
}

// The next label moves, and nothing else of the slave.
#[derive(Clone, Copy)]
pub struct Short {
    pub next: u16,
    pub report: Counted,
}

// A mark is passed: the count moves, and nothing waits any more.
#[derive(Clone, Copy)]
pub struct Marked {
    pub count: Count,
    pub report: Counted,
}

// A notice is ignored: the count may move, and the waiting notice may go.
#[derive(Clone, Copy)]
pub struct Kept {
    pub count: Count,
    pub waiting: Waiting,
    pub report: Counted,
}

// All that a packet may change.
#[derive(Clone, Copy)]
pub struct Moved {
    pub settings: Settings,
    pub count: Count,
    pub waiting: Waiting,
    pub report: Counted,
}

// What a packet does to a slave. An empty one is a gap of one, which asks for 15 itself; any other is here where it is not refused. Packets without a notice
// have three ways of their own: a hunting slave stays as it is, the label moves on, or a mark is passed.
#[derive(Clone, Copy)]
pub enum Way {
    Lost,
    Hunts,
    Short(Short),
    Marked(Marked),
    Kept(Kept),
    Moved(Moved),
}

mod gaps;
mod ready;
mod release;
mod steps;

// Starts a slave, whatever it was. 15 outside the limits.
#[tactic(auto, unfolding(crate::specs::Calls::start_of))]
pub fn start(s: &mut Slave, b: Board) -> Result<(), Refusal>
    ensures { left s.new (reply_of result) ≡ start_of b }
{
    if !state::settings_kept(b) {
        return go_cold(s);
    }
    *s = state::hunting_slave(b);
    Ok(())
}

// 15 leaves the cold slave.
fn go_cold(s: &mut Slave) -> Result<(), Refusal>
    ensures { left s.new (reply_of result) ≡ left cold (refused 15) }
{
    *s = state::cold_slave();
    Err(Refusal::StartSettings)
}

// A packet that arrived right, on a sound slave: what was judged decides which step is taken, and each is one method. A function of one caller, so that
// the compiler keeps the steps out of memory.
#[tactic(auto, using(judging::proofs::Judging::arrived_limits), unfolding(crate::specs::Calls::step_of, crate::specs::Step::counted, crate::specs::Step::unheard))]
#[inline(always)]
fn arrived(r: Ready<'_>, p: &[u8], limit: usize) -> Way
    ensures { way_of r.entry.slave.now (Ok result) ≡ step_of r.entry.slave.now (judge_arrived r.entry.slave.now.board r.entry.slave.now.settings p.now limit) r.entry.tick }
{
    match judging::judge_arrived(r.slave.board, r.slave.settings, p, limit) {
        Ok(None) => match r.locked() {
            None => Way::Hunts,
            Some(l) if l.ready.slave.count.next == 0 => Way::Marked(l.pass_mark()),
            Some(l) => Way::Short(l.pass_on()),
        },
        Ok(Some(t)) => Way::Moved(r.take(t)),
        Err(k) => Way::Kept(r.ignore(k)),
    }
}

// What a packet with its arrival tick does, its notice read with this limit. An empty one was lost, whatever its tick. Any other is judged in the papers'
// order, each thing once: 15, then 1 to 3, then 4, 6 to 8, 26 and 9 to 13.
#[tactic(auto, using(crate::proofs::Calling::packet_lost), unfolding(crate::specs::Calls::packet_of))]
#[inline(always)]
pub fn way_of(s: &Slave, p: &[u8], tick: u32, limit: usize) -> Result<Way, Refusal>
    ensures { way_of s.now result ≡ packet_of s.now p.now tick limit }
{
    if p.is_empty() {
        return Ok(Way::Lost);
    }
    let r = Ready::new(s, p, tick)?;
    Ok(arrived(r, p, limit))
}

// The report with nothing in it: of a hunting slave on a packet that carries no notice, and of an empty packet.
pub fn blank_report() -> Counted
    ensures { report_of result ≡ unheard_report absent }
{
    steps::unheard(NoticePart::Absent)
}

// What a numbers notice that is ignored leaves, stored in the slave, and the reply.
#[inline(always)]
fn apply_kept<A: Answer>(s: &mut Slave, m: Kept) -> A
    ensures { Leaves A.says s.new result (kept_of s.old m) }
{
    s.count = m.count;
    s.waiting = m.waiting;
    A::counted(m.report)
}

// All that a numbers notice may change, stored in the slave, and the reply.
#[inline(always)]
fn apply_moved<A: Answer>(s: &mut Slave, m: Moved) -> A
    ensures { Leaves A.says s.new result (moved_of s.old m) }
{
    s.settings = m.settings;
    s.count = m.count;
    s.waiting = m.waiting;
    A::counted(m.report)
}

// A refusal leaves the slave, and 15 the cold one.
#[inline(always)]
fn refuse<A: Answer>(s: &mut Slave, r: Refusal) -> A
    ensures { Leaves A.says s.new result (refused_by s.old r) }
{
    match r {
        Refusal::StartSettings => {
            *s = state::cold_slave();
            A::refused(Refusal::StartSettings)
        }
        r => A::refused(r),
    }
}

// An empty packet stands for one that was lost (document 02, Paper 5): a gap of one, which asks for 15, and a reply with nothing in it.
#[tactic(auto, unfolding(crate::specs::Calls::gap_of))]
pub fn lost<A: Answer>(s: &mut Slave) -> A
    ensures { Leaves A.says s.new result (lost_by s.old) }
{
    match gap(s, 1) {
        Ok(()) => A::counted(blank_report()),
        Err(r) => A::refused(r),
    }
}

// What a packet does to a lent slave, stored in it, and its reply in the caller's form. A macro, so that each arm makes and returns its own reply in the call
// that it is written in: a reply that comes from a call, or is made after the arms of what they give, goes through memory.
#[macro_export]
macro_rules! answer_by {
    ($way:expr, $slave:ident, $answer:ty) => {
        match $way {
            Ok($crate::Way::Short(q)) => {
                $slave.count.next = q.next;
                return <$answer as $crate::Answer>::counted(q.report);
            }
            Ok($crate::Way::Hunts) => {
                return <$answer as $crate::Answer>::counted($crate::blank_report());
            }
            Ok($crate::Way::Lost) => {
                return $crate::lost($slave);
            }
            Ok($crate::Way::Marked(m)) => {
                $slave.count = m.count;
                $slave.waiting = state::nothing_waiting();
                return <$answer as $crate::Answer>::counted(m.report);
            }
            Ok($crate::Way::Kept(m)) => {
                $slave.count = m.count;
                $slave.waiting = m.waiting;
                return <$answer as $crate::Answer>::counted(m.report);
            }
            Ok($crate::Way::Moved(m)) => {
                $slave.settings = m.settings;
                $slave.count = m.count;
                $slave.waiting = m.waiting;
                return <$answer as $crate::Answer>::counted(m.report);
            }
            Err(wire::Refusal::StartSettings) => {
                *$slave = state::cold_slave();
                return <$answer as $crate::Answer>::refused(wire::Refusal::StartSettings);
            }
            Err(r) => {
                return <$answer as $crate::Answer>::refused(r);
            }
        }
    };
}

// A packet with its arrival tick, and the limit with which its notice is read.
#[inline(always)]
pub fn packet<A: Answer>(s: &mut Slave, p: &[u8], tick: u32, limit: usize) -> A
    ensures { Leaves A.says s.new result (packet_of s.old p.now tick limit) }
{
    answer_by!(way_of(s, p, tick, limit), s, A)
}

// The same of a slave that is handed in and back.
pub fn packet_by_value(mut s: Slave, p: &[u8], tick: u32, limit: usize) -> Left<Counted>
    ensures { stepped_of result ≡ packet_of s p.now tick limit }
{
    let reply = packet(&mut s, p, tick, limit);
    Left { slave: s, reply }
}

// A packet that comes with a notice in numbers: 15, then 1 to 3, 20, 4 and 11 to 13. Not by a way: its notice is taken or ignored, and each arm stores what
// it moves, which after both would go through memory (28 ns through C, for 54).
#[tactic(auto, using(judging::proofs::Judging::given_limits))]
#[inline(always)]
pub fn numbers_notice<A: Answer>(s: &mut Slave, p: &[u8], tick: u32, x: Numbers) -> A
    ensures { Leaves A.says s.new result (numbers_of s.old p.now tick x) }
{
    let ready = match Ready::new(s, p, tick) {
        Ok(ready) => ready,
        Err(r) => return refuse(s, r),
    };
    if s.board.profile == Steps::PROFILE {
        return A::refused(Refusal::OtherProfile);
    }
    match judging::judge_given(s.board, s.settings, p, x) {
        Ok(t) => {
            let m = ready.take(t);
            apply_moved(s, m)
        }
        Err(k) => {
            let m = ready.ignore(k);
            apply_kept(s, m)
        }
    }
}

// k packets are known to be missing.
#[tactic(auto, unfolding(crate::specs::Calls::gap_of))]
pub fn gap(s: &mut Slave, k: u16) -> Result<(), Refusal>
    ensures { left s.new (reply_of result) ≡ gap_of s.old k }
{
    if !state::is_sound(s) {
        return go_cold(s);
    }
    gaps::pass_gap(s, k);
    Ok(())
}
