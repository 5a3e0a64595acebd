// The replies of the calls as plain numbers, for C: what a reply has not is 0 or false. C has no Option and no enum with values: a flag or a kind stands
// beside its value.
#![tactic(auto)]

ghost use Rattle.std.specs.Prelude.{◌≡◌};
ghost use Rattle.wire.specs.Reply.{refused, number_of, reply_of};
ghost use Rattle.times.specs.Answer.{due_in};
ghost use Rattle.slave.specs.Answer.{ignored, due, mark_number, notice_of, mark_of, report_of};
ghost use Rattle.replies.specs.Flat.{notice_kind, notice_number, mark_kind, mark_times, flat_mark, flat_report, flat_reply};

use slave::{Answer, Counted, MarkPart, NoticePart};
use state::Slave;
use times::{Due, Unit};
use wire::Refusal;

// What a mark is released with, in the unit of its profile; a late mark has its lateness in place of the first, and 0 behind it. In C all this is one
// union.
#[repr(C)]
#[derive(Clone, Copy, Default)]
pub struct MarkTimes {
    pub reference: u32,
    pub emission: u32,
    pub modulation: u32,
    pub wait: i64,
}

// A mark: 0 none, 1 untimed; late in profile 0 (2) or 1 (5), with its number and how late it is; released in profile 0 (3) or 1 (4), with its times. What
// it has not is 0. The kind says the unit: steps of 100 ns in profile 0, bit periods in profile 1.
#[repr(C)]
#[derive(Clone, Copy, Default)]
pub struct Mark {
    pub kind: u8,
    pub number: u8,
    pub times: MarkTimes,
}

// The reply to a packet or a numbers notice. The number refuses the whole call, or is 0. The notice's part: 0 none, 1 taken, 2 slip, 3 ignored with its number.
#[repr(C)]
#[derive(Clone, Copy, Default)]
pub struct PacketReply {
    pub number: u8,
    pub has_label: bool,
    pub label: u16,
    pub notice: u8,
    pub ignored: u8,
    pub turn: bool,
    pub has_place: bool,
    pub place: u16,
    pub mark: Mark,
}

// What a packet or a numbers notice leaves and replies, by value.
#[repr(C)]
#[derive(Clone, Copy)]
pub struct Step {
    pub slave: Slave,
    pub reply: PacketReply,
}

// A mark that is due, in either unit. Each part is chosen by itself, which the compiler does without a branch; a released mark takes longer where one
// match chooses them together.
impl<T: Unit> From<Due<T>> for Mark {
    ghost from_gives = { λ d r. r ≡ flat_mark (due T.PROFILE (due_in T.count d)) };

    fn from(d: Due<T>) -> Mark {
        Mark {
            kind: due_kind(d),
            number: due_number(d),
            times: MarkTimes {
                reference: due_reference(d),
                emission: due_emission(d),
                modulation: due_modulation(d),
                wait: due_wait(d),
            },
        }
    }
}

fn due_kind<T: Unit>(d: Due<T>) -> u8
    ensures { result ≡ mark_kind (due T.PROFILE (due_in T.count d)) }
{
    match d {
        Due::Late(_) => 2 + 3 * T::PROFILE,
        Due::Released(_) => T::PROFILE + 3,
    }
}

fn due_number<T: Unit>(d: Due<T>) -> u8
    ensures { result ≡ mark_number (due T.PROFILE (due_in T.count d)) }
{
    match d {
        Due::Late(_) => Refusal::Late.number(),
        Due::Released(_) => 0,
    }
}

// The reference emission time; of a late mark the lateness.
fn due_reference<T: Unit>(d: Due<T>) -> u32
    ensures { result ≡ (mark_times (due T.PROFILE (due_in T.count d))).reference }
{
    match d {
        Due::Late(x) => x.count(),
        Due::Released(t) => t.reference.count(),
    }
}

fn due_emission<T: Unit>(d: Due<T>) -> u32
    ensures { result ≡ (mark_times (due T.PROFILE (due_in T.count d))).emission }
{
    match d {
        Due::Late(_) => 0,
        Due::Released(t) => t.emission.count(),
    }
}

fn due_modulation<T: Unit>(d: Due<T>) -> u32
    ensures { result ≡ (mark_times (due T.PROFILE (due_in T.count d))).modulation }
{
    match d {
        Due::Late(_) => 0,
        Due::Released(t) => t.modulation.count(),
    }
}

fn due_wait<T: Unit>(d: Due<T>) -> i64
    ensures { result ≡ (mark_times (due T.PROFILE (due_in T.count d))).wait }
{
    match d {
        Due::Late(_) => 0,
        Due::Released(t) => t.wait,
    }
}

impl From<MarkPart> for Mark {
    ghost from_gives = { λ m r. r ≡ flat_mark (mark_of m) };

    fn from(m: MarkPart) -> Mark {
        match m {
            MarkPart::Unmarked => Mark::default(),
            MarkPart::Untimed => Mark {
                kind: 1,
                ..Mark::default()
            },
            MarkPart::Dvb(d) => d.into(),
            MarkPart::A110(d) => d.into(),
        }
    }
}

// The kind of a notice that is ignored.
const IGNORED: u8 = 3;

// The notice's part as C has it: its kind, and the number that ignores it. No From: a byte does not say which of the two it is.
fn notice_kind(n: NoticePart) -> u8
    ensures { result ≡ notice_kind (notice_of n) }
{
    match n {
        NoticePart::Absent => 0,
        NoticePart::Taken => 1,
        NoticePart::Slip => 2,
        NoticePart::Ignored(_) => IGNORED,
    }
}

fn notice_number(n: NoticePart) -> u8
    ensures { result ≡ notice_number (notice_of n) }
{
    match n {
        NoticePart::Ignored(why) => why.number(),
        _ => 0,
    }
}

// The report on a packet.
impl From<Counted> for PacketReply {
    ghost from_gives = { λ c r. r ≡ flat_report (report_of c) };

    fn from(c: Counted) -> PacketReply {
        PacketReply {
            number: 0,
            has_label: c.label.is_some(),
            label: c.label.unwrap_or(0),
            notice: notice_kind(c.notice),
            ignored: notice_number(c.notice),
            turn: c.turn,
            has_place: c.place.is_some(),
            place: c.place.unwrap_or(0),
            mark: c.mark.into(),
        }
    }
}

// The report on a packet whose notice a number ignores: any number, as the definition has it; a NoticePart would allow less.
pub fn ignored_report(c: Counted, k: u8) -> PacketReply
    ensures { result ≡ flat_report (record (report_of c) { notice = ignored k }) }
{
    PacketReply {
        notice: IGNORED,
        ignored: k,
        ..c.into()
    }
}

// A reply that has a number and nothing else: the number refuses the call; with 0 it is a hunting slave's, to a packet without a notice.
pub fn number_alone(k: u8) -> PacketReply
    ensures { result ≡ flat_reply (refused k) }
{
    PacketReply {
        number: k,
        ..PacketReply::default()
    }
}

impl Answer for PacketReply {
    ghost says = { λ a r. a ≡ flat_reply r };

    fn counted(report: Counted) -> PacketReply {
        report.into()
    }

    fn refused(refusal: Refusal) -> PacketReply {
        number_alone(refusal.number())
    }
}

// The number of an outcome, 0 where nothing refuses. No From: neither type is of this crate.
pub fn outcome_number(o: Result<(), Refusal>) -> u8
    ensures { result ≡ number_of (reply_of o) }
{
    match o {
        Ok(()) => 0,
        Err(r) => r.number(),
    }
}
