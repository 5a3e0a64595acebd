// The inserter, the sending half (document 02, Paper 1): it counts the packets of its mega-frames, and puts one notice in each, in place of the first null
// packet.
#![tactic(auto)]

ghost use Rattle.std.specs.Prelude.{◌≡◌, ◌≤◌, ◌<◌, length, OnOk};
ghost use Rattle.wire.specs.Reply.{reply, reply_of};
ghost use Rattle.wire.specs.Standards.{packet_length, longest_addressing};
ghost use Rattle.inserter.specs.Settings.{notice_at, field_of, settings_refusal, at_first, zeros, started, start_of, progress_fits, sound};
ghost use Rattle.inserter.specs.Packet.{insert_refusal, null_packet, is_null, puts, sent_of, is_last, progress_after, missed, handled, insert_of, passed_number, passed_of};
ghost use Rattle.inserter.specs.Ready.{Ready};

use notice::Notice;
use times::{Steps, Unit};
use wire::{LONGEST_ADDRESSING, MIP_PID, PACKET_LENGTH, Refusal};

// The PID of null packets.
const NULL_PID: u16 = 0x1FFF;

// What a start takes beside the addressing field. The flag is a number, as `placed` below, since C lends inserters that have it, and any byte may stand there.
#[repr(C)]
#[derive(Clone, Copy, PartialEq, Eq, Default)]
pub struct Settings {
    pub n: u16,
    pub periodic: u8,
    pub reserved: u16,
    pub md: Steps,
    pub tps: u32,
}

// The next packet's label, whether this mega-frame's notice is put (1), and the next notice's continuity counter.
#[repr(C)]
#[derive(Clone, Copy, PartialEq, Eq, Default)]
pub struct Progress {
    pub label: u16,
    pub placed: u8,
    pub continuity: u8,
}

// An inserter. Its addressing field is the first `length` bytes of the room.
#[repr(C)]
#[derive(Clone, Copy)]
pub struct Inserter {
    pub settings: Settings,
    pub progress: Progress,
    pub length: u8,
    pub field: [u8; LONGEST_ADDRESSING],
}

// A packet that was sent: within its mega-frame or at the end of one that has its notice, or at the end of one without a null packet (21).
#[derive(Clone, Copy, PartialEq, Eq)]
pub enum Passed {
    Within,
    WithoutNotice,
}

impl Passed {
    // Its number.
    pub fn number(self) -> u8
        ensures { result ≡ passed_number self }
    {
        match self {
            Passed::Within => 0,
            Passed::WithoutNotice => 21,
        }
    }
}

// Where an inserter begins.
fn at_first() -> Progress
    ensures { result ≡ at_first }
{
    Progress {
        label: 0,
        placed: 0,
        continuity: 0,
    }
}

// The notice that is put at this label, which is below n.
fn notice_at(t: Settings, label: u16, continuity: u8, sts: Steps) -> Notice
    requires { label < t.n }
    ensures { result ≡ notice_at t label continuity sts }
{
    Notice {
        continuity,
        pointer: t.n - 1 - label,
        periodic: t.periodic == 1,
        reserved: t.reserved,
        sts,
        md: t.md,
        tps: t.tps,
    }
}

// 15, 19, 8, 10 and 11, of an inserter's settings and its addressing field.
#[tactic(auto, unfolding(crate::specs::Settings::settings_refusal), using(crate::proofs::Judged::some_packets))]
#[inline(always)]
fn check_settings(t: Settings, field: &[u8]) -> Result<(), Refusal>
    ensures numbers { reply_of result ≡ reply (settings_refusal t field.now) tt }
    ensures short { OnOk result (length field.now ≤ longest_addressing) }
{
    if !cadence::admits(Steps::PROFILE, t.n) {
        return Err(Refusal::StartSettings);
    }
    if t.periodic > 1 {
        return Err(Refusal::NoticeField);
    }
    writer::check_write(PACKET_LENGTH, notice_at(t, 0, 0, Steps(0)), field)
}

// What a refused start leaves.
fn zeros() -> Inserter
    ensures { result ≡ zeros }
{
    Inserter {
        settings: Settings {
            n: 0,
            periodic: 0,
            reserved: 0,
            md: Steps(0),
            tps: 0,
        },
        progress: at_first(),
        length: 0,
        field: [0; LONGEST_ADDRESSING],
    }
}

// Starts an inserter in the lent memory, whatever it held. A refused start leaves zeros.
#[tactic(auto, using(crate::proofs::Calling::start_refused, crate::proofs::Calling::start_accepted))]
pub fn start(s: &mut Inserter, t: Settings, field: &[u8]) -> Result<(), Refusal>
    ensures { started s.new (reply_of result) ≡ start_of t field.now }
{
    *s = zeros();
    check_settings(t, field)?;
    s.settings = t;
    // `as` is proved to lose nothing
    s.length = field.len() as u8;
    writer::put_front(&mut s.field, field);
    Ok(())
}

// The label, the flag and the counter.
#[tactic(auto, unfolding(crate::specs::Settings::progress_fits))]
fn progress_fits(n: u16, q: Progress) -> bool
    ensures { result ≡ progress_fits n q }
{
    q.label < n && q.placed <= 1 && q.continuity <= 15 && (q.placed == 0 || q.label > 0)
}

// The addressing field.
fn field_of(s: &Inserter) -> &[u8]
    ensures { result.now ≡ field_of s.now }
{
    s.field.get(..usize::from(s.length)).unwrap_or(&s.field)
}

// Whether each part of an inserter is in its range.
#[tactic(auto, unfolding(crate::specs::Settings::sound))]
#[inline(always)]
fn is_sound(s: &Inserter) -> bool
    ensures { result ≡ sound s.now }
{
    usize::from(s.length) <= LONGEST_ADDRESSING
        && progress_fits(s.settings.n, s.progress)
        && check_settings(s.settings, field_of(s)).is_ok()
}

// 15, 1, 2 and 11.
#[tactic(auto, unfolding(crate::specs::Packet::insert_refusal, crate::specs::Packet::given_refusal))]
fn check_insert(s: &Inserter, p: &[u8], sts: Steps) -> Result<(), Refusal>
    ensures { reply_of result ≡ reply (insert_refusal s.now p.now sts) tt }
{
    if !is_sound(s) {
        return Err(Refusal::StartSettings);
    }
    if p.len() != PACKET_LENGTH {
        return Err(Refusal::NotAPacket);
    }
    if p[0] != wire::SYNC_BYTE {
        return Err(Refusal::SyncByte);
    }
    if !times::in_second(sts) {
        return Err(Refusal::Times);
    }
    Ok(())
}

// Makes a packet the null packet.
#[tactic(auto, unfolding(crate::specs::Packet::null_packet))]
fn clear(p: &mut [u8])
    requires { length p.old ≡ packet_length }
    ensures { p.new ≡ null_packet }
{
    p[..4].copy_from_slice(&[wire::SYNC_BYTE, 0x1F, 0xFF, 0x10]);
    p[4..].fill(0xFF);
}

// Whether a packet is a null packet, or is made one, so that it can leave as the notice.
#[tactic(auto, using(crate::proofs::Calling::null_by))]
fn is_null(p: &[u8]) -> bool
    ensures { result ≡ is_null p.now }
{
    let pid = notice::packet_identifier(p);
    pid == MIP_PID || pid == NULL_PID
}

// Puts what leaves in the place of a packet over it, and answers whether it is the notice. That is not judged again: it was, as the settings.
#[tactic(auto, unfolding(crate::specs::Packet::sent_of, crate::specs::Packet::cleared), using(crate::proofs::Calling::notice_put))]
fn put_sent(s: &Inserter, p: &mut [u8], sts: Steps) -> bool
    requires { Ready s.now p.old sts }
    ensures { (p.new ≡ sent_of s.now p.old sts) × (result ≡ puts s.now.progress p.old) }
{
    if s.progress.placed == 0 && is_null(p) {
        let n = notice_at(s.settings, s.progress.label, s.progress.continuity, sts);
        writer::put_notice(p, n, field_of(s));
        return true;
    }
    if notice::packet_identifier(p) == MIP_PID {
        clear(p);
    }
    false
}

// Whether the packet is the mega-frame's last.
fn is_last(n: u16, q: Progress) -> bool
    requires { q.label < n }
    ensures { result ≡ is_last n q }
{
    q.label + 1 == n
}

// The place in the mega-frame behind a packet in whose place a notice was put or not.
#[tactic(auto, unfolding(crate::specs::Packet::progress_after))]
fn progress_after(n: u16, q: Progress, put: bool) -> Progress
    requires { (q.label < n) × (q.continuity ≤ 15) }
    ensures { result ≡ progress_after n q put }
{
    let last = is_last(n, q);
    Progress {
        label: if last { 0 } else { q.label + 1 },
        placed: if last {
            0
        } else if put {
            1
        } else {
            q.placed
        },
        continuity: if put {
            (q.continuity + 1) % 16
        } else {
            q.continuity
        },
    }
}

// 21 at the end of a mega-frame without a null packet.
#[tactic(auto, unfolding(crate::specs::Packet::missed))]
fn missed(n: u16, q: Progress, put: bool) -> Passed
    requires { q.label < n }
    ensures { passed_number result ≡ missed n q put }
{
    if is_last(n, q) && q.placed == 0 && !put {
        return Passed::WithoutNotice;
    }
    Passed::Within
}

// A packet, with the STS of the next mark: it leaves in its own buffer as it must go out. A refusal keeps the inserter and the packet, which is not to be sent.
#[tactic(auto, using(crate::proofs::Calling::ready, crate::proofs::Calling::insert_kept, crate::proofs::Calling::insert_sent), unfolding(crate::specs::Packet::sent))]
pub fn insert(s: &mut Inserter, p: &mut [u8], sts: Steps) -> Result<Passed, Refusal>
    ensures { handled s.new p.new (passed_of result) ≡ insert_of s.old p.old sts }
{
    check_insert(s, p, sts)?;
    let put = put_sent(s, p, sts);
    let q = s.progress;
    s.progress = progress_after(s.settings.n, q, put);
    Ok(missed(s.settings.n, q, put))
}
