// The steps of a sound slave on a packet that was judged. Phase, pending and index are the numbers of state's records, which C lends. Plain packets have
// steps of their own: a step for all kinds takes a tenth longer for each.
ghost use Rattle.std.specs.Prelude.{◌≡◌, cond, ◌<◌, ◌≤◌, eqb};
ghost use Rattle.wire.specs.Reply.{refusal_number};
ghost use Rattle.cadence.specs.Label.{next_label};
ghost use Rattle.slave.specs.Answer.{option_of, notice_of, mark_of, report_of, untimed, unmarked};
ghost use Rattle.slave.specs.Step.{raised, coasted_on, place_of, labelled, past, locked_at, mark_at, count_at, kept_at, counted_report, unheard_report, counted, agrees, index_before, index_after, turns, notice_taken, mark_taken, took};
ghost use Rattle.slave.specs.Ways.{short_of, marked_of, kept_of, moved_of};

use crate::ready::{Locked, Ready};
use crate::{Counted, Kept, MarkPart, Marked, Moved, NoticePart, Short};
use cadence::FRAME_MARKS;
use judging::Taken;
use state::{Count, LOCKED, MOST_COASTED, PENDING, Slave, UNKNOWN_INDEX, Waiting};
use wire::Refusal;

// A known index after some marks. Here and below the index is the count's number, and 255 its own word for none.
fn raised(index: u8, marks: u32) -> u8
    requires { marks ≤ 65536 }
    ensures { result ≡ raised index marks }
{
    if index == UNKNOWN_INDEX {
        return UNKNOWN_INDEX;
    }
    // proved to lose nothing
    ((u32::from(index) + marks) % u32::from(FRAME_MARKS)) as u8
}

// The marks coasted after some more: counted up to 255.
fn coasted_on(coasted: u8, marks: u32) -> u8
    requires { marks ≤ 65536 }
    ensures { result ≡ coasted_on coasted marks }
{
    // proved to lose nothing
    (u32::from(coasted) + marks).min(u32::from(MOST_COASTED)) as u8
}

// The count with another label.
pub(crate) fn labelled(c: Count, next: u16) -> Count
    ensures { result ≡ labelled c next }
{
    Count { next, ..c }
}

// The count after some marks.
pub(crate) fn past(c: Count, marks: u32) -> Count
    requires { marks ≤ 65536 }
    ensures { result ≡ past c marks }
{
    Count {
        index: raised(c.index, marks),
        coasted: coasted_on(c.coasted, marks),
        ..c
    }
}

// The label after this one.
fn next_label(n: u16, label: u16) -> u16
    requires { label < n }
    ensures { result ≡ next_label n label }
{
    let after = label + 1;
    if after == n { 0 } else { after }
}

// The M/H place of the packet with this label, by the next mark's index.
fn place_of(index: u8, label: u16) -> Option<u16>
    ensures { option_of result ≡ place_of index label }
{
    if index == UNKNOWN_INDEX {
        return None;
    }
    // `as` is proved to lose nothing
    let marks = u16::from(FRAME_MARKS);
    let mark = (u16::from(index) + marks - 1) % marks;
    Some(cadence::mobile_place(mark as u8, label))
}

// The report on a counted packet of which no notice is taken.
fn counted(label: u16, index: u8, notice: NoticePart, mark: MarkPart) -> Counted
    ensures { report_of result ≡ counted_report label index (notice_of notice) (mark_of mark) }
{
    Counted {
        label: Some(label),
        notice,
        turn: false,
        mark,
        place: place_of(index, label),
    }
}

// The report with no label, no mark and no place: of a hunting slave, and of an empty packet.
pub(crate) fn unheard(notice: NoticePart) -> Counted
    ensures { report_of result ≡ unheard_report (notice_of notice) }
{
    Counted {
        label: None,
        notice,
        turn: false,
        mark: MarkPart::Unmarked,
        place: None,
    }
}

// What is kept of a waiting notice: it goes with its mark.
fn kept_at(s: Slave) -> Waiting
    ensures { result ≡ kept_at s }
{
    if s.count.next == 0 {
        return state::nothing_waiting();
    }
    s.waiting
}

// The count after the mark on this packet.
fn count_at(c: Count) -> Count
    ensures { result ≡ count_at c }
{
    if c.next == 0 {
        return past(c, 1);
    }
    c
}

// An unknown index keeps what is there, any other enters.
fn index_after(before: u8, index: u8) -> u8
    ensures { result ≡ index_after before index }
{
    if index == UNKNOWN_INDEX {
        return before;
    }
    index
}

// Another index than a known one.
fn turned(before: u8, index: u8) -> bool
    ensures { result ≡ turns before index }
{
    index != UNKNOWN_INDEX && before != UNKNOWN_INDEX && before != index
}

// A packet of which a notice is taken, and the label that the notice gives it.
#[derive(Clone, Copy)]
struct Heard<'a> {
    ready: Ready<'a>,
    label: u16,
}

impl Heard<'_> {
    // Whether a locked slave counted this label.
    fn agrees(self) -> bool
        ensures { result ≡ agrees self.entry.ready.slave.now.count self.entry.label }
    {
        let c = self.ready.slave.count;
        c.phase == LOCKED && self.label == c.next
    }

    // On agreement the mark that the slave counted, else label 0 is untimed.
    #[tactic(auto, unfolding(crate::specs::Step::mark_taken))]
    fn mark(self) -> MarkPart
        ensures { mark_of result ≡ mark_taken self.entry.ready.slave.now self.entry.label self.entry.ready.tick }
    {
        match self.ready.locked() {
            Some(l) if self.agrees() => l.mark(),
            _ if self.label == 0 => MarkPart::Untimed,
            _ => MarkPart::Unmarked,
        }
    }

    // The index before the notice's own: a slip and the first lock have none.
    fn index_before(self) -> u8
        ensures { result ≡ index_before self.entry.ready.slave.now.count self.entry.label }
    {
        if self.agrees() {
            return count_at(self.ready.slave.count).index;
        }
        UNKNOWN_INDEX
    }

    // Taken, or a slip where a locked slave counted otherwise.
    #[tactic(auto, unfolding(crate::specs::Step::notice_taken))]
    fn notice(self) -> NoticePart
        ensures { notice_of result ≡ notice_taken self.entry.ready.slave.now.count self.entry.label }
    {
        if self.ready.slave.count.phase == LOCKED && !self.agrees() {
            return NoticePart::Slip;
        }
        NoticePart::Taken
    }
}

impl Locked<'_> {
    // The mark on a packet whose label the slave counted.
    #[tactic(auto, unfolding(crate::specs::Step::mark_at))]
    #[inline(always)]
    fn mark(self) -> MarkPart
        ensures { mark_of result ≡ mark_at self.entry.ready.slave.now self.entry.ready.tick }
    {
        let s = self.ready.slave;
        if s.count.next != 0 {
            return MarkPart::Unmarked;
        }
        if s.waiting.pending != PENDING {
            return MarkPart::Untimed;
        }
        self.release()
    }

    // A packet without a notice, between the marks: the label moves on.
    #[tactic(auto, using(crate::proofs::Stepping::next_below), unfolding(crate::specs::Step::mark_at, crate::specs::Step::passed, crate::specs::Step::counted))]
    pub(crate) fn pass_on(self) -> Short
        requires { self.ready.slave.now.count.next ≡ 0 → ⊥ }
        ensures { short_of self.entry.ready.slave.now result ≡ counted self.entry.ready.slave.now 0 self.entry.ready.tick }
    {
        let s = self.ready.slave;
        Short {
            next: next_label(s.board.n, s.count.next),
            report: counted(
                s.count.next,
                s.count.index,
                NoticePart::Absent,
                MarkPart::Unmarked,
            ),
        }
    }

    // A mark without a notice of its own: a waiting notice is released, and gone.
    #[tactic(auto, using(crate::proofs::Stepping::next_below), unfolding(crate::specs::Step::passed, crate::specs::Step::counted))]
    #[inline(always)]
    pub(crate) fn pass_mark(self) -> Marked
        requires { self.ready.slave.now.count.next ≡ 0 }
        ensures { marked_of self.entry.ready.slave.now result ≡ counted self.entry.ready.slave.now 0 self.entry.ready.tick }
    {
        let s = self.ready.slave;
        let after = past(s.count, 1);
        Marked {
            count: labelled(after, next_label(s.board.n, s.count.next)),
            report: counted(s.count.next, after.index, NoticePart::Absent, self.mark()),
        }
    }
}

impl Ready<'_> {
    // A packet whose notice a number of C ignores: it counts. Both parts are named, though a hunting slave's stay: a way says what stands afterwards. Inlined:
    // a packet with the error indicator takes 35 ns so, and 42 ns where what is kept comes from a call.
    #[tactic(auto, using(crate::proofs::Stepping::next_below), unfolding(crate::specs::Step::passed, crate::specs::Step::unheard, crate::specs::Step::counted))]
    #[inline(always)]
    pub(crate) fn ignore(self, why: Refusal) -> Kept
        ensures { kept_of self.entry.slave.now result ≡ counted self.entry.slave.now (refusal_number why) self.entry.tick }
    {
        let s = self.slave;
        let notice = NoticePart::Ignored(why);
        let Some(l) = self.locked() else {
            return Kept {
                count: s.count,
                waiting: s.waiting,
                report: unheard(notice),
            };
        };
        let label = s.count.next;
        let after = count_at(s.count);
        Kept {
            count: labelled(after, next_label(s.board.n, label)),
            waiting: kept_at(*s),
            report: counted(label, after.index, notice, l.mark()),
        }
    }

    // A notice is taken: its label decides, then the notice and its settings enter. Inlined: a notice takes 51 ns so, and 62 ns through memory.
    #[tactic(auto, unfolding(crate::specs::Step::took))]
    #[inline(always)]
    pub(crate) fn take(self, t: Taken) -> Moved
        requires { t.pointer < self.slave.now.board.n }
        ensures { moved_of self.entry.slave.now result ≡ took self.entry.slave.now t self.entry.tick }
    {
        let n = self.slave.board.n;
        let heard = Heard {
            ready: self,
            // not by cadence::label_of, which would refuse what cannot come here
            label: n - 1 - t.pointer,
        };
        let before = heard.index_before();
        let index = index_after(before, t.index);
        Moved {
            settings: t.settings,
            count: Count {
                phase: LOCKED,
                next: next_label(n, heard.label),
                index,
                coasted: 0,
            },
            waiting: Waiting {
                pending: PENDING,
                sts: t.sts,
                md: t.md,
            },
            report: Counted {
                label: Some(heard.label),
                notice: heard.notice(),
                turn: turned(before, t.index),
                mark: heard.mark(),
                place: place_of(index, heard.label),
            },
        }
    }
}
