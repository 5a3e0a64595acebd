// The program insert's work: from the bytes of settings and records to the packets that are sent and the lines about them. Memory is fixed and lent: a call
// fills the front of a buffer and answers how many bytes.
#![tactic(auto)]

ghost use Rattle.std.specs.Prelude.{◌≡◌, ◌+◌, ◌*◌, ◌≤◌, length};
ghost use Rattle.wire.specs.Reply.{reply_of};
ghost use Rattle.wire.specs.Standards.{packet_length};
ghost use Rattle.inserter.specs.Settings.{started};
ghost use Rattle.inserter.specs.Packet.{passed_of};
ghost use Rattle.text.specs.Puts.{Fronts, Puts};
ghost use Rattle.inserting.specs.Settings.{settings_length, settings_room, settings_in, begun_by};
ghost use Rattle.inserting.specs.Records.{record_length, first, opened, counted_by, sent_by, line_by, insertion_after, packet_of, line_of};
ghost use Rattle.inserting.specs.Pieces.{line_room, handled_in, Handled, TakesPiece, ending_of};

use inserter::{Inserter, Passed, Progress, Settings};
use text::Page;
use times::Steps;
use wire::{LONGEST_ADDRESSING, PACKET_LENGTH, Refusal};

// The bytes before the addressing field, and the most that the settings are: specs/Settings.antt.
pub const NUMBERS_LENGTH: usize = 14;

pub const SETTINGS_ROOM: usize = NUMBERS_LENGTH + 255;

// The bytes of a record with its STS: specs/Records.antt.
const STS_LENGTH: usize = 4;

pub const RECORD_LENGTH: usize = STS_LENGTH + PACKET_LENGTH;

// The most bytes of a refused start's line, and of a line about a record or a mega-frame.
pub const OPENING_ROOM: usize = text::REFUSAL_ROOM;

pub const LINE_ROOM: usize = text::RECORD_ROOM;

// The settings at the front of an input; bytes that are missing read as 0.
fn settings_in(head: &[u8]) -> Settings
    ensures { result ≡ settings_in head.now }
{
    Settings {
        n: wire::number16_at(head, 0),
        periodic: wire::byte_at(head, 2),
        reserved: wire::number16_at(head, 3),
        md: Steps(wire::number32_at(head, 5)),
        tps: wire::number32_at(head, 9),
    }
}

// How many bytes the settings are that begin so, whose field's length is their last number.
pub fn settings_length(head: &[u8]) -> usize
    ensures length { result ≡ settings_length head.now }
    ensures most { result ≤ settings_room }
{
    NUMBERS_LENGTH + usize::from(wire::byte_at(head, NUMBERS_LENGTH - 1))
}

// Starts an inserter as the settings ask for. Short settings start what zeros start, nothing (15).
#[tactic(auto, using(crate::proofs::Records::begun_zeros, crate::proofs::Records::begun_long))]
fn start_by(inserter: &mut Inserter, head: &[u8]) -> Result<(), Refusal>
    ensures { started inserter.new (reply_of result) ≡ begun_by head.now }
{
    let length = settings_length(head);
    if head.len() < length {
        return inserter::start(inserter, Settings::default(), &[]);
    }
    inserter::start(inserter, settings_in(head), &head[NUMBERS_LENGTH..length])
}

// The line of a refused start.
fn put_opening(reply: Result<(), Refusal>, out: &mut [u8; OPENING_ROOM]) -> usize
    ensures { Fronts (opened (reply_of reply)) out.old out.new result }
{
    let mut page = Page { out, at: 0 };
    if let Err(r) = reply {
        page.refusal(r.number());
    }
    page.at
}

// The next record's number, the number of the mega-frame that it belongs to, and whether a refused record has had its line.
#[derive(Clone, Copy, PartialEq, Eq)]
pub struct Counts {
    pub number: u64,
    pub mega_frame: u64,
    pub refused: bool,
}

// An insertion between two records.
#[derive(Clone, Copy)]
pub struct Insertion {
    pub inserter: Inserter,
    pub counts: Counts,
}

// What the settings at the front of an input give, and how many bytes were written.
#[derive(Clone, Copy)]
pub struct Begun {
    pub insertion: Insertion,
    pub reply: Result<(), Refusal>,
    pub filled: usize,
}

// Starts an inserter by the settings, and writes the line of a refusal.
pub fn begin(head: &[u8], out: &mut [u8; OPENING_ROOM]) -> Begun
    ensures reply { reply_of result.reply ≡ (begun_by head.now).reply }
    ensures insertion { result.insertion ≡ first (begun_by head.now).inserter }
    ensures opening { Fronts (opened (begun_by head.now).reply) out.old out.new result.filled }
{
    let mut inserter = Inserter {
        settings: Settings::default(),
        progress: Progress::default(),
        length: 0,
        field: [0; LONGEST_ADDRESSING],
    };
    let reply = start_by(&mut inserter, head);
    let filled = put_opening(reply, out);
    let counts = Counts {
        number: 0,
        mega_frame: 0,
        refused: false,
    };
    Begun {
        insertion: Insertion { inserter, counts },
        reply,
        filled,
    }
}

// What a piece of an input leaves in its buffers: how many bytes of packets and of lines were written, and how many bytes are held at the input's front.
#[derive(Clone, Copy)]
pub struct Taken {
    pub packets: usize,
    pub lines: usize,
    pub held: usize,
}

// How many records are whole in so many bytes, and have room for their packets and lines.
#[tactic(auto, unfolding(crate::specs::Pieces::handled_in))]
fn handled_in(bytes: usize, packets: usize, lines: usize) -> usize
    ensures count { result ≡ handled_in bytes packets lines }
    ensures whole { record_length * result ≤ bytes }
    ensures packets { packet_length * result ≤ packets }
    ensures lines { line_room * result ≤ lines }
{
    (bytes / RECORD_LENGTH).min((packets / PACKET_LENGTH).min(lines / LINE_ROOM))
}

// Puts the packet that is sent, if any.
#[tactic(auto, unfolding(crate::specs::Records::sent_by))]
fn put_sent(page: &mut Page, packet: &[u8; PACKET_LENGTH], answer: Result<Passed, Refusal>)
    requires { page.old.at + packet_length ≤ length page.old.out.now }
    ensures same { page.new.out.ghost_name ≡ page.old.out.ghost_name }
    ensures puts { Puts packet_length page.old.out.now page.old.at (sent_by packet.now (passed_of answer)) page.new.out.now page.new.at }
{
    if answer.is_ok() {
        page.packet(packet);
    }
}

impl Counts {
    // Puts the line about a record, if any.
    #[tactic(auto, unfolding(crate::specs::Records::line_by))]
    fn put_line(&self, page: &mut Page, answer: Result<Passed, Refusal>)
        requires { page.old.at + line_room ≤ length page.old.out.now }
        ensures same { page.new.out.ghost_name ≡ page.old.out.ghost_name }
        ensures puts { Puts line_room page.old.out.now page.old.at (line_by self.now (passed_of answer)) page.new.out.now page.new.at }
    {
        match answer {
            Ok(Passed::Within) => {}
            Ok(Passed::WithoutNotice) => page.without_notice(self.mega_frame),
            Err(r) => {
                if !self.refused {
                    page.refused_record(self.number, r.number());
                }
            }
        }
    }

    // Counts a record that an inserter has answered, whose label is then this one.
    #[tactic(auto, unfolding(crate::specs::Records::counted_by))]
    fn count(&mut self, label: u16, answer: Result<Passed, Refusal>)
        ensures { self.new ≡ counted_by self.old label (passed_of answer) }
    {
        self.number = self.number.saturating_add(1);
        if answer.is_err() {
            self.refused = true;
        } else if label == 0 {
            self.mega_frame = self.mega_frame.saturating_add(1);
        }
    }
}

impl Insertion {
    // A record: what is sent of it, and the line about it.
    fn take_record(&mut self, bytes: &[u8], packets: &mut Page, lines: &mut Page)
        requires whole { length bytes.now ≡ record_length }
        requires packets { packets.old.at + packet_length ≤ length packets.old.out.now }
        requires lines { lines.old.at + line_room ≤ length lines.old.out.now }
        ensures same_packets { packets.new.out.ghost_name ≡ packets.old.out.ghost_name }
        ensures same_lines { lines.new.out.ghost_name ≡ lines.old.out.ghost_name }
        ensures insertion { self.new ≡ insertion_after self.old bytes.now }
        ensures packet { Puts packet_length packets.old.out.now packets.old.at (packet_of self.old bytes.now) packets.new.out.now packets.new.at }
        ensures line { Puts line_room lines.old.out.now lines.old.at (line_of self.old bytes.now) lines.new.out.now lines.new.at }
    {
        let sts = Steps(wire::number32_at(bytes, 0));
        // always there: a record is whole
        let Some((_, packet)) = bytes.split_last_chunk::<PACKET_LENGTH>() else {
            return;
        };
        let mut packet = *packet;
        let answer = inserter::insert(&mut self.inserter, &mut packet, sts);
        put_sent(packets, &packet, answer);
        self.counts.put_line(lines, answer);
        self.counts.count(self.inserter.progress.label, answer);
    }

    // Puts what is sent of as many records as are whole and have room, and the lines about them. Answers how many bytes these are, and how many are left.
    fn records(&mut self, input: &[u8], out: &mut [u8], err: &mut [u8]) -> Taken
        ensures { Handled self.old input.now (handled_in (length input.now) (length out.old) (length err.old)) out.old out.new
            err.old err.new self.new result }
    {
        let used = handled_in(input.len(), out.len(), err.len()) * RECORD_LENGTH;
        let mut packets = Page { out, at: 0 };
        let mut lines = Page { out: err, at: 0 };
        for record in input[..used].chunks_exact(RECORD_LENGTH) {
            self.take_record(record, &mut packets, &mut lines);
        }
        Taken {
            packets: packets.at,
            lines: lines.at,
            held: input.len() - used,
        }
    }

    // A piece of an input stands in the first n bytes of `input`: writes the packets and the lines of as many of its records as are whole and have room, and
    // moves what is left of it to the front. An n beyond the input is the whole input.
    pub fn take_piece(
        &mut self,
        n: usize,
        input: &mut [u8],
        out: &mut [u8],
        err: &mut [u8],
    ) -> Taken
        ensures { TakesPiece self.old n input.old input.new out.old out.new err.old err.new self.new result }
    {
        let end = n.min(input.len());
        let taken = self.records(&input[..end], out, err);
        input.copy_within(end - taken.held..end, 0);
        taken
    }

    // The end of an input: bytes that are left are a record cut short.
    #[tactic(auto, unfolding(crate::specs::Pieces::ending_of))]
    pub fn ending(&self, rest: &[u8], err: &mut [u8; LINE_ROOM]) -> usize
        ensures { Fronts (ending_of self.now rest.now) err.old err.new result }
    {
        let mut page = Page { out: err, at: 0 };
        if !rest.is_empty() {
            self.counts.put_line(&mut page, Err(Refusal::NotAPacket));
        }
        page.at
    }
}
