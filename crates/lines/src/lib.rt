// The log's lines: from the bytes of a capture to the bytes that the log program prints (document 01, the paragraph on the log program). Memory is fixed and
// lent: a call fills the front of a buffer and answers how many bytes.
#![tactic(auto)]

ghost use Rattle.std.specs.Prelude.{◌≡◌, ◌+◌, ◌*◌, ◌≤◌, length, take, drop};
ghost use Rattle.wire.specs.Reply.{reply_of};
ghost use Rattle.slave.specs.Answer.{shifted_of};
ghost use Rattle.text.specs.Puts.{Fronts};
ghost use Rattle.text.specs.Rooms.{line_room};
ghost use Rattle.lines.specs.Log.{record_length, board_in, begun_by, opened_by, opening_of};
ghost use Rattle.lines.specs.Pieces.{most_records, handled_in, Handled, TakesPiece, ending_of, piece_by, held_by};

use slave::Left;
use state::{Board, Slave};
use text::Page;
use wire::{LONGEST_ADDRESSING, Refusal};

// The bytes of a capture's settings, and of a record with its tick: specs/Log.antt.
pub const SETTINGS_LENGTH: usize = 9;

const TICK_LENGTH: usize = 4;

pub const RECORD_LENGTH: usize = TICK_LENGTH + wire::PACKET_LENGTH;

// The most bytes of an opening, where the site line is the longest, and of an ending.
pub const OPENING_ROOM: usize = text::SITE_ROOM;

pub const ENDING_ROOM: usize = text::LINE_ROOM + text::END_ROOM;

// What the settings at the front of a capture give, and how many bytes were written.
#[derive(Clone, Copy)]
pub struct Begun {
    pub started: Left<()>,
    pub filled: usize,
}

// What a piece of a capture leaves in its buffers: how many bytes of lines were written, and how many bytes are held at the input's front. Lengths and not
// slices: the caller reads more into the one and writes out the other, and both are its own.
#[derive(Clone, Copy)]
pub struct Taken {
    pub filled: usize,
    pub held: usize,
}

// The settings at the front of a capture; bytes that are missing read as 0. A saved block's body has the same four, by a
// definition of its own, and each reader follows its own.
fn board_in(head: &[u8]) -> Board
    ensures { result ≡ board_in head.now }
{
    Board {
        profile: wire::byte_at(head, 0),
        n: wire::number16_at(head, 1),
        site: wire::number16_at(head, 3),
        tad: wire::number32_at(head, 5),
    }
}

// The start that the settings ask for. Short settings are no board: they start what zeros start, a cold slave (15).
#[tactic(auto, using(crate::proofs::Capture::begun_zeros, crate::proofs::Capture::begun_long))]
fn begun_by(head: &[u8]) -> Left<()>
    ensures { shifted_of result ≡ begun_by head.now }
{
    let board = if head.len() < SETTINGS_LENGTH {
        Board::default()
    } else {
        board_in(head)
    };
    let mut slave = state::cold_slave();
    let reply = slave::start(&mut slave, board);
    Left { slave, reply }
}

// The site line where the slave was started, or the refusal alone.
fn put_opening(b: Board, outcome: Result<(), Refusal>, out: &mut [u8; OPENING_ROOM]) -> usize
    ensures { Fronts (opened_by b (reply_of outcome)) out.old out.new result }
{
    let mut page = Page { out, at: 0 };
    match outcome {
        Ok(()) => page.site(b.site, b.n),
        Err(r) => page.refusal(r.number()),
    }
    page.at
}

// Starts a slave by the settings, and writes the site line, or the refusal alone.
pub fn begin(head: &[u8], out: &mut [u8; OPENING_ROOM]) -> Begun
    ensures { (shifted_of result.started ≡ begun_by head.now) × Fronts (opening_of head.now) out.old out.new result.filled }
{
    let started = begun_by(head);
    let filled = put_opening(board_in(head), started.reply, out);
    Begun { started, filled }
}

// Where a log stands between two pieces of its capture: the slave, and the next record's number.
#[derive(Clone, Copy)]
pub struct Log {
    pub slave: Slave,
    pub number: u64,
}

impl Log {
    // How many records are whole in so many bytes, have room for their lines, and can be counted.
    #[tactic(auto, unfolding(crate::specs::Pieces::handled_in))]
    fn handled(&self, bytes: usize, room: usize) -> usize
        ensures count { result ≡ handled_in bytes room self.now.number }
        ensures whole { record_length * result ≤ bytes }
        ensures room { line_room * result ≤ room }
        ensures counted { self.now.number + result ≤ most_records }
    {
        // `as` is proved to lose nothing
        let counted = (u64::MAX - self.number) as usize;
        (bytes / RECORD_LENGTH).min((room / text::LINE_ROOM).min(counted))
    }

    // The lines of as many records as are whole and have room. Answers how many bytes they are, and how many were written.
    fn records(&mut self, input: &[u8], out: &mut [u8]) -> (usize, usize)
        ensures handled { Handled self.old.slave self.old.number input.now (handled_in (length input.now) (length out.old) self.old.number) out.old out.new
            (piece_by self.new result.0 result.1) }
        ensures within { result.0 ≤ length input.now }
    {
        let used = self.handled(input.len(), out.len()) * RECORD_LENGTH;
        let mut page = Page { out, at: 0 };
        for record in input[..used].chunks_exact(RECORD_LENGTH) {
            let tick = wire::number32_at(record, 0);
            let p = &record[TICK_LENGTH..];
            let answer = slave::packet(&mut self.slave, p, tick, LONGEST_ADDRESSING);
            page.line(self.number, answer);
            self.number += 1;
        }
        (used, page.at)
    }

    // A piece of a capture stands in the first n bytes of the input: writes the lines of its whole records, and moves what is left of it to the
    // front. An n beyond the input is the whole input.
    pub fn take_piece(&mut self, n: usize, input: &mut [u8], out: &mut [u8]) -> Taken
        ensures { TakesPiece self.old.slave self.old.number n input.old input.new out.old out.new (held_by self.new result) }
    {
        let end = n.min(input.len());
        let (used, filled) = self.records(&input[..end], out);
        input.copy_within(used..end, 0);
        Taken {
            filled,
            held: end - used,
        }
    }

    // The end of a capture: bytes that are left are a record cut short, and the end line counts it.
    pub fn ending(&self, rest: &[u8], out: &mut [u8; ENDING_ROOM]) -> usize
        ensures { Fronts (ending_of self.now.number rest.now) out.old out.new result }
    {
        let mut page = Page { out, at: 0 };
        if rest.is_empty() || self.number == u64::MAX {
            page.end(self.number);
            return page.at;
        }
        page.line(self.number, Err(Refusal::NotAPacket));
        page.end(self.number + 1);
        page.at
    }
}
