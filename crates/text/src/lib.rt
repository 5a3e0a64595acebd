// The lines of the programs as text (document 01, the paragraph on the log program; document 02, Paper 1), put on a page one behind the other.
// Not by `Display`: nothing that `write!` promises says that it answers `Ok`, so a line with room would not be known to be put (tried).
#![tactic(auto)]

ghost use Rattle.std.specs.Prelude.{◌≡◌, [], ◌∷◌, ◌+◌, ◌-◌, ◌≤◌, length};
ghost use Rattle.wire.specs.Reply.{given, refused};
ghost use Rattle.wire.specs.Standards.{packet_length};
ghost use Rattle.times.specs.Answer.{due_in};
ghost use Rattle.slave.specs.Answer.{ignored, due, option_of, notice_of, mark_of, report_of, answer_of};
ghost use Rattle.text.specs.Decimal.{decimal, most_digits};
ghost use Rattle.text.specs.Line.{worded, label_text, notice_text, mark_text, report_text, numbered, refusal_text, line_of, site_line, end_line, record_line, mega_frame_line};
ghost use Rattle.text.specs.Rooms.{worded_room, column_room, mark_room, report_room, numbered_room, refusal_room, line_room, site_room, end_room, record_room, mega_frame_room};
ghost use Rattle.text.specs.Puts.{Puts, Placed};

use slave::{Counted, MarkPart, NoticePart};
use times::{Due, Unit};
use wire::{PACKET_LENGTH, Refusal};

// The fixed words before numbers and behind them: specs/Words.antt.
const SITE_WORD: &[u8] = b"site ";

const CADENCE_WORD: &[u8] = b" cadence ";

const REFUSED_WORD: &[u8] = b"refused ";

const END_WORD: &[u8] = b"end ";

const LATE_WORD: &[u8] = b"late ";

const RECORD_WORD: &[u8] = b"record ";

const MEGA_FRAME_WORD: &[u8] = b"mega-frame ";

const WITHOUT_WORD: &[u8] = b" without a null packet\n";

// The most bytes that each part takes: specs/Rooms.antt.
const MOST_DIGITS: usize = 20;

const COLUMN_ROOM: usize = MOST_DIGITS;

const REPORT_ROOM: usize = COLUMN_ROOM + 1 + COLUMN_ROOM + 1 + LATE_WORD.len() + MOST_DIGITS + 1;

// Behind a word that ends a line: its number, and the line's end.
const NUMBER_ROOM: usize = MOST_DIGITS + 1;

pub const REFUSAL_ROOM: usize = REFUSED_WORD.len() + NUMBER_ROOM;

pub const LINE_ROOM: usize = MOST_DIGITS + 1 + REPORT_ROOM;

pub const SITE_ROOM: usize = SITE_WORD.len() + MOST_DIGITS + CADENCE_WORD.len() + NUMBER_ROOM;

pub const END_ROOM: usize = END_WORD.len() + NUMBER_ROOM;

pub const RECORD_ROOM: usize = RECORD_WORD.len() + MOST_DIGITS + 1 + REFUSAL_ROOM;

const MEGA_FRAME_ROOM: usize = MEGA_FRAME_WORD.len() + MOST_DIGITS + WITHOUT_WORD.len();

// A lent buffer, and the byte that the next text begins at. Each method that puts something says that the page keeps its buffer (`same`), since a caller has
// lent it and reads it afterwards, and the private ones ask for room: no fact of every page, for a page may be full.
#[derive(Drop)]
pub struct Page<'a> {
    pub out: &'a mut [u8],
    pub at: usize,
}

impl Page<'_> {
    // A fixed word.
    fn word(&mut self, word: &[u8])
        requires { self.old.at + length word.now ≤ length self.old.out.now }
        ensures same { self.new.out.ghost_name ≡ self.old.out.ghost_name }
        ensures puts { Puts (length word.now) self.old.out.now self.old.at word.now self.new.out.now self.new.at }
    {
        let end = self.at + word.len();
        self.out[self.at..end].copy_from_slice(word);
        self.at = end;
    }

    // One byte.
    fn byte(&mut self, b: u8)
        requires { self.old.at + 1 ≤ length self.old.out.now }
        ensures same { self.new.out.ghost_name ≡ self.old.out.ghost_name }
        ensures puts { Puts 1 self.old.out.now self.old.at (b ∷ []) self.new.out.now self.new.at }
    {
        self.out[self.at] = b;
        self.at += 1;
    }

    // A number in decimal.
    #[tactic(auto, using(crate::proofs::Decimals::decimal_is, crate::proofs::Decimals::at_most_digits))]
    fn decimal(&mut self, n: u64)
        requires { self.old.at + most_digits ≤ length self.old.out.now }
        ensures same { self.new.out.ghost_name ≡ self.old.out.ghost_name }
        ensures puts { Puts most_digits self.old.out.now self.old.at (decimal n) self.new.out.now self.new.at }
    {
        let mut digits = itoa::Buffer::new();
        self.word(digits.format(n).as_bytes());
    }

    fn label(&mut self, label: Option<u16>)
        requires { self.old.at + column_room ≤ length self.old.out.now }
        ensures same { self.new.out.ghost_name ≡ self.old.out.ghost_name }
        ensures puts { Puts column_room self.old.out.now self.old.at (label_text (option_of label)) self.new.out.now self.new.at }
    {
        match label {
            None => self.byte(b'-'),
            Some(x) => self.decimal(x.into()),
        }
    }

    fn notice(&mut self, notice: NoticePart)
        requires { self.old.at + column_room ≤ length self.old.out.now }
        ensures same { self.new.out.ghost_name ≡ self.old.out.ghost_name }
        ensures puts { Puts column_room self.old.out.now self.old.at (notice_text (notice_of notice)) self.new.out.now self.new.at }
    {
        match notice {
            NoticePart::Absent => self.byte(b'-'),
            NoticePart::Taken => self.word(b"taken"),
            NoticePart::Slip => self.word(b"slip"),
            NoticePart::Ignored(r) => self.decimal(r.number().into()),
        }
    }

    fn mark(&mut self, mark: MarkPart)
        requires { self.old.at + mark_room ≤ length self.old.out.now }
        ensures same { self.new.out.ghost_name ≡ self.old.out.ghost_name }
        ensures puts { Puts mark_room self.old.out.now self.old.at (mark_text (mark_of mark)) self.new.out.now self.new.at }
    {
        match mark {
            MarkPart::Unmarked => self.byte(b'-'),
            MarkPart::Untimed => self.word(b"untimed"),
            MarkPart::Dvb(d) => self.due(d),
            MarkPart::A110(d) => self.due(d),
        }
    }

    // A mark that is due, in either unit: how late it is, or its emission time.
    fn due<T: Unit>(&mut self, d: Due<T>)
        requires { self.old.at + mark_room ≤ length self.old.out.now }
        ensures same { self.new.out.ghost_name ≡ self.old.out.ghost_name }
        ensures puts { Puts mark_room self.old.out.now self.old.at (mark_text (due T.PROFILE (due_in T.count d))) self.new.out.now self.new.at }
    {
        match d {
            Due::Late(x) => self.worded(LATE_WORD, x.count().into()),
            Due::Released(t) => self.decimal(t.emission.count().into()),
        }
    }

    // The columns of a packet that was counted.
    fn report(&mut self, c: Counted)
        requires { self.old.at + report_room ≤ length self.old.out.now }
        ensures same { self.new.out.ghost_name ≡ self.old.out.ghost_name }
        ensures puts { Puts report_room self.old.out.now self.old.at (report_text (report_of c)) self.new.out.now self.new.at }
    {
        self.label(c.label);
        self.byte(b' ');
        self.notice(c.notice);
        self.byte(b' ');
        self.mark(c.mark);
        self.byte(b'\n');
    }

    // The columns of a packet whose notice a number ignores.
    fn ignored(&mut self, c: Counted, k: u8)
        requires { self.old.at + report_room ≤ length self.old.out.now }
        ensures same { self.new.out.ghost_name ≡ self.old.out.ghost_name }
        ensures puts { Puts report_room self.old.out.now self.old.at (report_text (record (report_of c) { notice = ignored k })) self.new.out.now self.new.at }
    {
        let Counted { label, mark, .. } = c;
        self.label(label);
        self.byte(b' ');
        self.decimal(k.into());
        self.byte(b' ');
        self.mark(mark);
        self.byte(b'\n');
    }

    // A number behind its word.
    fn worded(&mut self, word: &[u8], n: u64)
        requires { self.old.at + worded_room word.now ≤ length self.old.out.now }
        ensures same { self.new.out.ghost_name ≡ self.old.out.ghost_name }
        ensures puts { Puts (worded_room word.now) self.old.out.now self.old.at (worded word.now n) self.new.out.now self.new.at }
    {
        self.word(word);
        self.decimal(n);
    }

    // The same at the end of a line.
    fn numbered(&mut self, word: &[u8], n: u64)
        requires { self.old.at + numbered_room word.now ≤ length self.old.out.now }
        ensures same { self.new.out.ghost_name ≡ self.old.out.ghost_name }
        ensures puts { Puts (numbered_room word.now) self.old.out.now self.old.at (numbered word.now n) self.new.out.now self.new.at }
    {
        self.worded(word, n);
        self.byte(b'\n');
    }

    // A refusal's number at the end of a line: any number, as the definition has it.
    fn refused(&mut self, k: u8)
        requires { self.old.at + refusal_room ≤ length self.old.out.now }
        ensures same { self.new.out.ghost_name ≡ self.old.out.ghost_name }
        ensures puts { Puts refusal_room self.old.out.now self.old.at (refusal_text k) self.new.out.now self.new.at }
    {
        self.numbered(REFUSED_WORD, k.into());
    }

    // How many bytes there are from byte `at` on.
    fn room(&self) -> usize
        ensures { result ≡ length self.now.out.now - self.now.at }
    {
        self.out.len().saturating_sub(self.at)
    }

    // A refusal, with its number. Here and below nothing is put where there is too little room: each line has a room of its own.
    pub fn refusal(&mut self, k: u8)
        ensures same { self.new.out.ghost_name ≡ self.old.out.ghost_name }
        ensures placed { Placed refusal_room self.old.out.now self.old.at (refusal_text k) self.new.out.now self.new.at }
    {
        if self.room() < REFUSAL_ROOM {
            return;
        }
        self.refused(k);
    }

    // The line of a record that was answered.
    pub fn line(&mut self, number: u64, answer: Result<Counted, Refusal>)
        ensures same { self.new.out.ghost_name ≡ self.old.out.ghost_name }
        ensures placed { Placed line_room self.old.out.now self.old.at (line_of number (answer_of answer)) self.new.out.now self.new.at }
    {
        let c = match answer {
            Ok(c) => c,
            Err(r) => return self.refused_line(number, r.number()),
        };
        if self.room() < LINE_ROOM {
            return;
        }
        self.decimal(number);
        self.byte(b' ');
        self.report(c);
    }

    // The line of a record, by its own number, that a number refuses: any number, as the definition has it; a Refusal would allow less.
    pub fn refused_line(&mut self, which: u64, k: u8)
        ensures same { self.new.out.ghost_name ≡ self.old.out.ghost_name }
        ensures placed { Placed line_room self.old.out.now self.old.at (line_of which (refused k)) self.new.out.now self.new.at }
    {
        if self.room() < LINE_ROOM {
            return;
        }
        self.decimal(which);
        self.byte(b' ');
        self.refused(k);
    }

    // The line of a record whose notice a number ignores, any number likewise: what the columns say else is the report's.
    pub fn ignored_line(&mut self, whose: u64, c: Counted, k: u8)
        ensures same { self.new.out.ghost_name ≡ self.old.out.ghost_name }
        ensures placed { Placed line_room self.old.out.now self.old.at (line_of whose (given (record (report_of c) { notice = ignored k }))) self.new.out.now self.new.at }
    {
        if self.room() < LINE_ROOM {
            return;
        }
        self.decimal(whose);
        self.byte(b' ');
        self.ignored(c, k);
    }

    // The site line.
    pub fn site(&mut self, site: u16, n: u16)
        ensures same { self.new.out.ghost_name ≡ self.old.out.ghost_name }
        ensures placed { Placed site_room self.old.out.now self.old.at (site_line site n) self.new.out.now self.new.at }
    {
        if self.room() < SITE_ROOM {
            return;
        }
        self.worded(SITE_WORD, site.into());
        self.numbered(CADENCE_WORD, n.into());
    }

    // The end line.
    #[tactic(auto, unfolding(crate::specs::Line::end_line), using(crate::proofs::Putting::puts_placed))]
    pub fn end(&mut self, count: u64)
        ensures same { self.new.out.ghost_name ≡ self.old.out.ghost_name }
        ensures placed { Placed end_room self.old.out.now self.old.at (end_line count) self.new.out.now self.new.at }
    {
        if self.room() < END_ROOM {
            return;
        }
        self.numbered(END_WORD, count);
    }

    // The line of a record that the program insert leaves out.
    pub fn refused_record(&mut self, number: u64, k: u8)
        ensures same { self.new.out.ghost_name ≡ self.old.out.ghost_name }
        ensures placed { Placed record_room self.old.out.now self.old.at (record_line number k) self.new.out.now self.new.at }
    {
        if self.room() < RECORD_ROOM {
            return;
        }
        self.worded(RECORD_WORD, number);
        self.byte(b' ');
        self.refused(k);
    }

    // The line of a mega-frame without a null packet.
    pub fn without_notice(&mut self, number: u64)
        ensures same { self.new.out.ghost_name ≡ self.old.out.ghost_name }
        ensures placed { Placed mega_frame_room self.old.out.now self.old.at (mega_frame_line number) self.new.out.now self.new.at }
    {
        if self.room() < MEGA_FRAME_ROOM {
            return;
        }
        self.worded(MEGA_FRAME_WORD, number);
        self.word(WITHOUT_WORD);
    }

    // A packet that is sent: bytes and no text, put as the lines are.
    pub fn packet(&mut self, packet: &[u8; PACKET_LENGTH])
        ensures same { self.new.out.ghost_name ≡ self.old.out.ghost_name }
        ensures placed { Placed packet_length self.old.out.now self.old.at packet.now self.new.out.now self.new.at }
    {
        if self.room() < PACKET_LENGTH {
            return;
        }
        self.word(packet);
    }
}
