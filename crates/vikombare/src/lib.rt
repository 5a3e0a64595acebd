// The calls that firmware links, for C: on a board a slave's start, packets, numbers notices and gaps, its saved block, and notices read and written; at a
// head-end an inserter's start and packets. Each call that moves a slave or an inserter is lent it. include/vikombare.h is their header.
// No call has a condition on its numbers: bad input gets the papers' number. C has no Option, no Result and no enum with values: a number
// stands beside what it says.
#![tactic(auto)]

ghost use Rattle.std.specs.Prelude.{◌≡◌, length};
ghost use Rattle.wire.specs.Standards.{longest_addressing};
ghost use Rattle.notice.specs.Mip.{addressing_field};
ghost use Rattle.notice.specs.Reader.{read_of};
ghost use Rattle.writer.specs.Writer.{write_of};
ghost use Rattle.slave.specs.Calls.{start_of, packet_of, numbers_of, gap_of};
ghost use Rattle.saved.specs.Block.{save_of, resume_of};
ghost use Rattle.replies.specs.Flat.{flat_left, flat_step};
ghost use Rattle.vikombare.specs.Flat.{tick_on, changed, flat_change, dvb_board, a110_board, filled_with, flat_output, flat_notice, begun_with, flat_start, inserted_with, flat_insert};
ghost use Rattle.inserter.specs.Settings.{start_of as inserter_start_of};
ghost use Rattle.inserter.specs.Packet.{insert_of};

use inserter::Inserter;
use judging::Numbers;
use notice::Notice;
use replies::PacketReply;
use state::{Board, Slave};
use times::{Periods, Steps, Unit};
use wire::LONGEST_ADDRESSING;

// An arrival tick with its clock: profile 0 counts steps of 100 ns, profile 1 bit periods. The profile is a number, since C hands in any byte.
#[repr(C)]
#[derive(Clone, Copy)]
pub struct Tick {
    pub profile: u8,
    pub count: u32,
}

// A notice that was read: its fields, and the length of its addressing field, which begins at byte 21 of the packet.
#[repr(C)]
#[derive(Clone, Copy, Default)]
pub struct NoticeRead {
    pub number: u8,
    pub notice: Notice,
    pub addressing: usize,
}

// The settings of a board whose TAD is in this unit. The calls that make one are names that C links, which can have no type parameter; their parameters
// are C's.
fn board<T: Unit>(n: u16, site: u16, tad: T) -> Board
    ensures { result ≡ record { profile = T.PROFILE; n = n; site = site; tad = T.count tad } }
{
    Board {
        profile: T::PROFILE,
        n,
        site,
        tad: tad.count(),
    }
}

// Starts a slave of profile 0 in the lent memory, whatever it held.
#[unsafe(no_mangle)]
pub extern "C" fn vikombare_dvb_start(s: &mut Slave, n: u16, site: u16, tad: Steps) -> u8
    ensures { changed s.new result ≡ flat_change (start_of (dvb_board n site tad)) }
{
    replies::outcome_number(slave::start(s, board(n, site, tad)))
}

// Starts a slave of profile 1 so.
#[unsafe(no_mangle)]
pub extern "C" fn vikombare_a110_start(s: &mut Slave, n: u16, site: u16, tad: Periods) -> u8
    ensures { changed s.new result ≡ flat_change (start_of (a110_board n site tad)) }
{
    replies::outcome_number(slave::start(s, board(n, site, tad)))
}

// The tick as a count of the slave's own clock, or none: the largest number, which no second has, so that the slave refuses it (3).
fn tick_on(profile: u8, tick: Tick) -> u32
    ensures { result ≡ tick_on profile tick }
{
    if profile == tick.profile {
        tick.count
    } else {
        u32::MAX
    }
}

// A packet with its arrival tick, as the full board reads it; of the lent slave, just what changes is stored. A tick of the other clock is none of the
// slave's (3); of an empty packet none is read.
#[unsafe(no_mangle)]
pub extern "C" fn vikombare_packet(s: &mut Slave, p: &[u8], tick: Tick) -> PacketReply
    ensures { flat_left s.new result ≡ flat_step (packet_of s.old p.now (tick_on s.old.board.profile tick) longest_addressing) }
{
    let t = tick_on(s.board.profile, tick);
    slave::answer_by!(slave::way_of(s, p, t, LONGEST_ADDRESSING), s, PacketReply)
}

// The same, its notice read with this limit. Not the one by the other: a reply that a call hands on is copied, and a plain packet then takes 19 ns instead
// of 14.
#[unsafe(no_mangle)]
pub extern "C" fn vikombare_packet_within(
    s: &mut Slave,
    p: &[u8],
    tick: Tick,
    limit: usize,
) -> PacketReply
    ensures { flat_left s.new result ≡ flat_step (packet_of s.old p.now (tick_on s.old.board.profile tick) limit) }
{
    let t = tick_on(s.board.profile, tick);
    slave::answer_by!(slave::way_of(s, p, t, limit), s, PacketReply)
}

// A packet that comes with a notice in numbers, profile 1.
#[unsafe(no_mangle)]
pub extern "C" fn vikombare_numbers(
    s: &mut Slave,
    p: &[u8],
    tick: Periods,
    x: Numbers,
) -> PacketReply
    ensures { flat_left s.new result ≡ flat_step (numbers_of s.old p.now tick.0 x) }
{
    slave::numbers_notice(s, p, tick.0, x)
}

// A gap of k packets.
#[unsafe(no_mangle)]
pub extern "C" fn vikombare_gap(s: &mut Slave, k: u16) -> u8
    ensures { changed s.new result ≡ flat_change (gap_of s.old k) }
{
    replies::outcome_number(slave::gap(s, k))
}

// Saves a slave in the first 39 bytes that are lent; 0 or the number.
#[unsafe(no_mangle)]
pub extern "C" fn vikombare_save(s: Slave, out: &mut [u8]) -> u8
    ensures { filled_with result out.new ≡ flat_output (save_of s out.old) }
{
    replies::outcome_number(saved::save(s, out))
}

// Resumes a saved slave on a board of profile 0 in the lent memory, whatever it held.
#[unsafe(no_mangle)]
pub extern "C" fn vikombare_dvb_resume(
    s: &mut Slave,
    block: &[u8],
    n: u16,
    site: u16,
    tad: Steps,
) -> u8
    ensures { changed s.new result ≡ flat_change (resume_of block.now (dvb_board n site tad)) }
{
    replies::outcome_number(saved::resume(s, block, board(n, site, tad)))
}

// Resumes a saved slave on a board of profile 1 so.
#[unsafe(no_mangle)]
pub extern "C" fn vikombare_a110_resume(
    s: &mut Slave,
    block: &[u8],
    n: u16,
    site: u16,
    tad: Periods,
) -> u8
    ensures { changed s.new result ≡ flat_change (resume_of block.now (a110_board n site tad)) }
{
    replies::outcome_number(saved::resume(s, block, board(n, site, tad)))
}

// Reads a notice of profile 0 with this limit. No From: the length is the packet's and not the notice's.
#[unsafe(no_mangle)]
#[inline(always)]
pub extern "C" fn vikombare_read_within(p: &[u8], limit: usize) -> NoticeRead
    ensures { result ≡ flat_notice (read_of p.now limit) (length (addressing_field p.now)) }
{
    match notice::read_notice(p, limit) {
        Ok(notice) => NoticeRead {
            number: 0,
            notice,
            addressing: notice::addressing_part(p).len(),
        },
        Err(r) => NoticeRead {
            number: r.number(),
            ..NoticeRead::default()
        },
    }
}

// Reads one as the full board does.
#[unsafe(no_mangle)]
pub extern "C" fn vikombare_read(p: &[u8]) -> NoticeRead
    ensures { result ≡ flat_notice (read_of p.now longest_addressing) (length (addressing_field p.now)) }
{
    vikombare_read_within(p, LONGEST_ADDRESSING)
}

// Writes a notice of profile 0 in the first 188 bytes that are lent; 0 or the number.
#[unsafe(no_mangle)]
pub extern "C" fn vikombare_write(out: &mut [u8], n: Notice, field: &[u8]) -> u8
    ensures { filled_with result out.new ≡ flat_output (write_of out.old n field.now) }
{
    replies::outcome_number(writer::write_notice(out, n, field))
}

// Starts an inserter in the lent memory, whatever it held; 0 or the number.
#[unsafe(no_mangle)]
pub extern "C" fn vikombare_inserter_start(
    s: &mut Inserter,
    settings: inserter::Settings,
    field: &[u8],
) -> u8
    ensures { begun_with s.new result ≡ flat_start (inserter_start_of settings field.now) }
{
    replies::outcome_number(inserter::start(s, settings, field))
}

// A packet with the STS of the next mark, which leaves in its own buffer as it must go out; 0, 21 or the number that refuses it.
#[unsafe(no_mangle)]
pub extern "C" fn vikombare_insert(s: &mut Inserter, p: &mut [u8], sts: Steps) -> u8
    ensures { inserted_with s.new p.new result ≡ flat_insert (insert_of s.old p.old sts) }
{
    match inserter::insert(s, p, sts) {
        Ok(passed) => passed.number(),
        Err(r) => r.number(),
    }
}
