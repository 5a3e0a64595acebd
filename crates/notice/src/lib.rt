// The Mega-frame Initialization Packet, TS 101 191 clause 6, read from any bytes: each field of table 1, and the notice.
#![tactic(auto)]

ghost use Rattle.std.specs.Prelude.{◌≡◌};
ghost use Rattle.check_value.specs.Register.{register};
ghost use Rattle.notice.specs.Mip.{sync, error_indicator, unit_start_and_priority, packet_identifier, scrambling_and_adaptation, continuity_counter, synchronization_id, section_length, pointer, periodic_flag, future_use, synchronization_time_stamp, maximum_delay, tps_mip, individual_addressing_length, addressing_field, through_check, notice_in};
ghost use Rattle.notice.specs.Reader.{limit_of, packet_refusal, section_refusal, body_refusal, read_of};
ghost use Rattle.wire.specs.Reply.{reply, reply_of};

use times::Steps;
use wire::{ADDRESSING_START, Refusal};

// What a notice says beside its addressing field.
#[repr(C)]
#[derive(Clone, Copy, PartialEq, Eq, Default)]
pub struct Notice {
    pub continuity: u8,
    pub pointer: u16,
    pub periodic: bool,
    pub reserved: u16,
    pub sts: Steps,
    pub md: Steps,
    pub tps: u32,
}

// The fields of table 1, in its order, each as its definition in specs/Mip.antt says; bytes beyond the end read as 0. Those that differ only in their place
// stay apart: each stands for a line of the table, and what they have in common is in crate `wire`.
fn sync(p: &[u8]) -> u8
    ensures { result ≡ sync p.now }
{
    wire::byte_at(p, 0)
}

pub fn error_indicator(p: &[u8]) -> u8
    ensures { result ≡ error_indicator p.now }
{
    wire::byte_at(p, 1) / 128
}

fn unit_start_and_priority(p: &[u8]) -> u8
    ensures { result ≡ unit_start_and_priority p.now }
{
    wire::byte_at(p, 1) / 32 % 4
}

pub fn packet_identifier(p: &[u8]) -> u16
    ensures { result ≡ packet_identifier p.now }
{
    wire::number16_at(p, 1) % 8192
}

fn scrambling_and_adaptation(p: &[u8]) -> u8
    ensures { result ≡ scrambling_and_adaptation p.now }
{
    wire::byte_at(p, 3) / 16
}

fn continuity_counter(p: &[u8]) -> u8
    ensures { result ≡ continuity_counter p.now }
{
    wire::byte_at(p, 3) % 16
}

fn synchronization_id(p: &[u8]) -> u8
    ensures { result ≡ synchronization_id p.now }
{
    wire::byte_at(p, 4)
}

fn section_length(p: &[u8]) -> u8
    ensures { result ≡ section_length p.now }
{
    wire::byte_at(p, 5)
}

pub fn pointer(p: &[u8]) -> u16
    ensures { result ≡ pointer p.now }
{
    wire::number16_at(p, 6)
}

fn periodic_flag(p: &[u8]) -> bool
    ensures { result ≡ periodic_flag p.now }
{
    wire::byte_at(p, 8) >= 128
}

fn future_use(p: &[u8]) -> u16
    ensures { result ≡ future_use p.now }
{
    wire::number16_at(p, 8) % 32768
}

pub fn synchronization_time_stamp(p: &[u8]) -> Steps
    ensures { result ≡ synchronization_time_stamp p.now }
{
    Steps(wire::number24_at(p, 10))
}

pub fn maximum_delay(p: &[u8]) -> Steps
    ensures { result ≡ maximum_delay p.now }
{
    Steps(wire::number24_at(p, 13))
}

fn tps_mip(p: &[u8]) -> u32
    ensures { result ≡ tps_mip p.now }
{
    wire::number32_at(p, 16)
}

fn individual_addressing_length(p: &[u8]) -> u8
    ensures { result ≡ individual_addressing_length p.now }
{
    wire::byte_at(p, 20)
}

// The addressing field as a part of the caller's bytes; of bytes that end early, what is there.
pub fn addressing_part(p: &[u8]) -> &[u8]
    ensures { result.now ≡ addressing_field p.now }
{
    // where nothing is there, still a part of the lent bytes
    let behind = p.get(ADDRESSING_START..).unwrap_or(&p[..0]);
    let a = usize::from(individual_addressing_length(p));
    behind.get(..a).unwrap_or(behind)
}

// The check value's register after all bytes through crc_32.
fn check_left(p: &[u8]) -> u32
    ensures { result ≡ register (through_check p.now) }
{
    let a = usize::from(individual_addressing_length(p));
    let through = ADDRESSING_START + wire::CHECK_LENGTH + a;
    check_value::register_of(p.get(..through).unwrap_or(p))
}

// 1, 2, 4 or 5: a packet, undamaged, that is a MIP.
#[tactic(auto, unfolding(crate::specs::Reader::packet_refusal))]
fn check_packet(p: &[u8]) -> Result<(), Refusal>
    ensures { reply_of result ≡ reply (packet_refusal p.now) tt }
{
    if p.len() != wire::PACKET_LENGTH {
        return Err(Refusal::NotAPacket);
    }
    if sync(p) != wire::SYNC_BYTE {
        return Err(Refusal::SyncByte);
    }
    if error_indicator(p) != 0 {
        return Err(Refusal::ErrorIndicator);
    }
    if packet_identifier(p) != wire::MIP_PID {
        return Err(Refusal::PacketIdentifier);
    }
    Ok(())
}

// A reader's own limit on the addressing field: above 163 it is 163.
fn limit_of(limit: usize) -> usize
    ensures { result ≡ limit_of limit }
{
    limit.min(wire::LONGEST_ADDRESSING)
}

// 6, 7, 8, 26 and 9: the fixed header bits, the scheme, the lengths, the reader's limit and the check value.
#[tactic(auto, unfolding(crate::specs::Reader::section_refusal))]
pub fn check_section(p: &[u8], limit: usize) -> Result<(), Refusal>
    ensures { reply_of result ≡ reply (section_refusal p.now limit) tt }
{
    if unit_start_and_priority(p) != 3 || scrambling_and_adaptation(p) != 1 {
        return Err(Refusal::HeaderBits);
    }
    if synchronization_id(p) != 0 {
        return Err(Refusal::SynchronizationId);
    }
    let a = usize::from(individual_addressing_length(p));
    if a > wire::LONGEST_ADDRESSING || usize::from(section_length(p)) != wire::SECTION_BESIDE + a {
        return Err(Refusal::SectionLength);
    }
    if a > limit_of(limit) {
        return Err(Refusal::ReaderLimit);
    }
    if check_left(p) != 0 {
        return Err(Refusal::CheckValue);
    }
    Ok(())
}

// 10 and 11: the addressing field's form and the times.
#[tactic(auto, unfolding(crate::specs::Reader::body_refusal))]
#[inline(always)]
fn check_body(p: &[u8]) -> Result<(), Refusal>
    ensures { reply_of result ≡ reply (body_refusal p.now) tt }
{
    if !addressing::well_formed(addressing_part(p)) {
        return Err(Refusal::AddressingForm);
    }
    if !times::in_second(synchronization_time_stamp(p)) || !times::in_second(maximum_delay(p)) {
        return Err(Refusal::Times);
    }
    Ok(())
}

// The fields of a packet.
#[inline(always)]
fn notice_in(p: &[u8]) -> Notice
    ensures { result ≡ notice_in p.now }
{
    Notice {
        continuity: continuity_counter(p),
        pointer: pointer(p),
        periodic: periodic_flag(p),
        reserved: future_use(p),
        sts: synchronization_time_stamp(p),
        md: maximum_delay(p),
        tps: tps_mip(p),
    }
}

// Reads a notice from any bytes, with an addressing field of at most the limit.
#[tactic(auto, unfolding(crate::specs::Reader::read_of, crate::specs::Reader::read_refusal))]
#[inline(always)]
pub fn read_notice(p: &[u8], limit: usize) -> Result<Notice, Refusal>
    ensures { reply_of result ≡ read_of p.now limit }
{
    check_packet(p)?;
    check_section(p, limit)?;
    check_body(p)?;
    Ok(notice_in(p))
}
