// Big-endian numbers, two's complement, and bytes put into a lent buffer: what every format here is made of.
#![tactic(auto)]

ghost use Rattle.std.specs.Prelude.{◌≡◌, ◌+◌, ◌≤◌, ◌<◌, length, get_or, slice_index, EachIndex};
ghost use Rattle.wire.specs.BigEndian.{be16_at, be24_at, be32_at};
ghost use Rattle.wire.specs.Signed.{signed24};
ghost use Rattle.wire.specs.Put.{put_at};
ghost use Rattle.wire.specs.Reply.{refusal_number};

use std::array;

// Numbers that the standards fix: specs/Standards.antt says where.
pub const PACKET_LENGTH: usize = 188;

pub const SYNC_BYTE: u8 = 0x47;

pub const MIP_PID: u16 = 0x15;

pub const ADDRESSING_START: usize = 21;

pub const SECTION_BESIDE: usize = 19;

pub const CHECK_LENGTH: usize = 4;

pub const LONGEST_ADDRESSING: usize = 163;

// Document 01's table "Numbers a call can refuse with", in its order, and the new numbers of document 02.
#[derive(Clone, Copy, PartialEq, Eq)]
pub enum Refusal {
    NotAPacket = 1,
    SyncByte = 2,
    Tick = 3,
    ErrorIndicator = 4,
    PacketIdentifier = 5,
    HeaderBits = 6,
    SynchronizationId = 7,
    SectionLength = 8,
    CheckValue = 9,
    AddressingForm = 10,
    Times = 11,
    PointerOrIndex = 12,
    Delay = 13,
    Late = 14,
    StartSettings = 15,
    SavedBlock = 16,
    OtherBoard = 17,
    OutputLength = 18,
    NoticeField = 19,
    OtherProfile = 20,
    ReaderLimit = 26,
}

impl Refusal {
    // Its number. A method of the definition's name: a From would say u8 and not of what.
    pub fn number(self) -> u8
        ensures { result ≡ refusal_number self }
    {
        self as u8
    }
}

// Byte i of b. Here and in the numbers below, bytes beyond the end read as 0.
pub fn byte_at(b: &[u8], i: usize) -> u8
    ensures { result ≡ get_or b.now i 0 }
{
    b.get(i).copied().unwrap_or(0)
}

// The N bytes from byte i on: where N and i are constants and the length is known, one load.
fn bytes_at<const N: usize>(b: &[u8], i: usize) -> [u8; N]
    ensures { EachIndex result (λ k. slice_index result k ≡ get_or b.now (i + k) 0) }
{
    let rest = &b[i.min(b.len())..];
    array::from_fn(|k| byte_at(rest, k))
}

// The number that two bytes spell, the first of them byte i. A name for each size: each answers in its own type, and 24 bits have no type of their own.
pub fn number16_at(b: &[u8], i: usize) -> u16
    ensures { result ≡ be16_at b.now i }
{
    u16::from_be_bytes(bytes_at(b, i))
}

// The number that three bytes spell.
pub fn number24_at(b: &[u8], i: usize) -> u32
    ensures { result ≡ be24_at b.now i }
{
    let [first, second, third]: [u8; 3] = bytes_at(b, i);
    u32::from_be_bytes([0, first, second, third])
}

// The number that four bytes spell.
pub fn number32_at(b: &[u8], i: usize) -> u32
    ensures { result ≡ be32_at b.now i }
{
    u32::from_be_bytes(bytes_at(b, i))
}

// The signed number that 24 bits mean; -1 beyond them. No type has 24 bits, so the library has no cast for them; `as` is proved to lose nothing.
pub fn signed_24(v: u32) -> i32
    ensures { result ≡ signed24 v }
{
    if v < 0x80_0000 {
        v as i32
    } else if v < 0x100_0000 {
        v as i32 - 0x100_0000
    } else {
        -1
    }
}

// Puts all of src into dst from byte `at` on; puts nothing where src does not fit.
#[tactic(auto, unfolding(crate::specs::Put::put_at))]
pub fn put(dst: &mut [u8], at: usize, src: &[u8])
    ensures { dst.new ≡ put_at dst.old at src.now }
{
    let Some(end) = at.checked_add(src.len()) else {
        return;
    };
    // `get_mut` of a slice says nothing of what a write through it leaves, so the end is tested here.
    if end <= dst.len() {
        dst[at..end].copy_from_slice(src);
    }
}
