// The Mega-frame Initialization Packet, TS 101 191 clause 6, written into a lent buffer.
#![tactic(auto)]

ghost use Rattle.std.specs.Prelude.{◌≡◌, ◌≤◌, true, OnOk, length};
ghost use Rattle.wire.specs.Standards.{longest_addressing};
ghost use Rattle.wire.specs.Put.{put_at};
ghost use Rattle.wire.specs.Reply.{reply, reply_of};
ghost use Rattle.writer.specs.Writable.{Writable};
ghost use Rattle.writer.specs.Writer.{write_refusal, flags_of, head_of, fits, put_of, write_of, output_of};

use notice::Notice;
use wire::{ADDRESSING_START, LONGEST_ADDRESSING, PACKET_LENGTH, Refusal};

// 18, 19, 8, 10 and 11: the room, the notice's fields, the addressing field and the times. An inserter's settings are judged so too.
#[tactic(auto, unfolding(crate::specs::Writer::write_refusal))]
pub fn check_write(room: usize, n: Notice, field: &[u8]) -> Result<(), Refusal>
    ensures numbers { reply_of result ≡ reply (write_refusal room n field.now) tt }
    ensures fits { OnOk result (Writable room n field.now) }
{
    if room < PACKET_LENGTH {
        return Err(Refusal::OutputLength);
    }
    if n.continuity > 15 || n.reserved > 32767 {
        return Err(Refusal::NoticeField);
    }
    if field.len() > LONGEST_ADDRESSING {
        return Err(Refusal::SectionLength);
    }
    if !addressing::well_formed(field) {
        return Err(Refusal::AddressingForm);
    }
    if !times::in_second(n.sts) || !times::in_second(n.md) {
        return Err(Refusal::Times);
    }
    Ok(())
}

// The periodic flag and the reserved bits as they stand in bytes 8 and 9.
fn flags_of(n: Notice) -> u16
    requires { n.reserved ≤ 32767 }
    ensures { result ≡ flags_of n }
{
    if n.periodic {
        32768 + n.reserved
    } else {
        n.reserved
    }
}

// Bytes 0 to 20.
#[tactic(auto, unfolding(crate::specs::Writer::head_of))]
fn head_of(n: Notice, a: u8) -> [u8; ADDRESSING_START]
    requires { (n.continuity ≤ 15) × (n.reserved ≤ 32767) × (a ≤ longest_addressing) }
    ensures { result ≡ head_of n a }
{
    // Each `as u8` here and below is proved to lose nothing; a `try_from` would answer what never comes.
    let [p1, p0] = n.pointer.to_be_bytes();
    let [f1, f0] = flags_of(n).to_be_bytes();
    let [_, s2, s1, s0] = n.sts.0.to_be_bytes();
    let [_, m2, m1, m0] = n.md.0.to_be_bytes();
    let [t3, t2, t1, t0] = n.tps.to_be_bytes();
    [
        wire::SYNC_BYTE,
        0x60,
        wire::MIP_PID as u8,
        0x10 + n.continuity,
        0,
        wire::SECTION_BESIDE as u8 + a,
        p1,
        p0,
        f1,
        f0,
        s2,
        s1,
        s0,
        m2,
        m1,
        m0,
        t3,
        t2,
        t1,
        t0,
        a,
    ]
}

// Puts all of src over dst. Byte by byte: copy_from_slice would ask the board for memmove, where the compiler does not know the length.
// Not by zip: what a write through an adapter of iter_mut leaves is not told.
fn put_over(dst: &mut [u8], src: &[u8])
    requires { length dst.old ≡ length src.now }
    ensures { dst.new ≡ src.now }
{
    for (k, b) in src.iter().enumerate() {
        dst[k] = *b;
    }
}

// Puts all of src at the front of dst; puts nothing where it does not fit. As wire::put does at 0, but byte by byte, since a caller's src has any length.
#[tactic(auto, unfolding(wire::specs::Put::put_at))]
pub fn put_front(dst: &mut [u8], src: &[u8])
    ensures { dst.new ≡ put_at dst.old 0 src.now }
{
    if src.len() <= dst.len() {
        put_over(&mut dst[..src.len()], src);
    }
}

// Whether a packet has room, and its parts have their widths.
#[tactic(auto, unfolding(crate::specs::Writer::fits))]
fn fits(room: usize, n: Notice, field: &[u8]) -> bool
    ensures result { result ≡ fits room n field.now }
    ensures writable { result ≡ true → Writable room n field.now }
{
    room >= PACKET_LENGTH
        && n.continuity <= 15
        && n.reserved <= 32767
        && field.len() <= LONGEST_ADDRESSING
}

// Puts a notice over the first 188 bytes of a lent buffer; puts nothing where it does not fit. For a caller that has judged it: the field's form and the times
// are not asked. The field is no part of the notice: C lends it beside.
#[tactic(auto, unfolding(crate::specs::Writer::put_of))]
pub fn put_notice(out: &mut [u8], n: Notice, field: &[u8])
    ensures { out.new ≡ put_of out.old n field.now }
{
    if !fits(out.len(), n, field) {
        return;
    }
    let end = ADDRESSING_START + field.len();
    out[..ADDRESSING_START].copy_from_slice(&head_of(n, field.len() as u8));
    // The stuffing goes first, where its length is a constant, and the field and the check value over it.
    out[ADDRESSING_START..PACKET_LENGTH].fill(0xFF);
    put_over(&mut out[ADDRESSING_START..end], field);
    check_value::seal(out, end);
}

// Writes a notice into the first 188 bytes of a lent buffer; a refusal leaves it as it was.
#[tactic(auto, unfolding(crate::specs::Writer::write_of))]
pub fn write_notice(out: &mut [u8], n: Notice, field: &[u8]) -> Result<(), Refusal>
    ensures { output_of result out.new ≡ write_of out.old n field.now }
{
    check_write(out.len(), n, field)?;
    put_notice(out, n, field);
    Ok(())
}
