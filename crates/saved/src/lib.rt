// The saved block (document 01, "Saved block"; document 02, Paper 12): a slave saved into a lent buffer, and resumed from any bytes on a board.
#![tactic(auto)]

ghost use Rattle.std.specs.Prelude.{◌≡◌, ◌-◌, true, false, length, get_or, MatchOption};
ghost use Rattle.wire.specs.Reply.{must, reply, reply_of};
ghost use Rattle.slave.specs.Answer.{left};
ghost use Rattle.saved.specs.Layout.{whole, body_fields, put_all, coasted_by, slave_in};
ghost use Rattle.saved.specs.Block.{trailer_length, save_of, saved_output, trailer_site, body_at, shaped, from_body, held, block_fits, same_board, resume_of};

use addressing::Settings;
use state::{Board, Count, MOST_COASTED, Slave, Waiting};
use wire::Refusal;

// The bytes of a body, of a trailer, and of the block that a save writes; and of document 01's body, without byte 30, and its block.
const BODY_LENGTH: usize = 31;

const TRAILER_LENGTH: usize = 8;

const BLOCK_LENGTH: usize = BODY_LENGTH + TRAILER_LENGTH;

const OLD_BODY_LENGTH: usize = 30;

const OLD_BLOCK_LENGTH: usize = OLD_BODY_LENGTH + TRAILER_LENGTH;

// Puts a slave's body over the first bytes. The places are the papers'.
fn put_body(out: &mut [u8], s: Slave)
    ensures { out.new ≡ put_all out.old (body_fields whole s) }
{
    wire::put(out, 0, &[s.count.phase]);
    wire::put(out, 1, &[s.board.profile]);
    wire::put(out, 2, &s.board.n.to_be_bytes());
    wire::put(out, 4, &s.board.site.to_be_bytes());
    wire::put(out, 6, &s.board.tad.to_be_bytes());
    wire::put(out, 10, &s.settings.od.to_be_bytes());
    wire::put(out, 12, &s.settings.frequency.to_be_bytes());
    wire::put(out, 16, &s.settings.power.to_be_bytes());
    wire::put(out, 18, &s.count.next.to_be_bytes());
    wire::put(out, 20, &[s.waiting.pending]);
    wire::put(out, 21, &[s.count.index]);
    wire::put(out, 22, &s.waiting.sts.to_be_bytes());
    wire::put(out, 26, &s.waiting.md.to_be_bytes());
    wire::put(out, 30, &[s.count.coasted]);
}

// Saves a slave into the first bytes of a lent buffer; a refusal leaves it as it was.
#[tactic(auto, unfolding(crate::specs::Block::save_of, crate::specs::Block::save_refusal), using(crate::proofs::Answers::block_put))]
pub fn save(s: Slave, out: &mut [u8]) -> Result<(), Refusal>
    ensures { saved_output result out.new ≡ save_of s out.old }
{
    if !state::is_sound(&s) {
        return Err(Refusal::StartSettings);
    }
    if out.len() < BLOCK_LENGTH {
        return Err(Refusal::OutputLength);
    }
    put_body(out, s);
    wire::put(out, BODY_LENGTH, &s.board.site.to_be_bytes());
    // `as` is proved to lose nothing
    wire::put(out, BODY_LENGTH + 2, &(BODY_LENGTH as u16).to_be_bytes());
    check_value::seal(out, BLOCK_LENGTH - wire::CHECK_LENGTH);
    Ok(())
}

// Byte 30, of bytes from a body through its block's end. An old body does not have it, and is read with 255.
fn coasted_in(b: &[u8]) -> u8
    ensures { result ≡ coasted_by (body_at (length b.now - trailer_length)) (get_or b.now 30 0) }
{
    if b.len() == OLD_BLOCK_LENGTH {
        return MOST_COASTED;
    }
    wire::byte_at(b, 30)
}

// The slave whose block these bytes are, from its body on. The places are the papers', as in put_body.
#[tactic(auto, unfolding(crate::specs::Layout::slave_in))]
fn slave_in(b: &[u8]) -> Slave
    ensures { result ≡ slave_in (body_at (length b.now - trailer_length)) b.now }
{
    Slave {
        board: Board {
            profile: wire::byte_at(b, 1),
            n: wire::number16_at(b, 2),
            site: wire::number16_at(b, 4),
            tad: wire::number32_at(b, 6),
        },
        settings: Settings {
            od: wire::number16_at(b, 10).cast_signed(),
            frequency: wire::number32_at(b, 12).cast_signed(),
            power: wire::number16_at(b, 16),
        },
        count: Count {
            phase: wire::byte_at(b, 0),
            next: wire::number16_at(b, 18),
            index: wire::byte_at(b, 21),
            coasted: coasted_in(b),
        },
        waiting: Waiting {
            pending: wire::byte_at(b, 20),
            sts: wire::number32_at(b, 22),
            md: wire::number32_at(b, 26),
        },
    }
}

// The trailer's site, and body through check value, where the distance is long enough for a body and leads to a byte of the block.
#[tactic(auto, unfolding(crate::specs::Block::shaped, crate::specs::Block::from_body))]
fn site_and_body(block: &[u8]) -> Option<(u16, &[u8])>
    ensures { MatchOption result (shaped block.now ≡ false) (λ p. (shaped block.now ≡ true) × (p.0 ≡ trailer_site block.now) × (p.1.now ≡ from_body block.now)) }
{
    let (front, trailer) = block.split_last_chunk::<TRAILER_LENGTH>()?;
    let distance = usize::from(wire::number16_at(trailer, 2));
    let start = front.len().checked_sub(distance)?;
    let rest = &block[start..];
    // a distance below an old body's length, asked of the bytes: the compiler then knows that each part of that body lies within them
    if rest.len() < OLD_BLOCK_LENGTH {
        return None;
    }
    Some((wire::number16_at(trailer, 0), rest))
}

// The slave to resume: 16 where the shape, the check value, the trailer's site or a part of the slave is wrong, 17 for the block of another board.
#[tactic(auto, using(crate::proofs::Shape::body_length_lem), unfolding(crate::specs::Block::block_fits, crate::specs::Block::same_board))]
fn held(block: &[u8], b: Board) -> Result<Slave, Refusal>
    ensures { reply_of result ≡ reply (must (block_fits (held block.now) block.now) 16 (must (same_board (held block.now).board b) 17 0)) (held block.now) }
{
    let (site, body) = site_and_body(block).ok_or(Refusal::SavedBlock)?;
    let s = slave_in(body);
    let fits = check_value::register_of(body) == 0 && site == s.board.site && state::is_sound(&s);
    if !fits {
        return Err(Refusal::SavedBlock);
    }
    if s.board != b {
        return Err(Refusal::OtherBoard);
    }
    Ok(s)
}

// Resumes from any bytes on a board. A refusal leaves what a start of the board leaves: the cold slave (15) or a fresh hunting one (16, 17).
#[tactic(auto, unfolding(crate::specs::Block::resume_refusal, crate::specs::Block::resumed, crate::specs::Block::resume_of, slave::specs::Calls::start_of))]
pub fn resume(s: &mut Slave, block: &[u8], b: Board) -> Result<(), Refusal>
    ensures { left s.new (reply_of result) ≡ resume_of block.now b }
{
    slave::start(s, b)?;
    *s = held(block, b)?;
    Ok(())
}
