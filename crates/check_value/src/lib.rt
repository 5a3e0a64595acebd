// The check value of TS 101 191 annex A: the CRC decoder's register after some bytes, eight of them a turn.
#![tactic(auto)]

ghost use Rattle.std.specs.Prelude.{◌≡◌, ◌+◌, ◌*◌, ◌%◌, ◌^◌, ◌<◌, ◌≤◌, length};
ghost use Rattle.check_value.specs.Register.{bits_in, register, sealed_at};

// Row k, column v: what the nibble v leaves of a register of zeros once k nibbles of zero have followed it.
static LEFT: [[u32; 16]; 16] = [
    [
        0x00000000, 0x04C11DB7, 0x09823B6E, 0x0D4326D9, 0x130476DC, 0x17C56B6B, 0x1A864DB2,
        0x1E475005, 0x2608EDB8, 0x22C9F00F, 0x2F8AD6D6, 0x2B4BCB61, 0x350C9B64, 0x31CD86D3,
        0x3C8EA00A, 0x384FBDBD,
    ],
    [
        0x00000000, 0x4C11DB70, 0x9823B6E0, 0xD4326D90, 0x34867077, 0x7897AB07, 0xACA5C697,
        0xE0B41DE7, 0x690CE0EE, 0x251D3B9E, 0xF12F560E, 0xBD3E8D7E, 0x5D8A9099, 0x119B4BE9,
        0xC5A92679, 0x89B8FD09,
    ],
    [
        0x00000000, 0xD219C1DC, 0xA0F29E0F, 0x72EB5FD3, 0x452421A9, 0x973DE075, 0xE5D6BFA6,
        0x37CF7E7A, 0x8A484352, 0x5851828E, 0x2ABADD5D, 0xF8A31C81, 0xCF6C62FB, 0x1D75A327,
        0x6F9EFCF4, 0xBD873D28,
    ],
    [
        0x00000000, 0x10519B13, 0x20A33626, 0x30F2AD35, 0x41466C4C, 0x5117F75F, 0x61E55A6A,
        0x71B4C179, 0x828CD898, 0x92DD438B, 0xA22FEEBE, 0xB27E75AD, 0xC3CAB4D4, 0xD39B2FC7,
        0xE36982F2, 0xF33819E1,
    ],
    [
        0x00000000, 0x01D8AC87, 0x03B1590E, 0x0269F589, 0x0762B21C, 0x06BA1E9B, 0x04D3EB12,
        0x050B4795, 0x0EC56438, 0x0F1DC8BF, 0x0D743D36, 0x0CAC91B1, 0x09A7D624, 0x087F7AA3,
        0x0A168F2A, 0x0BCE23AD,
    ],
    [
        0x00000000, 0x1D8AC870, 0x3B1590E0, 0x269F5890, 0x762B21C0, 0x6BA1E9B0, 0x4D3EB120,
        0x50B47950, 0xEC564380, 0xF1DC8BF0, 0xD743D360, 0xCAC91B10, 0x9A7D6240, 0x87F7AA30,
        0xA168F2A0, 0xBCE23AD0,
    ],
    [
        0x00000000, 0xDC6D9AB7, 0xBC1A28D9, 0x6077B26E, 0x7CF54C05, 0xA098D6B2, 0xC0EF64DC,
        0x1C82FE6B, 0xF9EA980A, 0x258702BD, 0x45F0B0D3, 0x999D2A64, 0x851FD40F, 0x59724EB8,
        0x3905FCD6, 0xE5686661,
    ],
    [
        0x00000000, 0xF7142DA3, 0xEAE946F1, 0x1DFD6B52, 0xD1139055, 0x2607BDF6, 0x3BFAD6A4,
        0xCCEEFB07, 0xA6E63D1D, 0x51F210BE, 0x4C0F7BEC, 0xBB1B564F, 0x77F5AD48, 0x80E180EB,
        0x9D1CEBB9, 0x6A08C61A,
    ],
    [
        0x00000000, 0x490D678D, 0x921ACF1A, 0xDB17A897, 0x20F48383, 0x69F9E40E, 0xB2EE4C99,
        0xFBE32B14, 0x41E90706, 0x08E4608B, 0xD3F3C81C, 0x9AFEAF91, 0x611D8485, 0x2810E308,
        0xF3074B9F, 0xBA0A2C12,
    ],
    [
        0x00000000, 0x83D20E0C, 0x036501AF, 0x80B70FA3, 0x06CA035E, 0x85180D52, 0x05AF02F1,
        0x867D0CFD, 0x0D9406BC, 0x8E4608B0, 0x0EF10713, 0x8D23091F, 0x0B5E05E2, 0x888C0BEE,
        0x083B044D, 0x8BE90A41,
    ],
    [
        0x00000000, 0x1B280D78, 0x36501AF0, 0x2D781788, 0x6CA035E0, 0x77883898, 0x5AF02F10,
        0x41D82268, 0xD9406BC0, 0xC26866B8, 0xEF107130, 0xF4387C48, 0xB5E05E20, 0xAEC85358,
        0x83B044D0, 0x989849A8,
    ],
    [
        0x00000000, 0xB641CA37, 0x684289D9, 0xDE0343EE, 0xD08513B2, 0x66C4D985, 0xB8C79A6B,
        0x0E86505C, 0xA5CB3AD3, 0x138AF0E4, 0xCD89B30A, 0x7BC8793D, 0x754E2961, 0xC30FE356,
        0x1D0CA0B8, 0xAB4D6A8F,
    ],
    [
        0x00000000, 0x4F576811, 0x9EAED022, 0xD1F9B833, 0x399CBDF3, 0x76CBD5E2, 0xA7326DD1,
        0xE86505C0, 0x73397BE6, 0x3C6E13F7, 0xED97ABC4, 0xA2C0C3D5, 0x4AA5C615, 0x05F2AE04,
        0xD40B1637, 0x9B5C7E26,
    ],
    [
        0x00000000, 0xE672F7CC, 0xC824F22F, 0x2E5605E3, 0x9488F9E9, 0x72FA0E25, 0x5CAC0BC6,
        0xBADEFC0A, 0x2DD0EE65, 0xCBA219A9, 0xE5F41C4A, 0x0386EB86, 0xB958178C, 0x5F2AE040,
        0x717CE5A3, 0x970E126F,
    ],
    [
        0x00000000, 0x5BA1DCCA, 0xB743B994, 0xECE2655E, 0x6A466E9F, 0x31E7B255, 0xDD05D70B,
        0x86A40BC1, 0xD48CDD3E, 0x8F2D01F4, 0x63CF64AA, 0x386EB860, 0xBECAB3A1, 0xE56B6F6B,
        0x09890A35, 0x5228D6FF,
    ],
    [
        0x00000000, 0xADD8A7CB, 0x5F705221, 0xF2A8F5EA, 0xBEE0A442, 0x13380389, 0xE190F663,
        0x4C4851A8, 0x79005533, 0xD4D8F2F8, 0x26700712, 0x8BA8A0D9, 0xC7E0F171, 0x6A3856BA,
        0x9890A350, 0x3548049B,
    ],
];

// What eight bytes leave of a register of zeros. The loop is compiled to sixteen loads, those of the last bytes first: they do not wait for the register.
// A cast by `as` is proved to lose nothing, here and below.
fn eight_in(w: u64) -> u32
    ensures { result ≡ bits_in 64 0 w }
{
    let mut sum = 0;
    for (k, row) in LEFT.iter().enumerate() {
        sum ^= row[(w >> (4 * k)) as usize % 16];
    }
    sum
}

// The register z after the byte b. Not by eight_in, which enters eight bytes into a register of zeros.
fn byte_in(z: u32, b: u8) -> u32
    ensures { result ≡ bits_in 8 z b }
{
    let top = (z >> 24) as u8 ^ b;
    (z << 8) ^ LEFT[0][usize::from(top % 16)] ^ LEFT[1][usize::from(top / 16)]
}

// The register after the bytes of s.
pub fn register_of(s: &[u8]) -> u32
    ensures { result ≡ register s.now }
{
    let mut z: u32 = 0xFFFF_FFFF;
    let (eights, rest) = s.as_chunks::<8>();
    for eight in eights {
        z = eight_in((u64::from(z) << 32) ^ u64::from_be_bytes(*eight));
    }
    for b in rest {
        z = byte_in(z, *b);
    }
    z
}

// Puts the check value of the first `end` bytes behind them; puts nothing where it does not fit. The end is a number, since what lies behind it is written.
#[tactic(auto, unfolding(crate::specs::Register::sealed_at, wire::specs::Put::put_at))]
pub fn seal(out: &mut [u8], end: usize)
    ensures { out.new ≡ sealed_at end out.old }
{
    // Tested before the register is reckoned, so that a refusal costs nothing.
    if out.len().saturating_sub(end) >= wire::CHECK_LENGTH {
        let check = register_of(&out[..end]).to_be_bytes();
        wire::put(out, end, &check);
    }
}
