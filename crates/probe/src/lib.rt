// Calls that a board does not link, for C, so that another implementation can be compared with them and speed can be measured: what the slave stands on,
// and packets by value. For tests.
#![tactic(auto)]

ghost use Rattle.std.specs.Prelude.{◌≡◌};
ghost use Rattle.wire.specs.Standards.{dvb_second, a110_second};
ghost use Rattle.check_value.specs.Register.{register};
ghost use Rattle.times.specs.Release.{delay_fits, delay_fits_a110};
ghost use Rattle.addressing.specs.Entries.{settings_of};
ghost use Rattle.cadence.specs.Cadence.{admits};
ghost use Rattle.cadence.specs.Label.{label_of, in_cadence};
ghost use Rattle.cadence.specs.MobileFrame.{mobile_place};
ghost use Rattle.slave.specs.Calls.{packet_of};
ghost use Rattle.wire.specs.Reply.{refused};
ghost use Rattle.replies.specs.Flat.{flat_reply, flat_left, flat_step};
ghost use Rattle.probe.specs.Flat.{flat_settings, flat_length, flat_label};

use addressing::Settings;
use cadence::{CodeRate, Constellation};
use replies::{PacketReply, Step};
use state::Slave;
use times::{Periods, Steps, Unit};

// C has no Result: the number that refuses, or 0, stands beside the value, and a call below puts either there arm by arm. A From for each of the two, which
// have one caller, would say the same in more lines. The settings' parts stand apart, as the comparison program has them.
#[repr(C)]
#[derive(Clone, Copy, Default)]
pub struct ProbeSettings {
    pub number: u8,
    pub od: i16,
    pub frequency: i32,
    pub power: u16,
}

#[repr(C)]
#[derive(Clone, Copy, Default)]
pub struct ProbeLabel {
    pub number: u8,
    pub value: u16,
}

#[unsafe(no_mangle)]
pub extern "C" fn probe_register(s: &[u8]) -> u32
    ensures { result ≡ register s.now }
{
    check_value::register_of(s)
}

#[unsafe(no_mangle)]
pub extern "C" fn probe_settings(
    field: &[u8],
    site: u16,
    od: i16,
    frequency: i32,
    power: u16,
) -> ProbeSettings
    ensures { result ≡ flat_settings (settings_of field.now site (record { od = od; frequency = frequency; power = power })) }
{
    let before = Settings {
        od,
        power,
        frequency,
    };
    match addressing::settings_of(field, site, before) {
        Ok(t) => ProbeSettings {
            number: 0,
            od: t.od,
            frequency: t.frequency,
            power: t.power,
        },
        Err(r) => ProbeSettings {
            number: r.number(),
            ..ProbeSettings::default()
        },
    }
}

// Two names: what C calls can have no type parameter.
#[unsafe(no_mangle)]
pub extern "C" fn probe_dvb_delay_fits(md: u32, od: i16) -> bool
    ensures { result ≡ delay_fits dvb_second md od }
{
    Steps(md).delay_fits(od, Steps(0))
}

#[unsafe(no_mangle)]
pub extern "C" fn probe_a110_delay_fits(md: u32, od: i16, tad: u32) -> bool
    ensures { result ≡ delay_fits_a110 a110_second md od tad }
{
    Periods(md).delay_fits(od, Periods(tad))
}

// C names a constellation and a code rate by its place in these lists, from 0.
const CONSTELLATIONS: [Constellation; 3] = [
    Constellation::Qpsk,
    Constellation::Qam16,
    Constellation::Qam64,
];

const CODE_RATES: [CodeRate; 5] = [
    CodeRate::Half,
    CodeRate::TwoThirds,
    CodeRate::ThreeQuarters,
    CodeRate::FiveSixths,
    CodeRate::SevenEighths,
];

#[unsafe(no_mangle)]
pub extern "C" fn probe_length(c: u8, r: u8) -> u16
    ensures { result ≡ flat_length c r }
{
    match (
        CONSTELLATIONS.get(usize::from(c)),
        CODE_RATES.get(usize::from(r)),
    ) {
        (Some(c), Some(r)) => cadence::length(*c, *r),
        _ => 0,
    }
}

#[unsafe(no_mangle)]
pub extern "C" fn probe_admits(profile: u8, n: u16) -> bool
    ensures { result ≡ admits profile n }
{
    cadence::admits(profile, n)
}

#[unsafe(no_mangle)]
pub extern "C" fn probe_label(n: u16, pointer: u16) -> ProbeLabel
    ensures { result ≡ flat_label (in_cadence n pointer (label_of n pointer)) }
{
    match cadence::label_of(n, pointer) {
        Ok(value) => ProbeLabel { number: 0, value },
        Err(r) => ProbeLabel {
            number: r.number(),
            ..ProbeLabel::default()
        },
    }
}

#[unsafe(no_mangle)]
pub extern "C" fn probe_mobile_place(i: u8, p: u16) -> u16
    ensures { result ≡ mobile_place i p }
{
    cadence::mobile_place(i, p)
}

// A packet by value, its notice read with this limit, with the reply as plain numbers.
#[unsafe(no_mangle)]
pub extern "C" fn probe_packet(s: Slave, p: &[u8], tick: u32, limit: usize) -> Step
    ensures { result ≡ flat_step (packet_of s p.now tick limit) }
{
    let mut step = Step {
        slave: s,
        reply: PacketReply::default(),
    };
    step.reply = slave::packet(&mut step.slave, p, tick, limit);
    step
}

// Hands the slave back with an empty reply: what a packet by value costs before anything is done.
#[unsafe(no_mangle)]
pub extern "C" fn probe_handed(s: Slave, p: &[u8], tick: u32) -> Step
    ensures { result ≡ flat_left s (flat_reply (refused 0)) }
{
    Step {
        slave: s,
        reply: replies::number_alone(0),
    }
}
