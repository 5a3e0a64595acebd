// The individual addressing field of a notice, TS 101 191 clause 6: its form, and the settings that it gives a site.
#![tactic(auto)]

ghost use Rattle.std.specs.Prelude.{◌≡◌, ◌≤◌, true, slice_index, length, drop, IfOk};
ghost use Rattle.addressing.specs.Functions.{no_settings, length_fits, set_by, formed, functions_of};
ghost use Rattle.addressing.specs.Entries.{addressed, settings_of, well_formed};
ghost use Rattle.wire.specs.Reply.{given, reply_of};

use wire::Refusal;

// What a site can be told: time offset in 100 ns steps, frequency offset in Hz, power in 0.1 dBm.
#[repr(C)]
#[derive(Clone, Copy, PartialEq, Eq, Default)]
pub struct Settings {
    pub od: i16,
    pub power: u16,
    pub frequency: i32,
}

// The settings of a site that was told nothing. A name beside the derived default, so that it is said once that this is what the definitions call no_settings.
pub fn no_settings() -> Settings
    ensures { result ≡ no_settings }
{
    Settings::default()
}

// Whether an entry for id is addressed to the site.
#[tactic(auto, unfolding(crate::specs::Entries::addressed))]
fn addressed(site: u16, id: u16) -> bool
    ensures { result ≡ addressed site id }
{
    id == 0 || id == site
}

// The settings after one function, which is its tag, its length and its body: an arm for each row of subclause 6.1, which has the length,
// so that reads need no test of it.
#[tactic(auto, unfolding(crate::specs::Functions::length_fits, crate::specs::Functions::set_by))]
fn set_by(function: &[u8], t: Settings) -> Result<Settings, Refusal>
    ensures value { reply_of result ≡ formed (length_fits (slice_index function.now 0) (length function.now))
        (given (set_by (slice_index function.now 0) (drop 2 function.now) t)) }
    ensures counted { IfOk result (λ u. 2 ≤ length function.now) }
{
    Ok(match function {
        [0, _, a, b] => Settings {
            od: i16::from_be_bytes([*a, *b]),
            ..t
        },
        [1, _, a, b, c] => Settings {
            frequency: wire::signed_24(u32::from_be_bytes([0, *a, *b, *c])),
            ..t
        },
        [2, _, a, b] => Settings {
            power: u16::from_be_bytes([*a, *b]),
            ..t
        },
        [3..=255, _, ..] => t,
        _ => return Err(Refusal::AddressingForm),
    })
}

// The settings after the functions of a loop, where they apply. The form of every loop is judged, so that `on` says no more than what enters. Where the
// loop told and its caller dropped what was told, a notice with 160 bytes of other sites' entries took 322 ns, and takes 249.
#[tactic(auto, using(crate::proofs::Turns::functions_turns))]
fn functions(on: bool, mut s: &[u8], before: Settings) -> Result<Settings, Refusal>
    ensures { reply_of result ≡ functions_of on s.now before }
{
    let mut t = before;
    while let [_, n, ..] = s {
        let (function, rest) = s
            .split_at_checked(usize::from(*n))
            .ok_or(Refusal::AddressingForm)?;
        let told = set_by(function, t)?;
        if on {
            t = told;
        }
        s = rest;
    }
    if s.is_empty() {
        Ok(t)
    } else {
        Err(Refusal::AddressingForm)
    }
}

// The settings of a site after an addressing field, later entries replacing earlier ones; a setting that no entry gives is kept.
#[tactic(auto, using(crate::proofs::Turns::entries_turns))]
pub fn settings_of(mut s: &[u8], site: u16, before: Settings) -> Result<Settings, Refusal>
    ensures { reply_of result ≡ settings_of s.now site before }
{
    let mut t = before;
    while let [high, low, n, rest @ ..] = s {
        let (entry, rest) = rest
            .split_at_checked(usize::from(*n))
            .ok_or(Refusal::AddressingForm)?;
        let on = addressed(site, u16::from_be_bytes([*high, *low]));
        t = functions(on, entry, t)?;
        s = rest;
    }
    if s.is_empty() {
        Ok(t)
    } else {
        Err(Refusal::AddressingForm)
    }
}

// Whether an addressing field has the form of clause 6.
#[tactic(auto, unfolding(crate::specs::Entries::well_formed))]
pub fn well_formed(s: &[u8]) -> bool
    ensures { result ≡ well_formed s.now }
{
    settings_of(s, 0, no_settings()).is_ok()
}
