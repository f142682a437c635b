// Durations in whole nanoseconds. `nanos` is right at every double.
ghost use Rattle.std.specs.Prelude.{◌≡◌, ◌*◌, ◌^◌, ◌<◌};
ghost use Rattle.std.specs.Float.Ieee.Nearest.{closest};
ghost use Rattle.times.specs.Durations.{nanos_of, seconds_of, try_seconds_of};
ghost use Rattle.judge.specs.Answer.{told};

use judge::{Refusal, span_faults};

// The whole number nearest to q * 5 ^ 9 / 2 ^ (k + 32), a tie to the even one. The product can need 85
// bits, so it stands in two parts, `high` and the 32 lower bits of `low`.
fn rounded(q: u64, k: u64) -> u64
    requires above_0 { 0 < k }
    requires below_64 { k < 64 }
    ensures { result ≡ closest (q * 1953125) (2 ^ k * 4294967296) }
{
    let low = q % 0x1_0000_0000 * 1953125;
    let high = q / 0x1_0000_0000 * 1953125 + low / 0x1_0000_0000;
    let n = high >> k;
    let rest = high - (n << k);
    let half = 1u64 << (k - 1);
    if rest < half {
        return n;
    }
    if rest > half {
        return n + 1;
    }
    if low % 0x1_0000_0000 > 0 {
        return n + 1;
    }
    n + n % 2
}

// The nanoseconds of dt seconds, to the nearest whole number, a tie to the even one; the largest u64
// where that is above it, and 0 for a NaN and behind a minus sign. With the exponent's field e and the
// 53 digits q, dt is q * 2 ^ (e - 1075), and so q * 5 ^ 9 / 2 ^ (1066 - e) nanoseconds. From 1.0 on the
// full seconds are counted apart: 10 ^ 9 is even, so the rest alone decides a tie.
pub fn nanos(dt: f64) -> u64
    ensures { result ≡ nanos_of dt }
{
    let b = doubles::bits(dt);
    let e = b >> 52;
    if e < 992 {
        return 0;
    }
    let q = b % 0x10_0000_0000_0000 + 0x10_0000_0000_0000;
    if e < 1023 {
        return rounded(q, 1034 - e);
    }
    if e > 1057 {
        if dt > 0.0 {
            return 0xffff_ffff_ffff_ffff;
        }
        return 0;
    }
    let seconds = q >> (1075 - e);
    if seconds > 18_446_744_073 {
        return 0xffff_ffff_ffff_ffff;
    }
    let full = seconds * 1_000_000_000;
    let part = rounded((q << (e - 1023)) % 0x10_0000_0000_0000, 11);
    full.saturating_add(part)
}

// A duration in seconds: the whole ones, and the rest as a part of one.
pub fn as_secs_f64(ns: u64) -> f64
    ensures { result ≡ seconds_of ns }
{
    let whole = ns / 1_000_000_000;
    let rest = ns % 1_000_000_000;
    whole as f64 + rest as f64 / 1000000000.0
}

pub fn try_as_secs_f64(ns: u64) -> Result<f64, Refusal>
    ensures { told result ≡ try_seconds_of ns }
{
    span_faults(ns).accept()?;
    Ok(as_secs_f64(ns))
}
