// A line of the form `name=value`: its name, and the number behind it, in decimal or as 16 hexadecimal digits. All that
// reads such lines reads them here.
ghost use Rattle.std.specs.Prelude.{◌≡◌};
ghost use Rattle.record.specs.Fields.{same_bytes, decimal_behind, hex_behind};

pub fn is(line: &[u8], bytes: &[u8]) -> bool
    ensures { result ≡ same_bytes line.now bytes.now }
{
    line == bytes
}

// The number in decimal digits behind a name, where it is at most `most`.
#[tactic(auto, using(crate::proofs::field::Lines::begun), unfolding(crate::specs::Fields::decimal_behind))]
pub fn decimal_behind(line: &[u8], name: &[u8], most: u32) -> Option<u32>
    ensures { result ≡ decimal_behind most name.now line.now }
{
    let v = text::decimal(line.strip_prefix(name)?)?;
    if v > u64::from(most) {
        return None;
    }
    // No `try_from`: what is asked is `most`, and then the number fits.
    Some(v as u32)
}

// The number in sixteen hexadecimal digits behind a name, where it is at most `most`.
#[tactic(auto, using(crate::proofs::field::Lines::begun), unfolding(crate::specs::Fields::hex_behind))]
pub fn hex_behind(line: &[u8], name: &[u8], most: u64) -> Option<u64>
    ensures { result ≡ hex_behind most name.now line.now }
{
    let v = text::hex16(line.strip_prefix(name)?)?;
    (v <= most).then_some(v)
}
