// The ranges of level and pan, of a float and of its bits: a NaN's bits have no float that may be made of them.
ghost use Rattle.std.specs.Prelude.{◌≡◌};
ghost use Rattle.std.specs.Float.{binary32};
ghost use Rattle.std.specs.Float.Ieee.{of_bits};
ghost use Rattle.mix.specs.Range.{level_in_range, pan_in_range};

// Two comparisons, as of `pan_in_range`: a range's `contains` reads no plainer, and its proof does not come by itself.
pub fn level_in_range(level: f32) -> bool
    ensures { result ≡ level_in_range level }
{
    0.0 <= level && level <= 4.0
}

pub fn pan_in_range(pan: f32) -> bool
    ensures { result ≡ pan_in_range pan }
{
    -1.0 <= pan && pan <= 1.0
}

// From +0 to 4, and -0.
pub fn level_bits_in_range(bits: u32) -> bool
    ensures { result ≡ level_in_range (of_bits binary32 bits) }
{
    bits <= 0x40800000 || bits == 0x80000000
}

// From 0 to 1, with either sign.
pub fn pan_bits_in_range(bits: u32) -> bool
    ensures { result ≡ pan_in_range (of_bits binary32 bits) }
{
    bits % 0x80000000 <= 0x3f800000
}
