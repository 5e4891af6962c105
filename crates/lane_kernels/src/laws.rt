//! Laws over the formulas alone. Each is the contract of a function that does nothing.
ghost use Rattle.std.specs.Prelude.{◌≡◌, ◌<◌, ◌≤◌, ◌+◌, ◌-◌, ◌*◌, ◌/◌, ℕ, ℤ, pos, ◌+ℤ◌};
ghost use Rattle.lane_kernels.specs.Formulas.{IsFloor, cb, cr, floor, gain, nearest, scale};

/// A floor in words of a product, and no other number is it.
pub fn floor_in_words()
    ensures is { (z : ℤ) (d : ℕ) → 0 < d → IsFloor z d (floor z d) }
    ensures only { (z : ℤ) (d : ℕ) (v : ℤ) → 0 < d → IsFloor z d v → v ≡ floor z d }
{}

/// Raised by k divisors, a numerator is the natural m: so floors and nearest numbers are divisions
/// of naturals.
pub fn raised()
    ensures floor { (z : ℤ) (d k m : ℕ) → 0 < d → z +ℤ pos (k * d) ≡ pos m
        → floor z d +ℤ pos k ≡ pos (m / d) }
    ensures nearest { (z : ℤ) (d k m : ℕ) → 0 < d → z +ℤ pos (k * d) ≡ pos m
        → nearest z d +ℤ pos k ≡ pos ((m + d / 2) / d) }
{}

/// Cb, Cr and gain, raised so that nothing lies below 0.
pub fn formulas_raised()
    ensures cb { (n r g b : ℕ) → 8 ≤ n → r < 256 * scale n → g < 256 * scale n
        → cb n r g b +ℤ pos (3 * scale n)
        ≡ pos ((b * 519568 + (507970 + 133088271 * scale n)
        - (r * 119056 + g * 400512)) / 1015941) }
    ensures cr { (n r g b : ℕ) → 8 ≤ n → g < 256 * scale n → b < 256 * scale n
        → cr n r g b +ℤ pos (3 * scale n)
        ≡ pos ((r * 440944 + (431101 + 112948593 * scale n)
        - (g * 400512 + b * 40432)) / 862203) }
    ensures gain { (z g v : ℕ) → g ≤ 16384
        → gain z g v +ℤ pos (3 * z) ≡ pos ((v * g + (z * (16384 - g) + 2048)) / 4096) }
{}
