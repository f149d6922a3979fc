// A field of a number: some of its bits.
ghost use Rattle.std.specs.Prelude.{◌≡◌, ◌<◌, ◌^◌};
ghost use Rattle.lua51_instruction.specs.Word.{bits};

// The number that stands in `width` bits of w, above its lowest `from` bits.
pub fn field(w: u64, from: u64, width: u64) -> u64
    requires { (from < 64) × (width < 64) }
    ensures { (result ≡ bits from width w) × (result < 2 ^ width) }
{
    (w >> from) % (1 << width)
}
