// Version sets: a set of versions is a mask, bit k for version k (document 01, "Labels").
//
// The laws of masks are stated once for any width, in `proofs/Laws.antt`; the functions here are those laws at the width of a set.
#![tactic(auto)]

ghost use Rattle.std.specs.Prelude.{◌≡◌, ◌<◌, ◌^◌};
ghost use Rattle.std.specs.Int.Count.{count_trailing_zeros};
ghost use Rattle.sets.specs.Sets.{width, low_half, high_half, of_halves, has, several};

// A version set.
pub type Set = u32;

// Half of one: versions 0 to 15, or 16 to 31.
pub type Half = u16;

// How many versions an array may have, and so the bits of a set.
pub const WIDTH: usize = 32;

// Every version of a half.
pub const EVERY_HALF: Half = 0xffff;

// How many values a half may have.
const HALVES: Set = 0x1_0000;

// Versions 0 to 15 of a set.
pub fn low_half(set: Set) -> Half
    ensures { result ≡ low_half set }
{
    (set % HALVES) as Half
}

// Versions 16 to 31.
pub fn high_half(set: Set) -> Half
    ensures { result ≡ high_half set }
{
    (set / HALVES) as Half
}

// The set that has these halves.
pub fn of_halves(low: Half, high: Half) -> Set
    ensures { result ≡ of_halves low high }
{
    low as Set + HALVES * high as Set
}

// Whether version k is in the set.
pub fn member(set: Set, k: u8) -> bool
    requires { k < width }
    ensures { result ≡ has set k }
{
    (set >> k) & 1 == 1
}

// The set of version k alone.
pub fn single(k: u8) -> Set
    requires { k < width }
    ensures { result ≡ 2 ^ k }
{
    1 << k
}

// Whether two different versions are in the set.
pub fn more_than_one(set: Set) -> bool
    ensures { result ≡ several set }
{
    u32::count_ones(set) > 1
}

// The lowest version of the set.
pub fn lowest(set: Set) -> u8
    requires { 0 < set }
    ensures { result ≡ count_trailing_zeros width set }
{
    u32::trailing_zeros(set) as u8
}
