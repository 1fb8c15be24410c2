// Where the probes of a key go.
ghost use Rattle.std.specs.Prelude.{◌≡◌, ◌<◌, ◌≤◌, ◌^◌, ◌/◌};
ghost use Rattle.hashed_layout.specs.Probing.{home_of, mixed, part_of, probed};

/// A table has fewer cells than this.
pub(crate) const MOST_CELLS: usize = 1 << 24;

/// 64 bits, mixed: each bit of the number moves about half of the upper ones.
#[inline(always)]
pub(crate) fn mixed(n: u64) -> u64
    ensures { result ≡ mixed n }
{
    let once = (n ^ (n >> 32)).wrapping_mul(0x9e37_79b9_7f4a_7c15);
    (once ^ (once >> 32)).wrapping_mul(0xd6e8_feb8_6659_fd93)
}

/// The cell at the part of a table that the upper half of 64 mixed bits is of all such halves.
#[inline(always)]
pub(crate) fn home_at(size: usize, bits: u64) -> usize
    requires size { size < 2 ^ 24 }
    ensures value { result ≡ part_of size (bits / 2 ^ 32) }
    ensures within { 0 < size → result < size }
{
    (((bits >> 32) * size as u64) >> 32) as usize
}

/// The cell where the probes of a key begin.
#[inline(always)]
pub(crate) fn home_of(size: usize, key: u64) -> usize
    requires size { size < 2 ^ 24 }
    ensures value { result ≡ home_of size key }
    ensures within { 0 < size → result < size }
{
    home_at(size, mixed(key))
}

/// The cell of a probe.
#[inline(always)]
pub(crate) fn probed(size: usize, home: usize, probe: usize) -> usize
    requires size { size < 2 ^ 24 }
    requires home { home < size }
    requires probe { probe < size }
    ensures value { result ≡ probed size home probe }
    ensures within { result < size }
{
    let at = home + probe;
    if at < size { at } else { at - size }
}
