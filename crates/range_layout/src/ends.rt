// The ends of a range, and the points that lie in it.
ghost use Rattle.std.specs.Prelude.{◌≡◌, ◌^◌, ◌<◌, MatchOption};
ghost use Rattle.range_layout.specs.Points.{FitsEnd, low_point, past_point, point_of};

/// One end of a range.
#[derive(Clone, Copy, Debug, PartialEq, Eq)]
pub enum End {
    /// An open one.
    Free,
    /// One that lies in the range.
    At(i128),
}

/// Both ends of a range.
#[derive(Clone, Copy, Debug, PartialEq, Eq)]
pub struct Ends {
    pub low: End,
    pub high: End,
}

/// The point of a number: how far it is above the least one.
#[inline(always)]
pub(crate) fn point_of(number: i128) -> u128
    ensures { result ≡ point_of number }
{
    number.abs_diff(i128::MIN)
}

/// The first point that a start lets in.
pub(crate) fn low_point(low: End) -> u128
    ensures is { result ≡ low_point low }
    ensures fits { FitsEnd low }
{
    match low {
        End::Free => 0,
        End::At(number) => point_of(number),
    }
}

/// The first point that an end leaves out, if any does.
pub(crate) fn past_point(high: End) -> Option<u128>
    ensures is { MatchOption result (past_point high ≡ 2 ^ 128) (λ past. past ≡ past_point high) }
    ensures fits { FitsEnd high }
{
    match high {
        End::Free => None,
        End::At(number) => point_of(number).checked_add(1),
    }
}
