/// A key whose order tells all keys apart: keys that compare as equal are one.
pub trait MapKey: Ord + Copy {
    ghost use Rattle.std.specs.FinMap.{IsAntisymmetric};

    /// Keys that compare as equal are one.
    ghost exact: { IsAntisymmetric Self.Ord.cmp };
}

impl MapKey for u32 {
    ghost use Rattle.std.specs.FinMap.{nat_cmp-IsAntisymmetric};

    ghost exact = { nat_cmp-IsAntisymmetric };
}
