// A value algebra: a false value, NOT and AND, with the laws of a Boolean algebra.
ghost use Rattle.std.specs.Prelude.{◌≡◌};
ghost use Rattle.values.specs.Algebra.{BooleanAlgebra};

pub trait Value: Sized + Copy {
    ghost algebra: { BooleanAlgebra Self };

    fn bottom() -> Self
        ensures { result ≡ algebra.bottom };

    fn not(self) -> Self
        ensures { result ≡ algebra.not self };

    fn and(self, other: Self) -> Self
        ensures { result ≡ algebra.and self other };
}
