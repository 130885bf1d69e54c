// Orders that a table is kept and read by.
ghost use Rattle.std.specs.Prelude.{◌≡◌, Bool, true, false};

// A type whose values stand one before the other, or are tied.
pub trait Ordered: Copy {
    ghost before: { Self → Self → Bool };

    // Whether it stands before the other.
    fn is_before(self, other: Self) -> bool
        ensures { result ≡ before self other };

    ghost opposite: { (x y : Self) → before x y ≡ true → before y x ≡ false };

    ghost further: { (x y z : Self) → before x y ≡ true → before z y ≡ false → before x z ≡ true };
}
