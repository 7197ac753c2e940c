// A choice of one of two values by a test.
#![tactic(auto)]

ghost use Rattle.std.specs.Prelude.{◌≡◌, cond};

// x if the test passed, else y.
pub fn chosen<T: Copy>(test: bool, x: T, y: T) -> T
    ensures { result ≡ cond test x y }
{
    if test { x } else { y }
}
