ghost use Rattle.std.specs.Prelude.{◌≡◌};

/// How many pieces of an input the program reads at most, the empty one at the end counted.
pub fn turns() -> u64
    ensures { result ≡ 4294967296 }
{
    4_294_967_296
}
