// Runs of a lent list, from an index on: its elements become one value, or those of another list.
#![tactic(auto)]

ghost use Rattle.std.specs.Prelude.{◌≡◌, ◌++◌, ◌+◌, ◌≤◌, length, replicate, take, drop};

pub fn clear<T: Copy>(list: &mut [T], at: usize, n: usize, zero: T)
    requires { at + n ≤ length list.old }
    ensures { list.new ≡ take at list.old ++ (replicate n zero ++ drop (at + n) list.old) }
{
    // The library's `fill` asks that a clone of the value can't fail, which `Copy` doesn't say.
    for element in &mut list[at..at + n] {
        *element = zero;
    }
}

// The first n elements of `from`.
pub fn copy<T: Copy>(list: &mut [T], at: usize, from: &[T], n: usize)
    requires n_in_bounds { at + n ≤ length list.old }
    requires n_in_bounds_2 { n ≤ length from.now }
    ensures { list.new ≡ take at list.old ++ (take n from.now ++ drop (at + n) list.old) }
{
    // By index: of the library's copy a call of memmove is made, and the archive for C needs memcpy and memset alone.
    for i in 0..n {
        list[at + i] = from[i];
    }
}
