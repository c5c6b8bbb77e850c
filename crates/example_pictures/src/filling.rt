// A list, filled entry by entry.

// Each entry by its index.
pub(crate) fn fill_by<T: Copy, F: Fn(usize) -> T>(list: &mut [T], entry: F)
    requires { F.IsAlwaysCallable entry }
{
    for (k, place) in list.iter_mut().enumerate() {
        *place = entry(k);
    }
}
