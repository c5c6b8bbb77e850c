// The test of every entry of a table. The loop goes on past an entry that fails, so that it can run as vector code.
ghost use Rattle.std.specs.Prelude.{◌≡◌, Bool, ltb};
ghost use Rattle.std.specs.Fn.{FnReturnsAt};
ghost use Rattle.alf_spec.specs.Lists.{every};

// Whether each entry passes a test.
pub fn every<T, F: Fn(&T) -> bool>(list: &[T], test: F) -> bool
    requires { F.IsAlwaysCallable test }
    ensures { (p : T → Bool) → ((x : T) (r : Bool) → FnReturnsAt F.Fn test x r → r ≡ p x) → result ≡ every p list.now }
{
    let mut good = true;
    for entry in list {
        good = good & test(entry);
    }
    good
}

// Whether each number is below the limit.
pub fn bytes_below(list: &[u8], limit: u32) -> bool
    ensures { result ≡ every (λ n. ltb n limit) list.now }
{
    every(list, |n| (*n as u32) < limit)
}
