// How many bytes at the front of some bytes pass a test.
#![tactic(auto)]

ghost use Rattle.std.specs.Prelude.{◌≡◌, ℕ, ◌+◌, ◌≤◌, Bool, length, drop};
ghost use Rattle.definitions.specs.Integers.{front};
ghost use Rattle.fronts.specs.Computes.{Computes};

// The bytes at the front of all that are there.
pub fn front<P: Fn(u8) -> bool>(s: &[u8], passes: P) -> usize
    requires { P.IsAlwaysCallable passes }
    ensures passed { (p : ℕ → Bool) → Computes P.Fn passes p → result ≡ front p s.now }
    ensures within { result ≤ length s.now }
{
    s.iter().position(|b| !passes(*b)).unwrap_or(s.len())
}

// The place where the bytes that pass from a place on end.
pub fn end<P: Fn(u8) -> bool>(s: &[u8], at: usize, passes: P) -> usize
    requires { P.IsAlwaysCallable passes }
    ensures { (p : ℕ → Bool) → Computes P.Fn passes p → result ≡ at + front p (drop at s.now) }
{
    // Kept: a loop, since few bytes pass as a rule: a scan of integers takes 15.5 instructions a byte so, and 16.3 by `position`.
    for i in at..s.len() {
        if !passes(s[i]) {
            return i;
        }
    }
    at.max(s.len())
}
