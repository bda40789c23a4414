// Names, compared.
ghost use Rattle.std.specs.Prelude.{◌≡◌};
ghost use Rattle.definitions.specs.Basics as basic;

// Names of unlike length, or with unlike last bytes, are told apart before the rest is looked at.
// Kept: byte by byte, since `==` of slices is a call: a message of 900 fields took 1.9 times the instructions to read.
pub fn same(a: &[u8], b: &[u8]) -> bool
    ensures { result ≡ basic.same a.now b.now }
{
    if a.len() != b.len() {
        return false;
    }
    if a.len() == 0 {
        return true;
    }
    let last = a.len() - 1;
    if a[last] != b[last] {
        return false;
    }
    for i in 0..last {
        if a[i] != b[i] {
            return false;
        }
    }
    true
}
