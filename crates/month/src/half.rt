// Halving.
ghost use Rattle.std.specs.Prelude.{ℕ, ◌-◌, ◌<◌, ◌≤◌, true, false};

// Where a test that holds up to some place of n turns false.
pub(crate) fn halved<F: Fn(usize) -> bool>(n: usize, test: F) -> usize
    requires { (i : ℕ) → i < n → F.pre test i }
    ensures within { result ≤ n }
    ensures before { 0 < result → F.post test (result - 1) true }
    ensures here { result < n → F.post test result false }
{
    let mut low = 0;
    let mut high = n;
    while low < high {
        let middle = low + (high - low) / 2;
        if test(middle) {
            low = middle + 1;
        } else {
            high = middle;
        }
    }
    low
}
