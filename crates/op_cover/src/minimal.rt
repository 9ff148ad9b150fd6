// Minimal assignments, the primes among the implicants: those of which no fixed input can be dropped, found in the
// table of soundness.
ghost use Rattle.std.specs.Prelude.{◌≡◌, ◌^◌, ◌<◌, length};
ghost use Rattle.theory_cover.specs.Entries.{minimal_at, OnlyMinimal};

// Whether no fixed input of assignment number k can be dropped: with input i free its number is greater by 2 or 1 times
// 3^i.
fn is_minimal(sound: &[u8], n: usize, k: usize) -> bool
    requires { (k < 3 ^ n) × (length sound.now ≡ 3 ^ n) }
    ensures { result ≡ minimal_at sound.now n k }
{
    let mut rest = k;
    let mut power: usize = 1;
    for i in 0..n {
        let digit = rest % 3;
        if digit != 2 {
            if sound[k + (2 - digit) * power] == 1 {
                return false;
            }
        }
        rest /= 3;
        power *= 3;
    }
    true
}

// Clears the bytes of the assignments that are not minimal, in ascending order: a dropped input makes the number
// greater, so that what is read is as it was. Gives the number of those left.
pub fn keep_minimal(n: usize, sound: &mut [u8]) -> usize
    requires { length sound.old ≡ 3 ^ n }
    ensures { OnlyMinimal sound.old sound.new n (3 ^ n) result }
{
    let mut count: usize = 0;
    for k in 0..sound.len() {
        if sound[k] == 1 {
            if is_minimal(sound, n, k) {
                count += 1;
            } else {
                sound[k] = 0;
            }
        }
    }
    count
}
