// Adler-32 sums.
ghost use Rattle.std.specs.Prelude.{◌≡◌, ◌+◌, ◌*◌, ◌%◌, ◌<◌, ℕ, List, ◌∷◌};
ghost use Rattle.replay.specs.Adler.{adler, sum_on, two_bytes};

// The prime that both halves of a sum are taken modulo.
const PRIME: u32 = 65521;

// A sum of two halves modulo the prime: a subtraction takes half the time of a division.
fn reduced(sum: u32) -> u32
    requires { sum < 131042 }
    ensures value { result ≡ sum % 65521 }
    ensures upper_bound { result < 65521 }
{
    if sum < PRIME { sum } else { sum - PRIME }
}

// The halves of the sum of the bytes so far: one more than their sum, and the sum of what that was after each.
#[derive(Clone, Copy)]
struct Halves {
    first: u32,
    second: u32,
    ghost reduced: { (first < 65521) × (second < 65521) },
}

impl Halves {
    // The halves of no bytes.
    fn new() -> Halves
        ensures first { result.first ≡ 1 }
        ensures second { result.second ≡ 0 }
    {
        Halves {
            first: 1,
            second: 0,
        }
    }

    // The halves with a byte more.
    #[tactic(auto, unfolding(crate::specs::Adler::sum_on))]
    fn with(self, byte: u8) -> Halves
        ensures { (rest : List ℕ) → sum_on (byte ∷ rest) self.first self.second ≡ sum_on rest result.first result.second }
    {
        let first = reduced(self.first + u32::from(byte));
        let second = reduced(self.second + first);
        Halves { first, second }
    }

    // The sum.
    fn sum(self) -> u32
        ensures { result ≡ self.second * 65536 + self.first }
    {
        self.second * 65536 + self.first
    }
}

// The sum of bytes.
#[tactic(auto, unfolding(crate::specs::Adler::sum_on))]
pub fn adler(bytes: &[u8]) -> u32
    ensures { result ≡ adler bytes.now }
{
    let mut halves = Halves::new();
    for byte in bytes {
        halves = halves.with(*byte);
    }
    halves.sum()
}

// The sum of numbers, each as two bytes, high first.
#[tactic(auto, unfolding(crate::specs::Adler::sum_on, crate::specs::Adler::two_bytes))]
pub fn adler_numbers(numbers: &[u16]) -> u32
    ensures { result ≡ adler (two_bytes numbers.now) }
{
    let mut halves = Halves::new();
    for number in numbers {
        let [high, low] = number.to_be_bytes();
        halves = halves.with(high).with(low);
    }
    halves.sum()
}
