// Numbers that look random, the same for the same seed.

ghost use Rattle.std.specs.Prelude.{◌<◌};

#[derive(Clone, Copy)]
pub struct Draw {
    state: u64,
}

impl Draw {
    pub(crate) fn new(seed: u64) -> Draw {
        let state = seed
            .wrapping_mul(0x9e37_79b9_7f4a_7c15)
            .wrapping_add(0x1234_5678_9abc_def1);
        Draw { state }
    }

    fn next(&mut self) -> u64 {
        let mut x = self.state;
        x = x
            .wrapping_mul(6364136223846793005)
            .wrapping_add(1442695040888963407);
        self.state = x;
        (x ^ (x >> 29)) >> 24
    }

    // A number below n; 0 where n is 0.
    pub(crate) fn below(&mut self, n: usize) -> usize
        ensures { 0 < n → result < n }
    {
        let x = self.next() as usize;
        if n == 0 { 0 } else { x % n }
    }
}
