// How many variables there are, or how many come after one of them: at most four.
ghost use Rattle.std.specs.Prelude.{◌≡◌, ◌+◌, ◌^◌, ◌<◌, ◌≤◌, MatchOption};

#[derive(Clone, Copy, PartialEq, Eq, Debug)]
pub struct Variables {
    count: u32,
    pub ghost few: { count ≤ 4 },
}

impl Variables {
    // None for more than four.
    pub fn new(count: u32) -> Option<Variables>
        ensures { MatchOption result (4 < count) (λ variables. variables.count ≡ count) }
    {
        if count > 4 {
            return None;
        }
        Some(Variables { count })
    }

    pub fn count(self) -> u32
        ensures { result ≡ self.count }
    {
        self.count
    }

    // Those that come after one of them; None where there is none of this number.
    pub fn after(self, variable: u32) -> Option<Variables>
        ensures { MatchOption result (self.count ≤ variable) (λ rest. rest.count + variable + 1 ≡ self.count) }
    {
        let count = self.count.checked_sub(variable)?.checked_sub(1)?;
        Some(Variables { count })
    }

    // In a key, the value of the digit before theirs.
    pub fn digit_place(self) -> u64
        ensures value { result ≡ 32 ^ self.count }
        ensures bound { (0 < result) × (result ≤ 2 ^ 20) }
        ensures small { self.count < 4 → result < 2 ^ 20 }
    {
        1 << (5 * self.count)
    }
}
