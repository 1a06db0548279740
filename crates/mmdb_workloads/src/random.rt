//! Numbers that a seed gives.

/// The generator xorshift64*.
#[derive(Clone, Copy)]
pub(crate) struct Random {
    state: u64,
}

impl Random {
    /// Of a seed. Seeds that are alike have generators that are not.
    pub(crate) fn of(seed: u64) -> Random {
        let mixed = seed.wrapping_add(1).wrapping_mul(0x9E37_79B9_7F4A_7C15);
        Random {
            state: (mixed ^ (mixed >> 29)) | 1,
        }
    }

    pub(crate) fn word(&mut self) -> u64 {
        let mut state = self.state;
        state ^= state >> 12;
        state ^= state << 25;
        state ^= state >> 27;
        self.state = state;
        state.wrapping_mul(0x2545_F491_4F6C_DD1D)
    }

    /// 32 bits.
    pub(crate) fn bits(&mut self) -> u32 {
        (self.word() >> 32) as u32
    }

    /// A number below another one, which has at most 32 bits, or 0.
    pub(crate) fn below(&mut self, count: usize) -> usize {
        let share = u64::from(self.bits()).wrapping_mul(count as u64 & 0xffff_ffff) >> 32;
        share as usize
    }

    /// Whether one of so many in 256 has come.
    pub(crate) fn chance(&mut self, of_256: u32) -> bool {
        self.bits() % 256 < of_256
    }

    /// One of some texts.
    pub(crate) fn text_of(&mut self, texts: &[&'static str]) -> &'static str {
        let place = self.below(texts.len());
        match texts.get(place) {
            Some(text) => *text,
            None => "",
        }
    }
}
