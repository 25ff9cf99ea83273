//! Pseudo-random numbers by a linear congruential generator.

ghost use Rattle.std.specs.Prelude.{◌≡◌, ◌*◌, ◌+◌, ◌-◌, ◌%◌, ◌<◌, ◌≤◌, pos};
ghost use Rattle.rv_decode.specs.Ranges.{IsSigned};
ghost use Rattle.rv_gen.specs.Draws.{draw as draw_of};
ghost use Rattle.rv_gen.specs.Programs.{pool as pool_of, small as small_of, offset as offset_of};

/// The first register of the pool.
pub const POOL_START: u8 = 18;

/// The registers of the pool, x18 to x27.
pub const POOL_REGISTERS: u8 = 10;

/// The state of the generator.
#[derive(Debug, Drop)]
pub struct Generator {
    pub state: u32,
}

impl Generator {
    /// A number below a bound.
    #[tactic(auto, unfolding(crate::specs::Draws::draw))]
    pub fn draw(&mut self, bound: u32) -> u32
        requires { 0 < bound }
        ensures drawn { (result, self.new.state) ≡ draw_of bound self.old.state }
        ensures below { result < bound }
    {
        self.state = self
            .state
            .wrapping_mul(1_664_525)
            .wrapping_add(1_013_904_223);
        (self.state >> 16) % bound
    }

    /// A register of the pool.
    #[tactic(auto, using(crate::proofs::Binds::binding), unfolding(crate::specs::Programs::pool))]
    pub fn pool(&mut self) -> u8
        ensures drawn { (result, self.new.state) ≡ pool_of self.old.state }
        ensures range { result < 32 }
    {
        POOL_START + self.draw(POOL_REGISTERS as u32) as u8
    }

    /// A signed number of 12 bits.
    #[tactic(auto, using(crate::proofs::Binds::binding), unfolding(crate::specs::Programs::small))]
    pub fn small(&mut self) -> i32
        ensures drawn { (result, self.new.state) ≡ small_of self.old.state }
        ensures range { IsSigned 12 result }
    {
        self.draw(4096) as i32 - 2048
    }

    /// A multiple of a width below 2048.
    #[tactic(auto, using(crate::proofs::Binds::binding), unfolding(crate::specs::Programs::offset))]
    pub fn offset(&mut self, width: u32) -> i32
        requires { 0 < width }
        ensures drawn { (result, self.new.state) ≡ offset_of width self.old.state }
        ensures range { IsSigned 12 result }
    {
        let offset = self.draw(2048);
        (offset - offset % width) as i32
    }
}
