// A linear congruential generator.
ghost use Rattle.std.specs.Prelude.{◌≡◌, ◌≤◌, ◌/◌};
ghost use Rattle.sample_craft.specs.Sample.{turned};

const FACTOR: u64 = 1103515245;

const ADDEND: u64 = 12345;

const MODULUS: u64 = 2147483648;

#[derive(Drop)]
pub(crate) struct Generator {
    pub(crate) state: u32,
}

impl Generator {
    // Turns once, and gives the state without its lower 16 bits.
    #[tactic(auto, unfolding(crate::specs::Sample::turned))]
    pub(crate) fn draw(&mut self) -> u32
        ensures turn { self.new.state ≡ turned self.old.state }
        ensures value { result ≡ self.new.state / 65536 }
        ensures range { result ≤ 32767 }
    {
        self.state = ((FACTOR * u64::from(self.state) + ADDEND) % MODULUS) as u32;
        self.state / 65536
    }
}
