// How a slice that is no sound pool is refused: push, the use count and build begin with this.
// The test itself is of `records`.
ghost use Rattle.std.specs.Prelude.{◌≡◌, ◌↔◌, Ok};
ghost use Rattle.records.specs.Sound.{Sound};
ghost use Rattle.records.specs.SoundTest.{check_sound};

use keymap::Refusal;
use records::soundness::is_sound;
use records::words::RECORD_WORDS;

// Refuses a slice that is no sound pool: what each call answers that asks for one.
pub fn check_sound(pool: &[u32]) -> Result<(), Refusal>
    ensures answer { result ≡ check_sound pool.now }
    ensures meaning { (result ≡ Ok tt) ↔ Sound pool.now }
{
    if pool.len() < RECORD_WORDS {
        return Err(Refusal::PoolTooSmall);
    }
    if !is_sound(pool) {
        return Err(Refusal::NotAPool);
    }
    Ok(())
}
